//! What holds after every run of two engines on a link.

ghost use Rattle.ltp_laws.specs.Blocks.{BlockFacts};
ghost use Rattle.ltp_laws.specs.Kinds.{KindFacts};
ghost use Rattle.ltp_laws.specs.Spelling.{SpellingFacts, HeldFacts};
ghost use Rattle.ltp_laws.specs.HandUps.{HandUpFacts};
ghost use Rattle.ltp_laws.specs.Serials.{SerialFacts};
ghost use Rattle.ltp_laws.specs.Claims.{ClaimFacts};
ghost use Rattle.ltp_laws.specs.Checkpoints.{CheckpointFacts, FirstFacts};
ghost use Rattle.ltp_laws.specs.Acknowledgements.{AckFacts, CloseFacts};
ghost use Rattle.ltp_laws.specs.Cancels.{CancelFacts};
ghost use Rattle.ltp_laws.specs.Reach.{ReachFacts, WholeFacts};
ghost use Rattle.ltp_laws.specs.Completion.{CompletionFacts};
ghost use Rattle.ltp_laws.specs.Facts.{SessionFacts};
ghost use Rattle.ltp_laws.specs.Engines.{ClosedFacts};
ghost use Rattle.ltp_laws.specs.Laws.{EveryRun, SessionsAreApart, RedPartsAreFronts};
ghost use Rattle.ltp_laws.specs.Laws.{HandedUpIsSent, EnginesAreWellFormed};
ghost use Rattle.ltp_laws.specs.Laws.{SegmentsHaveSessions, SegmentsCanBeWritten};
ghost use Rattle.ltp_laws.specs.Laws.{DeadlinesAreAhead};

/// In any world, reached by a run or not, an event leaves each session alone that it isn't about:
/// its view stays as it was, but that a receiver may be closed to make room for another.
pub fn sessions_are_apart()
    ensures { SessionsAreApart }
{}

/// Each red part that a run hands up is the front of the block that was submitted, up to its red
/// length. No session's red part is handed up twice, and no session number is given twice.
pub fn red_parts_are_fronts_once()
    ensures { RedPartsAreFronts }
{}

/// What is handed up is what was sent in its session, octet by octet, up to where the red part
/// ends.
pub fn handed_up_is_sent()
    ensures { HandedUpIsSent }
{}

/// Every session has all facts, of one block and one red length.
pub fn sessions_have_all_facts()
    ensures { EveryRun SessionFacts }
{}

/// A session keeps to the block that was submitted for it.
pub fn sessions_keep_to_their_blocks()
    // What is sent, and what both ends keep, are octets of the block at their places.
    ensures fits { EveryRun BlockFacts }
    // Pieces and what goes with them are sent by the originator, reports and theirs by the other.
    ensures kinds { EveryRun KindFacts }
    // The block is what the sent pieces hold, place by place, and they end its red part.
    ensures spelled { EveryRun SpellingFacts }
    // What a receiver has is what they hold.
    ensures held { EveryRun HeldFacts }
{}

/// A receiver has handed its red part up if and only if it knows the length and all of it came.
pub fn handed_up_where_whole()
    ensures { EveryRun HandUpFacts }
{}

/// What reports say has come.
pub fn reports_say_what_came()
    // One serial names one report.
    ensures serials { EveryRun SerialFacts }
    // What they claim lies within the red part, and has come where the receiver is kept.
    ensures claims { EveryRun ClaimFacts }
    // Later reports claim what earlier ones do, and reach the red length or leave a place out.
    ensures reach { EveryRun ReachFacts }
{}

/// A sender knows what it knows by reports, and asks for them.
pub fn checkpoints_follow_reports()
    // Claimed places were reported, reports name checkpoints, and the current one is the latest.
    ensures asked { EveryRun CheckpointFacts }
    // A checkpoint other than the first was sent after a report.
    ensures first { EveryRun FirstFacts }
{}

/// Acknowledgements of reports name reports.
pub fn acknowledgements_name_reports()
    // The report was sent, and its claims are known to a sender that is still open.
    ensures acks { EveryRun AckFacts }
    // One that would end the receiver's session names a whole report, and the sender isn't open.
    ensures closes { EveryRun CloseFacts }
{}

/// A receiver that sent a cancel never opens again.
pub fn cancelled_sessions_stay_so()
    ensures { EveryRun CancelFacts }
{}

/// What follows once the whole red part is claimed.
pub fn whole_reports_end_sessions()
    // The receiver is closed, or cancelling, or waits for the acknowledgement of a whole report.
    ensures whole { EveryRun WholeFacts }
    // A sender completes its claims only where a whole report was sent and all was handed up.
    ensures ends { EveryRun CompletionFacts }
{}

/// Both engines keep their sessions in the order of their numbers, and no number twice.
pub fn engines_are_well_formed()
    ensures { EnginesAreWellFormed }
{}

/// Nothing is kept of a receiver whose number is closed.
pub fn closed_numbers_are_not_kept()
    ensures { EveryRun ClosedFacts }
{}

/// Every segment that was ever sent is of a session that was begun at one of the ends.
pub fn segments_have_sessions()
    ensures { SegmentsHaveSessions }
{}

/// Every deadline is after the clock.
pub fn deadlines_are_ahead()
    ensures { DeadlinesAreAhead }
{}

/// Every segment that was ever sent can be written: all its numbers fit, and a report's claims lie
/// within its bounds. So its octets are read back as that segment.
pub fn segments_can_be_written()
    ensures { SegmentsCanBeWritten }
{}
