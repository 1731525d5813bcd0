//! What holds of the records of each step, and of those of each half. Each law is the contract of a
//! function that does nothing.

ghost use Rattle.peer_records.specs.Laws.{StepMayFollow, HeldOnce, HalfIsKept, HalfMayFollow, PiecesArePending, ReportsHaveNoId, ToAddIsFree, ToAddStays, AddedAgainOnce, LeavesByItsEnd, EachIsDone, ReportIsMarked, OnlyOverIsCleared, NumbersAreReserved, RecoversWhatIsLegal, TwoPiecesEnd};

/// The records of a step may follow what the journal says: each id is begun once, ids rise, and each is
/// done at most once.
pub fn step_may_follow()
    ensures { StepMayFollow }
{}

/// A piece with an id waits at one face, or is in one session, or neither; while it does, it is pending.
pub fn held_once()
    ensures { HeldOnce }
{}

/// The records of a half, applied to what the journal said before it, give what is kept after it.
pub fn half_is_kept()
    ensures { HalfIsKept }
{}

/// The records of a half may follow what the journal says, so they may be committed.
pub fn half_may_follow()
    ensures { HalfMayFollow }
{}

/// Each piece that was added is pending after the step, and waits or is in a session.
pub fn pieces_are_pending()
    ensures { PiecesArePending }
{}

/// A report has no record, and takes no id.
pub fn reports_have_no_id()
    ensures { ReportsHaveNoId }
{}

/// The first piece of an earlier run that is still to be added at a face is pending, and isn't held.
pub fn to_add_is_free()
    ensures { ToAddIsFree }
{}

/// A piece of an earlier run is added once, under its id.
pub fn added_again_once()
    ensures { AddedAgainOnce }
{}

/// A piece that was pending and isn't any longer has ended.
pub fn leaves_by_its_end()
    ensures { LeavesByItsEnd }
{}

/// Each piece of a block has its end, where its session's is told.
pub fn each_is_done()
    ensures { EachIsDone }
{}

/// A session about which a report goes out before it is handed up is marked from then on.
pub fn report_is_marked()
    ensures { ReportIsMarked }
{}

/// Only a session that was handed up, or that its sender cancelled, is cleared.
pub fn only_over_is_cleared()
    ensures { OnlyOverIsCleared }
{}

/// After a half no number that an engine has given is above what is reserved.
pub fn numbers_are_reserved()
    ensures { NumbersAreReserved }
{}

/// What is recovered from a legal journal is legal, and its file may be made anew.
pub fn recovers_what_is_legal()
    ensures { RecoversWhatIsLegal }
{}

/// Two pieces that gather are begun one after the other, go in one block, and end one after the other.
pub fn two_pieces_end()
    ensures { TwoPiecesEnd }
{}

/// What is still to be added is so after each step, but for the piece that it added.
pub fn to_add_stays()
    ensures { ToAddStays }
{}
