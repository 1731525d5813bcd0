//! What a drain keeps, and when it is over.

ghost use Rattle.std.specs.Prelude.{◌≡◌, ℕ, ◌++◌, ◌∷◌, [], List, None, Some, length};
ghost use Rattle.ltp_session.specs.Engine.{Party};
ghost use Rattle.ltp_session.specs.World.{Event, World, run};
ghost use Rattle.ltp_drain.specs.Clean.{AreClean, AreCleanFrom, IsDrained, clean_event, passed};
ghost use Rattle.ltp_drain.specs.Completion.{CleanEventsAreFew, CleanRunsEnd};
ghost use Rattle.ltp_drain.specs.Completion.{CleanRunsComplete};
ghost use Rattle.ltp_drain.specs.Left.{DrainsWearOut};
ghost use Rattle.ltp_drain.specs.Ranks.{SessionsHaveRanks};

/// One clean event more, where the events before it are clean.
pub fn clean_events_go_on()
    ensures { (parties : Party × Party) (w : World) (c : ℕ) (events : List Event) (event : Event)
        → AreClean parties w c events
        → clean_event (run parties w events) (passed c events) ≡ Some event
        → AreClean parties w c (events ++ event ∷ []) }
{}

/// Where no clean event can follow, nothing is left to do: every segment that was sent since the
/// drain began is delivered, and no timer runs.
pub fn nothing_is_left_where_none_follows()
    ensures { (parties : Party × Party) (w : World) (events : List Event)
        → AreCleanFrom parties w events
        → clean_event (run parties w events) (passed (length w.sent) events) ≡ None
        → IsDrained (run parties w events) (passed (length w.sent) events) }
{}

/// From a hopeful world with room no list of clean events is longer than the sessions cost: 16
/// events for each that is kept at either end, and one for each segment of a block whose sender is
/// kept.
pub fn clean_events_are_few()
    ensures { CleanEventsAreFew }
{}

/// From such a world clean events lead to one in which nothing is left to do.
pub fn clean_runs_end()
    ensures { CleanRunsEnd }
{}

/// There every session that was open at its sender was noted as sent, and its red part was handed up
/// before or in the run. No sender is kept any more, no receiver is cancelling, and no timer runs.
pub fn clean_runs_complete()
    ensures { CleanRunsComplete }
{}

/// Every drain ends, hopeful or not: in each world that a run leads to a clean delivery leaves less to
/// deliver than there was, and a clean clock is set to a later moment.
pub fn drains_wear_out()
    ensures { DrainsWearOut }
{}

/// Each session has a rank after any steps of a drain from such a world, whatever follows them. It is
/// no more than the session's cost; a delivery of what an end sent first lowers the rank of its
/// session, and a clock that of each session of which a timer fires; no rank rises, whatever the ends
/// submit besides; and a session of rank 0 is at rest.
pub fn sessions_have_ranks()
    ensures { SessionsHaveRanks }
{}
