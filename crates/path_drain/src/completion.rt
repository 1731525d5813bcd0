//! What a drain of a path keeps, and when it is over.

ghost use Rattle.std.specs.Prelude.{◌≡◌, ℕ, ◌++◌, ◌∷◌, [], List, None, Some, length};
ghost use Rattle.path_laws.specs.Path.{PathSetup, Path, PathEvent, path_run};
ghost use Rattle.path_drain.specs.Clean.{AreCleanOnPath, AreCleanOnPathFrom, IsPathDrained};
ghost use Rattle.path_drain.specs.Clean.{path_clean_event, path_passed};
ghost use Rattle.path_drain.specs.Completion.{PathEventsAreFew, PathRunsComplete};
ghost use Rattle.path_drain.specs.Completion.{PathRunsEnd};
ghost use Rattle.path_drain.specs.Hopeful.{PathsAreFit};

/// One clean event more, where the events before it are clean.
pub fn clean_events_go_on()
    ensures { (s : PathSetup) (w : Path) (c : ℕ) (events : List PathEvent) (event : PathEvent)
        → AreCleanOnPath s w c events
        → path_clean_event (path_run s w events) (path_passed c events) ≡ Some event
        → AreCleanOnPath s w c (events ++ event ∷ []) }
{}

/// Where no clean event can follow, nothing is left to do: every segment that was sent since the
/// drain began is delivered, and no timer runs.
pub fn nothing_is_left_where_none_follows()
    ensures { (s : PathSetup) (w : Path) (events : List PathEvent)
        → AreCleanOnPathFrom s w events
        → path_clean_event (path_run s w events) (path_passed (length w.sent) events) ≡ None
        → IsPathDrained (path_run s w events) (path_passed (length w.sent) events) }
{}

/// On each link of a path the engines name each other and are alike, whatever policy they were given:
/// so the laws below ask only that a path that was set up is hopeful, and has room.
pub fn paths_are_fit()
    ensures { PathsAreFit }
{}

/// From a hopeful path with room no list of clean events is longer than the sessions cost: 16 events
/// for each that is kept at either end of its link or that is begun meanwhile, and one for each
/// segment of its block.
pub fn path_events_are_few()
    ensures { PathEventsAreFew }
{}

/// From such a path clean events lead to one on which nothing is left to do.
pub fn path_runs_end()
    ensures { PathRunsEnd }
{}

/// Where nothing is left to do, after no more events than the sessions cost, every session that was
/// open at its sender, or that was begun meanwhile, was noted as sent, and its block was handed up at
/// the other end of its link. Each block that came to the gate has its case noted; no session was
/// closed to make room; no sender is kept any more, no receiver is cancelling, and no timer runs.
pub fn path_runs_complete()
    ensures { PathRunsComplete }
{}
