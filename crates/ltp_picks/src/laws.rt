//! What a drain with picks promises.

ghost use Rattle.ltp_picks.specs.CopyCosts.{CopiesCostTheirSessions};
ghost use Rattle.ltp_picks.specs.PickedRuns.{CrossingEventsAreFew, CrossingRunsComplete};
ghost use Rattle.ltp_picks.specs.PickedRuns.{CopiedRunsComplete, CopiesCostThree, CrossingRunsEnd};

/// From a hopeful world with room no drain whose picks take new segments alone has more events
/// than its sessions cost.
pub fn crossing_events_are_few()
    ensures { CrossingEventsAreFew }
{}

/// There every session that was open at its sender is noted as sent, and its red part was handed up
/// before or in the drain. No sender is kept any more, no receiver is cancelling, and no timer runs.
pub fn crossing_runs_complete()
    ensures { CrossingRunsComplete }
{}

/// From such a world there is such a drain, whatever the picks.
pub fn crossing_runs_end()
    ensures { CrossingRunsEnd }
{}

/// An old segment that comes once more costs no more than three events, its own delivery counted. So
/// a drain whose picks take old segments too, at most 100,000, has no more events than its sessions
/// cost and three for each, where no session is closed to make room and none is turned away for
/// want of it.
pub fn copies_cost_three()
    ensures { CopiesCostThree }
{}

/// So each costs no more than the segments of its session's block, where its sender was kept, and 8.
pub fn copies_cost_their_sessions()
    ensures { CopiesCostTheirSessions }
{}

/// There too every session that was open at its sender is noted as sent, and its red part was handed
/// up before or in the drain. No sender is kept any more, no receiver is cancelling, and no timer
/// runs.
pub fn copied_runs_complete()
    ensures { CopiedRunsComplete }
{}
