//! What ends every drain of a path.

ghost use Rattle.path_drain.specs.Drained.{CleanRunsAreOne, DrainsAreMade, DrainsAreOne};
ghost use Rattle.path_drain.specs.Drained.{PathsAreTimed};
ghost use Rattle.path_drain.specs.Left.{PathDrainsWearOut};
ghost use Rattle.path_drain.specs.Moments.{PathDeadlinesAreAhead, QuietClocksGoOn};

/// Each deadline of a path that a run leads to is after its clock.
pub fn path_deadlines_are_ahead()
    ensures { PathDeadlinesAreAhead }
{}

/// A clock that is set to a moment before every deadline does nothing but show it, on any path.
pub fn quiet_clocks_go_on()
    ensures { QuietClocksGoOn }
{}

/// In each path that a run leads to, hopeful or not, a clean delivery leaves less than there was, and a
/// clean clock is set to a later moment.
pub fn path_drains_wear_out()
    ensures { PathDrainsWearOut }
{}

/// So from each such path clean events lead to where no other can follow, or where the clock would be
/// set to any moment that one likes, or to a later one. `drain_events` computes them: its counts are
/// enough.
pub fn drains_are_made()
    ensures { DrainsAreMade }
{}

/// Whoever makes clean events until it is over makes these.
pub fn drains_are_one()
    // Until none can follow, or the clock would be set to that moment or a later one.
    ensures over { DrainsAreOne }

    // Until nothing is left to do.
    ensures drained { CleanRunsAreOne }
{}

/// These laws hold of each path that can be set up, whatever policy its engines were given: they name
/// each other, wait for answers, and take no block longer than `BLOCK_MAX`.
pub fn paths_are_timed()
    ensures { PathsAreTimed }
{}
