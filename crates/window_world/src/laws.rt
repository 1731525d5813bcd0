//! What the words of a link with windows mean. Each law is the contract of a function that does nothing.

ghost use Rattle.window_world.specs.Made.{DrainsAreMade, DrainsAreOne};
ghost use Rattle.window_world.specs.Quiet.{GapsStandStill};

/// While a link is closed contact time stands still, for however long.
pub fn gaps_stand_still()
    ensures { GapsStandStill }
{}

/// From every link that a run leads to, hopeful or not, clean events lead to where no other can follow,
/// or where a clock would be set to any contact time that one likes, or to a later one.
/// `drain_events` computes them: its counts are enough.
pub fn drains_are_made()
    ensures { DrainsAreMade }
{}

/// Whoever makes clean events until then makes these.
pub fn drains_are_one()
    ensures { DrainsAreOne }
{}
