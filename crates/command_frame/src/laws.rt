//! Laws about fronts, each the contract of a function that does nothing.
ghost use Rattle.std.specs.Prelude.{ℕ};
ghost use Rattle.edge_traits.specs.Settled.{EarliestDecides};
ghost use Rattle.command_frame.specs.Task.{Settling};
ghost use Rattle.command_frame.specs.Within.{within};
ghost use Rattle.command_frame.specs.Lines.{by_lines};

use crate::line_step::LineStep;

/// The earliest place decides of a command that looks at no more than so many octets, where it
/// decides of the command without that limit.
pub fn earliest_place_decides_within()
    ensures { (most : ℕ) (settles : Settling) → EarliestDecides settles → EarliestDecides (within most settles) }
{}

/// The earliest place decides of every command that answers line by line.
pub fn earliest_place_decides_by_lines<L: LineStep>()
    ensures { (start : L.State) → EarliestDecides (by_lines L.rules start) }
{}
