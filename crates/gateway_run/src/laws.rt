//! A law about what all commands answer, the contract of a function that does nothing.

ghost use Rattle.edge_traits.specs.Settled.{EarliestDecides};
ghost use Rattle.command_frame.specs.Within.{within};
ghost use Rattle.receive_run.specs.Receive.{Limits, settles};
ghost use Rattle.gateway_run.specs.Commands.{rules_of};
ghost use Rattle.gateway_run.specs.Runs.{DecidesEarliest};
ghost use Rattle.gateway_run.specs.declared.commands.command.Command.{Command};
ghost use Rattle.std.specs.Prelude.{ℕ};

/// The earliest place decides: what octets settle while the input goes on is a front of what they
/// settle with any octets after them, and once they settle how the run ends, nothing changes it.
/// `receive` keeps this of any numbers, and commands on bundles of octets.
pub fn earliest_place_decides()
    ensures receive { (limits : Limits) (most : ℕ) → EarliestDecides (within most (settles limits)) }
    ensures commands { (command : Command) → DecidesEarliest (rules_of command) }
{}
