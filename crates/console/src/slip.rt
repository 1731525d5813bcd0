//! Which word of `serve` is wrong.
ghost use Rattle.std.specs.Prelude.{◌≡◌};
ghost use Rattle.console.specs.Slip.{slip_of, wanted_of, name_of};

use replay_script::{is_gate, number_in};

/// A word of `serve` that is wrong.
#[derive(Clone, Copy, Debug, PartialEq, Eq, Drop)]
pub enum Slip {
    /// GATE is no endpoint, or the null one.
    Gate,
    /// TURNS is no number of the range.
    Turns,
}

/// The most turns.
const MOST_TURNS: u64 = 1_000_000_000;

/// The first of GATE and TURNS that is wrong, where one is.
pub fn slip_in(gate: &[u8], turns: &[u8]) -> Option<Slip>
    ensures { result ≡ slip_of gate.now turns.now }
{
    if !is_gate(gate) {
        Some(Slip::Gate)
    } else if number_in(1, MOST_TURNS, turns).is_none() {
        Some(Slip::Turns)
    } else {
        None
    }
}

impl Slip {
    /// The word's name.
    pub fn name(&self) -> &'static str
        ensures { result.now ≡ name_of self.now }
    {
        match self {
            Slip::Gate => "GATE",
            Slip::Turns => "TURNS",
        }
    }

    /// What is wanted in its place.
    pub fn wanted(&self) -> &'static str
        ensures { result.now ≡ wanted_of self.now }
    {
        match self {
            Slip::Gate => "an endpoint other than dtn:none, such as ipn:9.0, is wanted",
            Slip::Turns => "a number of turns is wanted, 1 to 1000000000",
        }
    }
}
