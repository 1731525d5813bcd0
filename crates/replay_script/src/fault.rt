//! Why a line of a script is refused.

ghost use Rattle.std.specs.Prelude.{◌≡◌};
ghost use Rattle.replay_script.specs.Fault.{word_of};

use std::alloc::AllocError;
use thiserror::Error;

/// Why a line of a script says no event, in the order in which it is tested.
#[derive(Clone, Copy, Debug, PartialEq, Eq, Error)]
pub enum LineFault {
    /// The first word is unknown, or there are too few words or too many, or a side is neither
    /// `old` nor `new`.
    #[error("Word")]
    Word,
    /// The gate's name is no endpoint's text, or that of the null endpoint.
    #[error("Name")]
    Name,
    /// A word is no number, or out of its range.
    #[error("Number")]
    Number,
    /// A word is no hex, or has an odd number of digits.
    #[error("Hex")]
    Hex,
    /// Memory ran out; this says nothing of the line.
    #[error("Memory")]
    Memory,
}

impl LineFault {
    /// The refusal's name.
    pub fn word(&self) -> &'static str
        ensures { result.now ≡ word_of self.now }
    {
        match self {
            LineFault::Word => "Word",
            LineFault::Name => "Name",
            LineFault::Number => "Number",
            LineFault::Hex => "Hex",
            LineFault::Memory => "Memory",
        }
    }
}

impl From<AllocError> for LineFault {
    ghost use Rattle.std.specs.Prelude.{◌≡◌};
    ghost use Rattle.replay_script.specs.declared.fault.LineFault.{LineFault};
    ghost use Rattle.replay_script.specs.declared.fault.LineFault.TheVariants as faults;

    ghost from_gives = { λ _ fault. fault ≡ faults.Memory };

    fn from(_: AllocError) -> LineFault {
        LineFault::Memory
    }
}
