//! Why a block isn't sent.

ghost use Rattle.std.specs.Prelude.{◌≡◌};
ghost use Rattle.ltp_engine.specs.Refused.{submit_word};

use std::alloc::AllocError;
use thiserror::Error;

/// Why a block isn't sent, in the order in which it is tested.
#[derive(Clone, Copy, Debug, PartialEq, Eq, Error)]
pub enum SubmitRefused {
    /// The block has no octet.
    #[error("Empty")]
    Empty,
    /// The block is longer than the greatest one.
    #[error("TooLarge")]
    TooLarge,
    /// The next session's number would be 2^32.
    #[error("NumbersSpent")]
    NumbersSpent,
    /// As many sessions are being sent as the engine keeps, those that are cancelling counted.
    #[error("Busy")]
    Busy,
    /// There is no memory. The engine may then only be dropped.
    #[error("Memory")]
    Memory,
}

impl SubmitRefused {
    /// The refusal's name.
    pub fn word(&self) -> &'static str
        ensures { result.now ≡ submit_word self.now }
    {
        match self {
            SubmitRefused::Empty => "Empty",
            SubmitRefused::TooLarge => "TooLarge",
            SubmitRefused::NumbersSpent => "NumbersSpent",
            SubmitRefused::Busy => "Busy",
            SubmitRefused::Memory => "Memory",
        }
    }
}

impl From<AllocError> for SubmitRefused {
    ghost use Rattle.ltp_engine.specs.declared.refused.SubmitRefused.TheVariants.{Memory};

    ghost from_gives = { λ _ e. e ≡ Memory };

    fn from(_error: AllocError) -> SubmitRefused {
        SubmitRefused::Memory
    }
}
