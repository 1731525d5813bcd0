//! Why a block isn't exactly one bundle.

ghost use Rattle.std.specs.Prelude.{◌≡◌};
ghost use Rattle.gate_cases.specs.Blocks.{word_of};

use bundle6::Cause6;
use bundle7::Cause7;
use thiserror::Error;

/// Why a block isn't exactly one bundle of its face's version.
#[derive(Clone, Copy, Debug, PartialEq, Eq, Error)]
pub enum BadCause {
    /// No bundle of version 6 is spelled at its front.
    #[error("{cause}")]
    Six {
        /// Why the first field that isn't there as it should be isn't.
        cause: Cause6,
    },
    /// No bundle of version 7 is spelled at its front.
    #[error("{cause}")]
    Seven {
        /// Why the first field that isn't there as it should be isn't.
        cause: Cause7,
    },
    /// A bundle is, and octets follow it.
    #[error("Trailing")]
    Trailing,
}

impl BadCause {
    /// The name of the cause that it holds, or `Trailing`.
    pub fn word(&self) -> &'static str
        ensures { result.now ≡ word_of self.now }
    {
        match self {
            BadCause::Six { cause } => cause.word(),
            BadCause::Seven { cause } => cause.word(),
            BadCause::Trailing => "Trailing",
        }
    }
}
