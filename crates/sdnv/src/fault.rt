//! Why no number stands at the front of a text.

ghost use Rattle.std.specs.Prelude.{◌≡◌};
ghost use Rattle.sdnv.specs.Word.{word_of};

use thiserror::Error;

/// Why no number stands at the front of a text. No two of these are true of one text.
#[derive(Clone, Copy, Debug, PartialEq, Eq, Error)]
pub enum SdnvFault {
    /// Fewer than ten octets are there, and none of them ends a number.
    #[error("Short")]
    Short,
    /// None of the first ten octets ends a number.
    #[error("TooLong")]
    TooLong,
    /// A number ends within ten octets, and it is 2^64 or more.
    #[error("TooLarge")]
    TooLarge,
}

impl SdnvFault {
    /// The fault's name.
    pub fn word(&self) -> &'static str
        ensures { result.now ≡ word_of self.now }
    {
        match self {
            SdnvFault::Short => "Short",
            SdnvFault::TooLong => "TooLong",
            SdnvFault::TooLarge => "TooLarge",
        }
    }
}
