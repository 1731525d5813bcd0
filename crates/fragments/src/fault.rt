//! Why a record wasn't cut, or not joined.

ghost use Rattle.std.specs.Prelude.{◌≡◌};
ghost use Rattle.fragments.specs.Word.{cut_word, join_word};

use std::alloc::AllocError;
use thiserror::Error;

/// Why a record wasn't cut.
#[derive(Clone, Copy, Debug, PartialEq, Eq, Error)]
pub enum CutRefused {
    /// It is longer than a piece, and must not be cut: its flag bit 2 is set, or it names no source.
    #[error("MustNot")]
    MustNot,
    /// Memory ran out; the record may be cut.
    #[error("Memory")]
    Memory,
}

impl CutRefused {
    /// The refusal's name.
    pub fn word(&self) -> &'static str
        ensures { result.now ≡ cut_word self.now }
    {
        match self {
            CutRefused::MustNot => "MustNot",
            CutRefused::Memory => "Memory",
        }
    }
}

impl From<AllocError> for CutRefused {
    ghost use Rattle.std.specs.Prelude.{◌≡◌};
    ghost use Rattle.fragments.specs.declared.fault.CutRefused.{CutRefused};
    ghost use Rattle.fragments.specs.declared.fault.CutRefused.TheVariants as refusals;

    ghost from_gives = { λ _ refused. refused ≡ refusals.Memory };

    fn from(_: AllocError) -> CutRefused {
        CutRefused::Memory
    }
}

/// Why a record wasn't joined, in the order in which it is tested.
#[derive(Clone, Copy, Debug, PartialEq, Eq, Error)]
pub enum JoinRefused {
    /// It is no fragment.
    #[error("NotFragment")]
    NotFragment,
    /// The whole has more octets than are joined.
    #[error("TooLarge")]
    TooLarge,
    /// A fragment with its name came, of a whole with another number of octets.
    #[error("TotalDiffers")]
    TotalDiffers,
    /// Fragments of as many names are kept as can be, and its name is another. Its word is `Full`.
    #[error("Full")]
    NoRoom,
    /// Memory ran out.
    #[error("Memory")]
    Memory,
}

impl JoinRefused {
    /// The refusal's name.
    pub fn word(&self) -> &'static str
        ensures { result.now ≡ join_word self.now }
    {
        match self {
            JoinRefused::NotFragment => "NotFragment",
            JoinRefused::TooLarge => "TooLarge",
            JoinRefused::TotalDiffers => "TotalDiffers",
            JoinRefused::NoRoom => "Full",
            JoinRefused::Memory => "Memory",
        }
    }
}
