//! Why a journal isn't read.

ghost use Rattle.std.specs.Prelude.{◌≡◌};
ghost use Rattle.journal_file.specs.declared.fault.JournalFault.TheVariants.{Memory};
ghost use Rattle.journal_file.specs.Cause.{word_of};
ghost use Rattle.journal_file.specs.Ties.{missed, fault_of};

use std::alloc::{AllocError, AllocFailed};
use thiserror::Error;
use wire_fields::Miss;

/// What isn't as it should be at a place of a journal.
#[derive(Clone, Copy, Debug, PartialEq, Eq, Error)]
pub enum JournalCause {
    /// The file begins with other octets than `fimjrnl1`.
    #[error("Start")]
    Start,
    /// A record's kind is none of the six.
    #[error("Kind")]
    Kind,
    /// No number below 2^64 is spelled within ten octets, or one is, but not in the fewest octets.
    #[error("Number")]
    Number,
    /// An id is not above all earlier ones, or one that ends is not pending.
    #[error("Id")]
    Id,
    /// A face is neither 0 nor 1.
    #[error("Face")]
    Face,
    /// How a session ended is none of 1, 2 and 3.
    #[error("How")]
    How,
    /// The four octets after a record are not its check.
    #[error("Crc")]
    Crc,
    /// The file ends inside a field, or before a gate that is closed.
    #[error("Truncated")]
    Truncated,
}

impl JournalCause {
    /// The cause's name.
    pub fn word(&self) -> &'static str
        ensures { result.now ≡ word_of self.now }
    {
        match self {
            JournalCause::Start => "Start",
            JournalCause::Kind => "Kind",
            JournalCause::Number => "Number",
            JournalCause::Id => "Id",
            JournalCause::Face => "Face",
            JournalCause::How => "How",
            JournalCause::Crc => "Crc",
            JournalCause::Truncated => "Truncated",
        }
    }

    /// The refusal of a field that begins at this place.
    pub(crate) fn at(self, at: usize) -> Damage
        ensures { result ≡ record { at = at; cause = self } }
    {
        Damage { at, cause: self }
    }

    /// The refusal of a field that isn't there: `Truncated` where the file ends inside it.
    pub(crate) fn missed(self, at: usize, miss: Miss) -> Damage
        ensures { result ≡ missed at miss self }
    {
        match miss {
            Miss::Truncated => JournalCause::Truncated.at(at),
            Miss::Absent => self.at(at),
        }
    }
}

/// Where a file isn't as it should be. Fields are judged without memory, so it is all that a reader of
/// one answers.
#[derive(Clone, Copy, Debug, PartialEq, Eq)]
pub(crate) struct Damage {
    pub(crate) at: usize,
    pub(crate) cause: JournalCause,
}

/// Why nothing was read.
#[derive(Clone, Copy, Debug, PartialEq, Eq, Error)]
pub enum JournalFault {
    /// The octets before `at` are as they should be, and the field that begins there isn't.
    #[error("{at} {cause}")]
    Damaged { at: usize, cause: JournalCause },
    /// Memory ran out.
    #[error("Memory")]
    Memory,
}

impl From<Damage> for JournalFault {
    ghost from_gives = { λ damage e. e ≡ fault_of damage };

    fn from(damage: Damage) -> JournalFault {
        JournalFault::Damaged {
            at: damage.at,
            cause: damage.cause,
        }
    }
}

impl From<AllocError> for JournalFault {
    ghost from_gives = { λ _ e. e ≡ Memory };

    fn from(_e: AllocError) -> JournalFault {
        JournalFault::Memory
    }
}

impl<T: Drop> From<AllocFailed<T>> for JournalFault {
    ghost from_gives = { λ _ e. e ≡ Memory };

    fn from(_e: AllocFailed<T>) -> JournalFault {
        JournalFault::Memory
    }
}
