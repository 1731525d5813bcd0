//! Why octets are no version 6 bundle.

ghost use Rattle.std.specs.Prelude.{◌≡◌, ◌+◌, ◌<◌, ◌^◌};
ghost use Rattle.bundle6.specs.Cause.{word_of, refused, missed};

use std::alloc::AllocError;
use thiserror::Error;
use wire_fields::Miss;

/// What isn't as it should be, in the order of the fields.
#[derive(Clone, Copy, Debug, PartialEq, Eq, Error)]
pub enum Cause6 {
    /// The first octet isn't 6.
    #[error("Version")]
    Version,
    /// A number has no end within ten octets, or is 2^64 or more.
    #[error("Number")]
    Number,
    /// One of the four names of the primary block doesn't resolve in the dictionary.
    #[error("Names")]
    Names,
    /// The primary block ends elsewhere than its length field says.
    #[error("PrimaryEnd")]
    PrimaryEnd,
    /// A second payload block begins.
    #[error("SecondPayload")]
    SecondPayload,
    /// A 65th block of another type than the payload begins.
    #[error("TooManyBlocks")]
    TooManyBlocks,
    /// The block that is marked as the last comes before a payload block.
    #[error("NoPayload")]
    NoPayload,
    /// A reference of a block doesn't resolve in the dictionary.
    #[error("BlockRefs")]
    BlockRefs,
    /// The payload of a fragment would pass the end of the whole.
    #[error("FragmentRange")]
    FragmentRange,
    /// The octets end inside a field.
    #[error("Truncated")]
    Truncated,
    /// A bundle of a stream doesn't end within the most octets that a reader keeps.
    #[error("TooLong")]
    TooLong,
}

impl Cause6 {
    /// The cause's name.
    pub fn word(&self) -> &'static str
        ensures { result.now ≡ word_of self.now }
    {
        match self {
            Cause6::Version => "Version",
            Cause6::Number => "Number",
            Cause6::Names => "Names",
            Cause6::PrimaryEnd => "PrimaryEnd",
            Cause6::SecondPayload => "SecondPayload",
            Cause6::TooManyBlocks => "TooManyBlocks",
            Cause6::NoPayload => "NoPayload",
            Cause6::BlockRefs => "BlockRefs",
            Cause6::FragmentRange => "FragmentRange",
            Cause6::Truncated => "Truncated",
            Cause6::TooLong => "TooLong",
        }
    }

    /// The refusal of a field at a place, for this cause.
    pub(crate) fn at(self, at: usize) -> Refused6
        ensures { result ≡ refused at self }
    {
        Refused6 { at, cause: self }
    }

    /// The refusal of a field that isn't there: the octets end inside it, or it has this cause.
    pub(crate) fn missed(self, at: usize, miss: Miss) -> Refused6
        ensures { result ≡ missed at miss self }
    {
        match miss {
            Miss::Truncated => Cause6::Truncated.at(at),
            Miss::Absent => self.at(at),
        }
    }
}

/// A refusal: the octets before a place are as they should be, and the field there isn't.
#[derive(Clone, Copy, Debug, PartialEq, Eq)]
pub struct Refused6 {
    /// The place of the field's first octet.
    pub at: usize,
    /// What isn't as it should be.
    pub cause: Cause6,
}

impl Refused6 {
    /// The same, with its place counted from so many octets before.
    pub fn after(self, before: usize) -> Refused6
        requires { before + self.at < 2 ^ 64 }
        ensures { result ≡ refused (before + self.at) self.cause }
    {
        self.cause.at(before + self.at)
    }
}

/// Why no bundle was read.
#[derive(Clone, Copy, Debug, PartialEq, Eq)]
pub enum Fail6 {
    /// The octets before a place are as they should be, and the field there isn't.
    Refused {
        /// The place of the field's first octet.
        at: usize,
        /// What isn't as it should be.
        cause: Cause6,
    },
    /// Memory ran out; this says nothing of the octets.
    Memory,
}

impl From<AllocError> for Fail6 {
    ghost use Rattle.std.specs.Prelude.{◌≡◌};
    ghost use Rattle.bundle6.specs.declared.fault.Fail6.{Fail6};
    ghost use Rattle.bundle6.specs.declared.fault.Fail6.TheVariants as fails;

    ghost from_gives = { λ _ fail. fail ≡ fails.Memory };

    fn from(_: AllocError) -> Fail6 {
        Fail6::Memory
    }
}

impl From<Refused6> for Fail6 {
    ghost use Rattle.std.specs.Prelude.{◌≡◌};
    ghost use Rattle.bundle6.specs.declared.fault.Refused6.{Refused6};
    ghost use Rattle.bundle6.specs.declared.fault.Fail6.{Fail6};
    ghost use Rattle.bundle6.specs.declared.fault.Fail6.TheVariants as fails;

    ghost from_gives = { λ refused fail. fail ≡ fails.Refused refused.at refused.cause };

    fn from(refused: Refused6) -> Fail6 {
        Fail6::Refused {
            at: refused.at,
            cause: refused.cause,
        }
    }
}
