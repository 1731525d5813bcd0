//! Why octets are no version 7 bundle, and why they are no endpoint.

ghost use Rattle.std.specs.Prelude.{◌≡◌, ◌+◌, ◌<◌, ◌^◌};
ghost use Rattle.bundle7.specs.Cause.{word_of, eid_word_of, missed, refusal_at};

use std::alloc::{AllocError, AllocFailed};
use thiserror::Error;
use wire_fields::Miss;

/// What isn't as it should be, in the order of the fields.
#[derive(Clone, Copy, Debug, PartialEq, Eq, Error)]
pub enum Cause7 {
    /// The first octet doesn't open an array without a length.
    #[error("Start")]
    Start,
    /// The primary block isn't an array of 8 to 11 items.
    #[error("Head")]
    Head,
    /// The version isn't 7.
    #[error("Version")]
    Version,
    /// A number isn't an unsigned number in shortest form.
    #[error("Number")]
    Number,
    /// The type of a check isn't 0, 1 or 2.
    #[error("CrcType")]
    CrcType,
    /// A block's array hasn't as many items as its flags and the type of its check ask for.
    #[error("ItemCount")]
    ItemCount,
    /// A part of an endpoint isn't as it should be.
    #[error("Eid")]
    Eid,
    /// The creation timestamp isn't an array of 2 items.
    #[error("Timestamp")]
    Timestamp,
    /// A block's check isn't that of its octets, or isn't there.
    #[error("Crc")]
    Crc,
    /// A block after the primary block isn't an array of 5 or 6 items.
    #[error("BlockHead")]
    BlockHead,
    /// A 65th extension block begins.
    #[error("TooManyBlocks")]
    TooManyBlocks,
    /// A second block of previous node, bundle age or hop count begins.
    #[error("Repeated")]
    Repeated,
    /// A block's number isn't 1 for the payload, or isn't at least 2 and new for another block.
    #[error("BlockNumber")]
    BlockNumber,
    /// A block's body isn't a byte string.
    #[error("Body")]
    Body,
    /// The payload of a fragment would pass the end of the whole.
    #[error("FragmentRange")]
    FragmentRange,
    /// The body of a previous node, bundle age or hop count block isn't what it should be.
    #[error("ExtensionBody")]
    ExtensionBody,
    /// The octet after the payload block doesn't end the array.
    #[error("Break")]
    Break,
    /// The octets end inside a field.
    #[error("Truncated")]
    Truncated,
    /// A bundle of a stream doesn't end within the most octets that a reader keeps.
    #[error("TooLong")]
    TooLong,
}

impl Cause7 {
    /// The cause's name.
    pub fn word(&self) -> &'static str
        ensures { result.now ≡ word_of self.now }
    {
        match self {
            Cause7::Start => "Start",
            Cause7::Head => "Head",
            Cause7::Version => "Version",
            Cause7::Number => "Number",
            Cause7::CrcType => "CrcType",
            Cause7::ItemCount => "ItemCount",
            Cause7::Eid => "Eid",
            Cause7::Timestamp => "Timestamp",
            Cause7::Crc => "Crc",
            Cause7::BlockHead => "BlockHead",
            Cause7::TooManyBlocks => "TooManyBlocks",
            Cause7::Repeated => "Repeated",
            Cause7::BlockNumber => "BlockNumber",
            Cause7::Body => "Body",
            Cause7::FragmentRange => "FragmentRange",
            Cause7::ExtensionBody => "ExtensionBody",
            Cause7::Break => "Break",
            Cause7::Truncated => "Truncated",
            Cause7::TooLong => "TooLong",
        }
    }

    /// The refusal of a field at a place.
    pub(crate) fn at(self, at: usize) -> Refused7
        ensures { result ≡ record { at = at; cause = self } }
    {
        Refused7 { at, cause: self }
    }

    /// The refusal of a field that isn't there: the octets end inside it, or it has this cause.
    pub(crate) fn missed(self, at: usize, miss: Miss) -> Refused7
        ensures { result ≡ missed at miss self }
    {
        match miss {
            Miss::Truncated => Cause7::Truncated.at(at),
            Miss::Absent => self.at(at),
        }
    }
}

/// Octets that spell no bundle: those before a place are as they should be, and the field there isn't.
#[derive(Clone, Copy, Debug, PartialEq, Eq)]
pub struct Refused7 {
    /// The place of the field's first octet.
    pub at: usize,
    /// What isn't as it should be.
    pub cause: Cause7,
}

impl Refused7 {
    /// The same, with its place counted from so many octets before.
    pub fn after(self, before: usize) -> Refused7
        requires { before + self.at < 2 ^ 64 }
        ensures { result ≡ refusal_at (before + self.at) self.cause }
    {
        self.cause.at(before + self.at)
    }
}

/// Why no bundle was read.
#[derive(Clone, Copy, Debug, PartialEq, Eq)]
pub enum Fail7 {
    /// The octets before a place are as they should be, and the field there isn't.
    Refused {
        /// The place of the field's first octet.
        at: usize,
        /// What isn't as it should be.
        cause: Cause7,
    },
    /// Memory ran out; this says nothing of the octets.
    Memory,
}

impl From<Refused7> for Fail7 {
    ghost use Rattle.std.specs.Prelude.{◌≡◌};
    ghost use Rattle.bundle7.specs.declared.fault.Fail7.TheVariants as fails;

    ghost from_gives = { λ refused fail. fail ≡ fails.Refused refused.at refused.cause };

    fn from(refused: Refused7) -> Fail7 {
        Fail7::Refused {
            at: refused.at,
            cause: refused.cause,
        }
    }
}

impl From<AllocError> for Fail7 {
    ghost use Rattle.std.specs.Prelude.{◌≡◌};
    ghost use Rattle.bundle7.specs.declared.fault.Fail7.TheVariants as fails;

    ghost from_gives = { λ _ fail. fail ≡ fails.Memory };

    fn from(_: AllocError) -> Fail7 {
        Fail7::Memory
    }
}

impl<T: Drop> From<AllocFailed<T>> for Fail7 {
    ghost use Rattle.std.specs.Prelude.{◌≡◌};
    ghost use Rattle.bundle7.specs.declared.fault.Fail7.TheVariants as fails;

    ghost from_gives = { λ _ fail. fail ≡ fails.Memory };

    fn from(_: AllocFailed<T>) -> Fail7 {
        Fail7::Memory
    }
}

/// Why no endpoint was read.
#[derive(Clone, Copy, Debug, PartialEq, Eq, Error)]
pub enum EidFault {
    /// The octets don't spell an endpoint.
    #[error("Eid")]
    Eid,
    /// Memory ran out; this says nothing of the octets.
    #[error("Memory")]
    Memory,
}

impl EidFault {
    /// The fault's name.
    pub fn word(&self) -> &'static str
        ensures { result.now ≡ eid_word_of self.now }
    {
        match self {
            EidFault::Eid => "Eid",
            EidFault::Memory => "Memory",
        }
    }
}

impl From<AllocError> for EidFault {
    ghost use Rattle.std.specs.Prelude.{◌≡◌};
    ghost use Rattle.bundle7.specs.declared.fault.EidFault.TheVariants as faults;

    ghost from_gives = { λ _ fault. fault ≡ faults.Memory };

    fn from(_: AllocError) -> EidFault {
        EidFault::Memory
    }
}
