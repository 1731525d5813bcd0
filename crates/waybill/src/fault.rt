//! Why octets are no waybill.

ghost use Rattle.std.specs.Prelude.{◌≡◌};
ghost use Rattle.waybill.specs.declared.fault.Fail.TheVariants.{Memory, Refused};
ghost use Rattle.waybill.specs.Cause.{word_of, missed};

use std::alloc::{AllocError, AllocFailed};
use thiserror::Error;
use wire_fields::Miss;

/// What isn't as it should be at a place.
#[derive(Clone, Copy, Debug, PartialEq, Eq, Error)]
pub enum Cause {
    /// The octets end inside a field.
    #[error("Truncated")]
    Truncated,
    /// The first octet isn't `W`.
    #[error("Mark")]
    Mark,
    /// More than 15 seals are announced.
    #[error("Count")]
    Count,
    /// A number is spelled in more than ten octets, or is 2^64 or more.
    #[error("Number")]
    Number,
    /// The sender is neither nobody nor a text of 1 to 8 octets.
    #[error("Sender")]
    Sender,
    /// A part doesn't begin within the whole.
    #[error("Range")]
    Range,
    /// The front has more or fewer octets than it says.
    #[error("FrontEnd")]
    FrontEnd,
    /// The kind of an item is none of the four.
    #[error("Kind")]
    Kind,
    /// Goods stand there a second time.
    #[error("SecondGoods")]
    SecondGoods,
    /// As many items as may stand before the last have been read, and this one isn't the last.
    #[error("TooManyItems")]
    TooManyItems,
    /// An earlier item has this number.
    #[error("Repeated")]
    Repeated,
    /// The check octet isn't the sum of the octets before it.
    #[error("Check")]
    Check,
    /// A seal is smaller than the one before it.
    #[error("Order")]
    Order,
    /// Octets follow after the last seal.
    #[error("Trailing")]
    Trailing,
}

impl Cause {
    /// The variant's name.
    pub fn word(&self) -> &'static str
        ensures { result.now ≡ word_of self.now }
    {
        match self {
            Cause::Truncated => "Truncated",
            Cause::Mark => "Mark",
            Cause::Count => "Count",
            Cause::Number => "Number",
            Cause::Sender => "Sender",
            Cause::Range => "Range",
            Cause::FrontEnd => "FrontEnd",
            Cause::Kind => "Kind",
            Cause::SecondGoods => "SecondGoods",
            Cause::TooManyItems => "TooManyItems",
            Cause::Repeated => "Repeated",
            Cause::Check => "Check",
            Cause::Order => "Order",
            Cause::Trailing => "Trailing",
        }
    }

    /// The fault of a field at a place, for this cause.
    pub(crate) fn at(self, at: usize) -> Fail
        ensures { result ≡ Refused at self }
    {
        Fail::Refused { at, cause: self }
    }

    /// The fault of a field that isn't there: the octets end inside it, or it has this cause.
    pub(crate) fn missed(self, at: usize, miss: Miss) -> Fail
        ensures { result ≡ missed at miss self }
    {
        match miss {
            Miss::Truncated => Cause::Truncated.at(at),
            Miss::Absent => self.at(at),
        }
    }
}

/// Why no waybill was read.
#[derive(Clone, Copy, Debug, PartialEq, Eq, Error)]
pub enum Fail {
    /// The octets before `at` are as they should be, and what stands there isn't.
    #[error("{cause} at {at}")]
    Refused { at: usize, cause: Cause },
    /// Memory ran out.
    #[error("Memory")]
    Memory,
}

impl From<AllocError> for Fail {
    ghost from_gives = { λ _ e. e ≡ Memory };

    fn from(_e: AllocError) -> Fail {
        Fail::Memory
    }
}

impl<T: Drop> From<AllocFailed<T>> for Fail {
    ghost from_gives = { λ _ e. e ≡ Memory };

    fn from(_e: AllocFailed<T>) -> Fail {
        Fail::Memory
    }
}
