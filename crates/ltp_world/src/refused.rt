//! Why a datagram isn't delivered, and why a drain stops before its end.

ghost use Rattle.std.specs.Prelude.{◌≡◌};
ghost use Rattle.ltp_world.specs.Refused.{deliver_word, drain_word};

use std::alloc::AllocError;
use thiserror::Error;

/// Why a datagram isn't delivered, in the order in which it is tested.
#[derive(Clone, Copy, Debug, PartialEq, Eq, Error)]
pub enum DeliverRefused {
    /// Not so many datagrams were sent.
    #[error("NoSuchDatagram")]
    NoSuchDatagram,
    /// There is no memory. The world may then only be dropped.
    #[error("Memory")]
    Memory,
}

impl DeliverRefused {
    /// The refusal's name.
    pub fn word(&self) -> &'static str
        ensures { result.now ≡ deliver_word self.now }
    {
        match self {
            DeliverRefused::NoSuchDatagram => "NoSuchDatagram",
            DeliverRefused::Memory => "Memory",
        }
    }
}

impl From<AllocError> for DeliverRefused {
    ghost use Rattle.ltp_world.specs.declared.refused.DeliverRefused.TheVariants.{Memory};

    ghost from_gives = { λ _ e. e ≡ Memory };

    fn from(_error: AllocError) -> DeliverRefused {
        DeliverRefused::Memory
    }
}

/// Why a drain stops before its end.
#[derive(Clone, Copy, Debug, PartialEq, Eq, Error)]
pub enum DrainRefused {
    /// The clock would be set to 2^62 or a later moment.
    #[error("TooLate")]
    TooLate,
    /// There is no memory. The world may then only be dropped.
    #[error("Memory")]
    Memory,
}

impl DrainRefused {
    /// The refusal's name.
    pub fn word(&self) -> &'static str
        ensures { result.now ≡ drain_word self.now }
    {
        match self {
            DrainRefused::TooLate => "TooLate",
            DrainRefused::Memory => "Memory",
        }
    }
}

impl From<AllocError> for DrainRefused {
    ghost use Rattle.ltp_world.specs.declared.refused.DrainRefused.TheVariants.{Memory};

    ghost from_gives = { λ _ e. e ≡ Memory };

    fn from(_error: AllocError) -> DrainRefused {
        DrainRefused::Memory
    }
}
