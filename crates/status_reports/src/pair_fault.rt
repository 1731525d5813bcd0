//! Why a report has no counterpart in the other version.

ghost use Rattle.std.specs.Prelude.{◌≡◌};
ghost use Rattle.status_reports.specs.Word.{pair_word_of};

use std::alloc::AllocError;
use thiserror::Error;

/// Why a report was not paired.
#[derive(Clone, Copy, Debug, PartialEq, Eq, Error)]
pub enum PairFault {
    /// A time of the report, or the name of its subject, has no counterpart in the other version.
    #[error("NoCounterpart")]
    NoCounterpart,
    /// Memory ran out; the report has a counterpart.
    #[error("Memory")]
    Memory,
}

impl PairFault {
    /// The fault's name.
    pub fn word(&self) -> &'static str
        ensures { result.now ≡ pair_word_of self.now }
    {
        match self {
            PairFault::NoCounterpart => "NoCounterpart",
            PairFault::Memory => "Memory",
        }
    }
}

impl From<AllocError> for PairFault {
    ghost use Rattle.std.specs.Prelude.{◌≡◌};
    ghost use Rattle.status_reports.specs.declared.pair_fault.PairFault.{PairFault};
    ghost use Rattle.status_reports.specs.declared.pair_fault.PairFault.TheVariants as faults;

    ghost from_gives = { λ _ fault. fault ≡ faults.Memory };

    fn from(_: AllocError) -> PairFault {
        PairFault::Memory
    }
}
