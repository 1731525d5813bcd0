//! Why a store gave nothing.

ghost use Rattle.std.specs.Prelude.{◌≡◌};
ghost use Rattle.store_traits.specs.declared.fault.StoreFault.TheVariants as faults;

use edge_traits::Failed;
use std::alloc::{AllocError, AllocFailed};

/// Why a call on a store, or one above it, wasn't done.
#[derive(Clone, Copy, Debug, PartialEq, Eq, Drop)]
pub enum StoreFault {
    /// The outside failed: the store's count of faults rose.
    Failed,
    /// Memory ran out.
    Memory,
}

impl From<Failed> for StoreFault {
    ghost from_gives = { λ _ e. e ≡ faults.Failed };

    fn from(_failed: Failed) -> StoreFault {
        StoreFault::Failed
    }
}

impl From<AllocError> for StoreFault {
    ghost from_gives = { λ _ e. e ≡ faults.Memory };

    fn from(_e: AllocError) -> StoreFault {
        StoreFault::Memory
    }
}

impl<T: Drop> From<AllocFailed<T>> for StoreFault {
    ghost from_gives = { λ _ e. e ≡ faults.Memory };

    fn from(_e: AllocFailed<T>) -> StoreFault {
        StoreFault::Memory
    }
}
