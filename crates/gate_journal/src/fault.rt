//! Why a journal wasn't read.

ghost use Rattle.std.specs.Prelude.{◌≡◌};
ghost use Rattle.gate_journal.specs.Recovery.{of_store, of_file};

use journal_file::{JournalCause, JournalFault};
use store_traits::StoreFault;

/// Why what is kept wasn't recovered.
#[derive(Clone, Copy, Debug, PartialEq, Eq)]
pub enum RecoverFault {
    /// The octets before `at` are as they should be, and the field that begins there isn't.
    Damaged { at: usize, cause: JournalCause },
    /// The outside failed: the store's count of faults rose.
    Failed,
    /// Memory ran out.
    Memory,
}

impl From<StoreFault> for RecoverFault {
    ghost from_gives = { λ fault e. e ≡ of_store fault };

    fn from(fault: StoreFault) -> RecoverFault {
        match fault {
            StoreFault::Failed => RecoverFault::Failed,
            StoreFault::Memory => RecoverFault::Memory,
        }
    }
}

impl From<JournalFault> for RecoverFault {
    ghost from_gives = { λ fault e. e ≡ of_file fault };

    fn from(fault: JournalFault) -> RecoverFault {
        match fault {
            JournalFault::Damaged { at, cause } => RecoverFault::Damaged { at, cause },
            JournalFault::Memory => RecoverFault::Memory,
        }
    }
}
