//! Why a run stopped.

ghost use Rattle.std.specs.Prelude.{◌≡◌};
ghost use Rattle.gate_run.specs.Outcome.{of_store, status_of};

use crate::status::GateStatus;
use std::alloc::AllocError;
use store_traits::StoreFault;

/// Why a run stopped before its last turn was made.
#[derive(Clone, Copy, Debug, PartialEq, Eq, Drop)]
pub enum Stop {
    /// A write failed.
    Fault,
    /// Memory ran out.
    NoMemory,
    /// A call on the journal failed.
    NoJournal,
}

impl Stop {
    /// How the run ends.
    pub fn status(self) -> GateStatus
        ensures { result ≡ status_of self }
    {
        match self {
            Stop::Fault => GateStatus::WriteFault,
            Stop::NoMemory => GateStatus::Memory,
            Stop::NoJournal => GateStatus::Journal,
        }
    }

    /// Why a run stops where a call on the journal isn't done.
    pub fn of_store(fault: StoreFault) -> Stop
        ensures { result ≡ of_store fault }
    {
        match fault {
            StoreFault::Failed => Stop::NoJournal,
            StoreFault::Memory => Stop::NoMemory,
        }
    }
}

impl From<AllocError> for Stop {
    ghost use Rattle.gate_run.specs.declared.stop.Stop.TheVariants.{NoMemory};

    ghost from_gives = { λ _ stop. stop ≡ NoMemory };

    fn from(_: AllocError) -> Stop {
        Stop::NoMemory
    }
}
