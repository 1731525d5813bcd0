//! Why some windows are no plan.

ghost use Rattle.std.specs.Prelude.{◌≡◌};
ghost use Rattle.contact_plan.specs.Fault.{fault_word};

use std::alloc::AllocError;
use thiserror::Error;

/// Why some windows are no plan, in the order in which it is tested.
#[derive(Clone, Copy, Debug, PartialEq, Eq, Error)]
pub enum PlanFault {
    /// There are more than 4,096 windows.
    #[error("TooMany")]
    TooMany,
    /// A window is empty, ends after 2^62, or begins before the end of the one before it.
    #[error("Order")]
    Order {
        /// The place of the first such window, from 0.
        index: usize,
    },
    /// There is no memory.
    #[error("Memory")]
    Memory,
}

impl PlanFault {
    /// The fault's name.
    pub fn word(&self) -> &'static str
        ensures { result.now ≡ fault_word self.now }
    {
        match self {
            PlanFault::TooMany => "TooMany",
            PlanFault::Order { .. } => "Order",
            PlanFault::Memory => "Memory",
        }
    }
}

impl From<AllocError> for PlanFault {
    ghost use Rattle.contact_plan.specs.declared.fault.PlanFault.TheVariants.{Memory};

    ghost from_gives = { λ _ e. e ≡ Memory };

    fn from(_error: AllocError) -> PlanFault {
        PlanFault::Memory
    }
}
