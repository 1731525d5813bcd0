//! Why the body of an administrative record is no status report.

ghost use Rattle.std.specs.Prelude.{◌≡◌};
ghost use Rattle.status_reports.specs.Word.{word_of};

use std::alloc::AllocError;
use thiserror::Error;

/// Why no status report was read, in the order in which it is asked.
#[derive(Clone, Copy, Debug, PartialEq, Eq, Error)]
pub enum AdminFault {
    /// The record is a custody signal, which only version 6 has.
    #[error("CustodySignal")]
    CustodySignal,
    /// The record is of a type other than that of a status report.
    #[error("AdminUnknown")]
    AdminUnknown,
    /// The report says that custody was accepted, which only version 6 can say.
    #[error("CustodyReport")]
    CustodyReport,
    /// The octets aren't exactly one status report.
    #[error("BadAdmin")]
    BadAdmin,
    /// Memory ran out; the octets are a status report.
    #[error("Memory")]
    Memory,
}

impl AdminFault {
    /// The fault's name.
    pub fn word(&self) -> &'static str
        ensures { result.now ≡ word_of self.now }
    {
        match self {
            AdminFault::CustodySignal => "CustodySignal",
            AdminFault::AdminUnknown => "AdminUnknown",
            AdminFault::CustodyReport => "CustodyReport",
            AdminFault::BadAdmin => "BadAdmin",
            AdminFault::Memory => "Memory",
        }
    }
}

impl From<AllocError> for AdminFault {
    ghost use Rattle.std.specs.Prelude.{◌≡◌};
    ghost use Rattle.status_reports.specs.declared.fault.AdminFault.{AdminFault};
    ghost use Rattle.status_reports.specs.declared.fault.AdminFault.TheVariants as faults;

    ghost from_gives = { λ _ fault. fault ≡ faults.Memory };

    fn from(_: AllocError) -> AdminFault {
        AdminFault::Memory
    }
}
