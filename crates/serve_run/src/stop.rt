//! Why a run in turns stopped.
ghost use Rattle.std.specs.Prelude.{◌≡◌};
ghost use Rattle.serve_run.specs.Tells.{status_of};

use edge_traits::Status;
use std::alloc::AllocError;

/// Why a run stopped before its last turn was made.
#[derive(Clone, Copy, Debug, PartialEq, Eq, Drop)]
pub enum Stop {
    /// A write failed.
    Fault,
    /// Memory ran out.
    NoMemory,
}

impl Stop {
    /// How the run ends.
    pub fn status(self) -> Status
        ensures { result ≡ status_of self }
    {
        match self {
            Stop::Fault => Status::WriteFault,
            Stop::NoMemory => Status::Memory,
        }
    }
}
