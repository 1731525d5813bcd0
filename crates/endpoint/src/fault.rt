//! Why a text is no endpoint.

ghost use Rattle.std.specs.Prelude.{◌≡◌};
ghost use Rattle.endpoint.specs.Fault.{word_of};

use std::alloc::AllocError;
use thiserror::Error;

/// Why a text was not read as an endpoint.
#[derive(Clone, Copy, Debug, PartialEq, Eq, Error)]
pub enum EndpointFault {
    /// Neither `dtn:` nor `ipn:` stands at the front.
    #[error("Scheme")]
    Scheme,
    /// What follows `dtn:` is neither `none` nor a legal scheme-specific part.
    #[error("Ssp")]
    Ssp,
    /// What follows `ipn:` is no pair of numbers.
    #[error("Number")]
    Number,
    /// Memory ran out; this says nothing of the text.
    #[error("Memory")]
    Memory,
}

impl EndpointFault {
    /// The fault's name.
    pub fn word(&self) -> &'static str
        ensures { result.now ≡ word_of self.now }
    {
        match self {
            EndpointFault::Scheme => "Scheme",
            EndpointFault::Ssp => "Ssp",
            EndpointFault::Number => "Number",
            EndpointFault::Memory => "Memory",
        }
    }
}

impl From<AllocError> for EndpointFault {
    ghost use Rattle.std.specs.Prelude.{◌≡◌};
    ghost use Rattle.endpoint.specs.declared.fault.EndpointFault.{EndpointFault};
    ghost use Rattle.endpoint.specs.declared.fault.EndpointFault.TheVariants as faults;

    ghost from_gives = { λ _ fault. fault ≡ faults.Memory };

    fn from(_: AllocError) -> EndpointFault {
        EndpointFault::Memory
    }
}
