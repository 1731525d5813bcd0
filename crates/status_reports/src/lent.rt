//! Who sent the subject of a report, with octets that are lent.

ghost use Rattle.std.specs.Prelude.{◌≡◌, IfOk, OnErr};
ghost use Rattle.endpoint.specs.Endpoints.{IsDtn};
ghost use Rattle.status_reports.specs.Views.{endpoint_of};

use endpoint::{Endpoint, Octets};
use std::alloc::{AllocError, Global};

/// An endpoint whose octets are lent out of the body.
#[derive(Clone, Copy, Debug)]
pub enum LentEndpoint<'a> {
    /// Nobody.
    Null,
    /// A name of the scheme ipn.
    Ipn {
        /// The number of the node.
        node: u64,
        /// The number of the service.
        service: u64,
    },
    /// A name of the scheme dtn, by its scheme-specific part.
    Dtn(&'a [u8]),
}

impl LentEndpoint<'_> {
    /// The endpoint, with octets of its own. Only a name of the scheme dtn takes memory.
    pub fn owned(self, alloc: Global) -> Result<Endpoint, AllocError>
        ensures owned { IfOk result (λ endpoint. endpoint ≡ endpoint_of self.entry) }
        ensures memory { OnErr result (IsDtn (endpoint_of self.entry)) }
    {
        Ok(match self {
            LentEndpoint::Null => Endpoint::Null,
            LentEndpoint::Ipn { node, service } => Endpoint::Ipn { node, service },
            LentEndpoint::Dtn(ssp) => Endpoint::Dtn(Octets::from_slice(alloc, ssp)?),
        })
    }
}
