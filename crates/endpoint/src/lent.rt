//! An endpoint whose octets are lent, so that it can be judged before memory is taken.

ghost use Rattle.std.specs.Prelude.{◌≡◌, IfOk, OnErr};
ghost use Rattle.endpoint.specs.Endpoints.{IsDtn, scheme_of};
ghost use Rattle.endpoint.specs.Lent.{endpoint_of};

use super::{Endpoint, Octets};
use std::alloc::{AllocError, Global};

/// An endpoint whose octets are lent.
#[derive(Clone, Copy)]
pub enum Name<'a> {
    /// The null endpoint, `dtn:none`.
    Null,
    /// A service of a node.
    Ipn {
        /// The node's number.
        node: u64,
        /// The service's number.
        service: u64,
    },
    /// A dtn name, by its scheme-specific part.
    Dtn(&'a [u8]),
}

impl Name<'_> {
    /// The scheme's name: `ipn`, or `dtn`, which the null endpoint has too.
    pub fn scheme(self) -> &'static [u8]
        ensures { result.now ≡ scheme_of (endpoint_of self.entry) }
    {
        match self {
            Name::Null | Name::Dtn(_) => b"dtn".as_slice(),
            Name::Ipn { .. } => b"ipn".as_slice(),
        }
    }

    /// The endpoint, with octets of its own. Only a dtn name takes memory.
    pub fn owned(self, alloc: Global) -> Result<Endpoint, AllocError>
        ensures owned { IfOk result (λ endpoint. endpoint ≡ endpoint_of self.entry) }
        ensures memory { OnErr result (IsDtn (endpoint_of self.entry)) }
    {
        Ok(match self {
            Name::Null => Endpoint::Null,
            Name::Ipn { node, service } => Endpoint::Ipn { node, service },
            Name::Dtn(ssp) => Endpoint::Dtn(Octets::from_slice(alloc, ssp)?),
        })
    }
}
