//! Endpoints, and their texts.

ghost use Rattle.std.specs.Prelude.{◌≡◌, ◌≢◌, ◌⊎◌, IfOk, IfErr, IsOkAnd, OnErr, Ok, Err};
ghost use Rattle.endpoint.specs.Endpoints.{IsDtn, text_of, scheme_of, ssp_of, is_null, is_singleton};
ghost use Rattle.endpoint.specs.Reading.{Spells, SpellsDtn, Misses, Reads, read_text};
ghost use Rattle.endpoint.specs.Reading.{HaveOneText};
ghost use Rattle.endpoint.specs.Lent.{endpoint_of, seen};

use super::lent::Name;
use super::text::{dtn_name, ipn_name, names_group};
use super::{EndpointFault, Octets};
use std::alloc::{AllocError, Global};

/// Whom a bundle is for, from, or to be reported to.
#[derive(Debug, Drop, PartialEq, Eq)]
pub enum Endpoint {
    /// The null endpoint, `dtn:none`: nobody.
    Null,
    /// A service of a node, both by number.
    Ipn {
        /// The node's number.
        node: u64,
        /// The service's number.
        service: u64,
    },
    /// A dtn name, by its scheme-specific part: 1 to 1,023 octets from `!` to `~`, other than
    /// `none`. The type holds any octets; a contract that wants a legal name says `IsEndpoint`.
    Dtn(Octets),
}

impl Endpoint {
    /// The endpoint that a text names: `dtn:none`, `dtn:` and a legal scheme-specific part, or
    /// `ipn:` and two decimal numbers below 2^64 without leading zeros, joined by a dot.
    pub fn from_text(alloc: Global, text: &[u8]) -> Result<Endpoint, EndpointFault>
        // What is read is spelled so.
        ensures found { IfOk result (λ endpoint. Spells endpoint text.now) }
        // What is spelled so is read, unless memory runs out.
        ensures only { (endpoint : Endpoint) → Spells endpoint text.now
            → (result ≡ Ok endpoint) ⊎ (result ≡ Err EndpointFault.Memory) }
        // Each fault comes only where it holds of the text; no two hold of one text.
        ensures fault { IfErr result (λ fault. Misses fault text.now) }
        // The text is judged before memory is taken, which only a dtn name needs.
        ensures memory { result ≡ Err EndpointFault.Memory → SpellsDtn text.now }
        ensures exact { Reads result text.now }
    {
        read(alloc, text)
    }

    /// The endpoint's one text.
    pub fn to_text(&self, alloc: Global) -> Result<Octets, AllocError>
        ensures { IfOk result (λ text. text ≡ text_of self.now) }
    {
        let ssp = self.ssp(alloc)?;
        let mut text = Vec::with_capacity(alloc, ssp.len().saturating_add(4))?;
        text.extend_from_slice(self.scheme())?;
        text.push(b':')?;
        text.extend_from_slice(ssp.as_slice())?;
        Ok(Octets::from_vec(text))
    }

    /// The scheme's name: `ipn`, or `dtn`, which the null endpoint has too.
    pub fn scheme(&self) -> &'static [u8]
        ensures { result.now ≡ scheme_of self.now }
    {
        match self {
            Endpoint::Null | Endpoint::Dtn(_) => b"dtn".as_slice(),
            Endpoint::Ipn { .. } => b"ipn".as_slice(),
        }
    }

    /// The scheme-specific part: what stands after scheme and colon in the text.
    pub fn ssp(&self, alloc: Global) -> Result<Octets, AllocError>
        ensures { IfOk result (λ ssp. ssp ≡ ssp_of self.now) }
    {
        match self {
            Endpoint::Null => Octets::from_slice(alloc, b"none".as_slice()),
            Endpoint::Ipn { node, service } => {
                let pair = format!(in alloc; "{node}.{service}")?;
                Ok(Octets::from_vec(pair.into_bytes()))
            }
            Endpoint::Dtn(ssp) => ssp.copy(alloc),
        }
    }

    /// Whether it is the null endpoint.
    pub fn is_null(&self) -> bool
        ensures { result ≡ is_null self.now }
    {
        match self {
            Endpoint::Null => true,
            Endpoint::Ipn { .. } | Endpoint::Dtn(_) => false,
        }
    }

    /// Whether the endpoint is one receiver: an ipn name, or a dtn name without `/~`, which names a
    /// group. Own rule; the null endpoint isn't one.
    pub fn is_singleton(&self) -> bool
        ensures { result ≡ is_singleton self.now }
    {
        match self {
            Endpoint::Null => false,
            Endpoint::Ipn { .. } => true,
            Endpoint::Dtn(ssp) => !names_group(ssp.as_slice()),
        }
    }

    /// The endpoint, with its octets lent.
    pub fn lent(&self) -> Name<'_>
        ensures { endpoint_of result ≡ self.now }
    {
        match self {
            Endpoint::Null => Name::Null,
            Endpoint::Ipn { node, service } => Name::Ipn {
                node: *node,
                service: *service,
            },
            Endpoint::Dtn(ssp) => Name::Dtn(ssp.as_slice()),
        }
    }

    /// An equal endpoint.
    pub fn copy(&self, alloc: Global) -> Result<Endpoint, AllocError>
        ensures copied { IfOk result (λ copied. copied ≡ self.now) }
        // Only a dtn name takes memory.
        ensures memory { OnErr result (IsDtn self.now) }
    {
        Ok(match self {
            Endpoint::Null => Endpoint::Null,
            Endpoint::Ipn { node, service } => Endpoint::Ipn {
                node: *node,
                service: *service,
            },
            Endpoint::Dtn(ssp) => Endpoint::Dtn(ssp.copy(alloc)?),
        })
    }
}

/// The endpoint that a text names.
fn read(alloc: Global, text: &[u8]) -> Result<Endpoint, EndpointFault>
    ensures reads { Reads result text.now }
    ensures memory { result ≡ Err EndpointFault.Memory → IsOkAnd (read_text text.now) IsDtn }
{
    Ok(judged(text)?.owned(alloc)?)
}

/// The same, with octets that are lent.
#[tactic(auto, unfolding(crate::specs::Reading::read_text))]
fn judged(text: &[u8]) -> Result<Name<'_>, EndpointFault>
    ensures exact { seen result ≡ read_text text.now }
    ensures told { IfErr result (λ fault. fault ≢ EndpointFault.Memory) }
{
    if let Some(ssp) = text.strip_prefix(b"dtn:".as_slice()) {
        return dtn_name(ssp).ok_or(EndpointFault::Ssp);
    }
    if let Some(ssp) = text.strip_prefix(b"ipn:".as_slice()) {
        return ipn_name(ssp).ok_or(EndpointFault::Number);
    }
    Err(EndpointFault::Scheme)
}

/// An endpoint has one text, and no two endpoints have the same.
pub fn one_text()
    ensures { HaveOneText }
{}
