//! The two halves of an endpoint's text: scheme and scheme-specific part.

ghost use Rattle.std.specs.Prelude.{◌≡◌, IfOk, OnErr, IsSomeAnd};
ghost use Rattle.std.specs.List.{list_all};
ghost use Rattle.endpoint.specs.Endpoints.{is_ssp, is_visible, names_group, IsDtn};
ghost use Rattle.endpoint.specs.Reading.{named, dtn_named, ipn_named};
ghost use Rattle.endpoint.specs.Lent.{if_named};

use super::Endpoint;
use super::lent::Name;
use super::numeral::pair;
use std::alloc::{AllocError, Global};

/// The most octets that the scheme-specific part of a dtn name has. Own rule.
const LONGEST_SSP: usize = 1023;

/// Whether each octet is one from `!` to `~`.
fn are_visible(ssp: &[u8]) -> bool
    ensures { result ≡ list_all is_visible ssp.now }
{
    ssp.iter().all(|octet| 33 <= *octet && *octet <= 126)
}

/// Whether a dtn name may have this scheme-specific part: 1 to 1,023 octets from `!` to `~`, other
/// than `none`. A longer text is refused without being looked at.
#[tactic(auto, unfolding(crate::specs::Endpoints::is_ssp))]
pub fn is_ssp(ssp: &[u8]) -> bool
    ensures { result ≡ is_ssp ssp.now }
{
    !ssp.is_empty() && ssp.len() <= LONGEST_SSP && are_visible(ssp) && ssp != b"none".as_slice()
}

/// The name of the scheme `dtn` with this scheme-specific part.
pub(crate) fn dtn_name(ssp: &[u8]) -> Option<Name<'_>>
    ensures { if_named result ≡ dtn_named ssp.now }
{
    if ssp == b"none".as_slice() {
        return Some(Name::Null);
    }
    if !is_ssp(ssp) {
        return None;
    }
    Some(Name::Dtn(ssp))
}

/// The name of the scheme `ipn` with this scheme-specific part.
pub(crate) fn ipn_name(ssp: &[u8]) -> Option<Name<'_>>
    ensures { if_named result ≡ ipn_named ssp.now }
{
    let (node, service) = pair(ssp)?;
    Some(Name::Ipn { node, service })
}

/// The endpoint of the scheme `ipn` with this scheme-specific part: two decimal numbers below 2^64
/// without leading zeros, joined by a dot.
pub fn ipn_named(ssp: &[u8]) -> Option<Endpoint>
    ensures { result ≡ ipn_named ssp.now }
{
    let (node, service) = pair(ssp)?;
    Some(Endpoint::Ipn { node, service })
}

/// The endpoint with this scheme and this scheme-specific part, as a version 6 dictionary holds
/// them (RFC 5050, section 4.4). `dtn` with `none` is the null endpoint.
pub fn named(alloc: Global, scheme: &[u8], ssp: &[u8]) -> Result<Option<Endpoint>, AllocError>
    ensures named { IfOk result (λ endpoint. endpoint ≡ named scheme.now ssp.now) }
    // Memory is wanted only for a dtn name.
    ensures memory { OnErr result (IsSomeAnd (named scheme.now ssp.now) IsDtn) }
{
    match lend_named(scheme, ssp) {
        Some(name) => Ok(Some(name.owned(alloc)?)),
        None => Ok(None),
    }
}

/// The same, with octets that are lent. It takes no memory.
#[tactic(auto, unfolding(crate::specs::Reading::named))]
pub fn lend_named<'a>(scheme: &[u8], ssp: &'a [u8]) -> Option<Name<'a>>
    ensures { if_named result ≡ named scheme.now ssp.now }
{
    if scheme == b"dtn".as_slice() {
        dtn_name(ssp)
    } else if scheme == b"ipn".as_slice() {
        ipn_name(ssp)
    } else {
        None
    }
}

/// Whether `/~` stands somewhere in a scheme-specific part.
#[tactic(auto, unfolding(crate::specs::Endpoints::names_group))]
pub(crate) fn names_group(ssp: &[u8]) -> bool
    ensures { result ≡ names_group ssp.now }
{
    for at in 0..ssp.len() {
        if ssp[at..].starts_with(b"/~".as_slice()) {
            return true;
        }
    }
    false
}
