//! The two numbers of each endpoint of a bundle that is to be written.

ghost use Rattle.std.specs.Prelude.{◌≡◌, ◌++◌, [], map, IfOk, OnOk};
ghost use Rattle.std.specs.List.{list_all};
ghost use Rattle.endpoint.specs.Lent.{endpoint_of};
ghost use Rattle.bundle6.specs.Spelling.{endpoints_of, is_numbered, numbers_of};
ghost use Rattle.bundle6.specs.Numbering.{lent_out, IsGathered, IsNumbering};

use crate::bundle::Bundle6;
use crate::gathering::Gathering;
use crate::names::Offsets;
use endpoint::{Name, Refs};
use std::alloc::{AllocError, Global};

/// The dictionary of a bundle, and the two numbers of each of its endpoints, in the order in which
/// they are spelled.
#[derive(Drop)]
pub(crate) struct Numbering {
    /// The dictionary's octets.
    pub(crate) dictionary: Vec<u8>,
    /// The numbers.
    pub(crate) pairs: Vec<Offsets>,
}

/// Adds references at the end.
fn lend_all<'a>(found: &mut Vec<Name<'a>>, refs: &'a Refs) -> Result<(), AllocError>
    ensures { OnOk result (lent_out found.new.items ≡ lent_out found.old.items ++ refs.now) }
{
    'lending: for at in 0..refs.len() {
        found.push(refs.get(at))?;
    }
    Ok(())
}

/// The endpoints of a bundle, in the order in which they are spelled.
fn endpoints_of(alloc: Global, bundle: &Bundle6) -> Result<Vec<Name<'_>>, AllocError>
    ensures { IfOk result (λ found. lent_out found.items ≡ endpoints_of bundle.now) }
{
    let mut found = Vec::new(alloc);
    found.push(bundle.primary.destination.lent())?;
    found.push(bundle.primary.source.lent())?;
    found.push(bundle.primary.report_to.lent())?;
    found.push(bundle.primary.custodian.lent())?;
    for block in bundle.blocks.as_slice() {
        lend_all(&mut found, &block.refs)?;
    }
    Ok(found)
}

/// Whether two numbers spell an endpoint without a dictionary.
fn is_numbered(endpoint: &Name<'_>) -> bool
    ensures { result ≡ is_numbered (endpoint_of endpoint.now) }
{
    match endpoint {
        Name::Null => true,
        Name::Ipn { node, service } => !(*node == 0 && *service == 0),
        Name::Dtn(_) => false,
    }
}

/// Whether two numbers spell each endpoint without a dictionary.
fn are_numbered(endpoints: &[Name<'_>]) -> bool
    ensures { result ≡ list_all is_numbered (lent_out endpoints.now) }
{
    for endpoint in endpoints {
        if !is_numbered(endpoint) {
            return false;
        }
    }
    true
}

/// The two numbers of an endpoint without a dictionary.
fn numbers_of(endpoint: &Name<'_>) -> Offsets
    ensures { result ≡ numbers_of (endpoint_of endpoint.now) }
{
    match endpoint {
        Name::Ipn { node, service } => Offsets {
            scheme: *node,
            ssp: *service,
        },
        _ => Offsets { scheme: 0, ssp: 0 },
    }
}

/// The numbers of endpoints without a dictionary.
fn without_dictionary(alloc: Global, endpoints: &[Name<'_>]) -> Result<Numbering, AllocError>
    ensures { IfOk result (λ numbering.
        (numbering.dictionary.items ≡ [])
        × (numbering.pairs.items ≡ map numbers_of (lent_out endpoints.now))) }
{
    let mut pairs = Vec::with_capacity(alloc, endpoints.len())?;
    for endpoint in endpoints {
        pairs.push(numbers_of(endpoint))?;
    }
    Ok(Numbering {
        dictionary: Vec::new(alloc),
        pairs,
    })
}

/// The dictionary of endpoints, and their numbers in it.
fn with_dictionary(alloc: Global, endpoints: &[Name<'_>]) -> Result<Numbering, AllocError>
    ensures { IfOk result (IsGathered (lent_out endpoints.now)) }
{
    let mut gathering = Gathering::new(alloc);
    let mut pairs = Vec::with_capacity(alloc, endpoints.len())?;
    for endpoint in endpoints {
        pairs.push(gathering.name(alloc, endpoint)?)?;
    }
    Ok(Numbering {
        dictionary: gathering.into_dictionary(),
        pairs,
    })
}

/// The dictionary of a bundle, which is empty where two numbers spell each endpoint, and the numbers.
pub(crate) fn numbering_of(alloc: Global, bundle: &Bundle6) -> Result<Numbering, AllocError>
    ensures { IfOk result (IsNumbering bundle.now) }
{
    let endpoints = endpoints_of(alloc, bundle)?;
    let endpoints = endpoints.as_slice();
    if are_numbered(endpoints) {
        without_dictionary(alloc, endpoints)
    } else {
        with_dictionary(alloc, endpoints)
    }
}
