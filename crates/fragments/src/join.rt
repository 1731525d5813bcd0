//! A whole of which fragments came.

ghost use Rattle.std.specs.Prelude.{◌≡◌, ◌≤◌, ◌<◌, true, IfOk, IfSome, Some};
ghost use Rattle.bundle_meaning.specs.Valid.{IsValid};
ghost use Rattle.cells.specs.Cells.{stop_of};
ghost use Rattle.fragments.specs.declared.limits.TheConstants.{TOTAL_MAX};
ghost use Rattle.fragments.specs.Cells.{with_octets, has_all};
ghost use Rattle.fragments.specs.Cutting.{octets_of};
ghost use Rattle.fragments.specs.Joining.{same_endpoint, is_named, new_join, head_with, unfragmented, with_payload, grown, Finishes};

use crate::cutting::octets_of;
use bundle_meaning::{Content, Full, Shared};
use cells::Cells;
use endpoint::{Endpoint, Fragment, Octets};
use std::alloc::{AllocError, Global};

/// A whole of which fragments came.
#[derive(Debug, Drop)]
pub(crate) struct Join {
    /// Who sent the bundle.
    pub(crate) source: Endpoint,
    /// When it was made.
    pub(crate) millis: u64,
    /// Which of the bundles of that millisecond it is.
    pub(crate) sequence: u64,
    /// How many octets the whole has.
    pub(crate) total: u64,
    /// Those that came.
    pub(crate) cells: Cells,
    /// The first fragment with offset 0, as a whole without its payload.
    pub(crate) head: Option<Full>,
}

/// What a join came to.
pub(crate) enum Finished {
    /// The whole.
    Whole(Full),
    /// Octets are still missing.
    Open(Join),
}

/// Whether a record has the name of a join: source and creation timestamp.
pub(crate) fn is_named(shared: &Shared, join: &Join) -> bool
    ensures { result ≡ is_named shared.now join.now }
{
    shared.millis == join.millis
        && shared.sequence == join.sequence
        && same_endpoint(&shared.source, &join.source)
}

fn same_endpoint(one: &Endpoint, other: &Endpoint) -> bool
    ensures { result ≡ same_endpoint one.now other.now }
{
    match (one, other) {
        (Endpoint::Null, Endpoint::Null) => true,
        (
            Endpoint::Ipn { node, service },
            Endpoint::Ipn {
                node: node2,
                service: service2,
            },
        ) => *node == *node2 && *service == *service2,
        (Endpoint::Dtn(ssp), Endpoint::Dtn(ssp2)) => ssp.as_slice() == ssp2.as_slice(),
        _ => false,
    }
}

impl Join {
    /// Of a whole of so many octets none came.
    pub(crate) fn new(alloc: Global, shared: &Shared, total: u64) -> Result<Join, AllocError>
        ensures { IfOk result (λ join. join ≡ new_join shared.now total) }
    {
        Ok(Join {
            source: shared.source.copy(alloc)?,
            millis: shared.millis,
            sequence: shared.sequence,
            total,
            cells: Cells::new(alloc),
            head: None,
        })
    }

    /// Whether each octet of a fragment is for a place that has one.
    pub(crate) fn has_all(&self, offset: u64, octets: &[u8]) -> bool
        requires { stop_of offset octets.now ≤ TOTAL_MAX }
        ensures { result ≡ has_all self.now.cells offset octets.now }
    {
        self.cells
            .places()
            .covers(offset, offset + octets.len() as u64)
    }

    /// The join, with a fragment more. The first octet for a place stays.
    pub(crate) fn with(self, alloc: Global, full: &Full, offset: u64) -> Result<Join, AllocError>
        requires { stop_of offset (octets_of full.now.shared.content) ≤ TOTAL_MAX }
        ensures { IfOk result (λ join. join ≡ grown self full.now offset) }
    {
        let Join {
            source,
            millis,
            sequence,
            total,
            cells,
            head,
        } = self;
        Ok(Join {
            source,
            millis,
            sequence,
            total,
            cells: with_octets(cells, offset, octets_of(&full.shared.content))?,
            head: head_with(alloc, head, full, offset)?,
        })
    }

    /// The whole, once it is there.
    pub(crate) fn finished(self, alloc: Global) -> Result<Finished, AllocError>
        ensures { IfOk result (Finishes self) }
    {
        let Join {
            source,
            millis,
            sequence,
            total,
            cells,
            head,
        } = self;
        let Some(octets) = cells.whole_part(alloc, Some(total))? else {
            return Ok(Finished::Open(Join {
                source,
                millis,
                sequence,
                total,
                cells,
                head,
            }));
        };
        match head {
            None => Ok(Finished::Open(Join {
                source,
                millis,
                sequence,
                total,
                cells,
                head: None,
            })),
            Some(head) => Ok(Finished::Whole(with_payload(head, Octets::from_vec(octets)))),
        }
    }
}

/// The cells, with these octets from a place on where none is yet; no octets fill no place.
fn with_octets(cells: Cells, offset: u64, octets: &[u8]) -> Result<Cells, AllocError>
    requires { stop_of offset octets.now ≤ TOTAL_MAX }
    ensures { IfOk result (λ now. now ≡ with_octets cells offset octets.now) }
{
    if octets.is_empty() {
        Ok(cells)
    } else {
        cells.with(offset, octets)
    }
}

/// The first fragment with offset 0 that came, as a whole without its payload.
fn head_with(
    alloc: Global,
    head: Option<Full>,
    full: &Full,
    offset: u64,
) -> Result<Option<Full>, AllocError>
    ensures { IfOk result (λ found. found ≡ head_with head full.now offset) }
{
    match head {
        Some(head) => Ok(Some(head)),
        None if offset == 0 => Ok(Some(unfragmented(alloc, full)?)),
        None => Ok(None),
    }
}

/// A fragment as a whole without its payload.
fn unfragmented(alloc: Global, full: &Full) -> Result<Full, AllocError>
    ensures { IfOk result (λ whole. whole ≡ unfragmented full.now) }
{
    let shared = &full.shared;
    Ok(Full {
        shared: Shared {
            destination: shared.destination.copy(alloc)?,
            source: shared.source.copy(alloc)?,
            report_to: shared.report_to.copy(alloc)?,
            millis: shared.millis,
            sequence: shared.sequence,
            expiry: shared.expiry,
            flags: shared.flags - shared.flags % 2,
            fragment: None,
            payload_flags: shared.payload_flags,
            content: Content::Bytes(Octets::new(alloc)),
        },
        extra6: full.extra6.copy(alloc)?,
        extra7: full.extra7,
        exts: full.exts.copy(alloc)?,
    })
}

/// The record with this payload.
fn with_payload(full: Full, octets: Octets) -> Full
    ensures { result ≡ with_payload full octets }
{
    let mut full = full;
    full.shared.content = Content::Bytes(octets);
    full
}
