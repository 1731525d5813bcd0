//! Cutting a record.

ghost use Rattle.std.specs.Prelude.{◌≡◌, ◌↔◌, ◌<◌, true, ◌&&◌, [], ◌∷◌, length, Err, IfOk};
ghost use Rattle.std.specs.List.{All};
ghost use Rattle.bundle_meaning.specs.Valid.{IsValid};
ghost use Rattle.fragments.specs.Cutting.{octets_of, place_of, is_longer, must_not, how_many, fragment_of, piece, pieces, pieces_from};

use crate::fault::CutRefused;
use crate::fulls::Fulls;
use crate::kept::{after_in, exts_in};
use bundle_meaning::{Content, Extra6, Full, Shared, copy};
use endpoint::{Fragment, Octets};
use std::alloc::{AllocError, Global};

/// The pieces of a record, each with so many octets of its payload, the last with those that are left.
/// A payload of no more octets, and a report, is not cut: the list has the record alone.
///
/// Each piece is a fragment (RFC 5050, section 5.8; RFC 9171, section 5.8). Own rule: the first has all
/// extension blocks, each other one those whose flag bit 0 is set.
pub fn cut(alloc: Global, full: &Full, size: u64) -> Result<Fulls, CutRefused>
    requires some { 0 < size }
    requires valid { IsValid full.now }

    // The record's pieces, in the order of their places.
    ensures pieces { IfOk result (λ fulls. fulls ≡ pieces full.now size) }

    // Each of them is a valid record.
    ensures valid { IfOk result (All IsValid) }

    // It is refused if and only if it would have to be cut, and must not be.
    ensures must_not { (result ≡ Err CutRefused.MustNot)
        ↔ ((is_longer full.now size && must_not full.now.shared) ≡ true) }
{
    let octets = octets_of(&full.shared.content);
    if octets.len() as u64 <= size {
        return Ok(alone(alloc, full)?);
    }
    if must_not(&full.shared) {
        return Err(CutRefused::MustNot);
    }
    Ok(pieces(alloc, full, octets, size as usize)?)
}

/// The octets of a payload. A report has none.
pub(crate) fn octets_of(content: &Content) -> &[u8]
    ensures { result.now ≡ octets_of content.now }
{
    match content {
        Content::Bytes(octets) => octets.as_slice(),
        Content::Report(_) => &[],
    }
}

/// Whether a record must stay whole: its flags say so, or no name tells its fragments from others.
pub fn must_not(shared: &Shared) -> bool
    ensures { result ≡ must_not shared.now }
{
    shared.flags / 4 % 2 == 1 || shared.source.is_null()
}

/// The record alone.
fn alone(alloc: Global, full: &Full) -> Result<Fulls, AllocError>
    ensures { IfOk result (λ fulls. fulls ≡ full.now ∷ []) }
{
    let mut fulls = Vec::new(alloc);
    fulls.push(copy(alloc, full)?)?;
    Ok(Fulls::from_vec(fulls))
}

/// The pieces of a record whose payload has these octets, more than one piece holds.
fn pieces(alloc: Global, full: &Full, octets: &[u8], size: usize) -> Result<Fulls, AllocError>
    requires octets { octets.now ≡ octets_of full.now.shared.content }
    requires some { 0 < size }
    requires longer { size < length octets.now }
    requires valid { IsValid full.now }
    ensures { IfOk result (λ fulls. fulls ≡ pieces_from full.now size 0 (how_many size octets.now)) }
{
    let count = (octets.len() - 1) / size + 1;
    let mut fulls = Vec::new(alloc);
    'cutting: for i in 0..count {
        fulls.push(piece(alloc, full, octets, size, i)?)?;
    }
    Ok(Fulls::from_vec(fulls))
}

/// The piece at an index.
pub(crate) fn piece(
    alloc: Global,
    full: &Full,
    octets: &[u8],
    size: usize,
    i: usize,
) -> Result<Full, AllocError>
    requires octets { octets.now ≡ octets_of full.now.shared.content }
    requires some { 0 < size }
    requires within { i < how_many size octets.now }
    requires begun { 0 < length octets.now }
    requires valid { IsValid full.now }
    ensures { IfOk result (λ cut. cut ≡ piece full.now size i) }
{
    let from = i * size;
    let own = &octets[from..from + size.min(octets.len() - from)];
    let place = place_of(full.shared.fragment, octets.len() as u64);
    let fragment = Fragment {
        offset: place.offset + from as u64,
        total: place.total,
    };
    Ok(Full {
        shared: shared_of(alloc, &full.shared, fragment, own)?,
        extra6: Extra6 {
            after: after_in(full.exts.as_slice(), full.extra6.after, i),
            ..full.extra6.copy(alloc)?
        },
        extra7: full.extra7,
        exts: exts_in(alloc, &full.exts, i)?,
    })
}

/// Where a record's payload lies in the whole, where it has so many octets.
fn place_of(fragment: Option<Fragment>, size: u64) -> Fragment
    ensures { result ≡ place_of fragment size }
{
    match fragment {
        Some(part) => part,
        None => Fragment {
            offset: 0,
            total: size,
        },
    }
}

/// What both versions say of a fragment with these octets.
fn shared_of(
    alloc: Global,
    shared: &Shared,
    fragment: Fragment,
    octets: &[u8],
) -> Result<Shared, AllocError>
    ensures { IfOk result (λ part. part ≡ fragment_of shared.now fragment octets.now) }
{
    Ok(Shared {
        destination: shared.destination.copy(alloc)?,
        source: shared.source.copy(alloc)?,
        report_to: shared.report_to.copy(alloc)?,
        millis: shared.millis,
        sequence: shared.sequence,
        expiry: shared.expiry,
        flags: shared.flags | 1,
        fragment: Some(fragment),
        payload_flags: shared.payload_flags,
        content: Content::Bytes(Octets::from_slice(alloc, octets)?),
    })
}
