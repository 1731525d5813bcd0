//! The hop that a record makes on its way to the other face (RFC 9171, section 4.4).

ghost use Rattle.std.specs.Prelude.{◌≡◌, ◌<◌, ◌&&◌, ◌==◌, ◌++◌, ◌∷◌, [], false, map, length, if◌then◌else◌, IfOk, OnOk, ◌≤◌};
ghost use Rattle.std.specs.List.{filter, count_by};
ghost use Rattle.bundle7.specs.Body.{hop_count};
ghost use Rattle.translate.specs.Sound.{IsSound};
ghost use Rattle.gate_cases.specs.Passage.{hop_in, hop_octets, is_last, ends_here, has_no_hop_left, one_more_in, counted, counted_ext, goes_on, after_of, extra6_passed, passage};

use bundle_meaning::{Block7Like, Ext, Extra6, Exts, Full};
use bundle7::{Hop, hop_of};
use cbor_lite::{write_array, write_uint};
use endpoint::Octets;
use std::alloc::{AllocError, Global};

/// The block type of a previous node.
const PREVIOUS_NODE: u64 = 6;
/// The block type of a hop count.
const HOP_COUNT: u64 = 10;

/// Whether a hop count among the blocks leaves no hop (RFC 9171, section 4.4.3).
pub fn has_no_hop_left(exts: &[Ext]) -> bool
    ensures { result ≡ has_no_hop_left exts.now }
{
    exts.iter().any(|ext| ends_here(ext))
}

/// Whether it is a hop count by which no hop is left.
fn ends_here(ext: &Ext) -> bool
    ensures { result ≡ ends_here ext.now }
{
    match ext {
        Ext::Six(_) => false,
        Ext::Seven(block) => block.kind == HOP_COUNT && is_last(hop_in(block.body.as_slice())),
    }
}

/// The hop count that octets are.
fn hop_in(body: &[u8]) -> Option<Hop>
    ensures { result ≡ hop_in body.now }
{
    hop_of(body)
}

/// Whether one hop more would be too many.
fn is_last(hop: Option<Hop>) -> bool
    ensures { result ≡ is_last hop }
{
    match hop {
        None => false,
        Some(hop) => hop.limit <= hop.count,
    }
}

/// The record as it goes on. Its payload is moved, and not copied.
pub fn passage(alloc: Global, full: Full) -> Result<Full, AllocError>
    requires sound { IsSound full }
    requires left { has_no_hop_left full.exts ≡ false }
    ensures is { IfOk result (λ passed. passed ≡ passage full) }
    ensures sound { IfOk result IsSound }
{
    let Full {
        shared,
        extra6,
        extra7,
        exts,
    } = full;
    Ok(Full {
        shared,
        extra6: extra6_passed(extra6, exts.as_slice()),
        extra7,
        exts: passed_exts(alloc, exts)?,
    })
}

/// What version 6 says of the record, with the blocks after the payload counted anew.
fn extra6_passed(extra: Extra6, exts: &[Ext]) -> Extra6
    requires { extra.after ≤ length exts.now }
    ensures { result ≡ extra6_passed extra exts.now }
{
    Extra6 {
        flags: extra.flags,
        custodian: extra.custodian,
        payload_flags: extra.payload_flags,
        after: after_of(extra.after, exts),
    }
}

/// How many of so many blocks after the payload go on.
fn after_of(after: u64, exts: &[Ext]) -> u64
    requires { after ≤ length exts.now }
    ensures { result ≡ after_of after exts.now }
{
    how_many(&exts[exts.len() - after as usize..])
}

/// How many of the blocks go on.
fn how_many(exts: &[Ext]) -> u64
    ensures { result ≡ count_by goes_on exts.now }
{
    exts.iter().filter(|ext| goes_on(ext)).count() as u64
}

/// Whether the block goes on.
fn goes_on(ext: &Ext) -> bool
    ensures { result ≡ goes_on ext.now }
{
    match ext {
        Ext::Six(_) => true,
        Ext::Seven(block) => block.kind != PREVIOUS_NODE,
    }
}

/// The blocks that go on.
fn passed_exts(alloc: Global, exts: Exts) -> Result<Exts, AllocError>
    requires { has_no_hop_left exts ≡ false }
    ensures { IfOk result (λ passed. passed ≡ map counted_ext (filter goes_on exts)) }
{
    let mut passed = Exts::new(alloc);
    'passing: for ext in exts.into_vec() {
        pass(alloc, &mut passed, ext)?;
    }
    Ok(passed)
}

/// Puts a block at the end, if it goes on.
fn pass(alloc: Global, passed: &mut Exts, ext: Ext) -> Result<(), AllocError>
    requires { ends_here ext ≡ false }
    ensures { OnOk result (passed.new ≡ passed.old ++ map counted_ext (filter goes_on (ext ∷ []))) }
{
    if goes_on(&ext) {
        passed.push(counted_ext(alloc, ext)?)?;
    }
    Ok(())
}

/// The block, with one hop more where it counts them.
fn counted_ext(alloc: Global, ext: Ext) -> Result<Ext, AllocError>
    requires { ends_here ext ≡ false }
    ensures { IfOk result (λ passed. passed ≡ counted_ext ext) }
{
    match ext {
        Ext::Six(block) => Ok(Ext::Six(block)),
        Ext::Seven(block) => Ok(Ext::Seven(counted(alloc, block)?)),
    }
}

/// The version 7 block, with one hop more where it counts them.
fn counted(alloc: Global, block: Block7Like) -> Result<Block7Like, AllocError>
    requires { (block.kind == hop_count && is_last (hop_in block.body)) ≡ false }
    ensures { IfOk result (λ passed. passed ≡ counted block) }
{
    Ok(Block7Like {
        kind: block.kind,
        number: block.number,
        flags: block.flags,
        crc: block.crc,
        body: counted_body(alloc, block.kind, block.body)?,
    })
}

/// The octets of a block of this type, with one hop more where they count them.
fn counted_body(alloc: Global, kind: u64, body: Octets) -> Result<Octets, AllocError>
    requires { (kind == hop_count && is_last (hop_in body)) ≡ false }
    ensures { IfOk result (λ passed. passed ≡ (if kind == hop_count then one_more_in (hop_in body) body else body)) }
{
    if kind != HOP_COUNT {
        return Ok(body);
    }
    match hop_in(body.as_slice()) {
        None => Ok(body),
        Some(hop) => write_hop(
            alloc,
            Hop {
                limit: hop.limit,
                count: hop.count + 1,
            },
        ),
    }
}

/// The octets that a hop count is.
fn write_hop(alloc: Global, hop: Hop) -> Result<Octets, AllocError>
    ensures { IfOk result (λ octets. octets ≡ hop_octets hop) }
{
    let mut out = Vec::new(alloc);
    write_array(2, &mut out)?;
    write_uint(hop.limit, &mut out)?;
    write_uint(hop.count, &mut out)?;
    Ok(Octets::from_vec(out))
}
