//! The version 7 view of a record.

ghost use Rattle.std.specs.Prelude.{◌≡◌, ◌+◌, ◌↔◌, ◌++◌, ◌∷◌, [], ◌≤◌, ◌<◌, ◌^◌, false, length, map, IfOk, OnOk, Err};
ghost use Rattle.std.specs.List.{All};
ghost use Rattle.bundle_meaning.specs.Valid.{IsContent, IsValid};
ghost use Rattle.bundle_meaning.specs.Blocks.{IsBlock6, IsExt};
ghost use Rattle.translate.specs.Sound.{IsSound};
ghost use Rattle.translate.specs.View7.{primary7_of, is_default6, has_no_rest, needs_residue7, has_number7, is_taken7, next_free7, residue7_at, plain7, wrap7, block7_at, number_after7, blocks7_of, exts7_of, octets7_of, payload7_of, view7_of, fits7};

use crate::refused::ViewRefused;
use crate::writing6::{BLOCK_COMMON, MOST};
use bundle_meaning::{
    Block6Like, Block7Like, Content, Ext, Extra6, Full, Shared, default6, write_residue_new,
    write_wrap_new,
};
use bundle7::{Block7, Blocks7, Bundle7, Primary7};
use endpoint::Octets;
use status_reports::write7;
use std::alloc::{AllocError, Global};

/// The type of a residue.
pub(crate) const RESIDUE: u64 = 192;
/// The type of a wrap.
pub(crate) const WRAP: u64 = 193;

/// The version 7 bundle that stands for a record.
pub fn view7(alloc: Global, full: &Full) -> Result<Bundle7, ViewRefused>
    requires { IsSound full.now }
    ensures view { IfOk result (λ bundle. bundle ≡ view7_of full.now) }
    ensures too_many { (result ≡ Err ViewRefused.TooManyBlocks) ↔ (fits7 full.now ≡ false) }
{
    if !fits7(full) {
        return Err(ViewRefused::TooManyBlocks);
    }
    Ok(bundle7_of(alloc, full)?)
}

/// The view, however many blocks it has.
pub(crate) fn bundle7_of(alloc: Global, full: &Full) -> Result<Bundle7, AllocError>
    requires { IsValid full.now }
    ensures { IfOk result (λ bundle. bundle ≡ view7_of full.now) }
{
    Ok(Bundle7 {
        primary: primary7(alloc, full)?,
        exts: exts7(alloc, full)?,
        payload: payload7(alloc, full)?,
    })
}

/// Whether the view has at most 64 extension blocks. It takes no memory.
pub fn fits7(full: &Full) -> bool
    requires { IsValid full.now }
    ensures { result ≡ fits7 full.now }
{
    let residue: usize = if needs_residue7(full) { 1 } else { 0 };
    residue + full.exts.len() <= MOST
}

/// The primary block.
fn primary7(alloc: Global, full: &Full) -> Result<Primary7, AllocError>
    requires { IsValid full.now }
    ensures { IfOk result (λ primary. primary ≡ primary7_of full.now) }
{
    let shared = &full.shared;
    Ok(Primary7 {
        flags: shared.flags | full.extra7.flags,
        crc: full.extra7.crc,
        destination: shared.destination.copy(alloc)?,
        source: shared.source.copy(alloc)?,
        report_to: shared.report_to.copy(alloc)?,
        millis: shared.millis,
        sequence: shared.sequence,
        lifetime: (shared.expiry - u128::from(shared.millis)) as u64,
        fragment: shared.fragment,
    })
}

/// Whether version 6 says nothing but its default.
fn is_default6(shared: &Shared, extra: &Extra6) -> bool
    ensures { result ≡ is_default6 shared.now extra.now }
{
    extra.flags == default6(shared).flags
        && extra.custodian.is_null()
        && extra.payload_flags == 0
        && extra.after == 0
}

/// Whether no report's time has a part below one millisecond.
fn has_no_rest(content: &Content) -> bool
    ensures { result ≡ has_no_rest content.now }
{
    match content {
        Content::Bytes(_) => true,
        Content::Report(report) => report.rests.iter().all(|rest| *rest == 0),
    }
}

/// Whether something would be lost without a residue.
pub fn needs_residue7(full: &Full) -> bool
    ensures { result ≡ needs_residue7 full.now }
{
    !is_default6(&full.shared, &full.extra6) || !has_no_rest(&full.shared.content)
}

/// Whether an extension block of version 7 has this number.
fn is_taken(exts: &[Ext], number: u64) -> bool
    ensures { result ≡ is_taken7 exts.now number }
{
    exts.iter().any(|ext| has_number(ext, number))
}

/// Whether it is a block of version 7 with this number.
fn has_number(ext: &Ext, number: u64) -> bool
    ensures { result ≡ has_number7 number ext.now }
{
    match ext {
        Ext::Six(_) => false,
        Ext::Seven(block) => block.number == number,
    }
}

/// The least number from this one on that no extension block of version 7 has.
#[tactic(auto, unfolding(crate::specs::View7::free_from7))]
fn next_free(exts: &[Ext], number: u64) -> u64
    requires { number + length exts.now < 2 ^ 64 }
    ensures value { result ≡ next_free7 exts.now number }
    ensures bound { result ≤ number + length exts.now }
{
    let mut free = number;
    'passing: for _ in 0..exts.len() {
        if !is_taken(exts, free) {
            return free;
        }
        free += 1;
    }
    free
}

/// The residue, where it is needed, and the extension blocks in their order.
fn exts7(alloc: Global, full: &Full) -> Result<Blocks7, AllocError>
    requires { IsValid full.now }
    ensures { IfOk result (λ blocks. blocks ≡ exts7_of full.now) }
{
    let exts = full.exts.as_slice();
    let mut blocks = Vec::with_capacity(alloc, exts.len().saturating_add(1))?;
    let mut next = 2;
    if needs_residue7(full) {
        let number = next_free(exts, next);
        blocks.push(residue7(alloc, full, number)?)?;
        next = number + 1;
    }
    push_exts7(alloc, exts, next, &mut blocks)?;
    Ok(Blocks7::from_vec(blocks))
}

/// The residue, with its number.
fn residue7(alloc: Global, full: &Full, number: u64) -> Result<Block7, AllocError>
    requires { IsValid full.now }
    ensures { IfOk result (λ block. block ≡ residue7_at number full.now) }
{
    Ok(Block7 {
        kind: RESIDUE,
        number,
        flags: 1,
        crc: 0,
        body: write_residue_new(alloc, full)?,
    })
}

/// Adds extension blocks, those of version 6 in wraps whose numbers are free from this one on.
fn push_exts7(
    alloc: Global,
    exts: &[Ext],
    first: u64,
    blocks: &mut Vec<Block7>,
) -> Result<(), AllocError>
    requires exts { All IsExt exts.now }
    requires few { length exts.now ≤ 64 }
    requires small { first ≤ 100 }
    ensures { OnOk result (blocks.new.items ≡ blocks.old.items ++ blocks7_of exts.now first exts.now) }
{
    let mut next = first;
    'adding: for ext in exts {
        next = push_ext7(alloc, exts, next, ext, blocks)?;
    }
    Ok(())
}

/// Adds an extension block, and says from where on numbers are free.
fn push_ext7(
    alloc: Global,
    exts: &[Ext],
    next: u64,
    ext: &Ext,
    blocks: &mut Vec<Block7>,
) -> Result<u64, AllocError>
    requires ext { IsExt ext.now }
    requires few { length exts.now ≤ 64 }
    requires small { next ≤ 10000 }
    ensures number { IfOk result (λ after. after ≡ number_after7 exts.now next ext.now) }
    ensures bound { IfOk result (λ after. after ≤ next + 65) }
    ensures block { OnOk result (blocks.new.items ≡ blocks.old.items ++ block7_at exts.now next ext.now ∷ []) }
{
    match ext {
        Ext::Seven(block) => {
            blocks.push(plain7(alloc, block)?)?;
            Ok(next)
        }
        Ext::Six(block) => {
            let number = next_free(exts, next);
            blocks.push(wrap7(alloc, number, block)?)?;
            Ok(number + 1)
        }
    }
}

/// A block of version 7, as it is.
fn plain7(alloc: Global, block: &Block7Like) -> Result<Block7, AllocError>
    ensures { IfOk result (λ copied. copied ≡ plain7 block.now) }
{
    Ok(Block7 {
        kind: block.kind,
        number: block.number,
        flags: block.flags,
        crc: block.crc,
        body: block.body.copy(alloc)?,
    })
}

/// The wrap of a block of version 6, with its number.
fn wrap7(alloc: Global, number: u64, block: &Block6Like) -> Result<Block7, AllocError>
    requires { IsBlock6 block.now }
    ensures { IfOk result (λ made. made ≡ wrap7 number block.now) }
{
    Ok(Block7 {
        kind: WRAP,
        number,
        flags: block.flags & BLOCK_COMMON,
        crc: 0,
        body: write_wrap_new(alloc, block)?,
    })
}

/// The payload block.
fn payload7(alloc: Global, full: &Full) -> Result<Block7, AllocError>
    requires { IsValid full.now }
    ensures { IfOk result (λ block. block ≡ payload7_of full.now) }
{
    Ok(Block7 {
        kind: 1,
        number: 1,
        flags: full.shared.payload_flags | full.extra7.payload_flags,
        crc: full.extra7.payload_crc,
        body: octets7(alloc, &full.shared.content)?,
    })
}

/// The octets of a payload. A report is written as version 7 spells it.
fn octets7(alloc: Global, content: &Content) -> Result<Octets, AllocError>
    requires { IsContent content.now }
    ensures { IfOk result (λ octets. octets ≡ octets7_of content.now) }
{
    match content {
        Content::Bytes(octets) => octets.copy(alloc),
        Content::Report(report) => write7(alloc, &status_reports::view7(alloc, report)?),
    }
}
