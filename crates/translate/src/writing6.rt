//! The version 6 view of a record.

ghost use Rattle.std.specs.Prelude.{◌≡◌, ◌↔◌, ◌++◌, ◌≤◌, ◌<◌, ◌^◌, false, length, map, IfOk, OnOk, Err};
ghost use Rattle.bundle_meaning.specs.Valid.{IsContent, IsValid};
ghost use Rattle.bundle_meaning.specs.Blocks.{IsExt};
ghost use Rattle.std.specs.List.{All};
ghost use Rattle.translate.specs.Sound.{IsSound};
ghost use Rattle.translate.specs.View6.{primary6_of, is_same7, needs_residue6, residue6, block6_of, octets6_of, payload6_of, blocks6_of, view6_of, fits6};

use crate::refused::ViewRefused;
use bundle_meaning::{
    Content, Ext, Extra7, Full, default7, lifetime6, no_time, slack, write_residue_old,
    write_wrap_old,
};
use bundle6::{Block6, Blocks6, Bundle6, Primary6};
use endpoint::{Octets, Refs};
use status_reports::write6;
use std::alloc::{AllocError, Global};

/// The most blocks besides the payload. Own rule of the formats.
pub(crate) const MOST: usize = 64;
/// The type of a residue.
pub(crate) const RESIDUE: u8 = 192;
/// The type of a wrap.
pub(crate) const WRAP: u8 = 193;
/// The bundle flags that both versions have: bits 0, 1, 2, 5, 14, 16, 17 and 18.
pub(crate) const COMMON: u64 = 0x74027;
/// The block flags that both versions have: bits 0, 1, 2 and 4.
pub(crate) const BLOCK_COMMON: u64 = 0x17;

/// The version 6 bundle that stands for a record.
pub fn view6(alloc: Global, full: &Full) -> Result<Bundle6, ViewRefused>
    requires { IsSound full.now }
    ensures view { IfOk result (λ bundle. bundle ≡ view6_of full.now) }
    ensures too_many { (result ≡ Err ViewRefused.TooManyBlocks) ↔ (fits6 full.now ≡ false) }
{
    if !fits6(full) {
        return Err(ViewRefused::TooManyBlocks);
    }
    Ok(bundle6_of(alloc, full)?)
}

/// The view, however many blocks it has.
pub(crate) fn bundle6_of(alloc: Global, full: &Full) -> Result<Bundle6, AllocError>
    requires { IsValid full.now }
    ensures { IfOk result (λ bundle. bundle ≡ view6_of full.now) }
{
    Ok(Bundle6 {
        primary: primary6(alloc, full)?,
        blocks: blocks6(alloc, full)?,
    })
}

/// Whether the view has at most 64 blocks besides the payload. It takes no memory.
pub fn fits6(full: &Full) -> bool
    requires { IsValid full.now }
    ensures { result ≡ fits6 full.now }
{
    let residue: usize = if needs_residue6(full) { 1 } else { 0 };
    residue + full.exts.len() <= MOST
}

/// The primary block.
fn primary6(alloc: Global, full: &Full) -> Result<Primary6, AllocError>
    requires { IsValid full.now }
    ensures { IfOk result (λ primary. primary ≡ primary6_of full.now) }
{
    let shared = &full.shared;
    Ok(Primary6 {
        flags: shared.flags | full.extra6.flags,
        destination: shared.destination.copy(alloc)?,
        source: shared.source.copy(alloc)?,
        report_to: shared.report_to.copy(alloc)?,
        custodian: full.extra6.custodian.copy(alloc)?,
        seconds: shared.millis / 1000,
        sequence: 1000 * shared.sequence + shared.millis % 1000,
        lifetime: lifetime6(full),
        fragment: shared.fragment,
    })
}

/// Whether all of two extras is the same.
pub(crate) fn is_same7(one: &Extra7, other: &Extra7) -> bool
    ensures { result ≡ is_same7 one.now other.now }
{
    one.flags == other.flags
        && one.crc == other.crc
        && one.payload_crc == other.payload_crc
        && one.payload_flags == other.payload_flags
}

/// Whether something would be lost without a residue.
fn needs_residue6(full: &Full) -> bool
    requires { IsValid full.now }
    ensures { result ≡ needs_residue6 full.now }
{
    !is_same7(&full.extra7, &default7(&full.shared))
        || slack(full) != 0
        || no_time(&full.shared.content) != 0
}

/// The residue, the extension blocks, and the payload before the last of them.
fn blocks6(alloc: Global, full: &Full) -> Result<Blocks6, AllocError>
    requires { IsValid full.now }
    ensures { IfOk result (λ blocks. blocks ≡ blocks6_of full.now) }
{
    let exts = full.exts.as_slice();
    let (before, after) = exts.split_at(exts.len() - full.extra6.after as usize);
    let mut blocks = Vec::with_capacity(alloc, exts.len().saturating_add(2))?;
    push_residue6(alloc, full, &mut blocks)?;
    push_exts6(alloc, before, &mut blocks)?;
    blocks.push(payload6(alloc, full)?)?;
    push_exts6(alloc, after, &mut blocks)?;
    Ok(Blocks6::from_vec(blocks))
}

/// Adds the residue, where it is needed.
fn push_residue6(alloc: Global, full: &Full, blocks: &mut Vec<Block6>) -> Result<(), AllocError>
    requires { IsValid full.now }
    ensures { OnOk result (blocks.new.items ≡ blocks.old.items ++ residue6 full.now) }
{
    if needs_residue6(full) {
        blocks.push(Block6 {
            kind: RESIDUE,
            flags: 1,
            refs: Refs::new(alloc),
            body: write_residue_old(alloc, full)?,
        })?;
    }
    Ok(())
}

/// Adds extension blocks.
fn push_exts6(alloc: Global, exts: &[Ext], blocks: &mut Vec<Block6>) -> Result<(), AllocError>
    requires { All IsExt exts.now }
    ensures { OnOk result (blocks.new.items ≡ blocks.old.items ++ map block6_of exts.now) }
{
    for ext in exts {
        blocks.push(block6(alloc, ext)?)?;
    }
    Ok(())
}

/// An extension block: as it is, or in a wrap.
fn block6(alloc: Global, ext: &Ext) -> Result<Block6, AllocError>
    requires { IsExt ext.now }
    ensures { IfOk result (λ block. block ≡ block6_of ext.now) }
{
    Ok(match ext {
        Ext::Six(block) => Block6 {
            kind: block.kind,
            flags: block.flags,
            refs: block.refs.copy(alloc)?,
            body: block.body.copy(alloc)?,
        },
        Ext::Seven(block) => Block6 {
            kind: WRAP,
            flags: block.flags & BLOCK_COMMON,
            refs: Refs::new(alloc),
            body: write_wrap_old(alloc, block)?,
        },
    })
}

/// The payload block.
fn payload6(alloc: Global, full: &Full) -> Result<Block6, AllocError>
    requires { IsValid full.now }
    ensures { IfOk result (λ block. block ≡ payload6_of full.now) }
{
    Ok(Block6 {
        kind: 1,
        flags: full.shared.payload_flags | full.extra6.payload_flags,
        refs: Refs::new(alloc),
        body: octets6(alloc, &full.shared.content)?,
    })
}

/// The octets of a payload. A report is written as version 6 spells it.
fn octets6(alloc: Global, content: &Content) -> Result<Octets, AllocError>
    requires { IsContent content.now }
    ensures { IfOk result (λ octets. octets ≡ octets6_of content.now) }
{
    match content {
        Content::Bytes(octets) => octets.copy(alloc),
        Content::Report(report) => write6(alloc, &status_reports::view6(alloc, report)?),
    }
}
