//! The record that a version 7 bundle stands for.

ghost use Rattle.std.specs.Prelude.{◌≡◌, ◌++◌, ◌≤◌, ◌<◌, ◌^◌, ◌+◌, true, None, length, if◌then◌else◌, IfOk, OnOk};
ghost use Rattle.std.specs.List.{All, list_all, list_any};
ghost use Rattle.wire_fields.specs.Reading.{IsOctets};
ghost use Rattle.wire_fields.specs.Whole.{read_whole};
ghost use Rattle.bundle7.specs.Legal.{IsLegal7};
ghost use Rattle.bundle_meaning.specs.Creation.{id6_of};
ghost use Rattle.bundle_meaning.specs.Residue.{residue_new};
ghost use Rattle.bundle_meaning.specs.Wrap.{wrap_new};
ghost use Rattle.translate.specs.Sound.{IsSound};
ghost use Rattle.translate.specs.Translation.{HoldsOctets7};
ghost use Rattle.endpoint.specs.Endpoints.{is_singleton};
ghost use Rattle.translate.specs.Admin.{content7};
ghost use Rattle.translate.specs.Answers.{Translates};
ghost use Rattle.translate.specs.Refusals.{first_that_holds};
ghost use Rattle.translate.specs.Reading7.{refusals7, residue_in7, no_residue7, carried7, is_residue7, may_stand7, are_residues7, may_be_held6, is_wrap_legal7, ext7_of, exts_in7, shared7_with, extra7_of, extra6_of_residue, full7_of};

use crate::private::{holds_octets, is_marked, is_residue, is_wrap};
use crate::reading6::{ADMINISTRATIVE, FRAGMENT, own};
use crate::refused::Refused;
use crate::report7::{admin_refusal7, content7, takes_parts};
use crate::writing6::{BLOCK_COMMON, COMMON};
use bundle_meaning::{
    Block7Like, BlockFault, Ext, Extra6, Extra7, Exts, Full, ResidueNew, Shared, id_to_old,
    lend_residue_new, lend_wrap_new, read_residue_new, read_wrap_new,
};
use bundle6::has_bit;
use bundle7::{Block7, Bundle7};
use endpoint::Endpoint;
use std::alloc::{AllocError, Global};

/// The record that a version 7 bundle stands for.
pub fn from7(alloc: Global, bundle: &Bundle7) -> Result<Full, Refused>
    requires { IsLegal7 bundle.now }
    ensures exact { Translates (first_that_holds (refusals7 bundle.now)) (full7_of bundle.now) result }
    // It is a record that both versions can say.
    ensures sound { IfOk result IsSound }
{
    match refusal7(bundle) {
        Some(cause) => Err(cause),
        None => Ok(full7(alloc, bundle)?),
    }
}

/// The first cause for which a bundle doesn't read as a record. No memory is taken.
pub fn refusal7(bundle: &Bundle7) -> Option<Refused>
    ensures exact { result ≡ first_that_holds (refusals7 bundle.now) }
    ensures octets { result ≡ None → HoldsOctets7 bundle.now }
{
    let primary = &bundle.primary;
    if primary.millis < 1000 {
        Some(Refused::Clockless)
    } else if primary.lifetime == 0 {
        Some(Refused::LifetimeZero)
    } else if id_to_old(primary.millis, primary.sequence).is_err() {
        Some(Refused::SequenceTooLarge)
    } else if has_bit(primary.flags, FRAGMENT) && has_bit(primary.flags, ADMINISTRATIVE) {
        Some(Refused::AdminFragment)
    } else if let Some(cause) = admin_refusal7(bundle) {
        Some(cause)
    } else if !are_residues7(bundle, bundle.exts.as_slice()) {
        Some(Refused::ResidueBad)
    } else if !are_wraps7(bundle) {
        Some(Refused::WrapBad)
    } else {
        None
    }
}

/// Whether a block is a residue.
pub(crate) fn is_residue7(block: &Block7) -> bool
    ensures { result ≡ is_residue7 block.now }
{
    is_residue(block.kind, block.body.as_slice())
}

/// Whether a residue has parts of times that the bundle's report may have.
fn may_stand7(bundle: &Bundle7, residue: &[u8]) -> bool
    ensures { result ≡ may_stand7 bundle.now (read_whole residue_new BlockFault.Bad residue.now) }
{
    match lend_residue_new(residue) {
        Ok(residue) => takes_parts(bundle, &residue.rests),
        Err(_) => false,
    }
}

/// Whether a residue is among the blocks.
fn has_residue7(blocks: &[Block7]) -> bool
    ensures { result ≡ list_any is_residue7 blocks.now }
{
    blocks.iter().any(|block| is_residue7(block))
}

/// Whether there is no residue, or one that may stand in this bundle.
#[tactic(auto, unfolding(crate::specs::Reading7::are_residues7))]
fn are_residues7(bundle: &Bundle7, blocks: &[Block7]) -> bool
    ensures { result ≡ are_residues7 bundle.now blocks.now }
{
    for i in 0..blocks.len() {
        let block = &blocks[i];
        if is_residue7(block) {
            return may_stand7(bundle, block.body.as_slice()) && !has_residue7(&blocks[i + 1..]);
        }
    }
    true
}

/// Whether a wrap's octets hold a block that may be held.
fn may_be_held6(wrap: &[u8]) -> bool
    ensures { result ≡ may_be_held6 (read_whole (wrap_new (length wrap.now)) BlockFault.Bad wrap.now) }
{
    match lend_wrap_new(wrap) {
        Ok(block) => !is_marked(u64::from(block.kind), block.body),
        Err(_) => false,
    }
}

/// Whether a block is no wrap, or holds a block that may be held.
fn is_wrap_legal7(block: &Block7) -> bool
    ensures exact { result ≡ is_wrap_legal7 block.now }
    ensures octets { IsOctets block.now.body }
{
    let body = block.body.as_slice();
    !is_wrap(block.kind, body) || may_be_held6(body)
}

/// Whether each wrap holds a block.
fn are_wraps7(bundle: &Bundle7) -> bool
    ensures exact { result ≡ list_all is_wrap_legal7 bundle.now.exts }
    ensures octets { result ≡ true → HoldsOctets7 bundle.now }
{
    holds_octets(bundle.payload.body.as_slice());
    all_wraps7(bundle.exts.as_slice())
}

/// Whether each wrap among some blocks holds a block.
fn all_wraps7(blocks: &[Block7]) -> bool
    ensures exact { result ≡ list_all is_wrap_legal7 blocks.now }
    ensures octets { result ≡ true → All (λ block. IsOctets block.body) blocks.now }
{
    for block in blocks {
        if !is_wrap_legal7(block) {
            return false;
        }
    }
    true
}

/// What a bundle that isn't refused says.
pub(crate) fn full7(alloc: Global, bundle: &Bundle7) -> Result<Full, AllocError>
    ensures { IfOk result (λ full. full ≡ full7_of bundle.now) }
{
    let residue = residue7(alloc, bundle, bundle.exts.as_slice())?;
    let shared = shared7(alloc, bundle, residue.rests)?;
    let mut exts = Vec::with_capacity(alloc, bundle.exts.len())?;
    push_exts7(alloc, bundle.exts.as_slice(), &mut exts)?;
    let extra6 = Extra6 {
        after: residue.extra6.after.min(exts.len() as u64),
        ..residue.extra6
    };
    Ok(Full {
        shared,
        extra6,
        extra7: extra7(bundle),
        exts: Exts::from_vec(exts),
    })
}

/// What both versions say.
fn shared7(alloc: Global, bundle: &Bundle7, rests: [u32; 4]) -> Result<Shared, AllocError>
    ensures { IfOk result (λ shared. shared
        ≡ shared7_with bundle.now (content7 (carried7 bundle.now) rests bundle.now.payload.body)) }
{
    let primary = &bundle.primary;
    Ok(Shared {
        destination: primary.destination.copy(alloc)?,
        source: primary.source.copy(alloc)?,
        report_to: primary.report_to.copy(alloc)?,
        millis: primary.millis,
        sequence: primary.sequence,
        expiry: u128::from(primary.millis) + u128::from(primary.lifetime),
        flags: primary.flags & COMMON,
        fragment: primary.fragment,
        payload_flags: bundle.payload.flags & BLOCK_COMMON,
        content: content7(alloc, bundle, rests)?,
    })
}

/// What only version 7 says.
pub(crate) fn extra7(bundle: &Bundle7) -> Extra7
    ensures { result ≡ extra7_of bundle.now }
{
    Extra7 {
        flags: own(bundle.primary.flags, COMMON),
        crc: bundle.primary.crc,
        payload_crc: bundle.payload.crc,
        payload_flags: own(bundle.payload.flags, BLOCK_COMMON),
    }
}

/// What a bundle without a residue says in its place.
fn no_residue7(bundle: &Bundle7) -> ResidueNew
    ensures { result ≡ no_residue7 bundle.now }
{
    ResidueNew {
        extra6: Extra6 {
            flags: default_flags6(&bundle.primary.destination),
            custodian: Endpoint::Null,
            payload_flags: 0,
            after: 0,
        },
        rests: [0; 4],
    }
}

/// The flags that version 6 has by default: priority normal, and whether the destination is one receiver.
pub(crate) fn default_flags6(destination: &Endpoint) -> u64
    ensures { result ≡ 0x80 + (if is_singleton destination.now then 0x10 else 0) }
{
    if destination.is_singleton() {
        0x90
    } else {
        0x80
    }
}

/// What the first residue says, or what a bundle without one says in its place.
#[tactic(auto, unfolding(crate::specs::Reading7::residue_in7))]
fn residue7(alloc: Global, bundle: &Bundle7, blocks: &[Block7]) -> Result<ResidueNew, AllocError>
    ensures { IfOk result (λ residue. residue ≡ residue_in7 (no_residue7 bundle.now) blocks.now) }
{
    for block in blocks {
        if is_residue7(block) {
            return match read_residue_new(alloc, block.body.as_slice()) {
                Ok(residue) => Ok(residue),
                Err(BlockFault::Bad) => Ok(no_residue7(bundle)),
                Err(BlockFault::Memory) => Err(AllocError),
            };
        }
    }
    Ok(no_residue7(bundle))
}

/// Adds the extension blocks for which some blocks stand.
fn push_exts7(alloc: Global, blocks: &[Block7], exts: &mut Vec<Ext>) -> Result<(), AllocError>
    ensures { OnOk result (exts.new.items ≡ exts.old.items ++ exts_in7 blocks.now) }
{
    for block in blocks {
        push_ext7(alloc, block, exts)?;
    }
    Ok(())
}

/// Adds the extension block for which a block stands, if it stands for one.
fn push_ext7(alloc: Global, block: &Block7, exts: &mut Vec<Ext>) -> Result<(), AllocError>
    ensures { OnOk result (exts.new.items ≡ exts.old.items ++ ext7_of block.now) }
{
    let body = block.body.as_slice();
    if is_residue7(block) {
        return Ok(());
    }
    if !is_wrap(block.kind, body) {
        exts.push(Ext::Seven(Block7Like {
            kind: block.kind,
            number: block.number,
            flags: block.flags,
            crc: block.crc,
            body: block.body.copy(alloc)?,
        }))?;
        return Ok(());
    }
    match read_wrap_new(alloc, body) {
        Ok(held) => exts.push(Ext::Six(held))?,
        Err(BlockFault::Bad) => {}
        Err(BlockFault::Memory) => return Err(AllocError),
    }
    Ok(())
}
