//! The record that a version 6 bundle stands for.

ghost use Rattle.std.specs.Prelude.{◌≡◌, ◌==◌, ◌++◌, ◌≤◌, ◌<◌, ◌^◌, ◌-◌, not, true, false, List, length, None, IfOk, OnOk, option_map, bit_and};
ghost use Rattle.std.specs.List.{All, before_first, after_first, list_all, list_any, position};
ghost use Rattle.wire_fields.specs.Reading.{IsOctets};
ghost use Rattle.bundle6.specs.Bits.{has_bit};
ghost use Rattle.bundle6.specs.Legal.{IsLegal};
ghost use Rattle.bundle7.specs.Eid.{eid};
ghost use Rattle.bundle7.specs.Body.{is_body, is_whole, age, hop};
ghost use Rattle.bundle_meaning.specs.Blocks.{collide};
ghost use Rattle.bundle_meaning.specs.Views.{block7_lent};
ghost use Rattle.bundle_meaning.specs.Wrap.{wrap_old};
ghost use Rattle.bundle6.specs.Table.{is_payload};
ghost use Rattle.translate.specs.Answers.{Translates};
ghost use Rattle.translate.specs.Refusals.{first_that_holds};
ghost use Rattle.wire_fields.specs.Whole.{read_whole};
ghost use Rattle.bundle_meaning.specs.Residue.{residue_old};
ghost use Rattle.translate.specs.Reading6.{refusals6, may_stand6, may_be_held7, is_late6, payload_in, residue_in6, is_residue6, are_residues6, is_wrap_legal6, are_apart6, are_wraps6, wrapped7, collide6, ext6_of, exts_in6, stand_after6, shared6_of, extra6_with, full6_of};
ghost use Rattle.translate.specs.Sound.{IsSound};
ghost use Rattle.translate.specs.Translation.{HoldsOctets6};
ghost use Rattle.translate.specs.Views.{payload_found, is_refused};

use crate::private::{is_marked, is_residue, is_wrap};
use crate::refused::Refused;
use crate::report6::{admin_refusal6, content6, takes_mask};
use crate::writing6::{BLOCK_COMMON, COMMON};
use bundle_meaning::{
    Block6Like, BlockFault, Ext, Extra6, Extra7, Exts, Full, LentBlock7, ResidueOld, Shared,
    id_to_new, is_single, lend_wrap_old, read_residue_old, read_wrap_old,
};
use bundle6::{Block6, Bundle6, has_bit};
use bundle7::{EidFault, age_of, hop_of, previous_of};
use endpoint::Endpoint;
use std::alloc::{AllocError, Global};

/// The type of the payload block.
pub(crate) const PAYLOAD: u8 = 1;
/// The bits of a bundle's flags that say it is a fragment, administrative, and that custody is asked.
pub(crate) const FRAGMENT: u32 = 0;

pub(crate) const ADMINISTRATIVE: u32 = 1;

const CUSTODY: u32 = 3;
/// The block types of previous node, bundle age and hop count of version 7.
const PREVIOUS_NODE: u64 = 6;

const BUNDLE_AGE: u64 = 7;

const HOP_COUNT: u64 = 10;
/// What a bundle without a residue says in its place.
const NO_RESIDUE: ResidueOld = ResidueOld {
    slack: 0,
    extra7: Extra7 {
        flags: 0,
        crc: 1,
        payload_crc: 0,
        payload_flags: 0,
    },
    no_time: 0,
};

/// The record that a version 6 bundle stands for.
pub fn from6(alloc: Global, bundle: &Bundle6) -> Result<Full, Refused>
    requires { IsLegal bundle.now }
    ensures exact { Translates (first_that_holds (refusals6 bundle.now)) (full6_of bundle.now) result }
    // It is a record that both versions can say.
    ensures sound { IfOk result IsSound }
{
    match refusal6(alloc, bundle) {
        Some(cause) => Err(cause),
        None => Ok(full6(alloc, bundle)?),
    }
}

/// The first cause for which a bundle doesn't read as a record. Want of memory hides none.
pub fn refusal6(alloc: Global, bundle: &Bundle6) -> Option<Refused>
    ensures exact { result ≡ first_that_holds (refusals6 bundle.now) }
    ensures octets { result ≡ None → HoldsOctets6 bundle.now }
{
    let primary = &bundle.primary;
    if has_bit(primary.flags, CUSTODY) {
        Some(Refused::CustodyAsked)
    } else if primary.seconds == 0 {
        Some(Refused::Clockless)
    } else if primary.lifetime == 0 {
        Some(Refused::LifetimeZero)
    } else if is_late6(bundle) {
        Some(Refused::TimeTooLarge)
    } else if has_refs(payload(bundle.blocks.as_slice())) {
        Some(Refused::PayloadRefs)
    } else if has_bit(primary.flags, FRAGMENT) && has_bit(primary.flags, ADMINISTRATIVE) {
        Some(Refused::AdminFragment)
    } else if let Some(cause) = admin_refusal6(bundle) {
        Some(cause)
    } else if !are_residues6(bundle, bundle.blocks.as_slice()) {
        Some(Refused::ResidueBad)
    } else if !are_wraps6(alloc, bundle.blocks.as_slice()) {
        Some(Refused::WrapBad)
    } else {
        None
    }
}

/// Whether the lifetime in milliseconds, from the creation on, is no number of version 7.
fn is_late6(bundle: &Bundle6) -> bool
    ensures { result ≡ is_late6 bundle.now }
{
    let primary = &bundle.primary;
    let millis = 1000 * u128::from(primary.lifetime);
    id_to_new(primary.seconds, primary.sequence).is_err()
        || 1 << 64 <= millis.saturating_sub(u128::from(primary.sequence % 1000))
}

/// Whether a block is a residue.
pub(crate) fn is_residue6(block: &Block6) -> bool
    ensures { result ≡ is_residue6 block.now }
{
    is_residue(u64::from(block.kind), block.body.as_slice())
}

/// Whether a residue leaves the bundle some lifetime, and speaks of no status but of those that may be
/// without a time.
fn may_stand6(bundle: &Bundle6, residue: &[u8]) -> bool
    ensures { result ≡ may_stand6 bundle.now (read_whole residue_old BlockFault.Bad residue.now) }
{
    let primary = &bundle.primary;
    let lifetime = 1000 * u128::from(primary.lifetime);
    let late = u128::from(primary.sequence % 1000);
    match read_residue_old(residue) {
        Ok(residue) => {
            u128::from(residue.slack) + late < lifetime && takes_mask(bundle, residue.no_time)
        }
        Err(_) => false,
    }
}

/// Whether a residue is among the blocks.
fn has_residue6(blocks: &[Block6]) -> bool
    ensures { result ≡ list_any is_residue6 blocks.now }
{
    blocks.iter().any(|block| is_residue6(block))
}

/// Whether there is no residue, or one that may stand in this bundle.
#[tactic(auto, unfolding(crate::specs::Reading6::are_residues6))]
fn are_residues6(bundle: &Bundle6, blocks: &[Block6]) -> bool
    ensures { result ≡ are_residues6 bundle.now blocks.now }
{
    for i in 0..blocks.len() {
        let block = &blocks[i];
        if is_residue6(block) {
            return may_stand6(bundle, block.body.as_slice()) && !has_residue6(&blocks[i + 1..]);
        }
    }
    true
}

/// The payload block.
#[tactic(auto, unfolding(crate::specs::Reading6::payload_in))]
pub(crate) fn payload(blocks: &[Block6]) -> Option<&Block6>
    ensures { payload_found result ≡ payload_in blocks.now }
{
    for block in blocks {
        if block.kind == PAYLOAD {
            return Some(block);
        }
    }
    None
}

/// Whether the payload refers to endpoints.
fn has_refs(payload: Option<&Block6>) -> bool
    ensures { result ≡ not (length (payload_found payload.entry).refs == 0) }
{
    match payload {
        Some(block) => block.refs.len() != 0,
        None => false,
    }
}

/// Whether the octets are a body that a version 7 block of this type may have.
fn has_body(alloc: Global, kind: u64, body: &[u8]) -> bool
    ensures { result ≡ is_body kind body.now }
{
    match kind {
        PREVIOUS_NODE => is_previous_node(alloc, body),
        BUNDLE_AGE => is_age(body),
        HOP_COUNT => is_hop(body),
        _ => true,
    }
}

/// Whether the octets are exactly an endpoint. Memory is wanted only where they are.
fn is_previous_node(alloc: Global, body: &[u8]) -> bool
    ensures { result ≡ is_whole eid body.now }
{
    let found = previous_of(alloc, body);
    !is_refused(&found)
}

/// Whether octets were refused as an endpoint.
fn is_refused(found: &Result<Endpoint, EidFault>) -> bool
    ensures { result ≡ is_refused found.now }
{
    match found {
        Err(EidFault::Eid) => true,
        Ok(_) | Err(EidFault::Memory) => false,
    }
}

/// Whether the octets are exactly an age.
fn is_age(body: &[u8]) -> bool
    ensures { result ≡ is_whole age body.now }
{
    match age_of(body) {
        Some(_) => true,
        None => false,
    }
}

/// Whether the octets are exactly a hop count.
fn is_hop(body: &[u8]) -> bool
    ensures { result ≡ is_whole hop body.now }
{
    match hop_of(body) {
        Some(_) => true,
        None => false,
    }
}

/// Whether a wrap's octets hold a block that may be held.
fn may_be_held7(alloc: Global, wrap: &[u8]) -> bool
    ensures { result ≡ may_be_held7 (read_whole (wrap_old (length wrap.now)) BlockFault.Bad wrap.now) }
{
    match lend_wrap_old(wrap) {
        Ok(block) => {
            !is_marked(block.kind, block.body) && has_body(alloc, block.kind, block.body)
        }
        Err(_) => false,
    }
}

/// Whether a block is no wrap, or holds a block that may be held.
fn is_wrap_legal6(alloc: Global, block: &Block6) -> bool
    ensures exact { result ≡ is_wrap_legal6 block.now }
    ensures octets { IsOctets block.now.body }
{
    let body = block.body.as_slice();
    !is_wrap(u64::from(block.kind), body) || may_be_held7(alloc, body)
}

/// What a block holds, where it is a wrap.
fn wrapped7(block: &Block6) -> Option<LentBlock7<'_>>
    ensures { option_map block7_lent result ≡ wrapped7 block.now }
{
    let body = block.body.as_slice();
    if is_wrap(u64::from(block.kind), body) {
        lend_wrap_old(body).ok()
    } else {
        None
    }
}

/// Whether two wraps hold blocks that can't stand in one bundle: they have one number, or one type that
/// stands once.
fn collide6(one: &Block6, other: &Block6) -> bool
    ensures { result ≡ collide6 one.now other.now }
{
    match (wrapped7(one), wrapped7(other)) {
        (Some(one), Some(other)) => collide(&one, &other),
        _ => false,
    }
}

/// Whether two blocks can't stand in one bundle.
fn collide(one: &LentBlock7<'_>, other: &LentBlock7<'_>) -> bool
    ensures { result ≡ collide (block7_lent one.now) (block7_lent other.now) }
{
    one.number == other.number || is_single(one.kind) && one.kind == other.kind
}

/// Whether a wrap collides with one of the others.
fn collides6(block: &Block6, others: &[Block6]) -> bool
    ensures { result ≡ list_any (collide6 block.now) others.now }
{
    others.iter().any(|other| collide6(block, other))
}

/// Whether no two wraps collide.
#[tactic(auto, unfolding(crate::specs::Reading6::are_apart6))]
fn are_apart6(blocks: &[Block6]) -> bool
    ensures { result ≡ are_apart6 blocks.now }
{
    for i in 0..blocks.len() {
        if collides6(&blocks[i], &blocks[i + 1..]) {
            return false;
        }
    }
    true
}

/// Whether each wrap holds a block that may be held.
fn all_wraps6(alloc: Global, blocks: &[Block6]) -> bool
    ensures exact { result ≡ list_all is_wrap_legal6 blocks.now }
    ensures octets { result ≡ true → All (λ block. IsOctets block.body) blocks.now }
{
    for block in blocks {
        if !is_wrap_legal6(alloc, block) {
            return false;
        }
    }
    true
}

/// Whether the wraps hold blocks that may stand in one bundle.
fn are_wraps6(alloc: Global, blocks: &[Block6]) -> bool
    ensures exact { result ≡ are_wraps6 blocks.now }
    ensures octets { result ≡ true → All (λ block. IsOctets block.body) blocks.now }
{
    all_wraps6(alloc, blocks) && are_apart6(blocks)
}

/// What a bundle that isn't refused says.
pub(crate) fn full6(alloc: Global, bundle: &Bundle6) -> Result<Full, AllocError>
    requires { first_that_holds (refusals6 bundle.now) ≡ None }
    ensures { IfOk result (λ full. full ≡ full6_of bundle.now) }
{
    let (exts, after) = exts6(alloc, bundle.blocks.as_slice())?;
    Ok(Full {
        shared: shared6(alloc, bundle)?,
        extra6: extra6(alloc, bundle, after)?,
        extra7: residue6(bundle.blocks.as_slice()).extra7,
        exts,
    })
}

/// The extension blocks for which the blocks stand, and how many of them stand after the payload.
fn exts6(alloc: Global, blocks: &[Block6]) -> Result<(Exts, u64), AllocError>
    ensures exts { IfOk result (λ x. x.0 ≡ exts_in6 blocks.now) }
    ensures after { IfOk result (λ x. x.1 ≡ stand_after6 blocks.now) }
{
    let (before, after) = around_payload(blocks);
    let mut exts = Vec::with_capacity(alloc, blocks.len())?;
    push_exts6(alloc, before, &mut exts)?;
    let stand_before = exts.as_slice().len();
    push_exts6(alloc, after, &mut exts)?;
    let stand_after = exts.as_slice().len() - stand_before;
    Ok((Exts::from_vec(exts), stand_after as u64))
}

/// The blocks before the payload, and those after it.
pub(crate) fn around_payload(blocks: &[Block6]) -> (&[Block6], &[Block6])
    ensures before { result.0.now ≡ before_first is_payload blocks.now }
    ensures after { result.1.now ≡ after_first is_payload blocks.now }
{
    match payload_place(blocks) {
        Some(at) => (&blocks[..at], &blocks[at + 1..]),
        None => (blocks, &blocks[blocks.len()..]),
    }
}

/// The place of the payload.
fn payload_place(blocks: &[Block6]) -> Option<usize>
    ensures { result ≡ position is_payload blocks.now }
{
    blocks.iter().position(|block| block.kind == PAYLOAD)
}

/// What the first residue says, or what a bundle without one says in its place.
#[tactic(auto, unfolding(crate::specs::Reading6::residue_in6))]
fn residue6(blocks: &[Block6]) -> ResidueOld
    ensures { result ≡ residue_in6 blocks.now }
{
    for block in blocks {
        if is_residue6(block) {
            return read_residue_old(block.body.as_slice()).unwrap_or(NO_RESIDUE);
        }
    }
    NO_RESIDUE
}

/// The flags without those of a mask.
pub(crate) fn own(flags: u64, mask: u64) -> u64
    ensures { result ≡ flags - bit_and flags mask }
{
    flags - (flags & mask)
}

/// What both versions say.
fn shared6(alloc: Global, bundle: &Bundle6) -> Result<Shared, AllocError>
    requires { first_that_holds (refusals6 bundle.now) ≡ None }
    ensures { IfOk result (λ shared. shared ≡ shared6_of bundle.now) }
{
    let primary = &bundle.primary;
    let blocks = bundle.blocks.as_slice();
    let residue = residue6(blocks);
    let end = 1000 * (u128::from(primary.seconds) + u128::from(primary.lifetime));
    Ok(Shared {
        destination: primary.destination.copy(alloc)?,
        source: primary.source.copy(alloc)?,
        report_to: primary.report_to.copy(alloc)?,
        millis: 1000 * primary.seconds + primary.sequence % 1000,
        sequence: primary.sequence / 1000,
        expiry: end.saturating_sub(u128::from(residue.slack)),
        flags: primary.flags & COMMON,
        fragment: primary.fragment,
        payload_flags: payload_flags(payload(blocks)) & BLOCK_COMMON,
        content: content6(alloc, bundle, residue.no_time)?,
    })
}

/// What only version 6 says; so many extension blocks stand after the payload.
fn extra6(alloc: Global, bundle: &Bundle6, after: u64) -> Result<Extra6, AllocError>
    ensures { IfOk result (λ extra. extra ≡ extra6_with bundle.now after) }
{
    let primary = &bundle.primary;
    Ok(Extra6 {
        flags: own(primary.flags, COMMON),
        custodian: primary.custodian.copy(alloc)?,
        payload_flags: own(
            payload_flags(payload(bundle.blocks.as_slice())),
            BLOCK_COMMON,
        ),
        after,
    })
}

/// The payload's flags.
pub(crate) fn payload_flags(payload: Option<&Block6>) -> u64
    ensures { result ≡ (payload_found payload.entry).flags }
{
    match payload {
        Some(block) => block.flags,
        None => 0,
    }
}

/// Adds the extension blocks for which some blocks stand.
fn push_exts6(alloc: Global, blocks: &[Block6], exts: &mut Vec<Ext>) -> Result<(), AllocError>
    ensures { OnOk result (exts.new.items ≡ exts.old.items ++ exts_in6 blocks.now) }
{
    for block in blocks {
        push_ext6(alloc, block, exts)?;
    }
    Ok(())
}

/// Adds the extension block for which a block stands, if it stands for one.
fn push_ext6(alloc: Global, block: &Block6, exts: &mut Vec<Ext>) -> Result<(), AllocError>
    ensures { OnOk result (exts.new.items ≡ exts.old.items ++ ext6_of block.now) }
{
    let body = block.body.as_slice();
    if block.kind == PAYLOAD || is_residue6(block) {
        return Ok(());
    }
    if !is_wrap(u64::from(block.kind), body) {
        exts.push(Ext::Six(Block6Like {
            kind: block.kind,
            flags: block.flags,
            refs: block.refs.copy(alloc)?,
            body: block.body.copy(alloc)?,
        }))?;
        return Ok(());
    }
    match read_wrap_old(alloc, body) {
        Ok(held) => exts.push(Ext::Seven(held))?,
        Err(BlockFault::Bad) => {}
        Err(BlockFault::Memory) => return Err(AllocError),
    }
    Ok(())
}
