//! The blocks after the primary block.

ghost use Rattle.std.specs.Prelude.{◌≡◌, ◌≤◌, [], length, IfOk};
ghost use Rattle.wire_fields.specs.Reading.{read};
ghost use Rattle.wire_fields.specs.Gives.{Gives, IsOn};
ghost use Rattle.bundle7.specs.Cause.{refused};
ghost use Rattle.bundle7.specs.Table.{is_single, is_number, is_within, block_items, kind_field, number_field, size_field, body_field, lead, block};
ghost use Rattle.bundle7.specs.Lent.{block_of};
ghost use Rattle.bundle7.specs.Known.{Knows};

use crate::body::{BUNDLE_AGE, HOP_COUNT, PREVIOUS_NODE, is_body};
use crate::check::{Checks, crc_at};
use crate::fault::{Cause7, Refused7};
use crate::fields::{item, octets, unsigned};
use crate::primary::crc_type_at;
use crate::seen::Seen;
use endpoint::{Fragment, Listed, Octets};
use std::alloc::{AllocError, Global};
use wire_fields::{ARRAY, BYTE_STRING};

/// The block type of the payload.
pub(crate) const PAYLOAD: u64 = 1;

/// A block (RFC 9171, section 4.3.2).
#[derive(Debug, Drop, PartialEq, Eq)]
pub struct Block7 {
    /// The block's type; 1 is the payload.
    pub kind: u64,
    /// The block's number: 1 for the payload, and else at least 2, each once in a bundle.
    pub number: u64,
    /// The block's flags, by bit: 0 replicate in every fragment, 1 report if unprocessable, 2 delete
    /// bundle if unprocessable, 4 discard if unprocessable. Others are kept as they are.
    pub flags: u64,
    /// The check of the block: 0 none, 1 CRC-16 X-25, 2 CRC-32C.
    pub crc: u8,
    /// Its octets.
    pub body: Octets,
}

/// A list of blocks.
pub type Blocks7 = Listed<Block7>;

/// What a block has before its body.
#[derive(Clone, Copy)]
pub struct Lead {
    /// The block's type.
    pub kind: u64,
    /// The block's number.
    pub number: u64,
    /// The block's flags.
    pub flags: u64,
    /// The type of its check.
    pub crc: u8,
}

/// A block whose body is lent out of the octets.
#[derive(Clone, Copy)]
pub(crate) struct LentBlock<'a> {
    pub(crate) lead: Lead,
    pub(crate) body: &'a [u8],
}

impl LentBlock<'_> {
    /// The block, with octets of its own.
    pub(crate) fn owned(self, alloc: Global) -> Result<Block7, AllocError>
        ensures { IfOk result (λ b. b ≡ block_of self.entry) }
    {
        let LentBlock { lead, body } = self;
        Ok(Block7 {
            kind: lead.kind,
            number: lead.number,
            flags: lead.flags,
            crc: lead.crc,
            body: Octets::from_slice(alloc, body)?,
        })
    }
}

/// A block after the earlier ones, where so many extension blocks may still stand.
#[tactic(auto, unfolding(crate::specs::Table::block))]
pub(crate) fn block_at<'a>(
    text: &'a [u8],
    at: usize,
    fragment: Option<Fragment>,
    left: u64,
    earlier: &Seen,
    checks: Checks,
) -> Result<(LentBlock<'a>, usize), Refused7>
    requires place { at ≤ length text.now }
    requires knows { Knows checks (read (block fragment left earlier.now) text.now at) }
    ensures within { IfOk result (λ x. IsOn at text.now x.1) }
    ensures exact { Gives block_of refused result (read (block fragment left earlier.now) text.now at) }
{
    let start = at;
    let (lead, at) = lead_at(text, at, left, earlier)?;
    let (size, at) = size_at(text, at, fragment, lead.kind)?;
    let (body, at) = body_at(text, at, lead.kind, size)?;
    let (_, at) = crc_at(text, at, lead.crc, start, checks)?;
    Ok((LentBlock { lead, body }, at))
}

/// What a block has before its body.
#[inline(always)]
#[tactic(auto, unfolding(crate::specs::Table::lead))]
pub(crate) fn lead_at(
    text: &[u8],
    at: usize,
    left: u64,
    earlier: &Seen,
) -> Result<(Lead, usize), Refused7>
    requires { at ≤ length text.now }
    ensures within { IfOk result (λ x. IsOn at text.now x.1) }
    ensures exact { Gives (λ l. l) refused result (read (lead left earlier.now) text.now at) }
{
    let (items, at) = block_items_at(text, at)?;
    let (kind, at) = kind_at(text, at, left, earlier)?;
    let (number, at) = number_at(text, at, kind, earlier)?;
    let (flags, at) = unsigned(text, at, Cause7::Number)?;
    let (crc, at) = crc_type_at(text, at, items, 5)?;
    let lead = Lead {
        kind,
        number,
        flags,
        crc,
    };
    Ok((lead, at))
}

/// The head of an array of 5 or 6 items.
#[inline(always)]
fn block_items_at(text: &[u8], at: usize) -> Result<(u64, usize), Refused7>
    requires { at ≤ length text.now }
    ensures within { IfOk result (λ x. IsOn at text.now x.1) }
    ensures exact { Gives (λ n. n) refused result (read block_items text.now at) }
{
    let (items, after) = item(text, at, ARRAY, Cause7::BlockHead)?;
    if items != 5 && items != 6 {
        return Err(Cause7::BlockHead.at(at));
    }
    Ok((items, after))
}

/// The type of a block.
#[inline(always)]
fn kind_at(text: &[u8], at: usize, left: u64, earlier: &Seen) -> Result<(u64, usize), Refused7>
    requires { at ≤ length text.now }
    ensures within { IfOk result (λ x. IsOn at text.now x.1) }
    ensures exact { Gives (λ n. n) refused result (read (kind_field left earlier.now) text.now at) }
{
    let (kind, after) = unsigned(text, at, Cause7::Number)?;
    if kind != PAYLOAD && left == 0 {
        return Err(Cause7::TooManyBlocks.at(at));
    }
    if is_single(kind) && earlier.kinds.has(kind) {
        return Err(Cause7::Repeated.at(at));
    }
    Ok((kind, after))
}

/// Whether a bundle has at most one block of this type.
pub fn is_single(kind: u64) -> bool
    ensures { result ≡ is_single kind }
{
    kind == PREVIOUS_NODE || kind == BUNDLE_AGE || kind == HOP_COUNT
}

/// The number of a block of this type.
#[inline(always)]
fn number_at(text: &[u8], at: usize, kind: u64, earlier: &Seen) -> Result<(u64, usize), Refused7>
    requires { at ≤ length text.now }
    ensures within { IfOk result (λ x. IsOn at text.now x.1) }
    ensures exact { Gives (λ n. n) refused result (read (number_field kind earlier.now) text.now at) }
{
    let (number, after) = unsigned(text, at, Cause7::Number)?;
    if !is_number(kind, earlier, number) {
        return Err(Cause7::BlockNumber.at(at));
    }
    Ok((number, after))
}

/// Whether a block of this type may have this number after the earlier ones.
fn is_number(kind: u64, earlier: &Seen, number: u64) -> bool
    ensures { result ≡ is_number kind earlier.now number }
{
    if kind == PAYLOAD {
        number == 1
    } else {
        number >= 2 && !earlier.numbers.has(number)
    }
}

/// How many octets a block's body has; those of a fragment's payload lie within the whole.
#[inline(always)]
pub(crate) fn size_at(
    text: &[u8],
    at: usize,
    fragment: Option<Fragment>,
    kind: u64,
) -> Result<(u64, usize), Refused7>
    requires { at ≤ length text.now }
    ensures within { IfOk result (λ x. IsOn at text.now x.1) }
    ensures exact { Gives (λ n. n) refused result (read (size_field fragment kind) text.now at) }
{
    let (size, after) = item(text, at, BYTE_STRING, Cause7::Body)?;
    if !is_within(fragment, kind, size) {
        return Err(Cause7::FragmentRange.at(at));
    }
    Ok((size, after))
}

/// Whether so many octets of a block of this type lie within the whole.
fn is_within(fragment: Option<Fragment>, kind: u64, size: u64) -> bool
    ensures { result ≡ is_within fragment kind size }
{
    match fragment {
        None => true,
        Some(part) => {
            kind != PAYLOAD || part.offset <= part.total && size <= part.total - part.offset
        }
    }
}

/// The octets of a body, lent.
#[inline(always)]
pub(crate) fn body_at(
    text: &[u8],
    at: usize,
    kind: u64,
    size: u64,
) -> Result<(&[u8], usize), Refused7>
    requires { at ≤ length text.now }
    ensures within { IfOk result (λ x. IsOn at text.now x.1) }
    ensures exact { Gives (λ lent. lent.now) refused result (read (body_field kind size) text.now at) }
{
    let (body, after) = octets(text, at, size, Cause7::Body)?;
    if !is_body(kind, body) {
        return Err(Cause7::ExtensionBody.at(at));
    }
    Ok((body, after))
}
