//! The blocks after the primary block.

ghost use Rattle.std.specs.Prelude.{◌≡◌, ◌-◌, ◌^◌, ◌<◌, ◌≤◌, [], ◌∷◌, ◌++◌, length, IfOk, OnOk, OnErr};
ghost use Rattle.endpoint.specs.Places.{endpoint_at, endpoints_at};
ghost use Rattle.wire_fields.specs.Reading.{read};
ghost use Rattle.wire_fields.specs.Words.{listed};
ghost use Rattle.wire_fields.specs.Gives.{Gives, IsOn};
ghost use Rattle.bundle6.specs.Seen.{seen_with, Follows};
ghost use Rattle.bundle6.specs.Cause.{refusal, refused_at};
ghost use Rattle.bundle6.specs.Table.{kind_field, flags_field, count_field, size_field, is_within, name, references, block};

use crate::fault::{Cause6, Fail6, Refused6};
use crate::fields::{number, octet, octets};
use crate::flags::{LAST, REFS, has_bit, without};
use crate::names::{Offsets, place_in};
use endpoint::{Fragment, Listed, Octets, Place, PlaceList, Refs, Texts};
use std::alloc::{AllocError, Global};

/// The type of the payload block.
pub(crate) const PAYLOAD: u8 = 1;

/// A block (RFC 5050, section 4.6).
#[derive(Debug, Drop)]
pub struct Block6 {
    /// The block's type; 1 is the payload.
    pub kind: u8,
    /// The block's flags, by bit: 0 replicate in every fragment, 1 report if unprocessable, 2 delete
    /// bundle if unprocessable, 4 discard if unprocessable, 5 forwarded without processing. Bits 3,
    /// last block, and 6, has references, are clear: where the block stands and `refs` say that.
    pub flags: u64,
    /// The endpoints that it refers to.
    pub refs: Refs,
    /// Its octets.
    pub body: Octets,
}

/// A list of blocks.
pub type Blocks6 = Listed<Block6>;

/// The blocks so far, as far as they decide on the next.
#[derive(Clone, Copy)]
pub struct Seen {
    /// A payload block is among them.
    pub paid: bool,
    /// How many of another type are among them.
    pub others: u64,
}

impl Seen {
    /// No blocks yet.
    pub const NONE: Seen = Seen {
        paid: false,
        others: 0,
    };

    /// The blocks so far, and one more of this type.
    pub(crate) fn with(self, kind: u8) -> Seen
        requires { self.others < 2 ^ 64 - 1 }
        ensures { result ≡ seen_with self kind }
    {
        if kind == PAYLOAD {
            Seen { paid: true, ..self }
        } else {
            Seen {
                others: self.others + 1,
                ..self
            }
        }
    }
}

/// A block's type.
#[inline(always)]
pub(crate) fn kind_at(
    text: &[u8],
    at: usize,
    most: u64,
    seen: Seen,
) -> Result<(u8, usize), Refused6>
    requires place { at ≤ length text.now }
    requires few { seen.others ≤ most }
    ensures within { IfOk result (λ x. IsOn at text.now x.1) }
    ensures exact { Gives (λ kind. kind) refused_at result
        (read (kind_field most seen.paid seen.others) text.now at) }

    ensures follows { IfOk result (λ x. Follows most seen (seen_with seen x.0)) }
{
    let (kind, after) = octet(text, at, Cause6::Number)?;
    if kind == PAYLOAD && seen.paid {
        return Err(Cause6::SecondPayload.at(at));
    }
    if kind != PAYLOAD && seen.others >= most {
        return Err(Cause6::TooManyBlocks.at(at));
    }
    Ok((kind, after))
}

/// A block's flags. The last block may come once there is a payload block.
#[inline(always)]
pub(crate) fn flags_at(text: &[u8], at: usize, paid: bool) -> Result<(u64, usize), Refused6>
    requires { at ≤ length text.now }
    ensures within { IfOk result (λ x. IsOn at text.now x.1) }
    ensures exact { Gives (λ flags. flags) refused_at result (read (flags_field paid) text.now at) }
{
    let (flags, after) = number(text, at)?;
    if has_bit(flags, LAST) && !paid {
        return Err(Cause6::NoPayload.at(at));
    }
    Ok((flags, after))
}

/// An endpoint that a block refers to, by its place in the dictionary. It takes no memory.
#[tactic(auto, unfolding(crate::specs::Table::name))]
fn reference_at(text: &[u8], at: usize, dictionary: &[u8]) -> Result<(Place, usize), Fail6>
    requires { at ≤ length text.now }
    ensures within { IfOk result (λ x. IsOn at text.now x.1) }
    ensures exact { Gives (endpoint_at dictionary.now) refusal result
        (read (name dictionary.now) text.now at) }
{
    let (scheme, at) = number(text, at)?;
    let (ssp, after) = number(text, at)?;
    match place_in(dictionary, Offsets { scheme, ssp }) {
        Some(place) => Ok((place, after)),
        None => Err(Fail6::Refused {
            at,
            cause: Cause6::BlockRefs,
        }),
    }
}

/// How many references there are: none where the flags don't say that there are some.
#[inline(always)]
pub(crate) fn count_at(text: &[u8], at: usize, present: bool) -> Result<(u64, usize), Refused6>
    requires { at ≤ length text.now }
    ensures within { IfOk result (λ x. IsOn at text.now x.1) }
    ensures exact { Gives (λ count. count) refused_at result
        (read (count_field present) text.now at) }
{
    if present {
        number(text, at)
    } else {
        Ok((0, at))
    }
}

/// Room for the places of so many references. Each has two octets at least, and that many are there.
fn room_for(alloc: Global, count: u64, octets: usize) -> Result<PlaceList, AllocError>
    ensures { IfOk result (λ places. places ≡ []) }
{
    PlaceList::with_room(alloc, (octets / 2).min(count as usize))
}

/// The places of so many references.
fn places_at(
    alloc: Global,
    text: &[u8],
    at: usize,
    count: u64,
    dictionary: &[u8],
) -> Result<(PlaceList, usize), Fail6>
    requires { at ≤ length text.now }
    ensures within { IfOk result (λ x. IsOn at text.now x.1) }
    ensures exact { Gives (λ places. endpoints_at dictionary.now places) refusal result
        (read (listed count (λ earlier. name dictionary.now)) text.now at) }
{
    let mut places = room_for(alloc, count, text.len() - at)?;
    let mut after = at;
    'references: for _ in 0..count {
        let (place, next) = reference_at(text, after, dictionary)?;
        places.push(place)?;
        after = next;
    }
    Ok((places, after))
}

/// So many references, which share the dictionary.
fn counted_at(
    alloc: Global,
    text: &[u8],
    at: usize,
    count: u64,
    dictionary: &Texts,
) -> Result<(Refs, usize), Fail6>
    requires { at ≤ length text.now }
    ensures within { IfOk result (λ x. IsOn at text.now x.1) }
    ensures exact { Gives (λ refs. refs) refusal result
        (read (listed count (λ earlier. name dictionary.now)) text.now at) }
{
    let (places, after) = places_at(alloc, text, at, count, dictionary.as_slice())?;
    Ok((Refs::from_places(alloc, dictionary, places)?, after))
}

/// The references, where the flags say that there are some.
#[tactic(auto, unfolding(crate::specs::Table::references))]
fn references_at(
    alloc: Global,
    text: &[u8],
    at: usize,
    present: bool,
    dictionary: &Texts,
) -> Result<(Refs, usize), Fail6>
    requires { at ≤ length text.now }
    ensures within { IfOk result (λ x. IsOn at text.now x.1) }
    ensures exact { Gives (λ refs. refs) refusal result
        (read (references present dictionary.now) text.now at) }
{
    let (count, at) = count_at(text, at, present)?;
    counted_at(alloc, text, at, count, dictionary)
}

/// Whether so many octets lie within the whole of which they are a fragment.
fn is_within(part: Option<Fragment>, payload: bool, size: u64) -> bool
    ensures { result ≡ is_within part payload size }
{
    match part {
        Some(part) if payload => match part.offset.checked_add(size) {
            Some(end) => end <= part.total,
            None => false,
        },
        _ => true,
    }
}

/// How many octets a block has. Those of a payload lie within the whole of which it is a fragment.
#[inline(always)]
pub fn size_at(
    text: &[u8],
    at: usize,
    part: Option<Fragment>,
    payload: bool,
) -> Result<(u64, usize), Refused6>
    requires { at ≤ length text.now }
    ensures within { IfOk result (λ x. IsOn at text.now x.1) }
    ensures exact { Gives (λ size. size) refused_at result
        (read (size_field part payload) text.now at) }
{
    let (size, after) = number(text, at)?;
    if !is_within(part, payload, size) {
        return Err(Cause6::FragmentRange.at(at));
    }
    Ok((size, after))
}

/// A block, and whether it is marked as the last.
#[tactic(auto, unfolding(crate::specs::Table::block))]
pub(crate) fn block_at(
    alloc: Global,
    text: &[u8],
    at: usize,
    most: u64,
    part: Option<Fragment>,
    dictionary: &Texts,
    seen: Seen,
) -> Result<((Block6, bool), usize), Fail6>
    requires place { at ≤ length text.now }
    requires few { seen.others ≤ most }
    ensures within { IfOk result (λ x. IsOn at text.now x.1) }
    ensures exact { Gives (λ found. found) refusal result
        (read (block most part dictionary.now seen.paid seen.others) text.now at) }
    ensures follows { IfOk result (λ x. Follows most seen (seen_with seen x.0.0.kind)) }
{
    let (kind, at) = kind_at(text, at, most, seen)?;
    let payload = kind == PAYLOAD;
    let (flags, at) = flags_at(text, at, payload || seen.paid)?;
    let (refs, at) = references_at(alloc, text, at, has_bit(flags, REFS), dictionary)?;
    let (size, at) = size_at(text, at, part, payload)?;
    let (body, at) = octets(text, at, size)?;
    let block = Block6 {
        kind,
        flags: without(without(flags, REFS), LAST),
        refs,
        body: Octets::from_slice(alloc, body)?,
    };
    Ok(((block, has_bit(flags, LAST)), at))
}
