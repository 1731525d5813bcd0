//! The wrap in a version 7 bundle: a block of version 6.

ghost use Rattle.std.specs.Prelude.{◌≡◌, ◌⊎◌, ◌↔◌, ◌++◌, ◌≤◌, ◌<◌, [], length, false, IfOk, IfErr, OnOk};
ghost use Rattle.std.specs.List.{flat_map};
ghost use Rattle.wire_fields.specs.Format.{Spells};
ghost use Rattle.wire_fields.specs.Reading.{read};
ghost use Rattle.wire_fields.specs.Words.{listed};
ghost use Rattle.wire_fields.specs.Whole.{read_whole};
ghost use Rattle.wire_fields.specs.Gives.{Gives, IsOn};
ghost use Rattle.bundle_meaning.specs.Body.{refusal, name, name_octets, GivesBody, LendsBody, SpellsNone, IsWritten};
ghost use Rattle.bundle_meaning.specs.Blocks.{IsBlock6, is_marked};
ghost use Rattle.bundle_meaning.specs.Wrap.{kind6, references, wrap_new, wrap_new_octets};
ghost use Rattle.endpoint.specs.Lent.{endpoint_of};
ghost use Rattle.bundle_meaning.specs.Views.{names_lent, block6_lent};
ghost use Rattle.bundle_meaning.specs.Room.{most, names_room, wrap_room};

use crate::bits::BLOCK_MARKS;
use crate::blocks::Block6Like;
use crate::fault::BlockFault;
use crate::field::{Unfit, all_left, flags_without, mark, name, shortest};
use crate::writing::{NUMBER, begin, write_name, write_numbers};
use endpoint::{Endpoint, Listing, Name, Octets, Refs};
use std::alloc::{AllocError, Global};
use wire_fields::Miss;

/// So many endpoints at a place in a text, which were all found there.
#[derive(Clone, Copy)]
pub struct Names<'a> {
    text: &'a [u8],
    at: usize,
    count: u64,
}

/// A block of version 6 whose references and body are lent.
#[derive(Clone, Copy)]
pub struct LentBlock6<'a> {
    /// The block's type, not 1.
    pub kind: u8,
    /// The block's flags. Bits 3 and 6 are clear.
    pub flags: u64,
    /// The endpoints that it refers to.
    refs: Names<'a>,
    /// Its octets.
    pub body: &'a [u8],
}

/// The body of the wrap that holds a block of version 6 in version 7. A block of some octets may have
/// millions of references to one long name, so the names are summed before anything is written: where
/// memory has no room for them, none is taken.
pub fn write_wrap_new(alloc: Global, block: &Block6Like) -> Result<Octets, AllocError>
    requires { IsBlock6 block.now }
    ensures { IfOk result (λ octets. IsWritten (wrap_new (length octets)) block.now
        (wrap_new_octets block.now) octets) }
{
    let mut out = begin(alloc, wrap_room(block))?;
    write_numbers(
        &[u64::from(block.kind), block.flags, block.refs.len() as u64],
        &mut out,
    )?;
    write_names(alloc, &block.refs, &mut out)?;
    out.extend_from_slice(block.body.as_slice())?;
    Ok(Octets::from_vec(out))
}

/// How many octets the wrap of a block has at most.
fn wrap_room(block: &Block6Like) -> usize
    ensures { result ≡ wrap_room block.now }
{
    let names = names_room(&block.refs);
    block
        .body
        .len()
        .saturating_add(names)
        .saturating_add(3 * NUMBER)
}

/// How many octets endpoints have at most in a wrap.
fn names_room(refs: &Refs) -> usize
    ensures { result ≡ names_room refs.now }
{
    let mut room: usize = 0;
    'summing: for at in 0..refs.len() {
        room = room.saturating_add(most(refs.get(at)));
    }
    room
}

/// How many octets an endpoint has at most in a wrap.
fn most(name: Name<'_>) -> usize
    ensures { result ≡ most (endpoint_of name.entry) }
{
    match name {
        Name::Null => 8 + NUMBER,
        Name::Ipn { .. } => 45 + NUMBER,
        Name::Dtn(ssp) => ssp.len().saturating_add(4 + NUMBER),
    }
}

/// Appends endpoints, one after the other.
fn write_names(alloc: Global, refs: &Refs, out: &mut Vec<u8>) -> Result<(), AllocError>
    ensures { OnOk result (out.new.items ≡ out.old.items ++ flat_map name_octets refs.now) }
{
    'writing: for at in 0..refs.len() {
        write_name(alloc, &refs.get(at).owned(alloc)?, out)?;
    }
    Ok(())
}

/// The block of version 6 that the body of a wrap in a version 7 bundle holds. Memory is taken for its
/// references and its body, and only where the octets are a wrap.
pub fn read_wrap_new(alloc: Global, body: &[u8]) -> Result<Block6Like, BlockFault>
    // What is read is spelled so.
    ensures found { IfOk result (λ block. Spells (wrap_new (length body.now)) [] body.now block) }
    // What is spelled so is read, unless memory runs out.
    ensures only { (block : Block6Like) → Spells (wrap_new (length body.now)) [] body.now block
        → (result ≡ Ok block) ⊎ (result ≡ Err BlockFault.Memory) }
    // All else is refused, for one reason.
    ensures bad { (result ≡ Err BlockFault.Bad) ↔ SpellsNone (wrap_new (length body.now)) body.now }
    // What is held is an extension block, where it isn't marked itself.
    ensures block { IfOk result (λ block. is_marked block.kind block.body ≡ false → IsBlock6 block) }
    ensures exact { GivesBody result (read_whole (wrap_new (length body.now)) BlockFault.Bad body.now) }
{
    whole_wrap(alloc, body)
}

/// The block of version 6 that the body of a wrap in a version 7 bundle holds, with its references and
/// its body lent. No memory is taken.
pub fn lend_wrap_new(body: &[u8]) -> Result<LentBlock6<'_>, BlockFault>
    ensures given { LendsBody block6_lent result
        (read_whole (wrap_new (length body.now)) BlockFault.Bad body.now) }
    ensures place { IfOk result (λ lent. lent.refs.at ≤ length lent.refs.text.now) }
{
    match wrap_at(body, 0) {
        Ok((lent, end)) if end == body.len() => Ok(lent),
        _ => Err(BlockFault::Bad),
    }
}

/// The block that the octets hold, if they are exactly a wrap.
fn whole_wrap(alloc: Global, body: &[u8]) -> Result<Block6Like, BlockFault>
    ensures { GivesBody result (read_whole (wrap_new (length body.now)) BlockFault.Bad body.now) }
{
    let lent = lend_wrap_new(body)?;
    Ok(Block6Like {
        kind: lent.kind,
        flags: lent.flags,
        refs: lent.refs.collect(alloc)?,
        body: Octets::from_slice(alloc, lent.body)?,
    })
}

/// The fields of a wrap.
#[tactic(auto, unfolding(crate::specs::Wrap::wrap_new))]
fn wrap_at(text: &[u8], at: usize) -> Result<(LentBlock6<'_>, usize), Unfit>
    requires { at ≤ length text.now }
    ensures within { IfOk result (λ x. IsOn at text.now x.1) }
    ensures exact { Gives block6_lent refusal result (read (wrap_new (length text.now)) text.now at) }
    ensures place { IfOk result (λ x. x.0.refs.at ≤ length x.0.refs.text.now) }
{
    let (_, at) = mark(text, at)?;
    let (kind, at) = kind_at(text, at)?;
    let (flags, at) = flags_without(text, at, BLOCK_MARKS)?;
    let (refs, at) = references_at(text, at)?;
    let (body, at) = all_left(text, at)?;
    let lent = LentBlock6 {
        kind,
        flags,
        refs,
        body,
    };
    Ok((lent, at))
}

/// A type of version 6 other than the payload's.
fn kind_at(text: &[u8], at: usize) -> Result<(u8, usize), Unfit>
    requires { at ≤ length text.now }
    ensures within { IfOk result (λ x. IsOn at text.now x.1) }
    ensures exact { Gives (λ n. n) refusal result (read kind6 text.now at) }
{
    let (kind, behind) = shortest(text, at)?;
    if kind >= 256 || kind == 1 {
        return Err(Unfit {
            at,
            miss: Miss::Absent,
        });
    }
    Ok((kind as u8, behind))
}

/// The references: how many there are, and each.
#[tactic(auto, unfolding(crate::specs::Wrap::references))]
fn references_at(text: &[u8], at: usize) -> Result<(Names<'_>, usize), Unfit>
    requires { at ≤ length text.now }
    ensures within { IfOk result (λ x. IsOn at text.now x.1) }
    ensures exact { Gives names_lent refusal result (read references text.now at) }
    ensures place { IfOk result (λ x. x.0.at ≤ length x.0.text.now) }
{
    let (count, at) = shortest(text, at)?;
    names_at(text, at, count)
}

/// So many endpoints, of which only the place is kept.
fn names_at(text: &[u8], at: usize, count: u64) -> Result<(Names<'_>, usize), Unfit>
    requires { at ≤ length text.now }
    ensures within { IfOk result (λ x. IsOn at text.now x.1) }
    ensures exact { Gives names_lent refusal result (read (listed count (λ earlier. name)) text.now at) }
    ensures place { IfOk result (λ x. x.0.at ≤ length x.0.text.now) }
{
    let mut behind = at;
    'passing: for _ in 0..count {
        let (_, after) = name(text, behind)?;
        behind = after;
    }
    Ok((Names { text, at, count }, behind))
}

impl<'a> Names<'a> {
    /// The endpoints, each copied out of the text.
    fn collect(self, alloc: Global) -> Result<Refs, BlockFault>
        requires { self.at ≤ length self.text.now }
        ensures found { IfOk result (λ refs. refs ≡ names_lent self.entry) }
        // They were all found, so only memory can be missing.
        ensures fault { IfErr result (λ fault. fault ≡ BlockFault.Memory) }
    {
        let mut refs = Listing::new(alloc);
        let mut behind = self.at;
        'copying: for _ in 0..self.count {
            let Ok((text, after)) = name(self.text, behind) else {
                return Err(BlockFault::Memory);
            };
            let Ok(endpoint) = Endpoint::from_text(alloc, text) else {
                return Err(BlockFault::Memory);
            };
            refs.push(endpoint.lent())?;
            behind = after;
        }
        Ok(refs.into_refs(alloc)?)
    }
}
