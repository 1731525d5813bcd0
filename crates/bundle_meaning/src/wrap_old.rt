//! The wrap in a version 6 bundle: a block of version 7.

ghost use Rattle.std.specs.Prelude.{◌≡◌, ◌⊎◌, ◌↔◌, ◌≤◌, ◌<◌, [], length, false, IfOk};
ghost use Rattle.wire_fields.specs.Format.{Spells};
ghost use Rattle.wire_fields.specs.Reading.{read};
ghost use Rattle.wire_fields.specs.Whole.{read_whole};
ghost use Rattle.wire_fields.specs.Gives.{Gives, IsOn};
ghost use Rattle.bundle_meaning.specs.Body.{refusal, GivesBody, LendsBody, SpellsNone, IsWritten};
ghost use Rattle.bundle_meaning.specs.Blocks.{IsBlock7, is_marked};
ghost use Rattle.bundle_meaning.specs.Wrap.{kind7, number7, wrap_old, wrap_old_octets};
ghost use Rattle.bundle_meaning.specs.Views.{block7_lent};

use crate::blocks::Block7Like;
use crate::fault::BlockFault;
use crate::field::{Unfit, all_left, below, mark, shortest};
use crate::writing::{NUMBER, begin, write_numbers};
use endpoint::Octets;
use std::alloc::{AllocError, Global};
use wire_fields::Miss;

/// A block of version 7 whose body is lent.
#[derive(Clone, Copy)]
pub struct LentBlock7<'a> {
    /// The block's type, not 1.
    pub kind: u64,
    /// The block's number, at least 2.
    pub number: u64,
    /// The block's flags.
    pub flags: u64,
    /// The block's check: 0 none, 1 CRC-16 X-25, 2 CRC-32C.
    pub crc: u8,
    /// Its octets.
    pub body: &'a [u8],
}

/// The body of the wrap that holds a block of version 7 in version 6.
pub fn write_wrap_old(alloc: Global, block: &Block7Like) -> Result<Octets, AllocError>
    requires { IsBlock7 block.now }
    ensures { IfOk result (λ octets. IsWritten (wrap_old (length octets)) block.now
        (wrap_old_octets block.now) octets) }
{
    let mut out = begin(alloc, block.body.len().saturating_add(4 * NUMBER))?;
    write_numbers(
        &[block.kind, block.number, block.flags, u64::from(block.crc)],
        &mut out,
    )?;
    out.extend_from_slice(block.body.as_slice())?;
    Ok(Octets::from_vec(out))
}

/// The block of version 7 that the body of a wrap in a version 6 bundle holds. Memory is taken for its
/// body, and only where the octets are a wrap.
pub fn read_wrap_old(alloc: Global, body: &[u8]) -> Result<Block7Like, BlockFault>
    // What is read is spelled so.
    ensures found { IfOk result (λ block. Spells (wrap_old (length body.now)) [] body.now block) }
    // What is spelled so is read, unless memory runs out.
    ensures only { (block : Block7Like) → Spells (wrap_old (length body.now)) [] body.now block
        → (result ≡ Ok block) ⊎ (result ≡ Err BlockFault.Memory) }
    // All else is refused, for one reason.
    ensures bad { (result ≡ Err BlockFault.Bad) ↔ SpellsNone (wrap_old (length body.now)) body.now }
    // What is held is an extension block, where it isn't marked itself.
    ensures block { IfOk result (λ block. is_marked block.kind block.body ≡ false → IsBlock7 block) }
    ensures exact { GivesBody result (read_whole (wrap_old (length body.now)) BlockFault.Bad body.now) }
{
    whole_wrap(alloc, body)
}

/// The block of version 7 that the body of a wrap in a version 6 bundle holds, with its body lent. No
/// memory is taken.
pub fn lend_wrap_old(body: &[u8]) -> Result<LentBlock7<'_>, BlockFault>
    ensures { LendsBody block7_lent result
        (read_whole (wrap_old (length body.now)) BlockFault.Bad body.now) }
{
    match wrap_at(body, 0) {
        Ok((lent, end)) if end == body.len() => Ok(lent),
        _ => Err(BlockFault::Bad),
    }
}

/// The block that the octets hold, if they are exactly a wrap.
fn whole_wrap(alloc: Global, body: &[u8]) -> Result<Block7Like, BlockFault>
    ensures { GivesBody result (read_whole (wrap_old (length body.now)) BlockFault.Bad body.now) }
{
    let lent = lend_wrap_old(body)?;
    Ok(Block7Like {
        kind: lent.kind,
        number: lent.number,
        flags: lent.flags,
        crc: lent.crc,
        body: Octets::from_slice(alloc, lent.body)?,
    })
}

/// The fields of a wrap.
#[tactic(auto, unfolding(crate::specs::Wrap::wrap_old))]
fn wrap_at(text: &[u8], at: usize) -> Result<(LentBlock7<'_>, usize), Unfit>
    requires { at ≤ length text.now }
    ensures within { IfOk result (λ x. IsOn at text.now x.1) }
    ensures exact { Gives block7_lent refusal result (read (wrap_old (length text.now)) text.now at) }
{
    let (_, at) = mark(text, at)?;
    let (kind, at) = kind_at(text, at)?;
    let (number, at) = number_at(text, at)?;
    let (flags, at) = shortest(text, at)?;
    let (crc, at) = below(text, at, 3)?;
    let (body, at) = all_left(text, at)?;
    let lent = LentBlock7 {
        kind,
        number,
        flags,
        crc: crc as u8,
        body,
    };
    Ok((lent, at))
}

/// A type other than the payload's.
fn kind_at(text: &[u8], at: usize) -> Result<(u64, usize), Unfit>
    requires { at ≤ length text.now }
    ensures within { IfOk result (λ x. IsOn at text.now x.1) }
    ensures exact { Gives (λ n. n) refusal result (read kind7 text.now at) }
{
    let (kind, behind) = shortest(text, at)?;
    if kind == 1 {
        return Err(Unfit {
            at,
            miss: Miss::Absent,
        });
    }
    Ok((kind, behind))
}

/// A number other than the payload's.
fn number_at(text: &[u8], at: usize) -> Result<(u64, usize), Unfit>
    requires { at ≤ length text.now }
    ensures within { IfOk result (λ x. IsOn at text.now x.1) }
    ensures exact { Gives (λ n. n) refusal result (read number7 text.now at) }
{
    let (number, behind) = shortest(text, at)?;
    if number < 2 {
        return Err(Unfit {
            at,
            miss: Miss::Absent,
        });
    }
    Ok((number, behind))
}
