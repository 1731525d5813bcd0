//! The residue in a version 7 bundle.

ghost use Rattle.std.specs.Prelude.{◌≡◌, ◌⊎◌, ◌↔◌, ◌++◌, ◌≤◌, ◌<◌, [], length, IfOk, OnOk};
ghost use Rattle.wire_fields.specs.Format.{Spells};
ghost use Rattle.wire_fields.specs.Reading.{read};
ghost use Rattle.wire_fields.specs.Whole.{read_whole};
ghost use Rattle.wire_fields.specs.Gives.{Gives, IsOn};
ghost use Rattle.bundle_meaning.specs.Body.{refusal, below, numbers_octets, GivesBody, LendsBody, SpellsNone, IsWritten};
ghost use Rattle.bundle_meaning.specs.Residue.{four_rests, residue_new, residue_new_of, residue_new_octets};
ghost use Rattle.bundle_meaning.specs.Views.{residue_lent};
ghost use Rattle.bundle_meaning.specs.Reports.{rests_of};
ghost use Rattle.bundle_meaning.specs.Valid.{IsValid};

use crate::bits::{BLOCK_NOT_OWN6, NOT_OWN6};
use crate::extra::Extra6;
use crate::fault::BlockFault;
use crate::field::{Unfit, below, flags_without, mark, name, shortest};
use crate::full::Full;
use crate::shared::Content;
use crate::writing::{NUMBER, begin, write_name, write_numbers};
use endpoint::{Endpoint, Octets};
use std::alloc::{AllocError, Global};

/// What a residue in a version 7 bundle carries.
#[derive(Debug, Drop)]
pub struct ResidueNew {
    /// What only version 6 says.
    pub extra6: Extra6,
    /// Of the times of the bundle's report the parts below one millisecond, in nanoseconds: received,
    /// forwarded, delivered and deleted.
    pub rests: [u32; 4],
}

/// A residue whose custodian is the text of an endpoint, lent.
#[derive(Clone, Copy)]
pub struct LentResidue<'a> {
    /// The bundle's flags that version 7 hasn't.
    pub flags: u64,
    /// The text of the bundle's custodian.
    pub custodian: &'a [u8],
    /// The payload block's flags that version 7 hasn't.
    pub payload_flags: u64,
    /// How many of the extension blocks stand after the payload, or more.
    pub after: u64,
    /// The parts of a report's times below one millisecond, in nanoseconds.
    pub rests: [u32; 4],
}

/// The body of a record's residue in version 7.
pub fn write_residue_new(alloc: Global, full: &Full) -> Result<Octets, AllocError>
    requires { IsValid full.now }
    ensures { IfOk result (IsWritten residue_new (residue_new_of full.now)
        (residue_new_octets (residue_new_of full.now))) }
{
    let extra = &full.extra6;
    let mut out = begin(alloc, 7 * NUMBER)?;
    write_numbers(&[extra.flags], &mut out)?;
    write_name(alloc, &extra.custodian, &mut out)?;
    write_numbers(&[extra.payload_flags, extra.after], &mut out)?;
    write_rests(&rests(&full.shared.content), &mut out)?;
    Ok(Octets::from_vec(out))
}

/// What the body of a residue in a version 7 bundle says. Memory is taken for a custodian of the scheme
/// dtn, and only where the octets are a body.
pub fn read_residue_new(alloc: Global, body: &[u8]) -> Result<ResidueNew, BlockFault>
    // What is read is spelled so.
    ensures found { IfOk result (λ residue. Spells residue_new [] body.now residue) }
    // What is spelled so is read, unless memory runs out.
    ensures only { (residue : ResidueNew) → Spells residue_new [] body.now residue
        → (result ≡ Ok residue) ⊎ (result ≡ Err BlockFault.Memory) }
    // All else is refused, for one reason.
    ensures bad { (result ≡ Err BlockFault.Bad) ↔ SpellsNone residue_new body.now }
    ensures exact { GivesBody result (read_whole residue_new BlockFault.Bad body.now) }
{
    whole_residue(alloc, body)
}

/// What the body of a residue in a version 7 bundle says, with the custodian's text lent. No memory is
/// taken.
pub fn lend_residue_new(body: &[u8]) -> Result<LentResidue<'_>, BlockFault>
    ensures { LendsBody residue_lent result (read_whole residue_new BlockFault.Bad body.now) }
{
    match residue_at(body, 0) {
        Ok((lent, end)) if end == body.len() => Ok(lent),
        _ => Err(BlockFault::Bad),
    }
}

/// What the octets say, if they are exactly the fields of a residue.
fn whole_residue(alloc: Global, body: &[u8]) -> Result<ResidueNew, BlockFault>
    ensures { GivesBody result (read_whole residue_new BlockFault.Bad body.now) }
{
    let lent = lend_residue_new(body)?;
    // It is an endpoint's text, so only memory can be missing.
    let Ok(custodian) = Endpoint::from_text(alloc, lent.custodian) else {
        return Err(BlockFault::Memory);
    };
    Ok(ResidueNew {
        extra6: Extra6 {
            flags: lent.flags,
            custodian,
            payload_flags: lent.payload_flags,
            after: lent.after,
        },
        rests: lent.rests,
    })
}

/// The fields of a residue.
#[tactic(auto, unfolding(crate::specs::Residue::residue_new))]
fn residue_at(text: &[u8], at: usize) -> Result<(LentResidue<'_>, usize), Unfit>
    requires { at ≤ length text.now }
    ensures within { IfOk result (λ x. IsOn at text.now x.1) }
    ensures exact { Gives residue_lent refusal result (read residue_new text.now at) }
{
    let (_, at) = mark(text, at)?;
    let (flags, at) = flags_without(text, at, NOT_OWN6)?;
    let (custodian, at) = name(text, at)?;
    let (payload_flags, at) = flags_without(text, at, BLOCK_NOT_OWN6)?;
    let (after, at) = shortest(text, at)?;
    let (rests, at) = rests_at(text, at)?;
    let lent = LentResidue {
        flags,
        custodian,
        payload_flags,
        after,
        rests,
    };
    Ok((lent, at))
}

/// The parts of four times below one millisecond.
#[tactic(auto, unfolding(crate::specs::Residue::four_rests))]
fn rests_at(text: &[u8], at: usize) -> Result<([u32; 4], usize), Unfit>
    requires { at ≤ length text.now }
    ensures within { IfOk result (λ x. IsOn at text.now x.1) }
    ensures exact { Gives (λ rests. rests) refusal result (read four_rests text.now at) }
{
    let (received, at) = rest_at(text, at)?;
    let (forwarded, at) = rest_at(text, at)?;
    let (delivered, at) = rest_at(text, at)?;
    let (deleted, at) = rest_at(text, at)?;
    Ok(([received, forwarded, delivered, deleted], at))
}

/// The part of a time below one millisecond, in nanoseconds.
fn rest_at(text: &[u8], at: usize) -> Result<(u32, usize), Unfit>
    requires { at ≤ length text.now }
    ensures within { IfOk result (λ x. IsOn at text.now x.1) }
    ensures exact { Gives (λ rest. rest) refusal result (read (below 1000000) text.now at) }
{
    let (rest, behind) = below(text, at, 1_000_000)?;
    Ok((rest as u32, behind))
}

/// The parts of a report's times below one millisecond. Without a report they are 0.
fn rests(content: &Content) -> [u32; 4]
    ensures { result ≡ rests_of content.now }
{
    match content {
        Content::Bytes(_) => [0; 4],
        Content::Report(report) => report.rests,
    }
}

/// Appends these parts.
fn write_rests(rests: &[u32], out: &mut Vec<u8>) -> Result<(), AllocError>
    ensures { OnOk result (out.new.items ≡ out.old.items ++ numbers_octets rests.now) }
{
    for rest in rests {
        sdnv::write(u64::from(*rest), out)?;
    }
    Ok(())
}
