//! The residue in a version 6 bundle.

ghost use Rattle.std.specs.Prelude.{◌≡◌, ◌≢◌, ◌↔◌, ◌≤◌, [], length, IfOk};
ghost use Rattle.wire_fields.specs.Format.{Spells};
ghost use Rattle.wire_fields.specs.Reading.{read};
ghost use Rattle.wire_fields.specs.Whole.{read_whole};
ghost use Rattle.wire_fields.specs.Gives.{Gives, IsOn};
ghost use Rattle.bundle_meaning.specs.Body.{refusal, GivesBody, SpellsNone, IsWritten};
ghost use Rattle.bundle_meaning.specs.Residue.{residue_old, residue_old_of, residue_old_octets};
ghost use Rattle.bundle_meaning.specs.Reports.{no_time, no_time_of, untimed};
ghost use Rattle.bundle_meaning.specs.Valid.{IsValid};

use crate::bits::{BLOCK_COMMON, COMMON, STATUSES};
use crate::expiry::slack;
use crate::extra::Extra7;
use crate::fault::BlockFault;
use crate::field::{Unfit, below, flags_within, flags_without, mark};
use crate::full::Full;
use crate::report::Stamp;
use crate::shared::Content;
use crate::writing::{NUMBER, begin, write_numbers};
use endpoint::Octets;
use std::alloc::{AllocError, Global};

/// What a residue in a version 6 bundle carries.
#[derive(Clone, Copy, Debug, PartialEq, Eq)]
pub struct ResidueOld {
    /// How many milliseconds before its whole seconds are over the bundle expires, 0 to 999.
    pub slack: u64,
    /// What only version 7 says.
    pub extra7: Extra7,
    /// The statuses of the bundle's report that have no time: 1 received, 4 forwarded, 8 delivered,
    /// 16 deleted.
    pub no_time: u8,
}

/// The body of a record's residue in version 6.
pub fn write_residue_old(alloc: Global, full: &Full) -> Result<Octets, AllocError>
    requires { IsValid full.now }
    ensures { IfOk result (IsWritten residue_old (residue_old_of full.now)
        (residue_old_octets (residue_old_of full.now))) }
{
    let extra = full.extra7;
    let mut out = begin(alloc, 6 * NUMBER)?;
    write_numbers(
        &[
            slack(full),
            extra.flags,
            u64::from(extra.crc),
            u64::from(extra.payload_crc),
            extra.payload_flags,
            u64::from(no_time(&full.shared.content)),
        ],
        &mut out,
    )?;
    Ok(Octets::from_vec(out))
}

/// What the body of a residue in a version 6 bundle says. No memory is taken.
pub fn read_residue_old(body: &[u8]) -> Result<ResidueOld, BlockFault>
    // What is read is spelled so.
    ensures found { IfOk result (λ residue. Spells residue_old [] body.now residue) }
    // What is spelled so is read.
    ensures only { (residue : ResidueOld) → Spells residue_old [] body.now residue → result ≡ Ok residue }
    // All else is refused, for one reason.
    ensures bad { (result ≡ Err BlockFault.Bad) ↔ SpellsNone residue_old body.now }
    ensures sure { result ≢ Err BlockFault.Memory }
    ensures exact { GivesBody result (read_whole residue_old BlockFault.Bad body.now) }
{
    whole_residue(body)
}

/// What the octets say, if they are exactly the fields of a residue.
fn whole_residue(body: &[u8]) -> Result<ResidueOld, BlockFault>
    ensures sure { result ≢ Err BlockFault.Memory }
    ensures exact { GivesBody result (read_whole residue_old BlockFault.Bad body.now) }
{
    match residue_at(body, 0) {
        Ok((residue, end)) if end == body.len() => Ok(residue),
        _ => Err(BlockFault::Bad),
    }
}

/// The fields of a residue.
#[tactic(auto, unfolding(crate::specs::Residue::residue_old))]
fn residue_at(text: &[u8], at: usize) -> Result<(ResidueOld, usize), Unfit>
    requires { at ≤ length text.now }
    ensures within { IfOk result (λ x. IsOn at text.now x.1) }
    ensures exact { Gives (λ residue. residue) refusal result (read residue_old text.now at) }
{
    let (_, at) = mark(text, at)?;
    let (slack, at) = below(text, at, 1000)?;
    let (flags, at) = flags_without(text, at, COMMON)?;
    let (crc, at) = below(text, at, 3)?;
    let (payload_crc, at) = below(text, at, 3)?;
    let (payload_flags, at) = flags_without(text, at, BLOCK_COMMON)?;
    let (no_time, at) = flags_within(text, at, STATUSES)?;
    let residue = ResidueOld {
        slack,
        extra7: Extra7 {
            flags,
            crc: crc as u8,
            payload_crc: payload_crc as u8,
            payload_flags,
        },
        no_time: no_time as u8,
    };
    Ok((residue, at))
}

/// The statuses of a report that have no time, by bit: 1 received, 4 forwarded, 8 delivered, 16 deleted.
/// Without a report there are none.
pub fn no_time(content: &Content) -> u8
    ensures { result ≡ no_time_of content.now }
{
    match content {
        Content::Bytes(_) => 0,
        Content::Report(report) => {
            let stamps = report.stamps;
            untimed(stamps[0], 1)
                + untimed(stamps[1], 4)
                + untimed(stamps[2], 8)
                + untimed(stamps[3], 16)
        }
    }
}

/// A bit where the status is reported without a time.
fn untimed(stamp: Stamp, bit: u8) -> u8
    ensures value { result ≡ untimed stamp bit }
    ensures least { result ≤ bit }
{
    match stamp {
        Stamp::Yes => bit,
        Stamp::No | Stamp::At(_) => 0,
    }
}
