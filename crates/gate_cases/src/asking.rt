//! Which status report a bundle asks for.

ghost use Rattle.std.specs.Prelude.{◌≡◌, ◌<◌, ◌^◌, ◌&&◌, true, not, length, IfOk, OnErr};
ghost use Rattle.bundle6.specs.Bits.{has_bit};
ghost use Rattle.bundle6.specs.Legal.{IsLegal};
ghost use Rattle.bundle7.specs.Legal.{IsLegal7};
ghost use Rattle.translate.specs.Reading6.{payload_in};
ghost use Rattle.endpoint.specs.Endpoints.{is_null};
ghost use Rattle.gate_cases.specs.Blocks.{part_of, subject6, subject7};
ghost use Rattle.gate_cases.specs.Reports.{is_passed, is_deleted, is_any, statuses_of, is_asked, asked};
ghost use Rattle.gate_cases.specs.Promises.{AreAskable};

use crate::case::GateCase;
use crate::report::{AskedReport, Creation, Statuses};
use bundle_meaning::{Id6, Id7, Part};
use bundle6::{Block6, Bundle6, has_bit};
use bundle7::Bundle7;
use endpoint::{Endpoint, Fragment};
use std::alloc::{AllocError, Global};

/// Bundle flags: an administrative record is carried.
const ADMINISTRATIVE: u32 = 1;
/// Of version 7: reports give times.
const TIMED: u32 = 6;
/// A report on reception is asked for.
const RECEPTION: u32 = 14;
/// A report on forwarding is asked for.
const FORWARDING: u32 = 16;
/// A report on deletion is asked for.
const DELETION: u32 = 18;

/// The type of the payload block.
const PAYLOAD: u8 = 1;

/// The report that a version 6 bundle asks for in a case. Memory is wanted only where it asks for one.
pub fn asked6(
    alloc: Global,
    bundle: &Bundle6,
    case: GateCase,
) -> Result<Option<AskedReport>, AllocError>
    requires { IsLegal bundle.now }
    ensures exact { IfOk result (λ report. report ≡ asked (subject6 bundle.now) case) }
    ensures memory { OnErr result (is_asked (subject6 bundle.now) case ≡ true) }
    ensures askable { IfOk result AreAskable }
{
    let primary = &bundle.primary;
    if !is_asked(primary.flags, &primary.report_to, case) {
        return Ok(None);
    }
    Ok(Some(AskedReport {
        report_to: primary.report_to.copy(alloc)?,
        source: primary.source.copy(alloc)?,
        creation: Creation::Six(Id6 {
            seconds: primary.seconds,
            sequence: primary.sequence,
        }),
        fragment: part_of(primary.fragment, payload_len(bundle.blocks.as_slice())),
        statuses: statuses_of(primary.flags, case),
        reason: case.reason(),
        timed: true,
    }))
}

/// The report that a version 7 bundle asks for in a case. Memory is wanted only where it asks for one.
pub fn asked7(
    alloc: Global,
    bundle: &Bundle7,
    case: GateCase,
) -> Result<Option<AskedReport>, AllocError>
    requires { IsLegal7 bundle.now }
    ensures exact { IfOk result (λ report. report ≡ asked (subject7 bundle.now) case) }
    ensures memory { OnErr result (is_asked (subject7 bundle.now) case ≡ true) }
    ensures askable { IfOk result AreAskable }
{
    let primary = &bundle.primary;
    if !is_asked(primary.flags, &primary.report_to, case) {
        return Ok(None);
    }
    Ok(Some(AskedReport {
        report_to: primary.report_to.copy(alloc)?,
        source: primary.source.copy(alloc)?,
        creation: Creation::Seven(Id7 {
            millis: primary.millis,
            sequence: primary.sequence,
        }),
        fragment: part_of(primary.fragment, bundle.payload.body.len()),
        statuses: statuses_of(primary.flags, case),
        reason: case.reason(),
        timed: has_bit(primary.flags, TIMED),
    }))
}

/// Whether a bundle with these flags and this report-to asks for a report.
fn is_asked(flags: u64, report_to: &Endpoint, case: GateCase) -> bool
    ensures { result ≡ (not (has_bit 1 flags) && not (is_null report_to.now) && is_any (statuses_of flags case)) }
{
    !has_bit(flags, ADMINISTRATIVE) && !report_to.is_null() && is_any(statuses_of(flags, case))
}

/// The statuses that flags ask for.
fn statuses_of(flags: u64, case: GateCase) -> Statuses
    ensures { result ≡ statuses_of flags case }
{
    Statuses {
        received: has_bit(flags, RECEPTION),
        forwarded: has_bit(flags, FORWARDING) && is_passed(case),
        deleted: has_bit(flags, DELETION) && is_deleted(case),
    }
}

/// Whether there is one.
fn is_any(statuses: Statuses) -> bool
    ensures { result ≡ is_any statuses }
{
    statuses.received || statuses.forwarded || statuses.deleted
}

/// Whether the bundle goes on.
fn is_passed(case: GateCase) -> bool
    ensures { result ≡ is_passed case }
{
    matches!(case, GateCase::Passed)
}

/// Whether the bundle is deleted.
fn is_deleted(case: GateCase) -> bool
    ensures { result ≡ is_deleted case }
{
    match case {
        GateCase::BadBundle { .. } | GateCase::Passed => false,
        GateCase::Untranslated { .. }
        | GateCase::Expired
        | GateCase::HopLimit
        | GateCase::Storage => true,
    }
}

/// The part of the whole that a payload of so many octets is.
fn part_of(fragment: Option<Fragment>, size: usize) -> Option<Part>
    ensures { result ≡ part_of fragment size }
{
    match fragment {
        None => None,
        Some(fragment) => Some(Part {
            offset: fragment.offset,
            length: size as u64,
        }),
    }
}

/// How many octets the payload has.
#[tactic(auto, unfolding(translate::specs::Reading6::payload_in))]
fn payload_len(blocks: &[Block6]) -> usize
    ensures { result ≡ length (payload_in blocks.now).body }
{
    'looking: for block in blocks {
        if block.kind == PAYLOAD {
            return block.body.len();
        }
    }
    0
}
