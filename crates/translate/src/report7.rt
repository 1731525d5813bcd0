//! The status report that an administrative bundle of version 7 carries.

ghost use Rattle.std.specs.Prelude.{◌≡◌, ◌==◌, ◌≤◌, false, not, [], ◌∷◌, IfOk, IfSome, option_map};
ghost use Rattle.bundle_meaning.specs.Reports.{untimed, no_time, no_time_of};
ghost use Rattle.status_reports.specs.Legal.{IsReport7};
ghost use Rattle.status_reports.specs.Order.{answer7};
ghost use Rattle.status_reports.specs.Views.{report7_lent};
ghost use Rattle.translate.specs.Admin.{admin_cause, lacks_report7, takes_parts, content7};
ghost use Rattle.translate.specs.Refusals.{first_that_holds};
ghost use Rattle.translate.specs.Reading7.{carried7, content7_of};

use crate::reading6::ADMINISTRATIVE;
use crate::refused::Refused;
use crate::report6::refused_by;
use bundle_meaning::{Content, Stamp};
use bundle6::has_bit;
use bundle7::Bundle7;
use status_reports::{LentReport7, lend7};
use std::alloc::{AllocError, Global};

/// Why an administrative bundle isn't translated, where it carries no report that has a counterpart. No
/// memory is taken.
pub(crate) fn admin_refusal7(bundle: &Bundle7) -> Option<Refused>
    ensures { result ≡ first_that_holds
        ((
          admin_cause (answer7 bundle.now.payload.body),
          lacks_report7 bundle.now.primary.flags bundle.now.payload.body,
        ) ∷ []) }
{
    if !has_bit(bundle.primary.flags, ADMINISTRATIVE) {
        return None;
    }
    match lend7(bundle.payload.body.as_slice()) {
        Ok(report) if report.has_counterpart() => None,
        Ok(_) => Some(Refused::BadAdmin),
        Err(fault) => Some(refused_by(fault)),
    }
}

/// The report that a bundle carries, lent out of its payload.
fn carried7(bundle: &Bundle7) -> Option<LentReport7<'_>>
    ensures legal { IfSome result (λ lent. IsReport7 (report7_lent lent)) }
    ensures exact { option_map report7_lent result ≡ carried7 bundle.now }
{
    if !has_bit(bundle.primary.flags, ADMINISTRATIVE) {
        return None;
    }
    lend7(bundle.payload.body.as_slice()).ok()
}

/// Whether a residue may say that the report's times have these parts below one millisecond.
pub(crate) fn takes_parts(bundle: &Bundle7, rests: &[u32; 4]) -> bool
    ensures { result ≡ takes_parts (carried7 bundle.now) rests.now }
{
    match carried7(bundle) {
        Some(report) => report.takes(rests),
        None => rests.iter().all(|rest| *rest == 0),
    }
}

/// What the payload says, where its times have these parts below one millisecond.
pub(crate) fn content7(
    alloc: Global,
    bundle: &Bundle7,
    rests: [u32; 4],
) -> Result<Content, AllocError>
    ensures { IfOk result (λ content. content ≡ content7 (carried7 bundle.now) rests bundle.now.payload.body) }
{
    match carried7(bundle) {
        Some(report) => Ok(Content::Report(report.shared(alloc, rests)?)),
        None => Ok(Content::Bytes(bundle.payload.body.copy(alloc)?)),
    }
}

/// The statuses of the report that have no time, by bit. Without a report there are none.
pub(crate) fn no_time7(bundle: &Bundle7) -> u8
    ensures { result ≡ no_time_of (content7_of bundle.now) }
{
    match carried7(bundle) {
        Some(report) => no_time(&report.stamps),
        None => 0,
    }
}

/// The statuses that have no time, by bit: 1 received, 4 forwarded, 8 delivered, 16 deleted.
fn no_time(stamps: &[Stamp; 4]) -> u8
    ensures { result ≡ no_time stamps.now }
{
    untimed(stamps[0], 1) + untimed(stamps[1], 4) + untimed(stamps[2], 8) + untimed(stamps[3], 16)
}

/// A bit where the status is reported without a time.
fn untimed(stamp: Stamp, bit: u8) -> u8
    ensures value { result ≡ untimed stamp bit }
    ensures least { result ≤ bit }
{
    match stamp {
        Stamp::Yes => bit,
        Stamp::No | Stamp::At(_) => 0,
    }
}
