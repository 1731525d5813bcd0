//! The status report that an administrative bundle of version 6 carries.

ghost use Rattle.std.specs.Prelude.{◌≡◌, ◌==◌, true, false, [], ◌∷◌, IfOk, IfSome, option_map};
ghost use Rattle.std.specs.List.{list_all};
ghost use Rattle.status_reports.specs.Legal.{IsReport6};
ghost use Rattle.status_reports.specs.Order.{answer6};
ghost use Rattle.status_reports.specs.Pairing.{rests_of};
ghost use Rattle.status_reports.specs.Views.{report6_lent};
ghost use Rattle.translate.specs.Admin.{refused_by, admin_cause, lacks_report6, takes_mask, content6};
ghost use Rattle.translate.specs.Refusals.{first_that_holds};
ghost use Rattle.translate.specs.View7.{has_no_rest};
ghost use Rattle.translate.specs.Reading6.{payload_in, carried6, content6_of};

use crate::reading6::{ADMINISTRATIVE, payload};
use crate::refused::Refused;
use bundle_meaning::Content;
use bundle6::{Bundle6, has_bit};
use endpoint::Octets;
use status_reports::{AdminFault, LentReport6, Time6, lend6};
use std::alloc::{AllocError, Global};

/// How many nanoseconds a millisecond has.
const NANOS: u64 = 1_000_000;

/// Why a payload that is no status report isn't translated.
pub(crate) fn refused_by(fault: AdminFault) -> Refused
    ensures { result ≡ refused_by fault }
{
    match fault {
        AdminFault::CustodySignal => Refused::CustodySignal,
        AdminFault::CustodyReport => Refused::CustodyReport,
        AdminFault::AdminUnknown => Refused::AdminUnknown,
        AdminFault::BadAdmin | AdminFault::Memory => Refused::BadAdmin,
    }
}

/// The payload's octets.
fn payload_octets(bundle: &Bundle6) -> &[u8]
    ensures { result.now ≡ (payload_in bundle.now.blocks).body }
{
    match payload(bundle.blocks.as_slice()) {
        Some(block) => block.body.as_slice(),
        None => &[],
    }
}

/// Why an administrative bundle isn't translated, where it carries no report that has a counterpart. No
/// memory is taken.
pub(crate) fn admin_refusal6(bundle: &Bundle6) -> Option<Refused>
    ensures { result ≡ first_that_holds
        ((
          admin_cause (answer6 (payload_in bundle.now.blocks).body),
          lacks_report6 bundle.now.primary.flags (payload_in bundle.now.blocks).body,
        ) ∷ []) }
{
    if !has_bit(bundle.primary.flags, ADMINISTRATIVE) {
        return None;
    }
    match lend6(payload_octets(bundle)) {
        Ok(report) if report.has_counterpart() => None,
        Ok(_) => Some(Refused::BadAdmin),
        Err(fault) => Some(refused_by(fault)),
    }
}

/// The report that a bundle carries, lent out of its payload.
fn carried6(bundle: &Bundle6) -> Option<LentReport6<'_>>
    ensures legal { IfSome result (λ lent. IsReport6 (report6_lent lent)) }
    ensures exact { option_map report6_lent result ≡ carried6 bundle.now }
{
    if !has_bit(bundle.primary.flags, ADMINISTRATIVE) {
        return None;
    }
    lend6(payload_octets(bundle)).ok()
}

/// Whether a residue may say of the statuses of a mask that they have no time.
pub(crate) fn takes_mask(bundle: &Bundle6, no_time: u8) -> bool
    ensures { result ≡ takes_mask (carried6 bundle.now) no_time }
{
    match carried6(bundle) {
        Some(report) => report.takes(no_time),
        None => no_time == 0,
    }
}

/// What the payload says, where the statuses of a mask have no time.
pub(crate) fn content6(alloc: Global, bundle: &Bundle6, no_time: u8) -> Result<Content, AllocError>
    requires mask { takes_mask (carried6 bundle.now) no_time ≡ true }
    requires report { lacks_report6 bundle.now.primary.flags (payload_in bundle.now.blocks).body ≡ false }
    ensures { IfOk result (λ content.
        content ≡ content6 (carried6 bundle.now) no_time (payload_in bundle.now.blocks).body) }
{
    match carried6(bundle) {
        Some(report) => Ok(Content::Report(report.shared(alloc, no_time)?)),
        None => Ok(Content::Bytes(Octets::from_slice(alloc, payload_octets(bundle))?)),
    }
}

/// Whether no time of a report has a part below one millisecond.
pub(crate) fn has_no_rest6(bundle: &Bundle6) -> bool
    ensures { result ≡ has_no_rest (content6_of bundle.now) }
{
    match carried6(bundle) {
        Some(report) => are_whole_millis(&report.times),
        None => true,
    }
}

/// Whether times are whole milliseconds.
#[tactic(auto, unfolding(status_reports::specs::Pairing::rests_of))]
fn are_whole_millis(times: &[Time6; 4]) -> bool
    ensures { result ≡ list_all (λ rest. rest == 0) (rests_of times.now) }
{
    times[0].nanos % NANOS == 0
        && times[1].nanos % NANOS == 0
        && times[2].nanos % NANOS == 0
        && times[3].nanos % NANOS == 0
}
