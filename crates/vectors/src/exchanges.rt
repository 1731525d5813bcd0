//! Recorded exchanges of engine 2 with its peer 1, entry by entry.

use crate::lines::{is_so, octets};
use ltp_audit::{Audit, AuditFault, Rule};
use ltp_segment::SegmentCause;
use std::alloc::Global;
use std::test::Fail;

/// Whether the datagram left engine 2; the datagram; and the rule that it breaks, if it breaks one.
type Row = (bool, &'static str, Option<Rule>);

/// Why an entry isn't accepted that breaks a rule.
fn fault(broken: Option<Rule>) -> Option<AuditFault> {
    match broken {
        Some(rule) => Some(AuditFault::Broken { rule }),
        None => None,
    }
}

/// Why an audit doesn't accept a datagram in hex, where it doesn't.
fn fault_at(
    alloc: Global,
    audit: &mut Audit,
    out: bool,
    text: &str,
) -> Result<Option<AuditFault>, Fail> {
    let datagram = octets(alloc, text)?;
    Ok(audit.add(out, &datagram).err())
}

/// An audit answers these entries so, one after another.
fn play(alloc: Global, audit: &mut Audit, rows: &[Row]) -> Result<(), Fail> {
    for &(out, text, broken) in rows {
        is_so(fault_at(alloc, audit, out, text)? == fault(broken), text)?;
    }
    Ok(())
}

/// An audit of engine 2 answers these entries so.
fn goes(alloc: Global, rows: &[Row]) -> Result<(), Fail> {
    let mut audit = Audit::new(alloc, 2, 1);
    play(alloc, &mut audit, rows)
}

/// A red part, its report and the acknowledgement of that. What is broken leaves all as before, so
/// an exchange goes on after it.
const ONE_SESSION: &[Row] = &[
    (true, "0801070008080300010003", Some(Rule::ClaimUnseen)),
    (false, "0901070008", Some(Rule::AckUnseen)),
    (true, "030107000100030800616263", Some(Rule::Side)),
    (false, "030107000100030800616263", None),
    (false, "0801070008080300010003", Some(Rule::Side)),
    (false, "0901070008", Some(Rule::AckUnseen)),
    (true, "0801070008090300010003", Some(Rule::CheckpointUnseen)),
    (true, "0801070008080400010004", Some(Rule::ClaimUnseen)),
    (true, "0801070008080300010003", None),
    (false, "0901070009", Some(Rule::AckUnseen)),
    (false, "0901080008", Some(Rule::AckUnseen)),
    (false, "0901070008", None),
    (false, "0901070000", Some(Rule::AckUnseen)),
];

/// Octets that stay, and octets that change: in a piece that comes again, in one that overlaps, and
/// in none of another session.
const OCTETS: &[Row] = &[
    (false, "00010700013e04aabbccdd", None),
    (false, "00010700013e04aabbccdd", None),
    (false, "00010700014002cce0", Some(Rule::OctetsDiffer)),
    (false, "00010700014002ccdd", None),
    (false, "00010700013d02eeaa", None),
    (false, "00010700013d02efaa", Some(Rule::OctetsDiffer)),
    (false, "00010800013d02efaa", None),
    (false, "04010700013d02efaa", None),
    (true, "0801070001004200013d05", None),
    (true, "0801070002004300013d06", Some(Rule::ClaimUnseen)),
];

/// Cancels of either side, and a session of the engine itself.
const CANCELS: &[Row] = &[
    (true, "0d010700", Some(Rule::CancelUnseen)),
    (false, "0c01070000", None),
    (false, "0d010700", Some(Rule::Side)),
    (true, "0d010700", None),
    (false, "0f010700", Some(Rule::CancelUnseen)),
    (true, "0e01070002", None),
    (false, "0f010700", None),
    (true, "0c02010000", None),
    (false, "0d020100", None),
    (false, "0d020200", Some(Rule::CancelUnseen)),
    (false, "0c03010000", Some(Rule::Side)),
];

#[test]
fn a_claim_and_an_acknowledgement_are_of_what_came(rt: HostRuntime) -> Result<(), Fail> {
    goes(rt.alloc(), ONE_SESSION)
}

#[test]
fn red_octets_do_not_change(rt: HostRuntime) -> Result<(), Fail> {
    goes(rt.alloc(), OCTETS)
}

#[test]
fn a_cancel_is_acknowledged_after_it(rt: HostRuntime) -> Result<(), Fail> {
    goes(rt.alloc(), CANCELS)
}

/// What is no segment; the place of what is wrong; and what is wrong there.
type Form = (&'static str, usize, SegmentCause);

const FORMS: &[Form] = &[
    ("", 0, SegmentCause::Truncated),
    ("0801070008080300010000", 10, SegmentCause::Claim),
];

/// An audit refuses each of these at its place.
fn refuses(alloc: Global, audit: &mut Audit, rows: &[Form]) -> Result<(), Fail> {
    for &(text, at, cause) in rows {
        let form = AuditFault::Form { at, cause };
        is_so(fault_at(alloc, audit, true, text)? == Some(form), text)?;
    }
    Ok(())
}

#[test]
fn what_is_no_segment_is_refused_at_its_place(rt: HostRuntime) -> Result<(), Fail> {
    let mut audit = Audit::new(rt.alloc(), 2, 1);
    refuses(rt.alloc(), &mut audit, FORMS)
}
