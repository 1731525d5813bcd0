//! Status reports of version 7, read (RFC 9171, section 6.1.1).

ghost use Rattle.std.specs.Prelude.{◌≡◌, ◌⊎◌, ◌≤◌, [], length, IfOk, IsOkAnd, OnErr, Ok, Err};
ghost use Rattle.endpoint.specs.Endpoints.{IsDtn};
ghost use Rattle.wire_fields.specs.Format.{Spells};
ghost use Rattle.wire_fields.specs.Reading.{read};
ghost use Rattle.wire_fields.specs.Words.{optional};
ghost use Rattle.wire_fields.specs.Gives.{Gives, IsOn};
ghost use Rattle.status_reports.specs.Fields.{refusal};
ghost use Rattle.status_reports.specs.Table7.{stamp_items, stamp_octet, timed, stamp, stamps, report_items, reason, part7, inner, report7};
ghost use Rattle.status_reports.specs.Legal.{IsReport7};
ghost use Rattle.status_reports.specs.Spelling.{report7_octets};
ghost use Rattle.status_reports.specs.Order.{front7, cause7, answer7, Answers, SpellsNone};
ghost use Rattle.status_reports.specs.Views.{report7_lent, seen};

use crate::fault::AdminFault;
use crate::field::{Unfit, absent, exactly, item, octet, unsigned};
use crate::lent::LentEndpoint;
use crate::source7::source7_at;
use bundle_meaning::{Part, Stamp};
use endpoint::Endpoint;
use std::alloc::{AllocError, Global};
use wire_fields::{ARRAY, UNSIGNED};

/// A status report of version 7.
#[derive(Debug, Drop)]
pub struct Report7 {
    /// Received, forwarded, delivered and deleted.
    pub stamps: [Stamp; 4],
    /// The reason code.
    pub reason: u8,
    /// Who sent the subject.
    pub source: Endpoint,
    /// When the subject was made, in milliseconds since the start of the year 2000 UTC.
    pub millis: u64,
    /// Which of the bundles of that millisecond the subject is.
    pub sequence: u64,
    /// The part of the subject's payload, where the subject is a fragment.
    pub fragment: Option<Part>,
}

/// The same, with a source whose octets are lent out of the body.
#[derive(Clone, Copy, Debug)]
pub struct LentReport7<'a> {
    /// Received, forwarded, delivered and deleted.
    pub stamps: [Stamp; 4],
    /// The reason code.
    pub reason: u8,
    /// Who sent the subject.
    pub source: LentEndpoint<'a>,
    /// When the subject was made, in milliseconds since the start of the year 2000 UTC.
    pub millis: u64,
    /// Which of the bundles of that millisecond the subject is.
    pub sequence: u64,
    /// The part of the subject's payload, where the subject is a fragment.
    pub fragment: Option<Part>,
}

impl LentReport7<'_> {
    /// The report, with octets of its own. Only a source of the scheme dtn takes memory.
    pub fn owned(self, alloc: Global) -> Result<Report7, AllocError>
        ensures owned { IfOk result (λ report. report ≡ report7_lent self.entry) }
        ensures memory { OnErr result (IsDtn (report7_lent self.entry).source) }
    {
        Ok(Report7 {
            stamps: self.stamps,
            reason: self.reason,
            source: self.source.owned(alloc)?,
            millis: self.millis,
            sequence: self.sequence,
            fragment: self.fragment,
        })
    }
}

/// Reads the body of an administrative record of version 7 as a status report. Memory is taken for
/// a source of the scheme dtn, and only where the octets are a report.
pub fn read7(alloc: Global, body: &[u8]) -> Result<Report7, AdminFault>
    // What is read is spelled so.
    ensures found { IfOk result (λ report. Spells report7 [] body.now report) }
    // What is spelled so is read, unless memory runs out.
    ensures only { (report : Report7) → Spells report7 [] body.now report
        → (result ≡ Ok report) ⊎ (result ≡ Err AdminFault.Memory) }
    // All else is refused, for the first cause that holds.
    ensures refused { SpellsNone report7 body.now → result ≡ Err (cause7 body.now) }
    // It is a legal report, and the octets are its one spelling.
    ensures legal { IfOk result IsReport7 }
    ensures same { IfOk result (λ report. body.now ≡ report7_octets report) }
    // Memory runs out only where a report is spelled whose source is a dtn name.
    ensures memory { result ≡ Err AdminFault.Memory
        → IsOkAnd (answer7 body.now) (λ report. IsDtn report.source) }
    ensures exact { Answers result (answer7 body.now) }
{
    owned7(alloc, body)
}

/// The report, with octets of its own.
fn owned7(alloc: Global, body: &[u8]) -> Result<Report7, AdminFault>
    ensures exact { Answers result (answer7 body.now) }
    ensures memory { result ≡ Err AdminFault.Memory
        → IsOkAnd (answer7 body.now) (λ report. IsDtn report.source) }
{
    let lent = lend7(body)?;
    Ok(lent.owned(alloc)?)
}

/// Judges the body of an administrative record of version 7, and lends the report out of it. No
/// memory is taken.
pub fn lend7(body: &[u8]) -> Result<LentReport7<'_>, AdminFault>
    ensures legal { IfOk result (λ lent. IsReport7 (report7_lent lent)) }
    ensures exact { seen report7_lent result ≡ answer7 body.now }
{
    judged7(body)
}

/// The report that the octets are, and nothing more.
fn judged7(body: &[u8]) -> Result<LentReport7<'_>, AdminFault>
    ensures { seen report7_lent result ≡ answer7 body.now }
{
    match report_at(body, 0) {
        Ok((lent, end)) if end == body.len() => Ok(lent),
        _ => Err(cause7(body)),
    }
}

/// Why a body that spells no report is refused.
pub(crate) fn cause7(body: &[u8]) -> AdminFault
    ensures { result ≡ cause7 body.now }
{
    match front_at(body, 0) {
        Ok((1, _)) | Err(_) => AdminFault::BadAdmin,
        Ok(_) => AdminFault::AdminUnknown,
    }
}

/// The record type.
#[tactic(auto, unfolding(crate::specs::Order::front7))]
fn front_at(text: &[u8], at: usize) -> Result<(u64, usize), Unfit>
    requires { at ≤ length text.now }
    ensures within { IfOk result (λ x. IsOn at text.now x.1) }
    ensures exact { Gives (λ n. n) refusal result (read front7 text.now at) }
{
    let (_, at) = exactly(text, at, ARRAY, 2)?;
    unsigned(text, at)
}

/// The fields of a report.
#[tactic(auto, unfolding(crate::specs::Table7::report7))]
fn report_at(text: &[u8], at: usize) -> Result<(LentReport7<'_>, usize), Unfit>
    requires { at ≤ length text.now }
    ensures within { IfOk result (λ x. IsOn at text.now x.1) }
    ensures exact { Gives report7_lent refusal result (read report7 text.now at) }
{
    let (_, at) = exactly(text, at, ARRAY, 2)?;
    let (_, at) = exactly(text, at, UNSIGNED, 1)?;
    inner_at(text, at)
}

/// What follows the record type.
#[tactic(auto, unfolding(crate::specs::Table7::inner))]
fn inner_at(text: &[u8], at: usize) -> Result<(LentReport7<'_>, usize), Unfit>
    requires { at ≤ length text.now }
    ensures within { IfOk result (λ x. IsOn at text.now x.1) }
    ensures exact { Gives report7_lent refusal result (read inner text.now at) }
{
    let (items, at) = report_items_at(text, at)?;
    let (stamps, at) = stamps_at(text, at)?;
    let (reason, at) = reason_at(text, at)?;
    let (source, at) = source7_at(text, at)?;
    let (_, at) = exactly(text, at, ARRAY, 2)?;
    let (millis, at) = unsigned(text, at)?;
    let (sequence, at) = unsigned(text, at)?;
    let (fragment, at) = fragment_at(text, at, items == 6)?;
    let lent = LentReport7 {
        stamps,
        reason,
        source,
        millis,
        sequence,
        fragment,
    };
    Ok((lent, at))
}

/// The head of the report, which has 4 items, or 6 where its subject is a fragment.
fn report_items_at(text: &[u8], at: usize) -> Result<(u64, usize), Unfit>
    requires { at ≤ length text.now }
    ensures within { IfOk result (λ x. IsOn at text.now x.1) }
    ensures exact { Gives (λ n. n) refusal result (read report_items text.now at) }
{
    let (items, behind) = item(text, at, ARRAY)?;
    if items != 4 && items != 6 {
        return Err(absent(at));
    }
    Ok((items, behind))
}

/// The reason code.
fn reason_at(text: &[u8], at: usize) -> Result<(u8, usize), Unfit>
    requires { at ≤ length text.now }
    ensures within { IfOk result (λ x. IsOn at text.now x.1) }
    ensures exact { Gives (λ n. n) refusal result (read reason text.now at) }
{
    let (reason, behind) = unsigned(text, at)?;
    if reason >= 256 {
        return Err(absent(at));
    }
    Ok((reason as u8, behind))
}

/// The part of the subject's payload, where its subject is a fragment.
fn fragment_at(text: &[u8], at: usize, is_fragment: bool) -> Result<(Option<Part>, usize), Unfit>
    requires { at ≤ length text.now }
    ensures within { IfOk result (λ x. IsOn at text.now x.1) }
    ensures exact { Gives (λ part. part) refusal result
        (read (optional is_fragment part7) text.now at) }
{
    if !is_fragment {
        return Ok((None, at));
    }
    let (part, behind) = part_at(text, at)?;
    Ok((Some(part), behind))
}

#[tactic(auto, unfolding(crate::specs::Table7::part7))]
fn part_at(text: &[u8], at: usize) -> Result<(Part, usize), Unfit>
    requires { at ≤ length text.now }
    ensures within { IfOk result (λ x. IsOn at text.now x.1) }
    ensures exact { Gives (λ part. part) refusal result (read part7 text.now at) }
{
    let (offset, at) = unsigned(text, at)?;
    let (length, at) = unsigned(text, at)?;
    Ok((Part { offset, length }, at))
}

/// The four statuses.
#[tactic(auto, unfolding(crate::specs::Table7::stamps))]
fn stamps_at(text: &[u8], at: usize) -> Result<([Stamp; 4], usize), Unfit>
    requires { at ≤ length text.now }
    ensures within { IfOk result (λ x. IsOn at text.now x.1) }
    ensures exact { Gives (λ all. all) refusal result (read stamps text.now at) }
{
    let (_, at) = exactly(text, at, ARRAY, 4)?;
    let (received, at) = stamp_at(text, at)?;
    let (forwarded, at) = stamp_at(text, at)?;
    let (delivered, at) = stamp_at(text, at)?;
    let (deleted, at) = stamp_at(text, at)?;
    Ok(([received, forwarded, delivered, deleted], at))
}

/// The octet of true.
const YES: u8 = 0xF5;
/// The octet of false.
const NO: u8 = 0xF4;

/// One status: whether it is reported, and its time if it has one.
#[tactic(auto, unfolding(crate::specs::Table7::stamp))]
fn stamp_at(text: &[u8], at: usize) -> Result<(Stamp, usize), Unfit>
    requires { at ≤ length text.now }
    ensures within { IfOk result (λ x. IsOn at text.now x.1) }
    ensures exact { Gives (λ stamp. stamp) refusal result (read stamp text.now at) }
{
    let (items, at) = stamp_items_at(text, at)?;
    let (said, at) = stamp_octet_at(text, at, items)?;
    if items == 2 {
        return timed_at(text, at);
    }
    Ok((if said == YES { Stamp::Yes } else { Stamp::No }, at))
}

/// The head of a status, which has 1 item, or 2 with a time.
fn stamp_items_at(text: &[u8], at: usize) -> Result<(u64, usize), Unfit>
    requires { at ≤ length text.now }
    ensures within { IfOk result (λ x. IsOn at text.now x.1) }
    ensures exact { Gives (λ n. n) refusal result (read stamp_items text.now at) }
{
    let (items, behind) = item(text, at, ARRAY)?;
    if items != 1 && items != 2 {
        return Err(absent(at));
    }
    Ok((items, behind))
}

/// Whether a status is reported; with a time it is.
fn stamp_octet_at(text: &[u8], at: usize, items: u64) -> Result<(u8, usize), Unfit>
    requires { at ≤ length text.now }
    ensures within { IfOk result (λ x. IsOn at text.now x.1) }
    ensures exact { Gives (λ octet. octet) refusal result (read (stamp_octet items) text.now at) }
{
    let (said, behind) = octet(text, at)?;
    if said == YES || (said == NO && items == 1) {
        return Ok((said, behind));
    }
    Err(absent(at))
}

/// The time of a status, in milliseconds.
#[tactic(auto, unfolding(crate::specs::Table7::timed))]
fn timed_at(text: &[u8], at: usize) -> Result<(Stamp, usize), Unfit>
    requires { at ≤ length text.now }
    ensures within { IfOk result (λ x. IsOn at text.now x.1) }
    ensures exact { Gives (λ stamp. stamp) refusal result (read timed text.now at) }
{
    let (millis, behind) = unsigned(text, at)?;
    Ok((Stamp::At(millis), behind))
}
