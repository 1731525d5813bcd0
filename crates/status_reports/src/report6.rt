//! Status reports of version 6, read (RFC 5050, section 6.1.1).

ghost use Rattle.std.specs.Prelude.{◌≡◌, ◌⊎◌, ◌≤◌, [], length, IfOk, IsOkAnd, OnErr, Ok, Err};
ghost use Rattle.endpoint.specs.Endpoints.{IsDtn};
ghost use Rattle.wire_fields.specs.Format.{Spells};
ghost use Rattle.wire_fields.specs.Reading.{read};
ghost use Rattle.wire_fields.specs.Words.{optional};
ghost use Rattle.wire_fields.specs.Gives.{Gives, IsOn};
ghost use Rattle.status_reports.specs.Fields.{refusal, is_set};
ghost use Rattle.status_reports.specs.Table6.{lead, is_status, status, part6, time, time_if, times, report6};
ghost use Rattle.status_reports.specs.Legal.{IsReport6};
ghost use Rattle.status_reports.specs.Spelling.{report6_octets};
ghost use Rattle.status_reports.specs.Order.{cause6, status_cause, answer6, Answers, SpellsNone};
ghost use Rattle.status_reports.specs.Views.{report6_lent, seen};

use crate::fault::AdminFault;
use crate::field::{Unfit, absent, number, number_below, octet};
use crate::lent::LentEndpoint;
use crate::source6::source6_at;
use bundle_meaning::Part;
use endpoint::Endpoint;
use std::alloc::{AllocError, Global};

/// When a status was reached.
#[derive(Clone, Copy, Debug, PartialEq, Eq)]
pub struct Time6 {
    /// Seconds since the start of the year 2000 UTC.
    pub seconds: u64,
    /// Nanoseconds of that second, below 1,000,000,000.
    pub nanos: u64,
}

/// A status report of version 6.
#[derive(Debug, Drop)]
pub struct Report6 {
    /// The statuses that it reports, by bit: 1 received, 4 forwarded, 8 delivered, 16 deleted.
    pub status: u8,
    /// The reason code.
    pub reason: u8,
    /// The part of the subject's payload, where the subject is a fragment.
    pub fragment: Option<Part>,
    /// The times of received, forwarded, delivered and deleted; 0 and 0 where the status isn't set.
    pub times: [Time6; 4],
    /// When the subject was made, in seconds since the start of the year 2000 UTC.
    pub seconds: u64,
    /// Which of the bundles of that second the subject is.
    pub sequence: u64,
    /// Who sent the subject.
    pub source: Endpoint,
}

/// The same, with a source whose octets are lent out of the body.
#[derive(Clone, Copy, Debug)]
pub struct LentReport6<'a> {
    /// The statuses that it reports, by bit: 1 received, 4 forwarded, 8 delivered, 16 deleted.
    pub status: u8,
    /// The reason code.
    pub reason: u8,
    /// The part of the subject's payload, where the subject is a fragment.
    pub fragment: Option<Part>,
    /// The times of received, forwarded, delivered and deleted; 0 and 0 where the status isn't set.
    pub times: [Time6; 4],
    /// When the subject was made, in seconds since the start of the year 2000 UTC.
    pub seconds: u64,
    /// Which of the bundles of that second the subject is.
    pub sequence: u64,
    /// Who sent the subject.
    pub source: LentEndpoint<'a>,
}

impl LentReport6<'_> {
    /// The report, with octets of its own. Only a source of the scheme dtn takes memory.
    pub fn owned(self, alloc: Global) -> Result<Report6, AllocError>
        ensures owned { IfOk result (λ report. report ≡ report6_lent self.entry) }
        ensures memory { OnErr result (IsDtn (report6_lent self.entry).source) }
    {
        Ok(Report6 {
            status: self.status,
            reason: self.reason,
            fragment: self.fragment,
            times: self.times,
            seconds: self.seconds,
            sequence: self.sequence,
            source: self.source.owned(alloc)?,
        })
    }
}

/// Reads the body of an administrative record of version 6 as a status report. Memory is taken for
/// a source of the scheme dtn, and only where the octets are a report.
pub fn read6(alloc: Global, body: &[u8]) -> Result<Report6, AdminFault>
    // What is read is spelled so.
    ensures found { IfOk result (λ report. Spells report6 [] body.now report) }
    // What is spelled so is read, unless memory runs out.
    ensures only { (report : Report6) → Spells report6 [] body.now report
        → (result ≡ Ok report) ⊎ (result ≡ Err AdminFault.Memory) }
    // All else is refused, for the first cause that holds.
    ensures refused { SpellsNone report6 body.now → result ≡ Err (cause6 body.now) }
    // It is a legal report, and the octets are its one spelling.
    ensures legal { IfOk result IsReport6 }
    ensures same { IfOk result (λ report. body.now ≡ report6_octets report) }
    // Memory runs out only where a report is spelled whose source is a dtn name.
    ensures memory { result ≡ Err AdminFault.Memory
        → IsOkAnd (answer6 body.now) (λ report. IsDtn report.source) }
    ensures exact { Answers result (answer6 body.now) }
{
    owned6(alloc, body)
}

/// The report, with octets of its own.
fn owned6(alloc: Global, body: &[u8]) -> Result<Report6, AdminFault>
    ensures exact { Answers result (answer6 body.now) }
    ensures memory { result ≡ Err AdminFault.Memory
        → IsOkAnd (answer6 body.now) (λ report. IsDtn report.source) }
{
    let lent = lend6(body)?;
    Ok(lent.owned(alloc)?)
}

/// Judges the body of an administrative record of version 6, and lends the report out of it. No
/// memory is taken.
pub fn lend6(body: &[u8]) -> Result<LentReport6<'_>, AdminFault>
    ensures legal { IfOk result (λ lent. IsReport6 (report6_lent lent)) }
    ensures exact { seen report6_lent result ≡ answer6 body.now }
{
    judged6(body)
}

/// The report that the octets are, and nothing more.
fn judged6(body: &[u8]) -> Result<LentReport6<'_>, AdminFault>
    ensures { seen report6_lent result ≡ answer6 body.now }
{
    match report_at(body, 0) {
        Ok((lent, end)) if end == body.len() => Ok(lent),
        _ => Err(cause6(body)),
    }
}

/// Why a body that spells no report is refused.
pub(crate) fn cause6(body: &[u8]) -> AdminFault
    ensures { result ≡ cause6 body.now }
{
    let Some((lead, rest)) = body.split_first() else {
        return AdminFault::BadAdmin;
    };
    match lead / 16 {
        2 => AdminFault::CustodySignal,
        1 if lead % 16 <= 1 => status_cause(rest),
        1 => AdminFault::BadAdmin,
        _ => AdminFault::AdminUnknown,
    }
}

/// The same, by the octets after the first.
fn status_cause(rest: &[u8]) -> AdminFault
    ensures { result ≡ status_cause rest.now }
{
    match rest.first() {
        Some(status) if is_set(*status, CUSTODY) => AdminFault::CustodyReport,
        _ => AdminFault::BadAdmin,
    }
}

/// The bit of the status received.
pub(crate) const RECEIVED: u8 = 1;
/// The bit of the status custody accepted.
const CUSTODY: u8 = 2;
/// The bit of the status forwarded.
pub(crate) const FORWARDED: u8 = 4;
/// The bit of the status delivered.
pub(crate) const DELIVERED: u8 = 8;
/// The bit of the status deleted.
pub(crate) const DELETED: u8 = 16;

/// Whether the bit of a status is set.
pub(crate) fn is_set(statuses: u8, bit: u8) -> bool
    requires { 1 ≤ bit }
    ensures { result ≡ is_set bit statuses }
{
    statuses / bit % 2 == 1
}

/// Whether no status but received, forwarded, delivered and deleted is set.
pub(crate) fn is_status(statuses: u8) -> bool
    ensures { result ≡ is_status statuses }
{
    statuses < 0x20 && !is_set(statuses, CUSTODY)
}

/// The fields of a report.
#[tactic(auto, unfolding(crate::specs::Table6::report6))]
fn report_at(text: &[u8], at: usize) -> Result<(LentReport6<'_>, usize), Unfit>
    requires { at ≤ length text.now }
    ensures within { IfOk result (λ x. IsOn at text.now x.1) }
    ensures exact { Gives report6_lent refusal result (read report6 text.now at) }
{
    let (lead, at) = lead_at(text, at)?;
    let (status, at) = status_at(text, at)?;
    let (reason, at) = octet(text, at)?;
    let (fragment, at) = fragment_at(text, at, lead == 0x11)?;
    let (times, at) = times_at(text, at, status)?;
    let (seconds, at) = number(text, at)?;
    let (sequence, at) = number(text, at)?;
    let (source, at) = source6_at(text, at)?;
    let lent = LentReport6 {
        status,
        reason,
        fragment,
        times,
        seconds,
        sequence,
        source,
    };
    Ok((lent, at))
}

/// The record type of a status report, with its flags.
fn lead_at(text: &[u8], at: usize) -> Result<(u8, usize), Unfit>
    requires { at ≤ length text.now }
    ensures within { IfOk result (λ x. IsOn at text.now x.1) }
    ensures exact { Gives (λ octet. octet) refusal result (read lead text.now at) }
{
    let (lead, behind) = octet(text, at)?;
    if lead != 0x10 && lead != 0x11 {
        return Err(absent(at));
    }
    Ok((lead, behind))
}

/// The statuses.
fn status_at(text: &[u8], at: usize) -> Result<(u8, usize), Unfit>
    requires { at ≤ length text.now }
    ensures within { IfOk result (λ x. IsOn at text.now x.1) }
    ensures exact { Gives (λ octet. octet) refusal result (read status text.now at) }
{
    let (statuses, behind) = octet(text, at)?;
    if !is_status(statuses) {
        return Err(absent(at));
    }
    Ok((statuses, behind))
}

/// The part of the subject's payload, where its subject is a fragment.
fn fragment_at(text: &[u8], at: usize, is_fragment: bool) -> Result<(Option<Part>, usize), Unfit>
    requires { at ≤ length text.now }
    ensures within { IfOk result (λ x. IsOn at text.now x.1) }
    ensures exact { Gives (λ part. part) refusal result
        (read (optional is_fragment part6) text.now at) }
{
    if !is_fragment {
        return Ok((None, at));
    }
    let (part, behind) = part_at(text, at)?;
    Ok((Some(part), behind))
}

#[tactic(auto, unfolding(crate::specs::Table6::part6))]
fn part_at(text: &[u8], at: usize) -> Result<(Part, usize), Unfit>
    requires { at ≤ length text.now }
    ensures within { IfOk result (λ x. IsOn at text.now x.1) }
    ensures exact { Gives (λ part. part) refusal result (read part6 text.now at) }
{
    let (offset, at) = number(text, at)?;
    let (length, at) = number(text, at)?;
    Ok((Part { offset, length }, at))
}

/// The times of the statuses that are set.
#[tactic(auto, unfolding(crate::specs::Table6::times))]
fn times_at(text: &[u8], at: usize, statuses: u8) -> Result<([Time6; 4], usize), Unfit>
    requires { at ≤ length text.now }
    ensures within { IfOk result (λ x. IsOn at text.now x.1) }
    ensures exact { Gives (λ all. all) refusal result (read (times statuses) text.now at) }
{
    let (received, at) = time_if_at(text, at, is_set(statuses, RECEIVED))?;
    let (forwarded, at) = time_if_at(text, at, is_set(statuses, FORWARDED))?;
    let (delivered, at) = time_if_at(text, at, is_set(statuses, DELIVERED))?;
    let (deleted, at) = time_if_at(text, at, is_set(statuses, DELETED))?;
    Ok(([received, forwarded, delivered, deleted], at))
}

/// The time of a status, where it is set.
fn time_if_at(text: &[u8], at: usize, set: bool) -> Result<(Time6, usize), Unfit>
    requires { at ≤ length text.now }
    ensures within { IfOk result (λ x. IsOn at text.now x.1) }
    ensures exact { Gives (λ time. time) refusal result (read (time_if set) text.now at) }
{
    if set {
        return time_at(text, at);
    }
    Ok((
        Time6 {
            seconds: 0,
            nanos: 0,
        },
        at,
    ))
}

#[tactic(auto, unfolding(crate::specs::Table6::time))]
fn time_at(text: &[u8], at: usize) -> Result<(Time6, usize), Unfit>
    requires { at ≤ length text.now }
    ensures within { IfOk result (λ x. IsOn at text.now x.1) }
    ensures exact { Gives (λ time. time) refusal result (read time text.now at) }
{
    let (seconds, at) = number(text, at)?;
    let (nanos, at) = number_below(text, at, 1_000_000_000)?;
    Ok((Time6 { seconds, nanos }, at))
}
