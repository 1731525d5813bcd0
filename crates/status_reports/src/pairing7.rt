//! What a report of version 7 says, and the report of version 7 that says it.

ghost use Rattle.std.specs.Prelude.{◌≡◌, ◌↔◌, true, false, IfOk, OnErr, Err};
ghost use Rattle.endpoint.specs.Endpoints.{IsDtn};
ghost use Rattle.bundle_meaning.specs.Reports.{is_rest, IsReport};
ghost use Rattle.status_reports.specs.Legal.{IsReport7};
ghost use Rattle.status_reports.specs.Views.{report7_lent};
ghost use Rattle.status_reports.specs.Pairing.{has_counterpart7, no_rests, takes_rests, Pair7};

use crate::pair_fault::PairFault;
use crate::report7::{LentReport7, Report7};
use bundle_meaning::{Report, Stamp, id_to_old};
use std::alloc::{AllocError, Global};

impl LentReport7<'_> {
    /// Whether the name of the report's subject has a counterpart in version 6. Its times have one.
    pub fn has_counterpart(&self) -> bool
        ensures { result ≡ has_counterpart7 (report7_lent self.now) }
    {
        id_to_old(self.millis, self.sequence).is_ok()
    }

    /// Whether its times can have these parts below one millisecond, in nanoseconds: each is below
    /// 1,000,000, and 0 where there is no time.
    pub fn takes(&self, rests: &[u32; 4]) -> bool
        ensures { result ≡ takes_rests self.now.stamps rests.now }
    {
        takes_rests(&self.stamps, rests)
    }

    /// What the report says, with these parts of its times below one millisecond.
    pub fn shared(&self, alloc: Global, rests: [u32; 4]) -> Result<Report, AllocError>
        // The two are a pair, so the way back gives the report and these parts.
        ensures paired { IfOk result (Pair7 (report7_lent self.now) rests) }
        ensures memory { OnErr result (IsDtn (report7_lent self.now).source) }
    {
        Ok(Report {
            stamps: self.stamps,
            rests,
            reason: self.reason,
            source: self.source.owned(alloc)?,
            millis: self.millis,
            sequence: self.sequence,
            fragment: self.fragment,
        })
    }
}

impl Report7 {
    /// Whether the name of the report's subject has a counterpart in version 6. Its times have one.
    pub fn has_counterpart(&self) -> bool
        ensures { result ≡ has_counterpart7 self.now }
    {
        id_to_old(self.millis, self.sequence).is_ok()
    }

    /// Whether its times can have these parts below one millisecond, in nanoseconds: each is below
    /// 1,000,000, and 0 where there is no time.
    pub fn takes(&self, rests: &[u32; 4]) -> bool
        ensures { result ≡ takes_rests self.now.stamps rests.now }
    {
        takes_rests(&self.stamps, rests)
    }
}

/// What a report of version 7 says. The parts of its times below one millisecond are 0.
pub fn shared_from7(alloc: Global, report: &Report7) -> Result<Report, PairFault>
    requires { IsReport7 report.now }
    // The two are a pair, so the way back gives the report.
    ensures paired { IfOk result (Pair7 report.now no_rests) }
    ensures valid { IfOk result IsReport }
    // The name of the subject has no counterpart.
    ensures refused { (result ≡ Err PairFault.NoCounterpart)
        ↔ (has_counterpart7 report.now ≡ false) }
    ensures memory { result ≡ Err PairFault.Memory → IsDtn report.now.source }
{
    shared_with_rests(alloc, report, [0; 4])
}

/// The same with these parts of its times below one millisecond, which a residue may carry.
pub fn shared_with_rests(
    alloc: Global,
    report: &Report7,
    rests: [u32; 4],
) -> Result<Report, PairFault>
    requires legal { IsReport7 report.now }
    requires rests { takes_rests report.now.stamps rests ≡ true }
    // The two are a pair, so the way back gives the report and these parts.
    ensures paired { IfOk result (Pair7 report.now rests) }
    ensures valid { IfOk result IsReport }
    // The name of the subject has no counterpart.
    ensures refused { (result ≡ Err PairFault.NoCounterpart)
        ↔ (has_counterpart7 report.now ≡ false) }
    ensures memory { result ≡ Err PairFault.Memory → IsDtn report.now.source }
{
    if !report.has_counterpart() {
        return Err(PairFault::NoCounterpart);
    }
    Ok(Report {
        stamps: report.stamps,
        rests,
        reason: report.reason,
        source: report.source.copy(alloc)?,
        millis: report.millis,
        sequence: report.sequence,
        fragment: report.fragment,
    })
}

/// Whether four statuses can have these parts of a time below one millisecond.
#[tactic(auto, unfolding(crate::specs::Pairing::takes_rests))]
fn takes_rests(stamps: &[Stamp; 4], rests: &[u32; 4]) -> bool
    ensures { result ≡ takes_rests stamps.now rests.now }
{
    is_rest(stamps[0], rests[0])
        && is_rest(stamps[1], rests[1])
        && is_rest(stamps[2], rests[2])
        && is_rest(stamps[3], rests[3])
}

/// Whether a status can have this part of a time below one millisecond.
fn is_rest(stamp: Stamp, rest: u32) -> bool
    ensures { result ≡ is_rest stamp rest }
{
    match stamp {
        Stamp::At(_) => rest < 1_000_000,
        Stamp::No | Stamp::Yes => rest == 0,
    }
}

/// The report of version 7 that says the same, but for the parts of the times below one
/// millisecond.
pub fn view7(alloc: Global, report: &Report) -> Result<Report7, AllocError>
    // The two are a pair, so the way back with these parts gives the report.
    ensures paired { IfOk result (λ new. Pair7 new report.now.rests report.now) }
    // The report of a valid record is one that version 7 can spell.
    ensures legal { IsReport report.now → IfOk result IsReport7 }
    ensures memory { OnErr result (IsDtn report.now.source) }
{
    Ok(Report7 {
        stamps: report.stamps,
        reason: report.reason,
        source: report.source.copy(alloc)?,
        millis: report.millis,
        sequence: report.sequence,
        fragment: report.fragment,
    })
}
