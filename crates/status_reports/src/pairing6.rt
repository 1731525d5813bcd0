//! What a report of version 6 says, and the report of version 6 that says it.

ghost use Rattle.std.specs.Prelude.{◌≡◌, ◌↔◌, ◌≤◌, true, false, IfOk, OnErr, Err};
ghost use Rattle.endpoint.specs.Endpoints.{IsDtn};
ghost use Rattle.bundle_meaning.specs.Creation.{id6_of};
ghost use Rattle.bundle_meaning.specs.Reports.{no_time, IsReport};
ghost use Rattle.status_reports.specs.Legal.{IsReport6};
ghost use Rattle.status_reports.specs.Views.{report6_lent};
ghost use Rattle.status_reports.specs.Pairing.{fits, times_fit, has_counterpart6, may_lack, takes, stamp_of, stamps_of, rest_of, rests_of, bit_of, statuses_of, stamped, times_of, shared_of6, report6_of, Pair6};

use crate::pair_fault::PairFault;
use crate::report6::{
    DELETED, DELIVERED, FORWARDED, LentReport6, RECEIVED, Report6, Time6, is_set, is_status,
};
use bundle_meaning::{Id6, Report, Stamp, id_to_new, id_to_old};
use std::alloc::{AllocError, Global};

impl LentReport6<'_> {
    /// Whether each time of the report and its subject's name have a counterpart in version 7.
    pub fn has_counterpart(&self) -> bool
        ensures { result ≡ has_counterpart6 (report6_lent self.now) }
    {
        id_to_new(self.seconds, self.sequence).is_ok() && times_fit(&self.times)
    }

    /// Whether the statuses of a mask may be those without a time: each is set, and has the time
    /// 0, 0.
    pub fn takes(&self, no_time: u8) -> bool
        ensures { result ≡ takes self.now.status self.now.times no_time }
    {
        takes(self.status, &self.times, no_time)
    }

    /// What the report says, which has a counterpart in version 7. The statuses of the mask
    /// `no_time` are those without a time, as for [`shared_from6`].
    pub fn shared(&self, alloc: Global, no_time: u8) -> Result<Report, AllocError>
        requires legal { IsReport6 (report6_lent self.now) }
        requires counterpart { has_counterpart6 (report6_lent self.now) ≡ true }
        requires mask { takes self.now.status self.now.times no_time ≡ true }
        // The two are a pair, so the way back gives the report and the mask.
        ensures paired { IfOk result (Pair6 (report6_lent self.now) no_time) }
        ensures memory { OnErr result (IsDtn (report6_lent self.now).source) }
    {
        Ok(Report {
            stamps: stamps_of(self.status, no_time, &self.times),
            rests: rests_of(&self.times),
            reason: self.reason,
            source: self.source.owned(alloc)?,
            millis: 1000 * self.seconds + self.sequence % 1000,
            sequence: self.sequence / 1000,
            fragment: self.fragment,
        })
    }
}

impl Report6 {
    /// Whether each time of the report and its subject's name have a counterpart in version 7.
    pub fn has_counterpart(&self) -> bool
        ensures { result ≡ has_counterpart6 self.now }
    {
        id_to_new(self.seconds, self.sequence).is_ok() && times_fit(&self.times)
    }

    /// Whether the statuses of a mask may be those without a time: each is set, and has the time
    /// 0, 0.
    pub fn takes(&self, no_time: u8) -> bool
        ensures { result ≡ takes self.now.status self.now.times no_time }
    {
        takes(self.status, &self.times, no_time)
    }
}

/// What a report of version 6 says. The statuses of the mask `no_time` are those without a time, by
/// bit: 1 received, 4 forwarded, 8 delivered, 16 deleted.
pub fn shared_from6(alloc: Global, report: &Report6, no_time: u8) -> Result<Report, PairFault>
    requires legal { IsReport6 report.now }
    requires mask { takes report.now.status report.now.times no_time ≡ true }
    // The two are a pair, so the way back gives the report and the mask.
    ensures paired { IfOk result (Pair6 report.now no_time) }
    ensures valid { IfOk result IsReport }
    // A time or the name of the subject has no counterpart.
    ensures refused { (result ≡ Err PairFault.NoCounterpart)
        ↔ (has_counterpart6 report.now ≡ false) }
    ensures memory { result ≡ Err PairFault.Memory → IsDtn report.now.source }
{
    let Ok(id) = id_to_new(report.seconds, report.sequence) else {
        return Err(PairFault::NoCounterpart);
    };
    if !times_fit(&report.times) {
        return Err(PairFault::NoCounterpart);
    }
    Ok(Report {
        stamps: stamps_of(report.status, no_time, &report.times),
        rests: rests_of(&report.times),
        reason: report.reason,
        source: report.source.copy(alloc)?,
        millis: id.millis,
        sequence: id.sequence,
        fragment: report.fragment,
    })
}

/// The report of version 6 that says the same, but for which statuses have no time.
pub fn view6(alloc: Global, report: &Report) -> Result<Report6, AllocError>
    requires { IsReport report.now }
    // The two are a pair, so the way back with the mask gives the report.
    ensures paired { IfOk result (λ old. Pair6 old (no_time report.now.stamps) report.now) }
    ensures legal { IfOk result IsReport6 }
    ensures mask { IfOk result (λ old.
        takes old.status old.times (no_time report.now.stamps) ≡ true) }
    ensures memory { OnErr result (IsDtn report.now.source) }
{
    let id = id_of(report);
    Ok(Report6 {
        status: statuses_of(&report.stamps),
        reason: report.reason,
        fragment: report.fragment,
        times: times_of(&report.stamps, &report.rests),
        seconds: id.seconds,
        sequence: id.sequence,
        source: report.source.copy(alloc)?,
    })
}

/// The name of the subject in version 6, which it has in a valid report.
fn id_of(report: &Report) -> Id6
    requires { IsReport report.now }
    ensures { result ≡ id6_of report.now.millis report.now.sequence }
{
    match id_to_old(report.millis, report.sequence) {
        Ok(id) => id,
        Err(_) => Id6 {
            seconds: 0,
            sequence: 0,
        },
    }
}

/// Whether a time is a number of milliseconds below 2^64.
fn fits(time: Time6) -> bool
    ensures { result ≡ fits time }
{
    match time.seconds.checked_mul(1000) {
        Some(whole) => whole.checked_add(time.nanos / NANOS).is_some(),
        None => false,
    }
}

/// How many nanoseconds a millisecond has.
const NANOS: u64 = 1_000_000;

/// Whether all times are.
#[tactic(auto, unfolding(crate::specs::Pairing::times_fit))]
fn times_fit(times: &[Time6; 4]) -> bool
    ensures { result ≡ times_fit times.now }
{
    fits(times[0]) && fits(times[1]) && fits(times[2]) && fits(times[3])
}

/// Whether a status may be without a time.
fn may_lack(bare: bool, set: bool, time: Time6) -> bool
    ensures { result ≡ may_lack bare set time }
{
    !bare || (set && time.seconds == 0 && time.nanos == 0)
}

/// Whether the statuses of a mask may be without a time.
#[tactic(auto, unfolding(crate::specs::Pairing::takes))]
fn takes(statuses: u8, times: &[Time6; 4], bare: u8) -> bool
    ensures { result ≡ takes statuses times.now bare }
{
    is_status(bare)
        && may_lack(is_set(bare, RECEIVED), is_set(statuses, RECEIVED), times[0])
        && may_lack(
            is_set(bare, FORWARDED),
            is_set(statuses, FORWARDED),
            times[1],
        )
        && may_lack(
            is_set(bare, DELIVERED),
            is_set(statuses, DELIVERED),
            times[2],
        )
        && may_lack(is_set(bare, DELETED), is_set(statuses, DELETED), times[3])
}

/// What is said of one status.
fn stamp_of(set: bool, bare: bool, time: Time6) -> Stamp
    requires { fits time ≡ true }
    ensures { result ≡ stamp_of set bare time }
{
    match (set, bare) {
        (false, _) => Stamp::No,
        (true, true) => Stamp::Yes,
        (true, false) => Stamp::At(1000 * time.seconds + time.nanos / NANOS),
    }
}

/// What is said of the four statuses.
#[tactic(auto, unfolding(crate::specs::Pairing::times_fit, crate::specs::Pairing::stamps_of))]
fn stamps_of(statuses: u8, bare: u8, times: &[Time6; 4]) -> [Stamp; 4]
    requires { times_fit times.now ≡ true }
    ensures { result ≡ stamps_of statuses bare times.now }
{
    [
        stamp_of(is_set(statuses, RECEIVED), is_set(bare, RECEIVED), times[0]),
        stamp_of(
            is_set(statuses, FORWARDED),
            is_set(bare, FORWARDED),
            times[1],
        ),
        stamp_of(
            is_set(statuses, DELIVERED),
            is_set(bare, DELIVERED),
            times[2],
        ),
        stamp_of(is_set(statuses, DELETED), is_set(bare, DELETED), times[3]),
    ]
}

/// The part of a time below one millisecond.
fn rest_of(time: Time6) -> u32
    ensures { result ≡ rest_of time }
{
    (time.nanos % NANOS) as u32
}

/// The parts of the times below one millisecond.
#[tactic(auto, unfolding(crate::specs::Pairing::rests_of))]
fn rests_of(times: &[Time6; 4]) -> [u32; 4]
    ensures { result ≡ rests_of times.now }
{
    [
        rest_of(times[0]),
        rest_of(times[1]),
        rest_of(times[2]),
        rest_of(times[3]),
    ]
}

/// The bit of a status, where it is reported.
fn bit_of(stamp: Stamp, bit: u8) -> u8
    ensures value { result ≡ bit_of stamp bit }
    ensures least { result ≤ bit }
{
    match stamp {
        Stamp::No => 0,
        Stamp::Yes | Stamp::At(_) => bit,
    }
}

/// The bits of the statuses that are reported.
#[tactic(auto, unfolding(crate::specs::Pairing::statuses_of))]
fn statuses_of(stamps: &[Stamp; 4]) -> u8
    ensures { result ≡ statuses_of stamps.now }
{
    bit_of(stamps[0], RECEIVED)
        + bit_of(stamps[1], FORWARDED)
        + bit_of(stamps[2], DELIVERED)
        + bit_of(stamps[3], DELETED)
}

/// The time of a status; one without a time has 0, 0.
fn stamped(stamp: Stamp, rest: u32) -> Time6
    ensures { result ≡ stamped stamp rest }
{
    match stamp {
        Stamp::No | Stamp::Yes => Time6 {
            seconds: 0,
            nanos: 0,
        },
        Stamp::At(millis) => Time6 {
            seconds: millis / 1000,
            nanos: millis % 1000 * NANOS + u64::from(rest),
        },
    }
}

/// The times of the four statuses.
#[tactic(auto, unfolding(crate::specs::Pairing::times_of))]
fn times_of(stamps: &[Stamp; 4], rests: &[u32; 4]) -> [Time6; 4]
    ensures { result ≡ times_of stamps.now rests.now }
{
    [
        stamped(stamps[0], rests[0]),
        stamped(stamps[1], rests[1]),
        stamped(stamps[2], rests[2]),
        stamped(stamps[3], rests[3]),
    ]
}
