//! The bundle in which a status report goes back.

ghost use Rattle.std.specs.Prelude.{◌≡◌, ◌<◌, ◌^◌, ◌+◌, length, if◌then◌else◌, IfOk};
ghost use Rattle.endpoint.specs.Endpoints.{IsEndpoint, is_singleton};
ghost use Rattle.gate_cases.specs.Bundles.{time6_of, time6_if, status_octet, times6_of, report6_of, bundle6_with, stamp_if, stamps_of, report7_of, bundle7_with, status_octets, status_bundle};
ghost use Rattle.gate_cases.specs.declared.report.Creation.TheVariants.{Six, Seven};
ghost use Rattle.gate_cases.specs.Promises.{IsAskable, IsBlock};

use crate::report::{AskedReport, Creation, Statuses};
use bundle_meaning::{Id6, Id7, Stamp};
use bundle6::{Block6, Blocks6, Bundle6, Primary6, encode6};
use bundle7::{Block7, Blocks7, Bundle7, Primary7, encode7};
use endpoint::{Endpoint, Octets, Refs};
use status_reports::{Report6, Report7, Time6, write6, write7};
use std::alloc::{AllocError, Global};
use translate::sized;

/// Flags of a version 6 report bundle: administrative, with priority normal.
const FLAGS: u64 = 0x82;
/// The destination is one receiver: bit 4 of a version 6 bundle's flags.
const SINGLETON: u64 = 0x10;
/// Flags of a version 7 report bundle: administrative.
const FLAGS7: u64 = 0x02;
/// A day in seconds.
const DAY: u64 = 86_400;
/// A day in milliseconds.
const DAY_MILLIS: u64 = 86_400_000;

/// Of a status that isn't reported.
const NO_TIME: Time6 = Time6 {
    seconds: 0,
    nanos: 0,
};

impl AskedReport {
    /// The octets of the bundle in which the report goes back. `gate` is the gateway's own endpoint, from
    /// which it comes; `counter` is the number of the report, from 0; and `now` is this moment, in
    /// milliseconds since the start of the year 2000 UTC.
    pub fn spell(
        &self,
        alloc: Global,
        gate: &Endpoint,
        counter: u64,
        now: u64,
    ) -> Result<Octets, AllocError>
        requires askable { IsAskable self.now }
        requires gate { IsEndpoint gate.now }
        requires counter { counter < 2 ^ 32 }
        requires now { now < 2 ^ 62 }
        ensures exact { IfOk result (λ octets. octets ≡ status_bundle gate.now counter now self.now) }

        // A session carries it.
        ensures block { IfOk result IsBlock }
    {
        match self.creation {
            Creation::Six(subject) => spell6(alloc, self, subject, gate, counter, now),
            Creation::Seven(subject) => spell7(alloc, self, subject, gate, counter, now),
        }
    }
}

// ---- version 6

/// The octets of a version 6 report bundle.
fn spell6(
    alloc: Global,
    asked: &AskedReport,
    subject: Id6,
    gate: &Endpoint,
    counter: u64,
    now: u64,
) -> Result<Octets, AllocError>
    requires askable { IsAskable asked.now }
    requires gate { IsEndpoint gate.now }
    requires counter { counter < 2 ^ 32 }
    requires now { now < 2 ^ 62 }
    ensures { IfOk result (λ octets. octets ≡ status_octets gate.now counter now asked.now (Six subject)) }
{
    let body = write6(alloc, &report6_of(alloc, asked, subject, now)?)?;
    sized(body.as_slice());
    let bundle = bundle6_of(alloc, asked, body, gate, counter, now)?;
    encode6(alloc, &bundle)
}

/// The report, as version 6 has it.
fn report6_of(
    alloc: Global,
    asked: &AskedReport,
    subject: Id6,
    now: u64,
) -> Result<Report6, AllocError>
    ensures { IfOk result (λ report. report ≡ report6_of asked.now subject now) }
{
    Ok(Report6 {
        status: status_octet(asked.statuses),
        reason: asked.reason,
        fragment: asked.fragment,
        times: times6_of(asked.statuses, now),
        seconds: subject.seconds,
        sequence: subject.sequence,
        source: asked.source.copy(alloc)?,
    })
}

/// The statuses by bit: 1 received, 4 forwarded, 16 deleted.
fn status_octet(statuses: Statuses) -> u8
    ensures { result ≡ status_octet statuses }
{
    bit_if(statuses.received, 1) + bit_if(statuses.forwarded, 4) + bit_if(statuses.deleted, 16)
}

/// The bit, if it is set.
fn bit_if(set: bool, bit: u8) -> u8
    ensures { result ≡ (if set then bit else 0) }
{
    if set { bit } else { 0 }
}

/// The times of the statuses.
fn times6_of(statuses: Statuses, now: u64) -> [Time6; 4]
    ensures { result ≡ times6_of statuses now }
{
    [
        time6_if(statuses.received, now),
        time6_if(statuses.forwarded, now),
        NO_TIME,
        time6_if(statuses.deleted, now),
    ]
}

/// The moment, if the status is set.
fn time6_if(set: bool, now: u64) -> Time6
    ensures { result ≡ time6_if set now }
{
    if set {
        Time6 {
            seconds: now / 1000,
            nanos: now % 1000 * 1_000_000,
        }
    } else {
        NO_TIME
    }
}

/// The bundle with the report's octets.
fn bundle6_of(
    alloc: Global,
    asked: &AskedReport,
    body: Octets,
    gate: &Endpoint,
    counter: u64,
    now: u64,
) -> Result<Bundle6, AllocError>
    requires counter { counter < 2 ^ 32 }
    ensures { IfOk result (λ bundle. bundle ≡ bundle6_with gate.now counter now asked.now body) }
{
    let singleton = if asked.report_to.is_singleton() {
        SINGLETON
    } else {
        0
    };
    let mut blocks = Vec::new(alloc);
    blocks.push(Block6 {
        kind: 1,
        flags: 0,
        refs: Refs::new(alloc),
        body,
    })?;
    Ok(Bundle6 {
        primary: Primary6 {
            flags: FLAGS + singleton,
            destination: asked.report_to.copy(alloc)?,
            source: gate.copy(alloc)?,
            report_to: Endpoint::Null,
            custodian: Endpoint::Null,
            seconds: now / 1000,
            sequence: 1000 * counter + now % 1000,
            lifetime: DAY,
            fragment: None,
        },
        blocks: Blocks6::from_vec(blocks),
    })
}

// ---- version 7

/// The octets of a version 7 report bundle.
fn spell7(
    alloc: Global,
    asked: &AskedReport,
    subject: Id7,
    gate: &Endpoint,
    counter: u64,
    now: u64,
) -> Result<Octets, AllocError>
    requires askable { IsAskable asked.now }
    requires now { now < 2 ^ 62 }
    ensures { IfOk result (λ octets. octets ≡ status_octets gate.now counter now asked.now (Seven subject)) }
{
    let body = write7(alloc, &report7_of(alloc, asked, subject, now)?)?;
    let bundle = bundle7_of(alloc, asked, body, gate, counter, now)?;
    encode7(alloc, &bundle)
}

/// The report, as version 7 has it.
fn report7_of(
    alloc: Global,
    asked: &AskedReport,
    subject: Id7,
    now: u64,
) -> Result<Report7, AllocError>
    ensures { IfOk result (λ report. report ≡ report7_of asked.now subject now) }
{
    Ok(Report7 {
        stamps: stamps_of(asked.statuses, asked.timed, now),
        reason: asked.reason,
        source: asked.source.copy(alloc)?,
        millis: subject.millis,
        sequence: subject.sequence,
        fragment: asked.fragment,
    })
}

/// What is said of the statuses.
fn stamps_of(statuses: Statuses, timed: bool, now: u64) -> [Stamp; 4]
    ensures { result ≡ stamps_of statuses timed now }
{
    [
        stamp_if(statuses.received, timed, now),
        stamp_if(statuses.forwarded, timed, now),
        Stamp::No,
        stamp_if(statuses.deleted, timed, now),
    ]
}

/// What is said of a status.
fn stamp_if(set: bool, timed: bool, now: u64) -> Stamp
    ensures { result ≡ stamp_if set timed now }
{
    match (set, timed) {
        (false, _) => Stamp::No,
        (true, false) => Stamp::Yes,
        (true, true) => Stamp::At(now),
    }
}

/// The bundle with the report's octets.
fn bundle7_of(
    alloc: Global,
    asked: &AskedReport,
    body: Octets,
    gate: &Endpoint,
    counter: u64,
    now: u64,
) -> Result<Bundle7, AllocError>
    ensures { IfOk result (λ bundle. bundle ≡ bundle7_with gate.now counter now asked.now body) }
{
    Ok(Bundle7 {
        primary: Primary7 {
            flags: FLAGS7,
            crc: 1,
            destination: asked.report_to.copy(alloc)?,
            source: gate.copy(alloc)?,
            report_to: Endpoint::Null,
            millis: now,
            sequence: counter,
            lifetime: DAY_MILLIS,
            fragment: None,
        },
        exts: Blocks7::new(alloc),
        payload: Block7 {
            kind: 1,
            number: 1,
            flags: 0,
            crc: 0,
            body,
        },
    })
}
