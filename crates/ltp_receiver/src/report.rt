//! A report, and the claims that it makes.

ghost use Rattle.std.specs.Prelude.{◌≡◌, ℕ, ◌+◌, ◌^◌, ◌<◌, ◌≤◌, [], length, map, take, nat_lt};
ghost use Rattle.std.specs.Prelude.{if◌then◌else◌, IfOk};
ghost use Rattle.spans.specs.Places.{runs_of};
ghost use Rattle.ltp_segment.specs.Values.{a_report};
ghost use Rattle.ltp_segment.specs.Spelling.{Writes};
ghost use Rattle.ltp_segment.specs.Reports.{end_from};
ghost use Rattle.ltp_session.specs.Claims.{claim_of, report_within, is_whole_claim};

use endpoint::Octets;
use ltp_segment::{Claim, write_report};
use ltp_session::SessionName;
use spans::Spans;
use std::alloc::{AllocError, Global};
use std::marker::Model;

/// The most claims that a report makes. Own rule: one report answers one checkpoint.
const MOST_CLAIMS: usize = 1024;

/// A report on the octets of a red part from its first one on.
#[derive(Debug, Drop)]
pub(crate) struct Report {
    /// Its serial number.
    serial: u64,
    /// The serial number of the checkpoint that it answers.
    checkpoint: u64,
    /// The place after the last octet that it speaks of.
    upper: u64,
    /// The ranges that came.
    claims: Vec<Claim>,
}

impl Model for Report {
    ghost use Rattle.ltp_segment.specs.Values.{ReportValue};
    ghost use Rattle.ltp_segment.specs.Legal.{IsReport};

    ghost Value = { ReportValue };

    ghost use Rattle.ltp_receiver.specs.Reports.{report_value};

    ghost view = { report_value };

    ghost invariant = { λ report. IsReport (report_value report) };
}

impl Report {
    /// A report on these places up to an upper bound.
    pub fn on(
        alloc: Global,
        places: &Spans,
        serial: u64,
        checkpoint: u64,
        upper: u64,
    ) -> Result<Report, AllocError>
        requires named { 0 < serial }
        requires some { 0 < upper }
        requires within { upper ≤ length places.now }
        ensures { IfOk result (λ report. report ≡ report_within MOST_CLAIMS serial checkpoint upper
            (map claim_of (runs_of (take upper places.now)))) }
    {
        let claims = claims_below(alloc, places, upper)?;
        let upper = cut_after(&claims, places.count(upper), upper);
        Ok(Report {
            serial,
            checkpoint,
            upper,
            claims,
        })
    }

    /// The report as a datagram.
    pub fn datagram(&self, alloc: Global, name: SessionName) -> Result<Octets, AllocError>
        ensures { IfOk result (Writes name.originator name.number (a_report self.now)) }
    {
        write_report(
            alloc,
            name.originator,
            name.number,
            self.serial,
            self.checkpoint,
            self.upper,
            0,
            &self.claims,
        )
    }

    /// Its serial number.
    pub fn serial(&self) -> u64
        ensures { result ≡ (self.now).serial }
    {
        self.serial
    }

    /// Whether it claims all of a red part of this length.
    pub fn claims_all(&self, length: Option<u64>) -> bool
        ensures { result ≡ is_whole_claim length (self.now).claims }
    {
        match (length, self.claims.as_slice()) {
            (Some(length), [claim]) => claim.offset == 0 && claim.length == length,
            _ => false,
        }
    }
}

/// The claims of the covered places below an upper bound, 1,024 at most.
fn claims_below(alloc: Global, places: &Spans, upper: u64) -> Result<Vec<Claim>, AllocError>
    requires { upper ≤ length places.now }
    ensures { IfOk result (λ claims. claims.items
        ≡ take MOST_CLAIMS (map claim_of (runs_of (take upper places.now)))) }
{
    let count = places.count(upper).min(MOST_CLAIMS);
    let mut claims = Vec::with_capacity(alloc, count)?;
    'claiming: for run in places.runs() {
        if run.from >= upper || claims.len() >= MOST_CLAIMS {
            break;
        }
        claims.push(Claim {
            offset: run.from,
            length: run.to.min(upper) - run.from,
        })?;
    }
    Ok(claims)
}

/// The upper bound of a report with these claims, out of so many: where others are left out, it is
/// cut after the last one made.
fn cut_after(claims: &[Claim], count: usize, upper: u64) -> u64
    requires { end_from 0 claims.now < 2 ^ 64 }
    ensures { result ≡ (if nat_lt MOST_CLAIMS count then end_from 0 claims.now else upper) }
{
    if count > MOST_CLAIMS {
        end_of(claims)
    } else {
        upper
    }
}

/// The place after the last of some claims.
fn end_of(claims: &[Claim]) -> u64
    requires { end_from 0 claims.now < 2 ^ 64 }
    ensures { result ≡ end_from 0 claims.now }
{
    match claims.last() {
        Some(claim) => claim.offset + claim.length,
        None => 0,
    }
}
