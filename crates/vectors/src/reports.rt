//! Reports out of their datagrams.

ghost use Rattle.std.specs.Prelude.{◌≡◌, ◌+◌, true, IfSome, IfOk};
ghost use Rattle.ltp_segment.specs.Legal.{IsReport, IsClaim, AreClaims};
ghost use Rattle.ltp_segment.specs.Views.{report_value};

use crate::lines::octets;
use ltp_segment::{Claim, ReportView};
use std::alloc::{AllocError, Global};
use std::test::Fail;

/// Where a claim stops, if it can follow others that end there and stays within so many octets.
fn stop_after(claim: Claim, end: u64, most: u64) -> Option<u64>
    ensures { IfSome result (λ stop. IsClaim most end claim × (stop ≡ claim.offset + claim.length)) }
{
    let stop = claim.offset.checked_add(claim.length)?;
    if claim.length == 0 || claim.offset < end || stop > most {
        return None;
    }
    Some(stop)
}

/// Whether claims can stand in a report on so many octets.
fn are_claims(claims: &[Claim], most: u64) -> bool
    ensures { result ≡ true → AreClaims most 0 claims.now }
{
    let mut end = 0;
    for claim in claims {
        let Some(stop) = stop_after(*claim, end, most) else {
            return false;
        };
        end = stop;
    }
    true
}

/// Whether a report is one that a datagram can hold.
pub(crate) fn is_report(alloc: Global, report: ReportView<'_>) -> Result<bool, AllocError>
    ensures { IfOk result (λ is. is ≡ true → IsReport (report_value report.entry)) }
{
    let claims: Vec<Claim> = report.claims.collect(alloc)?;
    if report.serial == 0 || report.lower >= report.upper {
        return Ok(false);
    }
    Ok(are_claims(&claims, report.upper - report.lower))
}

/// Appends the claims of every second segment of this size, so many of them.
fn write_seconds(datagram: &mut Vec<u8>, size: u64, count: u64) -> Result<(), AllocError> {
    for i in 0..count {
        sdnv::write(size.saturating_mul(i.saturating_mul(2)), datagram)?;
        sdnv::write(size, datagram)?;
    }
    Ok(())
}

/// Appends the first report on session 1 of engine 1, where every second segment of this size came.
fn write_report(datagram: &mut Vec<u8>, size: u64) -> Result<(), AllocError> {
    datagram.extend_from_slice(&[0x08, 1, 1, 0, 2, 2])?;
    sdnv::write(size.saturating_mul(2047), datagram)?;
    datagram.extend_from_slice(&[0, 0x88, 0])?;
    write_seconds(datagram, size, 1024)
}

/// The first report on session 1 of engine 1, where every second segment of one size came: it has
/// 1,024 claims, and its upper bound is where the last of them stops.
pub(crate) fn report_on_seconds(alloc: Global, size: u64) -> Result<Vec<u8>, Fail> {
    let mut datagram = Vec::new(alloc);
    write_report(&mut datagram, size)?;
    Ok(datagram)
}

/// The size of a segment, and the front of the report on every second one: its bound, the number of
/// its claims, and the first three of them.
const FRONTS: &[(u64, &str)] = &[
    (1, "0801010002028f7f008800000102010401"),
    (512, "080101000202bffc00008800008400880084009000"),
];

/// Whether the report on every second segment begins so.
fn begins(alloc: Global, size: u64, front: &str) -> Result<bool, Fail> {
    let report = report_on_seconds(alloc, size)?;
    Ok(report.starts_with(&octets(alloc, front)?))
}

#[test]
fn reports_on_seconds(rt: HostRuntime) -> Result<(), Fail> {
    for &(size, front) in FRONTS {
        assert!(rt; begins(rt.alloc(), size, front)?, "{size}");
    }
    Ok(())
}
