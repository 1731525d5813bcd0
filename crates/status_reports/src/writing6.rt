//! Status reports of version 6, written.

ghost use Rattle.std.specs.Prelude.{◌≡◌, ◌++◌, IfOk, OnOk};
ghost use Rattle.bundle_meaning.specs.Body.{name_octets};
ghost use Rattle.status_reports.specs.Table6.{report6};
ghost use Rattle.status_reports.specs.Legal.{IsReport6};
ghost use Rattle.status_reports.specs.Spelling.{lead_octet, part6_octets, time_octets, times_octets, report6_octets, IsWritten};

use crate::report6::{DELETED, DELIVERED, FORWARDED, RECEIVED, Report6, Time6, is_set};
use bundle_meaning::Part;
use endpoint::{Endpoint, Octets};
use std::alloc::{AllocError, Global};

/// The most octets of a report's numbers.
const ROOM: usize = 128;

/// The body of a report in version 6.
pub fn write6(alloc: Global, report: &Report6) -> Result<Octets, AllocError>
    requires { IsReport6 report.now }
    ensures { IfOk result (IsWritten report6 report.now (report6_octets report.now)) }
{
    let mut out = Vec::with_capacity(alloc, ROOM)?;
    out.push(lead_octet(&report.fragment))?;
    out.push(report.status)?;
    out.push(report.reason)?;
    write_part(&report.fragment, &mut out)?;
    write_times(report.status, &report.times, &mut out)?;
    sdnv::write(report.seconds, &mut out)?;
    sdnv::write(report.sequence, &mut out)?;
    write_source(alloc, &report.source, &mut out)?;
    Ok(Octets::from_vec(out))
}

/// The record type, and whether the subject is a fragment.
fn lead_octet(fragment: &Option<Part>) -> u8
    ensures { result ≡ lead_octet fragment.now }
{
    match fragment {
        None => 0x10,
        Some(_) => 0x11,
    }
}

/// Appends the part of the subject's payload, where there is one.
fn write_part(fragment: &Option<Part>, out: &mut Vec<u8>) -> Result<(), AllocError>
    ensures { OnOk result (out.new.items ≡ out.old.items ++ part6_octets fragment.now) }
{
    if let Some(part) = fragment {
        sdnv::write(part.offset, out)?;
        sdnv::write(part.length, out)?;
    }
    Ok(())
}

/// Appends the times of the statuses that are set.
#[tactic(auto, unfolding(crate::specs::Spelling::times_octets))]
fn write_times(statuses: u8, times: &[Time6; 4], out: &mut Vec<u8>) -> Result<(), AllocError>
    ensures { OnOk result (out.new.items ≡ out.old.items ++ times_octets statuses times.now) }
{
    write_time(is_set(statuses, RECEIVED), times[0], out)?;
    write_time(is_set(statuses, FORWARDED), times[1], out)?;
    write_time(is_set(statuses, DELIVERED), times[2], out)?;
    write_time(is_set(statuses, DELETED), times[3], out)?;
    Ok(())
}

/// Appends the time of a status, where it is set.
fn write_time(set: bool, time: Time6, out: &mut Vec<u8>) -> Result<(), AllocError>
    ensures { OnOk result (out.new.items ≡ out.old.items ++ time_octets set time) }
{
    if set {
        sdnv::write(time.seconds, out)?;
        sdnv::write(time.nanos, out)?;
    }
    Ok(())
}

/// Appends an endpoint: the length of its text, and the text.
fn write_source(alloc: Global, source: &Endpoint, out: &mut Vec<u8>) -> Result<(), AllocError>
    ensures { OnOk result (out.new.items ≡ out.old.items ++ name_octets source.now) }
{
    let text = source.to_text(alloc)?;
    sdnv::write(text.len() as u64, out)?;
    out.extend_from_slice(text.as_slice())?;
    Ok(())
}
