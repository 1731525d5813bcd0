//! Status reports of version 7, written.

ghost use Rattle.std.specs.Prelude.{◌≡◌, ◌++◌, IfOk, OnOk};
ghost use Rattle.status_reports.specs.Table7.{report7};
ghost use Rattle.status_reports.specs.Legal.{IsReport7};
ghost use Rattle.status_reports.specs.Spelling.{stamp_octets, stamps_octets, items_of, part7_octets, report7_octets, IsWritten};

use crate::report7::Report7;
use bundle_meaning::{Part, Stamp};
use bundle7::write_eid;
use cbor_lite::{write_array, write_bool, write_uint};
use endpoint::Octets;
use std::alloc::{AllocError, Global};

/// The most octets of a report without its source.
const ROOM: usize = 96;

/// The body of a report in version 7.
pub fn write7(alloc: Global, report: &Report7) -> Result<Octets, AllocError>
    requires { IsReport7 report.now }
    ensures { IfOk result (IsWritten report7 report.now (report7_octets report.now)) }
{
    let mut out = Vec::with_capacity(alloc, ROOM)?;
    write_array(2, &mut out)?;
    write_uint(1, &mut out)?;
    write_array(items_of(&report.fragment), &mut out)?;
    write_stamps(&report.stamps, &mut out)?;
    write_uint(u64::from(report.reason), &mut out)?;
    write_eid(&report.source, &mut out)?;
    write_array(2, &mut out)?;
    write_uint(report.millis, &mut out)?;
    write_uint(report.sequence, &mut out)?;
    write_part(&report.fragment, &mut out)?;
    Ok(Octets::from_vec(out))
}

/// How many items a report has.
fn items_of(fragment: &Option<Part>) -> u64
    ensures { result ≡ items_of fragment.now }
{
    match fragment {
        None => 4,
        Some(_) => 6,
    }
}

/// Appends the four statuses.
#[tactic(auto, unfolding(crate::specs::Spelling::stamps_octets))]
fn write_stamps(stamps: &[Stamp; 4], out: &mut Vec<u8>) -> Result<(), AllocError>
    ensures { OnOk result (out.new.items ≡ out.old.items ++ stamps_octets stamps.now) }
{
    write_array(4, out)?;
    write_stamp(stamps[0], out)?;
    write_stamp(stamps[1], out)?;
    write_stamp(stamps[2], out)?;
    write_stamp(stamps[3], out)?;
    Ok(())
}

/// Appends one status.
fn write_stamp(stamp: Stamp, out: &mut Vec<u8>) -> Result<(), AllocError>
    ensures { OnOk result (out.new.items ≡ out.old.items ++ stamp_octets stamp) }
{
    match stamp {
        Stamp::No => {
            write_array(1, out)?;
            write_bool(false, out)?;
        }
        Stamp::Yes => {
            write_array(1, out)?;
            write_bool(true, out)?;
        }
        Stamp::At(millis) => {
            write_array(2, out)?;
            write_bool(true, out)?;
            write_uint(millis, out)?;
        }
    }
    Ok(())
}

/// Appends the part of the subject's payload, where there is one.
fn write_part(fragment: &Option<Part>, out: &mut Vec<u8>) -> Result<(), AllocError>
    ensures { OnOk result (out.new.items ≡ out.old.items ++ part7_octets fragment.now) }
{
    if let Some(part) = fragment {
        write_uint(part.offset, out)?;
        write_uint(part.length, out)?;
    }
    Ok(())
}
