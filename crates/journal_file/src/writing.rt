//! The octets of records. Each call appends to a buffer; where memory runs out, the buffer is not to be
//! used.

ghost use Rattle.std.specs.Prelude.{◌≡◌, ◌++◌, ◌∷◌, [], OnOk, IfOk};
ghost use Rattle.std.specs.Prelude.{map};
ghost use Rattle.std.specs.List.{flat_map};
ghost use Rattle.journal_file.specs.Keeping.{octet_of};
ghost use Rattle.journal_file.specs.Spelling.{how_octet, came_octets, field_octets, begun_octet, kind_octet, body_octets, record_octets, gated, behind_gate};
ghost use Rattle.journal_file.specs.Ties.{record_of, entry_of};

use crate::fields::check_of;
use crate::kept::octet_of;
use crate::reading::OPEN;
use crate::record::{How, Record};
use std::alloc::{AllocError, Global};

/// What a gate holds that is closed.
pub(crate) const CLOSED: u8 = 0;

/// Appends a record with its check.
pub fn write_record(alloc: Global, said: &Record, out: &mut Vec<u8>) -> Result<(), AllocError>
    ensures ok { OnOk result (out.new.items ≡ out.old.items ++ record_octets (record_of said.now)) }
{
    let body = body_of(alloc, said)?;
    out.extend_from_slice(body.as_slice())?;
    out.extend_from_slice(&check_of(body.as_slice()))?;
    Ok(())
}

/// Appends records, each after an open gate, and a closed gate.
pub fn write_gated(alloc: Global, records: &[Record], out: &mut Vec<u8>) -> Result<(), AllocError>
    ensures ok { OnOk result (out.new.items ≡ out.old.items ++ gated (map record_of records.now)) }
{
    write_entries(alloc, records, out)?;
    out.push(CLOSED)?;
    Ok(())
}

/// Appends records, each after an open gate.
fn write_entries(alloc: Global, records: &[Record], out: &mut Vec<u8>) -> Result<(), AllocError>
    ensures ok { OnOk result (out.new.items ≡ out.old.items ++ flat_map entry_of records.now) }
{
    'entries: for said in records {
        out.push(OPEN)?;
        write_record(alloc, said, out)?;
    }
    Ok(())
}

/// Appends what is written behind a closed gate: where that gate's octet becomes an open one, these
/// records are the next ones. Of no records it is nothing.
#[tactic(auto, unfolding(crate::specs::Spelling::behind_gate))]
pub fn write_behind_gate(
    alloc: Global,
    records: &[Record],
    out: &mut Vec<u8>,
) -> Result<(), AllocError>
    ensures ok { OnOk result (out.new.items ≡ out.old.items ++ behind_gate (map record_of records.now)) }
{
    match records.split_first() {
        None => Ok(()),
        Some((first, rest)) => {
            write_record(alloc, first, out)?;
            write_gated(alloc, rest, out)
        }
    }
}

/// A record without its check.
fn body_of(alloc: Global, said: &Record) -> Result<Vec<u8>, AllocError>
    ensures { IfOk result (λ body. body.items ≡ body_octets (record_of said.now)) }
{
    let mut body = Vec::new(alloc);
    body.push(kind_octet(said))?;
    write_fields(said, &mut body)?;
    Ok(body)
}

/// What stands after a record's kind.
fn write_fields(said: &Record, out: &mut Vec<u8>) -> Result<(), AllocError>
    ensures ok { OnOk result (out.new.items ≡ out.old.items ++ field_octets (record_of said.now)) }
{
    match said {
        Record::Begun {
            id,
            face,
            came,
            block,
        } => {
            sdnv::write(*id, out)?;
            out.push(octet_of(*face))?;
            write_came(*came, out)?;
            sdnv::write(block.len() as u64, out)?;
            out.extend_from_slice(block)
        }
        Record::Done { id, how } => {
            sdnv::write(*id, out)?;
            out.push(how_octet(*how))?;
            Ok(())
        }
        Record::Marked(mark) => {
            out.push(octet_of(mark.face))?;
            sdnv::write(mark.session, out)?;
            sdnv::write(mark.when, out)
        }
        Record::Clear { face, session } => {
            out.push(octet_of(*face))?;
            sdnv::write(*session, out)
        }
        Record::Reserved { face, number } => {
            out.push(octet_of(*face))?;
            sdnv::write(*number, out)
        }
    }
}

/// The moment of a block that has one.
fn write_came(came: Option<u64>, out: &mut Vec<u8>) -> Result<(), AllocError>
    ensures ok { OnOk result (out.new.items ≡ out.old.items ++ came_octets came) }
{
    match came {
        Some(moment) => sdnv::write(moment, out),
        None => Ok(()),
    }
}

/// A block that has a moment is begun by a record of its own kind.
fn begun_octet(came: Option<u64>) -> u8
    ensures { result ≡ begun_octet came }
{
    match came {
        Some(_) => 6,
        None => 1,
    }
}

fn kind_octet(said: &Record) -> u8
    ensures { result ≡ kind_octet (record_of said.now) }
{
    match said {
        Record::Begun { came, .. } => begun_octet(*came),
        Record::Done { .. } => 2,
        Record::Marked(_) => 3,
        Record::Clear { .. } => 4,
        Record::Reserved { .. } => 5,
    }
}

fn how_octet(how: How) -> u8
    ensures { result ≡ how_octet how }
{
    match how {
        How::Sent => 1,
        How::Failed => 2,
        How::Cancelled => 3,
    }
}
