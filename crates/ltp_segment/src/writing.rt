//! The octets of a segment.

ghost use Rattle.std.specs.Prelude.{◌≡◌, ◌+◌, ◌*◌, ◌<◌, ◌≤◌, ◌^◌, ◌++◌, [], length, IfOk, OnOk};
ghost use Rattle.std.specs.Prelude.{vec_capacity};
ghost use Rattle.std.specs.List.{flat_map};
ghost use Rattle.ltp_segment.specs.Values.{a_piece, a_report, a_report_ack};
ghost use Rattle.ltp_segment.specs.Values.{a_sender_cancel, a_sender_cancel_ack};
ghost use Rattle.ltp_segment.specs.Values.{a_receiver_cancel, a_receiver_cancel_ack};
ghost use Rattle.ltp_segment.specs.Legal.{IsPiece, IsReport};
ghost use Rattle.ltp_segment.specs.Spelling.{Writes, piece_type, serial_octets, claim_octets};
ghost use Rattle.ltp_segment.specs.Spelling.{header_octets, by_side};
ghost use Rattle.ltp_segment.specs.Ties.{cancel_type, cancel_ack_type};

use crate::segment::{Claim, PieceKind};
use endpoint::Octets;
use std::alloc::{AllocError, Global};

/// The most octets that a number has.
const NUMBER: usize = 10;
/// The most octets of a segment without its data or its claims: two octets and seven numbers.
const FIELDS: usize = 2 + 7 * NUMBER;
/// The most octets that a claim has.
const CLAIM: usize = 2 * NUMBER;

/// Writes a piece. Both serials are 0 where it is no checkpoint.
pub fn write_piece(
    alloc: Global,
    originator: u64,
    session: u64,
    kind: PieceKind,
    service: u64,
    offset: u64,
    checkpoint: u64,
    report: u64,
    body: &[u8],
) -> Result<Octets, AllocError>
    requires { IsPiece (record {
      kind = kind;
      service = service;
      offset = offset;
      checkpoint = checkpoint;
      report = report;
      body = body.now;
    }) }
    ensures { IfOk result (Writes originator session (a_piece (record {
      kind = kind;
      service = service;
      offset = offset;
      checkpoint = checkpoint;
      report = report;
      body = body.now;
    }))) }
{
    let room = room_for(alloc, body, &[])?;
    let mut out = header(room, kind.segment_type(), originator, session)?;
    sdnv::write(service, &mut out)?;
    sdnv::write(offset, &mut out)?;
    sdnv::write(body.len() as u64, &mut out)?;
    write_serials(kind.is_checkpoint(), checkpoint, report, &mut out)?;
    out.extend_from_slice(body)?;
    Ok(Octets::from_vec(out))
}

/// Writes a report. The claims' offsets count from `lower`.
pub fn write_report(
    alloc: Global,
    originator: u64,
    session: u64,
    serial: u64,
    checkpoint: u64,
    upper: u64,
    lower: u64,
    claims: &[Claim],
) -> Result<Octets, AllocError>
    requires { IsReport (record {
      serial = serial;
      checkpoint = checkpoint;
      upper = upper;
      lower = lower;
      claims = claims.now;
    }) }
    ensures { IfOk result (Writes originator session (a_report (record {
      serial = serial;
      checkpoint = checkpoint;
      upper = upper;
      lower = lower;
      claims = claims.now;
    }))) }
{
    let room = room_for(alloc, &[], claims)?;
    let mut out = header(room, 8, originator, session)?;
    sdnv::write(serial, &mut out)?;
    sdnv::write(checkpoint, &mut out)?;
    sdnv::write(upper, &mut out)?;
    sdnv::write(lower, &mut out)?;
    sdnv::write(claims.len() as u64, &mut out)?;
    write_claims(claims, &mut out)?;
    Ok(Octets::from_vec(out))
}

/// Writes the acknowledgement of a report.
pub fn write_ack(
    alloc: Global,
    originator: u64,
    session: u64,
    serial: u64,
) -> Result<Octets, AllocError>
    ensures { IfOk result (Writes originator session (a_report_ack serial)) }
{
    let room = room_for(alloc, &[], &[])?;
    let mut out = header(room, 9, originator, session)?;
    sdnv::write(serial, &mut out)?;
    Ok(Octets::from_vec(out))
}

/// Writes a cancel, by the session's sender or by its receiver.
pub fn write_cancel(
    alloc: Global,
    originator: u64,
    session: u64,
    by_sender: bool,
    reason: u8,
) -> Result<Octets, AllocError>
    ensures { IfOk result (Writes originator session
        (by_side by_sender (a_sender_cancel reason) (a_receiver_cancel reason))) }
{
    let room = room_for(alloc, &[], &[])?;
    let mut out = header(room, cancel_type(by_sender), originator, session)?;
    out.push(reason)?;
    Ok(Octets::from_vec(out))
}

/// Writes the acknowledgement of a cancel, to the session's sender or to its receiver.
pub fn write_cancel_ack(
    alloc: Global,
    originator: u64,
    session: u64,
    to_sender: bool,
) -> Result<Octets, AllocError>
    ensures { IfOk result (Writes originator session
        (by_side to_sender a_sender_cancel_ack a_receiver_cancel_ack)) }
{
    let room = room_for(alloc, &[], &[])?;
    let out = header(room, cancel_ack_type(to_sender), originator, session)?;
    Ok(Octets::from_vec(out))
}

/// The segment type of a cancel by the sender or by the receiver.
fn cancel_type(by_sender: bool) -> u8
    ensures { result ≡ cancel_type by_sender }
{
    if by_sender { 12 } else { 14 }
}

/// The segment type of the acknowledgement of a cancel, to the sender or to the receiver.
fn cancel_ack_type(to_sender: bool) -> u8
    ensures { result ≡ cancel_ack_type to_sender }
{
    if to_sender { 13 } else { 15 }
}

/// Room for a segment with this body or these claims. It goes by what is there, and by no number in
/// a field.
fn room_for(alloc: Global, body: &[u8], claims: &[Claim]) -> Result<Vec<u8>, AllocError>
    ensures empty { IfOk result (λ out. out.items ≡ []) }
    ensures room { IfOk result (λ out.
        vec_capacity out ≤ FIELDS + length body.now + CLAIM * length claims.now) }
{
    let octets = claims.len().saturating_mul(CLAIM);
    let room = octets.saturating_add(body.len()).saturating_add(FIELDS);
    Vec::with_capacity(alloc, room)
}

/// The fields before the content, written into this room.
fn header(room: Vec<u8>, kind: u8, originator: u64, session: u64) -> Result<Vec<u8>, AllocError>
    requires { room.items ≡ [] }
    ensures { IfOk result (λ out. out.items ≡ header_octets kind originator session) }
{
    let mut out = room;
    out.push(kind)?;
    sdnv::write(originator, &mut out)?;
    sdnv::write(session, &mut out)?;
    out.push(0)?;
    Ok(out)
}

/// The serials of a checkpoint.
fn write_serials(
    stand_here: bool,
    checkpoint: u64,
    report: u64,
    out: &mut Vec<u8>,
) -> Result<(), AllocError>
    ensures { OnOk result (out.new.items ≡ out.old.items
        ++ serial_octets stand_here checkpoint report) }
{
    if stand_here {
        sdnv::write(checkpoint, out)?;
        sdnv::write(report, out)?;
    }
    Ok(())
}

/// The claims, one after the other.
fn write_claims(claims: &[Claim], out: &mut Vec<u8>) -> Result<(), AllocError>
    ensures { OnOk result (out.new.items ≡ out.old.items ++ flat_map claim_octets claims.now) }
{
    for claim in claims {
        sdnv::write(claim.offset, out)?;
        sdnv::write(claim.length, out)?;
    }
    Ok(())
}
