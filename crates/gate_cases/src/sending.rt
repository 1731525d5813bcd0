//! The pieces of a record that goes on, and the room for them.

ghost use Rattle.std.specs.Prelude.{◌≡◌, ◌+◌, ◌<◌, ◌^◌, ◌||◌, not, nat_lt, true, length, map, Some, None, if◌then◌else◌, IfOk, OnErr, ◌==◌, [], ◌∷◌};
ghost use Rattle.std.specs.List.{All, list_all, list_any};
ghost use Rattle.bundle_meaning.specs.Valid.{IsValid};
ghost use Rattle.translate.specs.Refusals.{first_that_holds};
ghost use Rattle.translate.specs.Sound.{IsSound};
ghost use Rattle.fragments.specs.Cutting.{octets_of, is_longer, must_not};
ghost use Rattle.gate_cases.specs.declared.case.TheConstants.{BLOCK_MAX, SENDING_MAX, NUMBERS};
ghost use Rattle.gate_cases.specs.Faces.{octets_at, fits_at};
ghost use Rattle.gate_cases.specs.Passage.{pieces_on};
ghost use Rattle.gate_cases.specs.Sending.{has_sessions, HaveSessions, ends, sent_full, sent_records};

use crate::case::{BLOCK_MAX, GateCase, NUMBERS, Room, SENDING_MAX};
use crate::face::Face;
use crate::hop::{has_no_hop_left, passage};
use crate::judged::Pieces;
use crate::names::is_any_over;
use bundle_meaning::{Content, Full, expiry_ms};
use bundle6::encode6;
use bundle7::encode7;
use endpoint::Octets;
use fragments::{CutRefused, Fulls, cut, must_not};
use std::alloc::{AllocError, Global};
use translate::{Refused, ViewRefused, fits6, fits7, sized6, view6, view6_is_legal, view7};

/// The case of a bundle that is translated, and the pieces that go on.
#[derive(Debug, Drop)]
pub(crate) struct Sent {
    pub(crate) case: GateCase,
    pub(crate) pieces: Pieces,
}

/// What is decided about a record on its way to a face, at this moment. That its lifetime or its hops are
/// over takes no memory.
pub(crate) fn send(
    alloc: Global,
    to: Face,
    full: Full,
    now: u64,
    size: u64,
    room: Room,
) -> Result<Sent, AllocError>
    requires some { 0 < size }
    requires sound { IsSound full }
    ensures exact { IfOk result (λ sent. sent ≡ sent_full to full now size room) }
    ensures memory { OnErr result (first_that_holds (ends full now) ≡ None) }
{
    if expiry_ms(&full) < u128::from(now) {
        return Ok(stopped(alloc, GateCase::Expired));
    }
    if has_no_hop_left(full.exts.as_slice()) {
        return Ok(stopped(alloc, GateCase::HopLimit));
    }
    send_passed(alloc, to, passage(alloc, full)?, size, room)
}

/// A case in which nothing goes on.
pub(crate) fn stopped(alloc: Global, case: GateCase) -> Sent
    ensures { result ≡ record { case = case; pieces = [] } }
{
    Sent {
        case,
        pieces: Pieces::new(alloc),
    }
}

/// The same of a record that made its hop. Where it has too many blocks, or there are too few sessions for
/// its pieces, they aren't made: there may be millions.
fn send_passed(
    alloc: Global,
    to: Face,
    passed: Full,
    size: u64,
    room: Room,
) -> Result<Sent, AllocError>
    requires some { 0 < size }
    requires sound { IsSound passed }
    ensures exact { IfOk result (λ sent. sent ≡ sent_records to (pieces_on passed size) room) }
    ensures memory { OnErr result (HaveSessions to (pieces_on passed size) room) }
{
    if !fits(to, &passed) {
        return Ok(stopped(alloc, TOO_MANY));
    }
    if has_sessions(room, piece_count(&passed, size)) {
        send_pieces(alloc, to, piece_records(alloc, passed, size)?)
    } else {
        Ok(stopped(alloc, GateCase::Storage))
    }
}

/// The same of the records of pieces, whatever the room, if there are sessions for them. Nothing is
/// written where the names of one alone are too long.
fn send_pieces(alloc: Global, to: Face, records: Fulls) -> Result<Sent, AllocError>
    requires { All IsSound records }
    ensures { IfOk result (λ sent. (room : Room) → has_sessions room (length records) ≡ true
        → sent ≡ sent_records to records room) }
{
    if is_any_over(to, records.as_slice()) {
        return Ok(unsent(alloc, all_fit(to, records.as_slice())));
    }
    match all_spelled(alloc, to, records.as_slice())? {
        None => Ok(stopped(alloc, TOO_MANY)),
        Some(pieces) => Ok(carried(alloc, pieces)),
    }
}

/// A piece has too many blocks for the version of its face.
const TOO_MANY: GateCase = GateCase::Untranslated {
    cause: Refused::TooManyBlocks,
};

/// The pieces, each of which there is a session for, go on unless one is too long.
fn carried(alloc: Global, pieces: Pieces) -> Sent
    ensures { result ≡ (if list_any (λ piece. nat_lt BLOCK_MAX (length piece)) pieces
        then record { case = GateCase.Storage; pieces = [] } else record { case = GateCase.Passed; pieces = pieces }) }
{
    if is_any_too_long(pieces.as_slice()) {
        stopped(alloc, GateCase::Storage)
    } else {
        Sent {
            case: GateCase::Passed,
            pieces,
        }
    }
}

/// Whether no session carries one of the pieces.
fn is_any_too_long(pieces: &[Octets]) -> bool
    ensures { result ≡ list_any (λ piece. nat_lt BLOCK_MAX (length piece)) pieces.now }
{
    pieces.iter().any(|piece| is_too_long(piece))
}

/// Whether no session carries the piece.
fn is_too_long(piece: &Octets) -> bool
    ensures { result ≡ nat_lt BLOCK_MAX (length piece.now) }
{
    piece.len() > BLOCK_MAX
}

/// What isn't sent for want of room: that pieces have too many blocks comes first.
fn unsent(alloc: Global, fit: bool) -> Sent
    ensures { result ≡ record {
      case = if fit then GateCase.Storage else GateCase.Untranslated Refused.TooManyBlocks;
      pieces = [];
    } }
{
    if fit {
        stopped(alloc, GateCase::Storage)
    } else {
        stopped(alloc, TOO_MANY)
    }
}

/// Whether there is room for the blocks of a record in its bundle at a face.
fn fits(to: Face, full: &Full) -> bool
    requires { IsSound full.now }
    ensures { result ≡ fits_at to full.now }
{
    match to {
        Face::Old => fits6(full),
        Face::New => fits7(full),
    }
}

/// Whether there is room for the blocks of each record in its bundle at a face.
pub fn all_fit(to: Face, records: &[Full]) -> bool
    requires { All IsSound records.now }
    ensures { result ≡ list_all (fits_at to) records.now }
{
    'fitting: for full in records {
        if !fits(to, full) {
            return false;
        }
    }
    true
}

/// Whether there is a session for each of so many pieces.
fn has_sessions(room: Room, pieces: u64) -> bool
    ensures { result ≡ has_sessions room pieces }
{
    room.sending <= SENDING_MAX
        && pieces <= (SENDING_MAX - room.sending) as u64
        && room.next_session <= NUMBERS
        && pieces <= NUMBERS - room.next_session
}

/// How many pieces a record has that goes on, where a piece has at most so many octets of its payload
/// (RFC 9171, section 5.8). It takes no memory.
pub fn piece_count(full: &Full, size: u64) -> u64
    requires { 0 < size }
    ensures { result ≡ length (pieces_on full.now size) }
{
    if stays_whole(full, size) {
        1
    } else {
        (octets_in(&full.shared.content) as u64 - 1) / size + 1
    }
}

/// Whether the record is one piece: it is short enough, or must stay whole.
fn stays_whole(full: &Full, size: u64) -> bool
    ensures { result ≡ (not (is_longer full.now size) || must_not full.now.shared) }
{
    octets_in(&full.shared.content) as u64 <= size || must_not(&full.shared)
}

/// How many octets a payload has that may be cut. A report has none.
fn octets_in(content: &Content) -> usize
    ensures { result ≡ length (octets_of content.now) }
{
    match content {
        Content::Bytes(octets) => octets.len(),
        Content::Report(_) => 0,
    }
}

/// The records of those pieces, in order. One that stays whole is moved, and not copied.
pub fn piece_records(alloc: Global, full: Full, size: u64) -> Result<Fulls, AllocError>
    requires some { 0 < size }
    requires sound { IsSound full }
    ensures pieces { IfOk result (λ fulls. fulls ≡ pieces_on full size) }
    ensures sound { IfOk result (All IsSound) }
{
    if octets_in(&full.shared.content) as u64 <= size {
        return whole(alloc, full);
    }
    match cut(alloc, &full, size) {
        Ok(fulls) => Ok(fulls),
        Err(CutRefused::MustNot) => whole(alloc, full),
        Err(CutRefused::Memory) => Err(AllocError),
    }
}

/// The record alone.
fn whole(alloc: Global, full: Full) -> Result<Fulls, AllocError>
    ensures { IfOk result (λ fulls. fulls ≡ full ∷ []) }
{
    let mut fulls = Vec::new(alloc);
    fulls.push(full)?;
    Ok(Fulls::from_vec(fulls))
}

/// The octets of each record's bundle at a face, if there is room for the blocks of each.
fn all_spelled(alloc: Global, to: Face, records: &[Full]) -> Result<Option<Pieces>, AllocError>
    requires { All IsSound records.now }
    ensures { IfOk result (λ pieces. pieces ≡ (if list_all (fits_at to) records.now
        then Some (map (octets_at to) records.now) else None)) }
{
    let mut pieces = Pieces::new(alloc);
    'spelling: for full in records {
        match spelled(alloc, to, full)? {
            Some(octets) => pieces.push(octets)?,
            None => return Ok(None),
        }
    }
    Ok(Some(pieces))
}

/// The octets of a record's bundle at a face, if there is room for its blocks.
pub fn spelled(alloc: Global, to: Face, full: &Full) -> Result<Option<Octets>, AllocError>
    requires { IsSound full.now }
    ensures { IfOk result (λ octets. octets ≡ (if fits_at to full.now then Some (octets_at to full.now) else None)) }
{
    match to {
        Face::Old => spelled_old(alloc, full),
        Face::New => spelled_new(alloc, full),
    }
}

/// The octets of a record's version 6 bundle, if there is room for its blocks.
fn spelled_old(alloc: Global, full: &Full) -> Result<Option<Octets>, AllocError>
    requires { IsSound full.now }
    ensures { IfOk result (λ octets. octets ≡ (if fits_at Face.Old full.now then Some (octets_at Face.Old full.now) else None)) }
{
    match view6(alloc, full) {
        Ok(bundle) => {
            sized6(bundle.blocks.as_slice());
            view6_is_legal();
            Ok(Some(encode6(alloc, &bundle)?))
        }
        Err(ViewRefused::TooManyBlocks) => Ok(None),
        Err(ViewRefused::Memory) => Err(AllocError),
    }
}

/// The octets of a record's version 7 bundle, if there is room for its blocks.
fn spelled_new(alloc: Global, full: &Full) -> Result<Option<Octets>, AllocError>
    requires { IsSound full.now }
    ensures { IfOk result (λ octets. octets ≡ (if fits_at Face.New full.now then Some (octets_at Face.New full.now) else None)) }
{
    match view7(alloc, full) {
        Ok(bundle) => Ok(Some(encode7(alloc, &bundle)?)),
        Err(ViewRefused::TooManyBlocks) => Ok(None),
        Err(ViewRefused::Memory) => Err(AllocError),
    }
}
