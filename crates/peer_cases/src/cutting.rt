//! The pieces of a record that goes on, made one after the other as long as there is room for them.

ghost use Rattle.std.specs.Prelude.{◌≡◌, ◌<◌, ◌&&◌, true, None, Some, if◌then◌else◌, IfOk, [], ◌∷◌};
ghost use Rattle.std.specs.List.{All, list_all};
ghost use Rattle.translate.specs.Sound.{IsSound};
ghost use Rattle.gate_cases.specs.Faces.{fits_at};
ghost use Rattle.gate_cases.specs.Names.{over_at};
ghost use Rattle.gate_cases.specs.Passage.{pieces_on};
ghost use Rattle.face_room.specs.Bounds.{AreBounds};
ghost use Rattle.face_room.specs.Loads.{is_within, has_room, with_pieces};
ghost use Rattle.bundle_age.specs.Raised.{has_age};
ghost use Rattle.peer_cases.specs.Pieces.{greatest_size, piece_of};
ghost use Rattle.peer_cases.specs.Sending.{if_room};

use crate::pieces::{SizedPiece, SizedPieces};
use crate::room::FaceRoom;
use crate::settings::PeerSettings;
use crate::wire::{greatest_size, wire_octets};
use bundle_age::has_age;
use bundle_meaning::Full;
use face_room::{Bounds, Load, has_room, is_within, with_piece};
use fragments::Cutter;
use gate_cases::{Face, is_any_over, piece_count};
use std::alloc::{AllocError, Global};
use std::slice;

/// The pieces of a record that made its hop, if its face has room for all of them.
///
/// There may be millions of them. So none is made where the face has no room for any, or where the names
/// of one block are longer than a session carries; and else one after the other, up to the first that there
/// is no room for. A record that stays whole is moved, and not copied.
pub(crate) fn sized_pieces(
    alloc: Global,
    settings: PeerSettings,
    to: Face,
    full: Full,
    cut: u64,
    room: FaceRoom,
) -> Result<Option<SizedPieces>, AllocError>
    requires some { 0 < cut }
    requires bounds { AreBounds room.bounds }
    requires sound { IsSound full }
    requires fits { fits_at to full ≡ true }
    ensures { IfOk result (λ pieces. pieces ≡ if_room settings to room (pieces_on full cut)) }
{
    if !is_within(room.bounds, room.load) || is_over(to, &full) {
        return Ok(None);
    }
    if piece_count(&full, cut) == 1 {
        return alone(alloc, settings, to, full, room);
    }
    match Cutter::new(full, cut) {
        None => Ok(None),
        Some(cutter) => cut_pieces(alloc, settings, to, cutter, room),
    }
}

/// Whether the names of a block are longer than a session carries, where it is wrapped on the way to a
/// face.
fn is_over(to: Face, full: &Full) -> bool
    ensures { result ≡ over_at to full.now }
{
    is_any_over(to, slice::from_ref(full))
}

/// The pieces of a record that stays whole: itself.
fn alone(
    alloc: Global,
    settings: PeerSettings,
    to: Face,
    full: Full,
    room: FaceRoom,
) -> Result<Option<SizedPieces>, AllocError>
    requires bounds { AreBounds room.bounds }
    requires sound { IsSound full }
    requires fits { fits_at to full ≡ true }
    ensures { IfOk result (λ pieces. pieces ≡ if_room settings to room (full ∷ [])) }
{
    let piece = sized_piece(alloc, settings, to, full)?;
    if !has_room(room.bounds, room.load, &[piece.size]) {
        return Ok(None);
    }
    let mut pieces = SizedPieces::new(alloc);
    pieces.push(piece)?;
    Ok(Some(pieces))
}

/// The pieces that a cutter gives, if there is room for all of them.
fn cut_pieces(
    alloc: Global,
    settings: PeerSettings,
    to: Face,
    cutter: Cutter,
    room: FaceRoom,
) -> Result<Option<SizedPieces>, AllocError>
    requires bounds { AreBounds room.bounds }
    requires within { is_within room.bounds room.load ≡ true }
    requires sound { All IsSound cutter }
    requires fit { list_all (fits_at to) cutter ≡ true }
    ensures { IfOk result (λ pieces. pieces ≡ if_room settings to room cutter) }
{
    let mut cutter = cutter;
    let mut pieces = SizedPieces::new(alloc);
    let mut load = room.load;
    'cutting: loop {
        let Some(full) = cutter.next_piece(alloc)? else {
            return Ok(Some(pieces));
        };
        let piece = sized_piece(alloc, settings, to, full)?;
        let Some(more) = with_room(room.bounds, load, piece.size) else {
            return Ok(None);
        };
        load = more;
        pieces.push(piece)?;
    }
}

/// What a face has to send with a piece of so many octets, if there is room for it.
fn with_room(bounds: Bounds, load: Load, size: u64) -> Option<Load>
    requires bounds { AreBounds bounds }
    requires within { is_within bounds load ≡ true }
    ensures { result ≡ (if has_room bounds load (size ∷ []) then Some (with_pieces bounds load (size ∷ [])) else None) }
{
    if has_room(bounds, load, &[size]) {
        Some(with_piece(bounds, load, size))
    } else {
        None
    }
}

/// Whether the age of a record grows while it waits.
fn is_dated(settings: PeerSettings, full: &Full) -> bool
    ensures { result ≡ (settings.raises && has_age full.now) }
{
    settings.raises && has_age(full)
}

/// The piece that a record is at a face.
fn sized_piece(
    alloc: Global,
    settings: PeerSettings,
    to: Face,
    full: Full,
) -> Result<SizedPiece, AllocError>
    requires sound { IsSound full }
    requires fits { fits_at to full ≡ true }
    ensures { IfOk result (λ piece. piece ≡ piece_of settings to full) }
{
    let octets = wire_octets(alloc, settings, to, &full)?;
    let is_dated = is_dated(settings, &full);
    let size = greatest_size(alloc, settings, to, full, octets.len())?;
    Ok(SizedPiece {
        octets,
        size,
        is_dated,
    })
}
