//! Pieces that come for an open red part, until it is whole.
ghost use Rattle.std.specs.Prelude.{◌≡◌, ◌<◌, ◌≤◌, [], None, length, OnOk, IfOk};
ghost use Rattle.std.specs.Option.{option_map};
ghost use Rattle.ltp_session.specs.Cells.{filled, whole_part, length_after as after};
ghost use Rattle.ltp_session.specs.RedPart.{red_stop};
ghost use Rattle.receive_run.specs.Session.{is_out_of_bounds as bounds};
ghost use Rattle.receive_run.specs.Views.{red_piece};
ghost use Rattle.receive_run.specs.OpenPart.{Stands};

use crate::part::OpenPart;
use crate::piece::Piece;
use cells::Cells;
use ltp_segment::BLOCK_MAX;
use std::alloc::{AllocError, Global};
use std::mem;

/// A red part of which nothing came.
pub fn empty_part(alloc: Global) -> OpenPart
    ensures { Stands result [] None }
{
    OpenPart {
        cells: Cells::new(alloc),
        length: None,
    }
}

/// Whether the piece can't be one of a red part of which octets came up to `reach`, and whose
/// length is known or not: it is empty, or ends past the greatest block or past the red part; or
/// the red part ends with it elsewhere than before, or below an octet that came.
pub fn is_out_of_bounds(reach: u64, length: Option<u64>, piece: &Piece<'_>) -> bool
    ensures { result ≡ bounds BLOCK_MAX reach length (red_piece piece.now) }
{
    let size = piece.body.len() as u64;
    if size == 0 || size > BLOCK_MAX || piece.offset > BLOCK_MAX - size {
        return true;
    }
    let stop = piece.offset + size;
    match length {
        Some(length) => length < stop || (piece.ends && (length != stop || stop < reach)),
        None => piece.ends && stop < reach,
    }
}

/// Takes a piece that can be one of the red part. Where memory runs out, the part may be empty.
pub fn take(alloc: Global, part: &mut OpenPart, piece: &Piece<'_>) -> Result<(), AllocError>
    requires some { 0 < length piece.now.body.now }
    requires fits { red_stop (red_piece piece.now) ≤ BLOCK_MAX }
    ensures { OnOk result (Stands part.new (filled part.old.cells piece.now.offset piece.now.body.now)
        (after part.old.length piece.now.ends (red_stop (red_piece piece.now)))) }
{
    let stop = piece.offset + piece.body.len() as u64;
    let cells = mem::replace(&mut part.cells, Cells::new(alloc));
    part.cells = cells.with(piece.offset, piece.body)?;
    part.length = length_after(part.length, piece.ends, stop);
    Ok(())
}

/// The length of the red part, once a piece that ends here came.
fn length_after(length: Option<u64>, ends: bool, stop: u64) -> Option<u64>
    ensures { result ≡ after length ends stop }
{
    match length {
        None if ends => Some(stop),
        _ => length,
    }
}

/// The red part, if it is whole.
pub fn whole(alloc: Global, part: &OpenPart) -> Result<Option<Vec<u8>>, AllocError>
    ensures { IfOk result (λ body. option_map (λ v. v.items) body
        ≡ whole_part part.now.cells part.now.length) }
{
    part.cells.whole_part(alloc, part.length)
}
