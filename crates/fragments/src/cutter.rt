//! The pieces of a record, made one at a time.

ghost use Rattle.std.specs.Prelude.{◌≡◌, ◌↔◌, ◌<◌, ◌&&◌, true, None, length, IfOk, IfSome, OnErr};
ghost use Rattle.std.specs.List.{All};
ghost use Rattle.bundle_meaning.specs.Valid.{IsValid};
ghost use Rattle.fragments.specs.Cutting.{is_longer, must_not, how_many, octets_of, piece, pieces, Gives};
ghost use Rattle.fragments.specs.CutterLeft.{pieces_of, IsCutting};

use crate::cutting::{must_not, octets_of, piece};
use bundle_meaning::Full;
use std::alloc::{AllocError, Global};
use std::marker::Model;
use std::mem;

/// The pieces of a record that are still to be made, in the order of their places. The record is kept
/// once, and each piece is made when it is asked for.
#[derive(Debug, Drop)]
pub struct Cutter {
    left: Left,
}

impl Model for Cutter {
    ghost use Rattle.std.specs.Prelude.{List};
    ghost use Rattle.bundle_meaning.specs.declared.full.Full.{Full};
    ghost use Rattle.fragments.specs.CutterLeft.{pieces_left, IsLeft};

    ghost Value = { List Full };

    ghost view = { λ cutter. pieces_left cutter.left };

    ghost invariant = { λ cutter. IsLeft cutter.left };
}

/// What is left of a record.
#[derive(Debug, Drop)]
pub(crate) enum Left {
    /// Nothing.
    Nothing,
    /// The record, which isn't cut.
    Alone(Full),
    /// Pieces of it.
    Pieces(Cut),
}

/// A record that is cut.
#[derive(Debug, Drop)]
pub(crate) struct Cut {
    full: Full,
    /// How many octets of the payload each piece has but the last.
    size: usize,
    /// The index of the next piece.
    next: usize,
    /// How many pieces are left.
    count: usize,
}

impl Cutter {
    /// Begins to cut a record into pieces that have so many octets of its payload each, the last those
    /// that are left; or answers nothing where the record would have to be cut, and must not be. It
    /// takes no memory. The pieces are those that [`crate::cut`] gives at once.
    pub fn new(full: Full, size: u64) -> Option<Cutter>
        requires some { 0 < size }
        requires valid { IsValid full }
        ensures pieces { IfSome result (λ cutter. cutter ≡ pieces full size) }

        // Each of them is a valid record.
        ensures valid { IfSome result (All IsValid) }

        // It is refused if and only if it would have to be cut, and must not be.
        ensures must_not { (result ≡ None) ↔ ((is_longer full size && must_not full.shared) ≡ true) }
    {
        let octets = octets_of(&full.shared.content);
        let length = octets.len();
        if length as u64 <= size {
            return Some(Cutter {
                left: Left::Alone(full),
            });
        }
        if must_not(&full.shared) {
            return None;
        }
        let count = (length - 1) / size as usize + 1;
        Some(Cutter {
            left: Left::Pieces(Cut {
                full,
                size: size as usize,
                next: 0,
                count,
            }),
        })
    }

    /// How many pieces are left.
    pub fn len(&self) -> usize
        ensures { result ≡ length self.now }
    {
        match &self.left {
            Left::Nothing => 0,
            Left::Alone(_) => 1,
            Left::Pieces(cut) => cut.count,
        }
    }

    /// The next piece, where one is left. Want of memory leaves all pieces.
    pub fn next_piece(&mut self, alloc: Global) -> Result<Option<Full>, AllocError>
        ensures gives { IfOk result (Gives self.old self.new) }
        ensures kept { OnErr result (self.new ≡ self.old) }
    {
        match mem::replace(&mut self.left, Left::Nothing) {
            Left::Nothing => Ok(None),
            Left::Alone(full) => Ok(Some(full)),
            Left::Pieces(mut cut) => {
                let piece = cut.next(alloc);
                self.left = Left::Pieces(cut);
                piece
            }
        }
    }
}

impl Cut {
    /// The next piece, where one is left.
    fn next(&mut self, alloc: Global) -> Result<Option<Full>, AllocError>
        requires cutting { IsCutting self.old }
        ensures cutting { IsCutting self.new }
        ensures gives { IfOk result (Gives (pieces_of self.old) (pieces_of self.new)) }
        ensures kept { OnErr result (self.new ≡ self.old) }
    {
        if self.count == 0 {
            return Ok(None);
        }
        let piece = self.piece(alloc)?;
        self.next += 1;
        self.count -= 1;
        Ok(Some(piece))
    }

    /// The piece at the next index.
    fn piece(&self, alloc: Global) -> Result<Full, AllocError>
        requires cutting { IsCutting self.now }
        requires some { 0 < self.now.count }
        ensures { IfOk result (λ made. made ≡ piece self.now.full self.now.size self.now.next) }
    {
        let octets = octets_of(&self.full.shared.content);
        piece(alloc, &self.full, octets, self.size, self.next)
    }
}
