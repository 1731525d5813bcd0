//! What the pieces that wait at a face will take there, in numbers.

ghost use Rattle.std.specs.Prelude.{◌≡◌, ◌+◌, ◌<◌, ◌≤◌, IfOk};
ghost use Rattle.std.specs.List.{sum_by};
ghost use Rattle.piece_gathering.specs.Fronts.{AreWithin};
ghost use Rattle.face_room.specs.Bounds.{AreBounds, need};
ghost use Rattle.face_room.specs.Faces.{sizes_of};
ghost use Rattle.face_room.specs.Loads.{with_size};

use face_room::{BLOCK_MAX, Bounds, Waiting, need};
use piece_gathering::{Piece, is_apart};
use std::alloc::AllocError;

/// What waiting pieces need, and the blocks that they make.
///
/// It follows each piece that comes and goes, so that nobody has to ask all of them.
#[derive(Clone, Copy, Debug)]
pub(crate) struct Waits {
    pub needs: u64,
    pub waiting: Waiting,
}

/// The sum, where a number counts it. Else there would be more octets than any memory has.
pub(crate) fn plus(a: u64, b: u64) -> Result<u64, AllocError>
    ensures { IfOk result (λ n. n ≡ a + b) }
{
    match a.checked_add(b) {
        Some(n) => Ok(n),
        None => Err(AllocError),
    }
}

impl Waits {
    ghost use Rattle.peer_gateway.specs.Waits.{no_waits, waits_with, waits_after};

    /// Nothing waits.
    pub fn none() -> Waits
        ensures { result ≡ no_waits }
    {
        Waits {
            needs: 0,
            waiting: Waiting { blocks: 0, last: 0 },
        }
    }

    /// A piece of so many octets waits after the others.
    pub fn with(self, bounds: Bounds, size: u64) -> Result<Waits, AllocError>
        requires bounds { AreBounds bounds }
        requires size { size ≤ BLOCK_MAX }
        ensures { IfOk result (λ waits. waits ≡ waits_with bounds self size) }
    {
        Ok(Waits {
            needs: plus(self.needs, need(bounds.segment, size))?,
            waiting: with_size(bounds.wanted, self.waiting, size)?,
        })
    }

    /// The pieces in front went, which needed so much; others wait on, or none.
    pub fn after(self, needs: u64, waits_on: bool) -> Waits
        requires needs { needs ≤ self.needs }
        requires blocks { 1 ≤ self.waiting.blocks }
        ensures { result ≡ waits_after self needs waits_on }
    {
        let needs = self.needs - needs;
        if waits_on {
            let waiting = Waiting {
                blocks: self.waiting.blocks - 1,
                last: self.waiting.last,
            };
            Waits { needs, waiting }
        } else {
            let waiting = Waiting { blocks: 0, last: 0 };
            Waits { needs, waiting }
        }
    }
}

/// The blocks that waiting pieces make with one more of so many octets.
#[tactic(auto, unfolding(face_room::specs::Loads::with_size))]
fn with_size(wanted: u64, waiting: Waiting, size: u64) -> Result<Waiting, AllocError>
    requires { size ≤ BLOCK_MAX }
    ensures { IfOk result (λ more. more ≡ with_size wanted waiting size) }
{
    if waiting.blocks == 0 || is_apart(wanted, waiting.last, size) {
        let blocks = plus(waiting.blocks, 1)?;
        Ok(Waiting { blocks, last: size })
    } else {
        Ok(Waiting {
            blocks: waiting.blocks,
            last: waiting.last + size,
        })
    }
}

/// What some pieces need together.
pub(crate) fn needs_in(segment: u64, pieces: &[Piece]) -> Result<u64, AllocError>
    requires some { 0 < segment }
    requires within { AreWithin pieces.now }
    ensures { IfOk result (λ needs. needs ≡ sum_by (need segment) (sizes_of pieces.now)) }
{
    let mut needs = 0u64;
    'needing: for piece in pieces {
        needs = plus(needs, need(segment, piece.size))?;
    }
    Ok(needs)
}
