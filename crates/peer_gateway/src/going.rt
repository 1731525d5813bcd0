//! The octets of pieces that go.

ghost use Rattle.std.specs.Prelude.{◌≡◌, ◌∷◌, ◌++◌, [], IfOk};
ghost use Rattle.std.specs.List.{flat_map};
ghost use Rattle.peer_gateway.specs.Going.{going_octets};

use crate::staying::stayed;
use endpoint::Octets;
use gate_cases::Face;
use peer_cases::PeerSettings;
use piece_gathering::Piece;
use std::alloc::{AllocError, Global};

/// The octets of pieces that go together at a face at a moment of the wall clock, each with its age raised.
/// Those of one piece are moved, and not copied.
pub(crate) fn block_of(
    alloc: Global,
    settings: PeerSettings,
    face: Face,
    pieces: Vec<Piece>,
    leaves: u64,
) -> Result<Octets, AllocError>
    ensures { IfOk result (λ block. block ≡ flat_map (going_octets settings face leaves) pieces.items) }
{
    let mut block = Octets::new(alloc);
    'each: for piece in pieces {
        let octets = going(alloc, settings, face, piece, leaves)?;
        block = joined(block, octets)?;
    }
    Ok(block)
}

/// A piece's octets as it goes.
fn going(
    alloc: Global,
    settings: PeerSettings,
    face: Face,
    piece: Piece,
    leaves: u64,
) -> Result<Octets, AllocError>
    ensures { IfOk result (λ octets. octets ≡ going_octets settings face leaves piece) }
{
    let Piece { octets, came, .. } = piece;
    stayed(alloc, settings, face, octets, leaves.saturating_sub(came))
}

/// Octets, and others after them.
fn joined(octets: Octets, more: Octets) -> Result<Octets, AllocError>
    ensures { IfOk result (λ all. all ≡ octets ++ more) }
{
    if octets.len() == 0 {
        return Ok(more);
    }
    let mut all = octets.into_vec();
    let mut more = more.into_vec();
    all.append(&mut more)?;
    Ok(Octets::from_vec(all))
}
