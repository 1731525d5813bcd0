//! Pieces of a bundle that goes on.

use endpoint::{Listed, Octets};

/// A piece that goes on at a face.
#[derive(Debug, Drop)]
pub struct SizedPiece {
    /// Its octets, with the types of the wire.
    pub octets: Octets,
    /// How many octets it may have when it goes: while it waits its age may grow.
    pub size: u64,
    /// Whether its age grows while it waits: ages are raised, and it has one.
    pub is_dated: bool,
}

/// Pieces that go on, in order.
pub type SizedPieces = Listed<SizedPiece>;
