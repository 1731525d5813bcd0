//! Pieces that wait.

use endpoint::Octets;

/// The most octets of a block that a session carries: 4 MiB. Own rule.
pub const BLOCK_MAX: u64 = 4_194_304;

/// A piece that waits at a face.
#[derive(Debug, Drop)]
pub struct Piece {
    /// Its octets.
    pub octets: Octets,
    /// How many octets it may have when it goes: at least as many as it has now.
    pub size: u64,
    /// When its bundle came, by the wall clock, in milliseconds since the start of the year 2000 UTC.
    pub came: u64,
    /// The face's moment at which it was added, in milliseconds.
    pub added: u64,
    /// Whether a journal's record of it says when its bundle came: where its age grows while it waits.
    pub is_dated: bool,
}
