//! Laws of gatherings, each the contract of a function that does nothing.

ghost use Rattle.std.specs.Prelude.{◌≡◌};
ghost use Rattle.piece_gathering.specs.declared.piece.TheConstants.{BLOCK_MAX};
ghost use Rattle.piece_gathering.specs.Laws.{InOrder, BlocksFit, NoneWaitsLate, PiecesAlone, GathersAsSaid};

/// Each piece goes at most once, in the order in which pieces were added.
pub fn in_order()
    ensures { InOrder }
{}

/// No block that goes is longer than a session carries, which is 4 MiB.
pub fn blocks_fit()
    ensures fits { BlocksFit }
    ensures limit { BLOCK_MAX ≡ 4194304 }
{}

/// Where nothing is ready, no piece has waited as long as it may.
pub fn none_waits_late()
    ensures { NoneWaitsLate }
{}

/// Where at most one octet is wanted, each piece goes alone and at once.
pub fn pieces_alone()
    ensures { PiecesAlone }
{}

/// A piece goes with those that wait where it fits, as soon as enough octets wait; where it doesn't, they
/// go, and it waits.
pub fn gathers_as_said()
    ensures { GathersAsSaid }
{}
