//! What a face has to send, in numbers, and whether it has room for more.

ghost use Rattle.std.specs.Prelude.{◌≡◌, ◌<◌, ◌≤◌, true, [], ◌∷◌};
ghost use Rattle.face_room.specs.Bounds.{AreBounds};
ghost use Rattle.face_room.specs.Loads.{with_size, with_pieces, is_within, has_room};

use crate::bounds::{BLOCK_MAX, Bounds, NUMBERS, need};
use piece_gathering::is_apart;

/// The blocks that the pieces make that wait at a face.
#[derive(Clone, Copy, Debug, PartialEq, Eq)]
pub struct Waiting {
    /// How many they are. The last of them may still grow, and counts.
    pub blocks: u64,
    /// How many octets the last one has.
    pub last: u64,
}

/// What a face has to send.
#[derive(Clone, Copy, Debug, PartialEq, Eq)]
pub struct Load {
    /// The number of its next session.
    pub next_session: u64,
    /// How many octets it keeps: those of the blocks that it is sending and of the datagrams in its outbox,
    /// and what each piece needs that waits.
    pub kept: u64,
    /// The blocks that waiting pieces make.
    pub waiting: Waiting,
}

/// The blocks that waiting pieces make with one more of so many octets.
#[tactic(auto, unfolding(crate::specs::Loads::with_size))]
fn with_size(wanted: u64, waiting: Waiting, size: u64) -> Waiting
    requires size { size ≤ BLOCK_MAX }
    requires blocks { waiting.blocks ≤ NUMBERS }
    ensures exact { result ≡ with_size wanted waiting size }
{
    if waiting.blocks == 0 || is_apart(wanted, waiting.last, size) {
        Waiting {
            blocks: waiting.blocks + 1,
            last: size,
        }
    } else {
        Waiting {
            blocks: waiting.blocks,
            last: waiting.last + size,
        }
    }
}

/// What a face has to send once a piece of so many octets waits there too.
#[tactic(auto, unfolding(crate::specs::Loads::with_sizes))]
pub fn with_piece(bounds: Bounds, load: Load, size: u64) -> Load
    requires bounds { AreBounds bounds }
    requires size { size ≤ BLOCK_MAX }
    requires within { is_within bounds load ≡ true }
    ensures { result ≡ with_pieces bounds load (size ∷ []) }
{
    Load {
        next_session: load.next_session,
        kept: load.kept + need(bounds.segment, size),
        waiting: with_size(bounds.wanted, load.waiting, size),
    }
}

/// Whether a face is within its bounds, where each block that waits will need the number of a session.
#[tactic(auto, unfolding(crate::specs::Loads::is_within))]
pub fn is_within(bounds: Bounds, load: Load) -> bool
    requires { AreBounds bounds }
    ensures { result ≡ is_within bounds load }
{
    load.next_session <= NUMBERS
        && load.waiting.blocks <= NUMBERS - load.next_session
        && load.kept <= bounds.for_pieces()
}

/// Whether a face has room for pieces of these sizes: with them it is within its bounds, and a session
/// carries each. It takes no memory.
#[tactic(auto, unfolding(crate::specs::Loads::has_room))]
pub fn has_room(bounds: Bounds, load: Load, sizes: &[u64]) -> bool
    requires { AreBounds bounds }
    ensures { result ≡ has_room bounds load sizes.now }
{
    let mut load = load;
    'adding: for size in sizes {
        if *size > BLOCK_MAX {
            return false;
        }
        if !is_within(bounds, load) {
            return false;
        }
        load = with_piece(bounds, load, *size);
    }
    is_within(bounds, load)
}
