//! Laws of room, each the contract of a function that does nothing.

ghost use Rattle.std.specs.Prelude.{◌≡◌};
ghost use Rattle.face_room.specs.declared.bounds.TheConstants.{BLOCK_MAX, HEADER_MAX, NUMBERS};
ghost use Rattle.face_room.specs.Laws.{IdleHasRoom, FewerHaveRoom, AloneEach, FrontsAreBlocks, GoesWithin, QueuesWithin};

/// An idle face has room for each piece that a session carries, at the least memory and the shortest
/// segments.
pub fn idle_has_room()
    ensures room { IdleHasRoom }
    ensures block { BLOCK_MAX ≡ 4194304 }
    ensures numbers { NUMBERS ≡ 4294967296 }
    ensures head { HEADER_MAX ≡ 34 }
{}

/// Where there is room for some pieces, there is for the first of them.
pub fn fewer_have_room()
    ensures { FewerHaveRoom }
{}

/// Where no piece waits, and each has as many octets as are wanted, each needs a number of its own.
pub fn alone_each()
    ensures { AloneEach }
{}

/// As many blocks are counted as will go.
pub fn fronts_are_blocks()
    ensures { FrontsAreBlocks }
{}

/// What has room waits, and goes once a session is free; and the face stays within its bounds.
pub fn goes_within()
    ensures { GoesWithin }
{}

/// Datagrams that are put stay within the outbox and half of the memory; and where all of them would, none is
/// dropped but for want of room in the outbox.
pub fn queues_within()
    ensures { QueuesWithin }
{}
