//! Whether a face of the gateway has room for pieces: octets, and session numbers.
//!
//! A face keeps a bounded number of octets for what it sends, and sends a bounded number of sessions at once
//! (own rule): [`Bounds`]. Half of its memory is for what it sends, so that a node that takes nothing can't
//! stop what comes from it. What it keeps is the blocks that are being sent, the datagrams in its outbox, and
//! of each piece that waits what it will [`need`]: itself and no less than its datagrams. Pieces wait until a
//! session is free for them ([`piece_gathering`]), so room asks for none; but each block that they make will
//! have a number.
//!
//! [`has_room`] decides for some pieces at once, from the face's [`Load`] in numbers, and takes no memory. An
//! idle face has room for each piece ([`idle_has_room`]); what has room goes as soon as a session is free, and
//! leaves the face within its bounds ([`goes_within`]); and pieces that have as many octets as are wanted
//! take a number of their own each ([`alone_each`]).
//!
//! Of a datagram that a face made, [`Bounds::may_wait`] says whether it is put into the outbox: where more octets
//! than may wait there would, or more than half of the memory would be kept, it is dropped ([`queues_within`]).
#![tactic(auto)]

mod bounds;
mod laws;
mod load;

pub use bounds::{BLOCK_MAX, Bounds, HEADER_MAX, NUMBERS, need};
pub use laws::{
    alone_each, fewer_have_room, fronts_are_blocks, goes_within, idle_has_room, queues_within,
};
pub use load::{Load, Waiting, has_room, is_within, with_piece};
