//! Pieces that wait at a face until they go together in one block.
//!
//! A link session for each small bundle costs a whole round trip of its own (RFC 5326, section 3.2), so a
//! face may gather pieces: [`Gathering`] keeps those that wait, in order. A block of them is ready where they
//! have as many octets as are wanted, where the next piece wouldn't fit, or where the first has waited long
//! enough. It goes once a session is free for it ([`Gathering::take`]): until then its pieces wait on, and
//! none is lost for want of a session.
//!
//! Each piece goes at most once and in order ([`in_order`]), no block is longer than a session carries
//! ([`blocks_fit`]), and while a session is free no piece waits longer than it may ([`none_waits_late`]).
//! Where no gathering is wanted each piece goes alone and at once ([`pieces_alone`]).
#![tactic(auto)]

mod gathering;
mod laws;
mod piece;

pub use gathering::{Gathering, is_apart};
pub use laws::{blocks_fit, gathers_as_said, in_order, none_waits_late, pieces_alone};
pub use piece::{BLOCK_MAX, Piece};
