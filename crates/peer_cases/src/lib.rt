//! What a gateway among other implementations decides about the bundles of a block.
//!
//! Such a block is a row of bundles ([`bundle_rows`]): [`Items`] gives them one after the other, and the
//! row's end. The gateway decides about each in turn ([`decide`]), by the room that the one before it left:
//! the cases are those of [`gate_cases`], and the room is that of a face within its bounds ([`face_room`]).
//! What is decided is a value, and nothing is sent here. It hangs on the settings of a gateway
//! ([`PeerSettings`]): its own blocks have the types of the wire ([`block_types`]), may be left out of
//! what goes on, and the age of a bundle is raised while it waits ([`bundle_age`]), so a piece needs
//! room for the octets that it may have when it goes ([`SizedPiece`]).
//!
//! A row is its bundles one after the other, each as if it came alone, and its end ([`row_in_turn`]). With
//! settings that change nothing, a block of one bundle, or of none, has the judgement that [`gate_cases`]
//! gives ([`decided_as_before`]). What goes on has room, and a session carries each piece
//! ([`decided_is_sendable`]).
#![tactic(auto)]

mod cutting;
mod deciding;
mod decision;
mod items;
mod laws;
mod onward;
mod pieces;
mod room;
mod sending;
mod settings;
mod wire;

pub use deciding::decide;
pub use decision::Decision;
pub use items::{Item, Items};
pub use laws::{decided_as_before, decided_is_sendable, row_in_turn};
pub use pieces::{SizedPiece, SizedPieces};
pub use room::{FaceRoom, is_unreported};
pub use settings::PeerSettings;
pub use wire::wire_octets;
