//! The sessions of a face among other implementations: its engine, and what it remembers of a peer.
//!
//! [`ltp_engine`] does about a session what RFC 5326 asks. It keeps every number that was ever used, and
//! the sessions that a peer leaves unfinished for as long as there is room. A peer that gives its numbers
//! at random, begins anew or sends more than the face has memory for needs bounds that an operator sets
//! (own rule): [`Keys`]. [`PeerSessions`] keeps the numbers of sessions that are over for a time
//! ([`session_memory`]); it closes a session that nothing touched for that time; and where all receiving
//! sessions together have more octets than half of the memory, it closes those that are longest
//! untouched.
//!
//! Its contracts cite `specs/Sessions.antt`, which says what a face's sessions do. Moments are those of the
//! face, which stand still while its link is closed. A face is told of each datagram
//! ([`PeerSessions::hear`]) and that time has passed ([`PeerSessions::tick`]), and is given the blocks that it
//! is to send ([`PeerSessions::submit`]).
#![tactic(auto)]

mod blocks;
mod contents;
mod hearing;
mod keys;
pub mod laws;
mod moments;
mod notes;
mod parts;
mod remembering;
mod sessions;
mod trimming;

pub use keys::Keys;
pub use sessions::{PeerSessions, Told};
