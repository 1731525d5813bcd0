//! A whole path: an old node, the gate and a new node, with a link between each two.
//!
//! The old node speaks version 6 (RFC 5050), the new one version 7 (RFC 9171), and each link the
//! Licklider Transmission Protocol (RFC 5326). `specs/Path` says what a path is and what each event
//! does: an end sends a bundle, one of all datagrams that were ever sent is delivered, any number
//! of times, or the clock goes on. A datagram that is never delivered is lost.
//!
//! `specs/Links` says what a path's events are on each link, and [`laws::links_run`] that each link
//! then runs as two engines on a link do. So what `ltp_laws` says of every run holds of both. What
//! that comes to for the bundles is [`laws::received_as_sent`]. Each law is the contract of a
//! function that does nothing.
#![tactic(auto)]

mod effects;
pub mod laws;
mod places;

pub use effects::{
    EndJoin, JoinAt, NoteAt, PathEffects, PlaceJoins, PlaceNotes, PlaceUps, SentAt, SentList, UpAt,
};
pub use places::{PathEnd, Place};
