//! The commands `cut` and `join` on one bundle, of version 6 (RFC 5050) or 7 (RFC 9171).
//!
//! A bundle reads as the record that knows no version, and `fragments` cuts the record or joins it with
//! those that came before. What comes of it is lines: each piece, or the whole, is a bundle in hex, of the
//! version that the bundle has. They are told in parts ([`Telling`]): a piece is made when its line begins,
//! and a long line is never there whole. A whole that was begun in one version and is completed in
//! the other is of the latter.
//!
//! A bundle that doesn't read as a record is turned down ([`TurnedDown`]), and so is one that would have
//! to be cut and must not be, or whose whole has too many blocks. What the joiner itself refuses is a line
//! like any other.
#![tactic(auto)]

mod cutting;
mod joining;
mod lines;
mod pieces;
mod reading;
mod telling;
mod turned_down;
mod views;

pub use cutting::{cut6, cut7};
pub use joining::BundleJoiner;
pub use telling::Telling;
pub use turned_down::TurnedDown;
pub use views::{spelled_new, spelled_old};
