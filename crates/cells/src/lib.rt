//! Octets that come in any order, with holes between them, place by place: those of a red part
//! (RFC 5326, section 6.9), or of a bundle's fragments (RFC 9171, section 5.9).
//!
//! [`Cells`] starts with no octet; [`Cells::with`] adds octets from a place on, of which only those
//! are kept whose place has none yet; [`Cells::whole_part`] gives all of them once none is missing.
//! A contract sees a `Cells` as a list of cells: an octet for each place where one came.
//!
//! The octets are kept in the order in which they came, in one buffer, each once, with the places
//! that they are for; so memory goes with the octets that came, and never with the places that a
//! stranger names. They are laid into one buffer when the whole is there. Which places are filled
//! is kept as ranges.
//!
//! Where octets may stand, and where the whole ends, is not known here.
#![tactic(auto)]

mod cells;
mod log;

pub use cells::{Cells, PLACES_MAX};
