//! Block types of the gateway's own blocks, where a network gives 192 and 193 to something else.
//!
//! A residue has the type 192 and a wrap 193 ([`bundle_meaning`]). On a wire they may have other types,
//! [`BlockTypes`]: [`relabel7`] and [`relabel6`] make a bundle of the wire out of one of the gateway, and
//! the other way round, since each is its own inverse ([`relabelled_twice`]). A bundle is relabelled after
//! it is read and before it is written; translation in between knows 192 and 193 alone
//! ([`there_and_back_relabelled`]).
//!
//! [`bare`] leaves out of a record what a version 7 bundle could only say in a residue or a wrap, for a
//! network that is to see no private block ([`bare_view_is_plain`]); [`left_out`] says what that is.
//!
//! All of it is done in place: no octets of a body are copied, and no memory is taken but for the types
//! that [`left_out`] gives.
#![tactic(auto)]

mod laws;
mod leaving;
mod losing;
mod types;
mod wire6;
mod wire7;

pub use laws::{
    bare_view_is_plain, nothing_relabelled, relabelled_is_legal, relabelled_twice,
    there_and_back_relabelled, types_swap, wraps_say_wire_types,
};
pub use leaving::bare;
pub use losing::{LeftOut, left_out};
pub use types::BlockTypes;
pub use wire6::relabel6;
pub use wire7::relabel7;
