//! Bundles cut into fragments, and joined again (RFC 5050, sections 5.8 and 5.9; RFC 9171, sections 5.8
//! and 5.9).
//!
//! Both are done to the record that knows no version ([`bundle_meaning::Full`]), so that a bundle can be
//! cut on one face and joined on the other. [`cut`] gives the pieces of a record, each with so many
//! octets of its payload but the last, and a [`Cutter`] gives the same one at a time. A [`Joiner`] takes fragments in any order, and gives the whole with
//! the one that completes it.
//!
//! Where extension blocks go is the project's own choice: the first piece has all of them, and each
//! other one those that are to stand in every fragment.
//!
//! The laws of the definitions are [`pieces_lie_end_to_end`], [`pieces_join_again`],
//! [`fragments_give_the_whole`], [`names_stand_alone`], [`repeats_bring_nothing`],
//! [`whole_when_all_came`] and [`totals_are_small`].
#![tactic(auto)]

mod cutter;
mod cutting;
mod fault;
mod fulls;
mod join;
mod joining;
mod kept;
mod laws;
mod limits;

pub use cutter::Cutter;
pub use cutting::{cut, must_not};
pub use fault::{CutRefused, JoinRefused};
pub use fulls::Fulls;
pub use joining::{Joined, Joiner};
pub use laws::{
    fragments_give_the_whole, names_stand_alone, pieces_join_again, pieces_lie_end_to_end,
    repeats_bring_nothing, totals_are_small, whole_when_all_came,
};
pub use limits::{NAMES_MAX, TOTAL_MAX, joining_limits};
