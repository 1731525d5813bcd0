//! The tables of tests of bundles, records and reports, over the public calls of the crates below:
//! also of bundles in pieces, of their texts, and of bundles that are cut and joined.
//!
//! Each module has the tables of one crate, a test for each subject and a row for each case. What
//! octets mean and where they are refused comes from the formats' own documents and from outside,
//! never from what the program printed. docs/vectors.md says for each table where its values come
//! from.
//!
//! They stand apart from `vectors` so that a change of a bundle's crate proves only these anew.
//! Nothing is offered to other crates.
#![tactic(auto)]

#[cfg(test)]
mod cut_and_joined;
#[cfg(test)]
mod new_bundles;
#[cfg(test)]
mod new_streams;
#[cfg(test)]
mod old_bundles;
#[cfg(test)]
mod old_streams;
#[cfg(test)]
mod peers;
#[cfg(test)]
mod pieces;
#[cfg(test)]
mod records;
#[cfg(test)]
mod reports;
#[cfg(test)]
mod rows;
#[cfg(test)]
mod texts;
#[cfg(test)]
mod words;
