//! The commands on recorded bundles: octets of bundles of version 6 (RFC 5050) and version 7
//! (RFC 9171), end to end, in any mixture.
//!
//! [`bundles`] reads a source, and writes to a sink what a [`Command`] says of each bundle in
//! turn: `check` its version and how many octets it has, `show` its values as JSON, `convert` the
//! octets of the bundle of the other version that it becomes, `cut` its pieces, and `join` what comes of
//! it beside the fragments before it. The first octet of a bundle names its version. The first bundle that
//! doesn't decode ends the run, with a line that says which one it is, the place in the input and the
//! cause; so does the first that isn't translated or cut, and its line has no place; but a command that
//! keeps going answers the bundles after that too, and its run is refused at its end. What the joiner
//! refuses has a line like any other.
//!
//! What a command answers is one definition from octets to the text and the status
//! (`specs/Answering.antt`). A [`BundleReader`] is told the octets as they come, and keeps those of at
//! most one unfinished bundle, and of the fragments that aren't joined yet. For `check`, which wants no
//! bundle, a `CheckReader` keeps of one that has begun what a judge keeps: the octets of its primary
//! block, and a few of another field. A [`ShowReader`] keeps the octets of at most one bundle, and tells
//! one of version 6 out of them part by part. Each has one judge or reader for a bundle of version 7 from
//! its first octet on, so that a block is summed once; the reader of `show` takes all of them.
//! `command_frame` drives all three, and writes what is settled before it reads on.
#![tactic(auto)]

mod begun;
mod bundle_reader;
mod check_reader;
mod coming;
mod commands;
mod convert;
mod fragmenting;
mod front;
mod given;
mod laws;
mod saying;
mod show_reader;
mod unfinished;
mod written_lines;

pub use bundle_reader::BundleReader;
pub use commands::bundles::bundles;
pub use commands::command::Command;
pub use front::{Bundle, Cause};
pub use laws::{
    answers_bundle_by_bundle, converts_there_and_back, earliest_place_decides,
    keeps_going_after_refusals, runs_there_and_back,
};
pub use show_reader::ShowReader;
