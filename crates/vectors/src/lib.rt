//! The tables of tests of numbers, items, checks, names, ranges, fields and segments, and of LTP's
//! sessions: of one sender and of one receiver, exchanges that are audited, what an engine records of
//! its own, and engines with bounds of their own. All are over the public calls of the crates below.
//!
//! Each module has the tables of one crate, a test for each subject and a row for each case. A row of a
//! session has a moment, the datagram that comes then or none, and what the session answers: the
//! datagrams that it sends, in hex, what it hands up, its note, and when its timer is due.
//!
//! What octets mean and where they are refused, and what a session answers, comes from the formats' own
//! documents and from outside, worked out by hand, never from what the program printed. docs/vectors.md
//! says for each table where its values come from. What a command shows as well, in bulk and at the
//! limits, is in the folder rows/.
//!
//! They stand here so that the crates below are proved once, without tests of their own. Nothing
//! is offered to other crates.
#![tactic(auto)]

#[cfg(test)]
mod answers;
#[cfg(test)]
mod bounds;
#[cfg(test)]
mod checks;
#[cfg(test)]
mod exchanges;
#[cfg(test)]
mod fields;
#[cfg(test)]
mod items;
#[cfg(test)]
mod lines;
#[cfg(test)]
mod names;
#[cfg(test)]
mod numbers;
#[cfg(test)]
mod ranges;
#[cfg(test)]
mod receiving;
#[cfg(test)]
mod recordings;
#[cfg(test)]
mod reports;
#[cfg(test)]
mod segments;
#[cfg(test)]
mod sending;
#[cfg(test)]
mod words;
