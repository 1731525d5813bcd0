//! The project's tables of tests over an outside that fails, and over hostile inputs.
//!
//! A row of `faults` is one run of a command, read by read, and one of `link_faults` two turns of
//! `serve`: each read, write, poll and send of the run fails in turn, and the row says what was
//! written by then. A row of `hostile` is an input that was made to harm, or an outside that fails
//! once in the midst. What is wanted comes from docs/program.md, docs/gateway.md and the formats'
//! own documents, never from what the program printed.
//!
//! Nothing is offered to other crates.
#![tactic(auto)]

#[cfg(test)]
mod faults;
#[cfg(test)]
mod hostile;
#[cfg(test)]
mod link_faults;
#[cfg(test)]
mod rows;
#[cfg(test)]
mod runs;
