//! The tables of tests of a gateway among other implementations, over the public calls of the crates below:
//! runs of a face's sessions, with numbers that are remembered and forgotten, and sessions that are closed;
//! and of a whole gateway.
//!
//! What is told comes from the rules of such a face and is counted by hand, never from what the code
//! answered. docs/vectors.md says for each table where its values come from.
//!
//! Nothing is offered to other crates.
#![tactic(auto)]

#[cfg(test)]
mod face;
#[cfg(test)]
mod gateway;
#[cfg(test)]
mod memory;
#[cfg(test)]
mod rows;
#[cfg(test)]
mod sessions;
#[cfg(test)]
mod stories;
