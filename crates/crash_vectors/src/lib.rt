//! The project's tests of whole runs of the gateway that keep a journal, over an outside in memory and a
//! store whose writes a crash tears: what they make and what stands in the file after each turn; a
//! crash at each call on the store, recovered and run on, and once more; and two turns of which each call
//! outside fails in turn.
//!
//! The runs are those of models that share no code with the program (docs/vectors.md). Nothing is offered
//! to other crates.
#![tactic(auto)]

#[cfg(test)]
mod acts;
#[cfg(test)]
mod crashes;
#[cfg(test)]
mod failing;
#[cfg(test)]
mod faults;
#[cfg(test)]
mod left;
#[cfg(test)]
mod outside;
#[cfg(test)]
mod rows;
#[cfg(test)]
mod runs;
#[cfg(test)]
mod script;
