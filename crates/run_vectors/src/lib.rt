//! The project's tables of tests over whole runs, and over the outside that runs stand on; and of
//! blocks that a gate judges, with the reports on them.
//!
//! A row has words, an input, reads and writes that fail, and what is written and how the run
//! ends. What is wanted comes from the formats' own documents and from outside, never from what
//! the program printed; docs/vectors.md says for each table where its values come from. Rows that
//! need no failing call are runs of the program, in the folder rows/.
//!
//! They stand apart from the tables of the formats, so that a change of a command doesn't cost
//! those. Nothing is offered to other crates.
#![tactic(auto)]

#[cfg(test)]
mod adapters;
#[cfg(test)]
mod blocks;
#[cfg(test)]
mod node;
#[cfg(test)]
mod receive;
#[cfg(test)]
mod recorded;
#[cfg(test)]
mod runs;
#[cfg(test)]
mod script_end;
#[cfg(test)]
mod serving;
#[cfg(test)]
mod serving_order;
#[cfg(test)]
mod sockets;
#[cfg(test)]
mod world;
