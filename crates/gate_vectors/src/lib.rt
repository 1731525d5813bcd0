//! The project's table of whole runs of the gateway that an operator runs, over an outside in memory.
//!
//! A row has a configuration, what the clock shows, what comes at each face, and which calls fail; and
//! then all that is made, in order. The first rows are those of the formats' own pages, the others
//! those of a model that was written apart from this repository (docs/vectors.md). Nothing is offered to
//! other crates.
#![tactic(auto)]

#[cfg(test)]
mod runs;
#[cfg(test)]
mod table;
