//! The program's one call: `run` answers a command's words with lines, over any source and sink.
//!
//! Each command stands in a crate of its own, but those on bundles, which are all in `bundle_runs`. `serve`
//! alone uses the links and the clock.
//!
//! What octets settle of an answer is one definition, with a flag for whether the input ends after
//! them (`specs/Commands.antt`). A command is a task of `command_frame`, which answers the octets of
//! each read before the next, so another program can drive it through pipes.
#![tactic(auto)]

mod commands;
mod laws;

pub use commands::decoding::run_decoding;
pub use commands::passed::{Ended, Passed};
pub use commands::run::{run, run_told};
pub use commands::word::Word;
pub use laws::earliest_place_decides;
