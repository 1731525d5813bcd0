//! The lines of scripts and transcripts: what a script makes happen, and what happened.
//!
//! [`read_line`] reads a line of a script for two engines and a gate between them, and
//! [`read_node_line`] one for a single engine, and [`read_link_line`] one for two engines on a link;
//! [`is_path_line`] and [`is_link_line`] say which line of a script is to be the first. A line is words separated by single spaces: numbers
//! are decimal without leading zeros and below 2^64, octets are hex of either case. A line is
//! judged before memory is taken for it, so that a refusal costs none.
//!
//! [`write_line`] appends a line of a transcript to octets, and [`push_line`] to a text; a line's
//! octets are written in lower case. [`details_of`] has what a note of an LTP engine says after its
//! name (RFC 5326), and [`push_note`] appends its line. [`number_in`] reads a number, of a line or of a call; [`is_gate`]
//! judges the name of a gate, and [`gate_in`] reads it.
//!
//! Which line may follow which, where a run ends, and the lines of the other commands are not known
//! here.
#![tactic(auto)]

mod event;
mod fault;
mod hexadecimal;
mod judging;
pub mod laws;
mod line;
mod link;
mod link_judging;
mod notes;
mod numeral;
mod path;
mod picks;
mod reading;
mod words;
mod writing;

pub use event::{Event, NodeEvent};
pub use fault::LineFault;
pub use line::{Line, Route, Site};
pub use link::{LinkEvent, is_link_line, read_link_line};
pub use notes::{NoteDetails, details_of, push_note};
pub use numeral::number_in;
pub use path::is_gate;
pub use picks::{PickWord, PickWords};
pub use reading::{gate_in, is_path_line, read_line, read_node_line};
pub use writing::{push_line, write_line};
