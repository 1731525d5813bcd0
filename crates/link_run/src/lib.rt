//! The command `link`: two engines on a link, told by the lines of a script.
//!
//! The first line sets up the link, and lines after it may give windows in which alone it is open.
//! Each further line is an event: a block is sent, a datagram is delivered, or time passes; the last
//! one may drain the link. [`Link`] is a step of lines: it answers each with its transcript.
//!
//! Timers run on contact time, which stands still while the link is closed. Without a window the
//! link is always open.
#![tactic(auto)]

mod always;
mod counting;
pub mod laws;
mod link;
mod on_link;
mod picked;
mod planned;
mod running;
mod script;
mod written_lines;

pub use link::Link;
