//! The command `node`: one end of an LTP link on standard input and output (RFC 5326).
//!
//! A line of the input is an event: a datagram comes (`in`), a block is to be sent (`send`), or time
//! passes (`clock`). [`Node`] tells it to an engine, and writes what the engine does: datagrams to
//! be sent, red parts and pieces of green parts that are handed up, and notes. It is a `LineStep`
//! of `command_frame`, which holds the numbers of lines and the limits on them, and has each line
//! answered before the next is read.
//!
//! The definition is `specs/Node.antt`: the steps of an engine over the events, as lines. What an
//! engine does is none of this crate's business, and neither is the grammar of a line. `laws` has
//! what is handed up, in the words of the red parts themselves.
#![tactic(auto)]

pub mod laws;
mod link_end;
mod written_lines;

pub use link_end::Node;
