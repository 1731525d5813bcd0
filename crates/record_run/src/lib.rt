//! The command `record`: one end of an LTP link on standard input, whose exchange is written as a
//! recording (RFC 5326).
//!
//! A line of the input is an event, as of `node`: a datagram comes (`in`), a block is to be sent
//! (`send`), or time passes (`clock`). [`RecordLines`] tells it to the `Recorder` of `ltp_audit`, and
//! writes the entries by which the recording grows: what came, and after it what is sent. It is a
//! `LineStep` of `command_frame`, which holds the numbers of lines and the limits on them, and has
//! each line answered before the next is read. `audit` reads what is written.
//!
//! The definition is `specs/Record.antt`, over the steps of an engine that `node` has. What an
//! engine does is none of this crate's business, and neither is the grammar of a line. `laws` has
//! that no entry which went out breaks a rule, whoever is at the other end.
#![tactic(auto)]

pub mod laws;
mod record_lines;
mod written_lines;

pub use record_lines::RecordLines;
