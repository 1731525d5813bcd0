//! The command `audit`: a recorded exchange of an LTP engine is checked (RFC 5326).
//!
//! A line of the input is an entry of the recording: a datagram came to the engine (`in`), or left
//! it (`out`). [`AuditLines`] tells it to the `Audit` of `ltp_audit`, and stops at the first line
//! that isn't accepted; after the last one it says how many were. It is a `LineStep` of
//! `command_frame`, which holds the numbers of lines and the limits on them, and has each line
//! answered before the next is read.
//!
//! The definition is `specs/Audited.antt`. The rules are those of `ltp_audit`, and none of this
//! crate's business.
#![tactic(auto)]

mod audit_lines;
mod entry_line;
mod written_lines;

pub use audit_lines::AuditLines;
