//! The lines of the running gateway's log: what an operator must know, each event as one line.
//!
//! [`Event`] is what happened, and [`write_line`] appends its line: a JSON object without spaces, its
//! keys in alphabetical order, and a line feed. [`subject_of`] says which bundle a block is, for the
//! lines that are about one. No line has octets of a payload.
//!
//! The causes are those of the formats and of the gateway, by their names. Some events are told by no
//! program yet: those of green data, of gathered pieces, of blocks with several bundles, of what is left out
//! and of what is forgotten early.
#![tactic(auto)]

mod event;
mod laws;
mod line;
mod member;
mod name;
mod subject;

pub use event::{BundleEvent, Event, LinkEvent, SessionEvent};
pub use laws::{is_one_line, keys_rise};
pub use line::write_line;
pub use subject::{Subject, subject_of};
