//! What a session of the Licklider Transmission Protocol does (RFC 5326), as definitions.
//!
//! `specs/` is the crate. A step of a session is a function of the state before it, of what came,
//! and of the moment; it gives the state after it, what is sent, what is handed up, and a note.
//! `Sender` and `Receiver` have these steps, `Cells`, `Claims` and `Timer` their words, and `Views`
//! says what the code of a session shows. `RedPart` says without cells, place by place, what a red
//! part is. `Engine` keeps many sessions, and `World` is two engines
//! on a link that may lose, repeat and reorder what they send.
//!
//! The contracts of the sessions and of all that stands on them cite these definitions, and the
//! laws over whole runs are proved about them. [`examples`] computes short runs. What both kinds of
//! session need as code, a session's name, a timer and the reasons of cancels, stands here too.
#![tactic(auto)]

pub mod examples;
mod name;
mod reasons;
mod timer;

pub use name::SessionName;
pub use reasons::{BY_SYSTEM, MISCOLOURED, SENT_TOO_OFTEN, UNREACHABLE};
pub use timer::{NO_MOMENT, SERIALS, Timer, first_serial, first_serials_are_short};
