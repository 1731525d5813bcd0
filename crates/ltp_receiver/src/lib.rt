//! One receiving session of the Licklider Transmission Protocol (RFC 5326, section 8.2).
//!
//! A [`Receiver`] is told each piece that comes, each acknowledgement and the time, and answers
//! what is to be sent, what is handed up and what is to be noted. Its contracts cite the steps that
//! `ltp_session` defines: they see it as its name, its policy and the state of that definition.
//!
//! The red octets that came are kept by [`cells::Cells`], so memory goes with them, and never with
//! the places that a piece names. Reports are made of the places that are filled.
//!
//! Which sessions there are, and the client service of a block, are not known here.
#![tactic(auto)]

mod bounds;
mod kept;
pub mod laws;
mod phase;
mod receiver;
mod report;

pub use receiver::Receiver;
