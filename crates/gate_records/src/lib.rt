//! What a gateway's journal is made of: the records of a step and of a half, as they are defined, and what
//! a run begins with.
//!
//! A step's records are, in this order: `done` for each own session that ended and whose block is
//! kept; `mark` for each report that goes out about a session of the peer that isn't handed up by then
//! and isn't marked; `clear` for each marked session that is handed up or that its sender cancelled
//! (`specs/Records.antt`). Last in a half comes `reserved` for each face whose engine's next number is
//! above what is reserved. Pieces are `peer_records`' matter.
//!
//! What a run begins with is [`recovered`]. [`GateSessions`] is what says which sessions of a gateway are
//! kept after a step. The file itself and the store are not known here.
//!
//! [`laws`] says what holds of the records.
#![tactic(auto)]

pub mod laws;
mod named;
mod recovery;
mod step;

pub use named::Named;
pub use recovery::{first_of, recovered};
pub use step::GateSessions;
