//! The gateway between two links: bundles of version 6 come and go at its old face (RFC 5050), those of
//! version 7 at its new face (RFC 9171), each over LTP (RFC 5326).
//!
//! A [`Gateway`] is told each datagram that comes at a face and the time, and answers what is to be
//! sent at each face, what was handed up and what is to be noted: [`GateEffects`]. It has an engine at
//! each face. A block that an engine hands up is judged by `gate_cases`; the pieces of a bundle that
//! passes are submitted at the other face, all red and in order, and the status report that a bundle
//! asks for goes back at the face at which it came, numbered by a counter.
//!
//! `specs/Gate.antt` defines a gate and its steps over the engines of `ltp_session`, and the contracts
//! cite that. [`laws`] says what each face hands up, whoever is at the other ends. Green data is
//! dropped.
#![tactic(auto)]

mod config;
mod effects;
mod gateway;
pub mod laws;
mod note;
mod parts;

pub use config::GateConfig;
pub use effects::{FaceNote, FaceUp, FaceUps, GateEffects, GateNotes, Routed, RoutedList};
pub use gateway::Gateway;
pub use note::GateNote;
