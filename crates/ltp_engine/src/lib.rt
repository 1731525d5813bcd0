//! The engine of one end of a link: all its sessions (RFC 5326).
//!
//! An [`Engine`] is told each block that is to be sent, each datagram that comes and the time, and
//! answers what is to be sent, what is handed up and what is to be noted: [`Effects`]. Its
//! contracts cite the steps that `ltp_session` defines. They see the engine as its sessions'
//! states, by their numbers; `Shows` says which engines of the definition that stands for.
//!
//! A datagram is decoded here, and only here: nothing above sees an octet of a header. Sending
//! sessions are kept by ascending numbers, receiving ones from the longest untouched to the last
//! touched. Numbers of sessions that are over are kept as ranges.
//!
//! A caller may remember the numbers of closed sessions in the engine's place: it takes them out after
//! each step, and lets sessions go of its own accord.
//!
//! A new engine shows the definition's engine at its beginning, so each later value shows what the
//! steps make of that. [`laws`] says what an engine hands up, whoever is at the other end.
#![tactic(auto)]

mod closed;
mod deadlines;
mod effects;
mod engine;
mod few;
mod held;
mod inbound;
pub mod laws;
mod outbound;
mod parts;
mod refused;
mod sides;
mod terms;
mod touched;

pub use effects::{Effects, Greens, Notes, Up, Ups};
pub use engine::{Engine, HISTORY, SESSIONS};
pub use few::Few;
pub use refused::SubmitRefused;
