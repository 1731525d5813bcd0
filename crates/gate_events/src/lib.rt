//! Lines of the log and counts: each event that is said is one line, and adds to the counters.
//!
//! A [`Log`] has the lines until they are written, and the counters of the metrics. [`OpenSessions`] is
//! what says which own sessions of a gateway are open after a step; [`Own`] is such a session, with the
//! bundle that it carries.
//!
//! What the notes of a step tell is defined here, each as an event, with the bundle that it is about
//! (`specs/Events.antt`). A note that a session failed or was cancelled is about an own session where
//! that was open before the step and isn't open after it, and else about one of the peer's: numbers of
//! both sides may be equal.
#![tactic(auto)]

mod counts;
mod log;
mod own;
mod telling;

pub use log::Log;
pub use own::Own;
pub use telling::OpenSessions;
