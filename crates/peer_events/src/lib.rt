//! What a step of a gateway among other implementations tells an operator: what it tells as events of the
//! log, with the bundle that each is about, and the counters.
//!
//! [`OwnBlocks`] keeps the sessions that the gateway began and that haven't ended, with the first bundle of
//! the block that each carries, and of how many pieces that is. After each step [`OwnBlocks::tell`] is given
//! what the step told and which sessions it began; it says each thing's event in a [`gate_events::Log`], and
//! which own sessions ended is then known. A note that a session failed or was cancelled is about an own
//! session where that was open before the step and isn't open after it, and else about one of the peer's.
//! Numbers of both sides may be equal. What is told about a bundle is about the one that was named last.
#![tactic(auto)]

pub mod laws;
mod own;
mod row;
mod session;
mod telling;

pub use own::{OwnBlock, OwnBlocks};
