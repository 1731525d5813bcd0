//! What never changes about one side of an engine.

use ltp_segment::Policy;
use std::alloc::Global;

/// What all sessions of a side have in common.
#[derive(Clone, Copy, Debug)]
pub(crate) struct Terms {
    /// Where memory comes from.
    pub alloc: Global,
    /// The engine that began the sessions.
    pub originator: u64,
    /// How they send.
    pub policy: Policy,
    /// How many of them are kept at most.
    pub sessions: u32,
    /// How many runs of closed numbers are remembered at most, sessions that are kept counted.
    pub history: u32,
}
