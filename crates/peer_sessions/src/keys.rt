//! What an operator sets of a face's sessions.

use face_room::Bounds;
use ltp_segment::Policy;

/// How many runs of closed numbers and receiving sessions the engine itself may keep. Its list of closed
/// numbers is emptied after each step, so it is never full.
pub(crate) const HISTORY: u32 = u32::MAX;

/// Who is at a face, and what it may keep.
#[derive(Clone, Copy, Debug)]
pub struct Keys {
    /// The face's own engine.
    pub own: u64,
    /// Its peer's engine.
    pub peer: u64,
    /// The number of the first session that the face begins.
    pub first_session: u64,
    /// How it sends.
    pub policy: Policy,
    /// How many sessions there are each way, and how many octets.
    pub bounds: Bounds,
    /// How long a piece waits for others at most, in milliseconds.
    pub wait_ms: u64,
    /// How many runs of numbers of sessions that are over are remembered at most.
    pub remember: u64,
    /// For how long a number is remembered, in milliseconds.
    pub remember_ms: u64,
}
