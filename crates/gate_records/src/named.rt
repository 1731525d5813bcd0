//! The own sessions whose block the journal keeps.

use gate_cases::Face;

/// A session that the gateway began, whose block is pending in the journal.
#[derive(Clone, Copy, Debug, PartialEq, Eq)]
pub struct Named {
    /// The face at which it sends.
    pub face: Face,
    /// Its number there.
    pub session: u64,
    /// The id of its block in the journal.
    pub id: u64,
}
