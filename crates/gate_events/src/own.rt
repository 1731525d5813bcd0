//! The sessions of the gateway's own.

use gate_cases::Face;
use gate_log::Subject;

/// A session that the gateway began.
#[derive(Debug, Drop)]
pub struct Own {
    /// The face at which it sends.
    pub face: Face,
    /// Its number there.
    pub session: u64,
    /// The bundle that is the front of the block that it carries; none where there is none.
    pub subject: Option<Subject>,
}
