//! How a run ends.

use gate_cases::Face;

/// How a run of the gateway ends.
#[derive(Clone, Copy, Debug, PartialEq, Eq, Drop)]
pub enum GateStatus {
    /// All turns were made.
    Done,
    /// A write of a line failed; nothing follows it.
    WriteFault,
    /// Memory ran out.
    Memory,
    /// A call on the journal failed; nothing follows it.
    Journal,
    /// Earlier runs have used all session numbers of a face. Nothing was done.
    SessionsUsed {
        /// The face.
        face: Face,
    },
}
