//! What is decided about a bundle.

use crate::pieces::SizedPieces;
use block_types::LeftOut;
use gate_cases::{AskedReport, GateCase};

/// What is decided about a bundle that came at a face.
#[derive(Debug, Drop)]
pub struct Decision {
    /// Which case it is.
    pub case: GateCase,
    /// The pieces that go on at the other face, in order; none unless the case is `Passed`.
    pub pieces: SizedPieces,
    /// The status report that is asked for, if one is.
    pub report: Option<AskedReport>,
    /// What the pieces lack of the bundle, if they lack something; nothing unless the case is `Passed`.
    pub left: Option<LeftOut>,
}
