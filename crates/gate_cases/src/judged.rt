//! What is decided about a block.

use crate::case::GateCase;
use crate::report::AskedReport;
use endpoint::{Listed, Octets};

/// What is decided about a block.
#[derive(Debug, Drop)]
pub struct Judged {
    /// Which case it is.
    pub case: GateCase,
    /// The blocks that go on at the other face, in order; none unless the case is `Passed`.
    pub pieces: Pieces,
    /// The status report that is asked for, if one is.
    pub report: Option<AskedReport>,
}

/// The blocks that go on, in order.
pub type Pieces = Listed<Octets>;
