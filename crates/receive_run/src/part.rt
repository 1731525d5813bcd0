//! What is kept of a red part that isn't whole.

use cells::Cells;

/// A red part of which pieces came, and that isn't whole yet.
#[derive(Drop)]
pub struct OpenPart {
    /// The octets that came, each place's first.
    pub cells: Cells,
    /// The length of the red part, once an end of it came.
    pub length: Option<u64>,
}
