//! How many bundles a block has, and how its row ends.

ghost use Rattle.std.specs.Prelude.{◌≡◌, length};
ghost use Rattle.bundle_rows.specs.Rows.{row_of};

use crate::next::{End, Next, next_at};
use gate_cases::Face;

/// A row, counted.
#[derive(Clone, Copy, Debug, PartialEq, Eq)]
pub struct Counted {
    /// How many bundles it has.
    pub bundles: usize,
    /// Its end, where it doesn't end with its block.
    pub end: Option<End>,
}

/// How many bundles stand in a block that was handed up at a face, and how the row ends. It takes no
/// memory.
pub fn count(face: Face, block: &[u8]) -> Counted
    ensures bundles { result.bundles ≡ length (row_of face block.now).bundles }
    ensures end { result.end ≡ (row_of face block.now).end }
{
    let mut bundles = 0;
    let mut place = 0;
    'reading: loop {
        match next_at(face, block, place) {
            Next::Nothing => {
                return Counted { bundles, end: None };
            }
            Next::Bundle { to } => {
                bundles += 1;
                place = to;
            }
            Next::End { at, cause } => {
                return Counted {
                    bundles,
                    end: Some(End { at, cause }),
                };
            }
        }
    }
}
