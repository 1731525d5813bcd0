//! Laws of rows, each the contract of a function that does nothing.

ghost use Rattle.bundle_rows.specs.Laws.{RowIsSpelled, EachAlone, ReadsAsOne};

/// What stands in a block, by the words of the formats, is its row, and no other does.
pub fn row_is_spelled()
    ensures { RowIsSpelled }
{}

/// Each bundle of a row is exactly one bundle where it is a block of its own.
pub fn each_alone()
    ensures { EachAlone }
{}

/// A block of one bundle without an end, or of none, reads as before there were rows; any other as one
/// whose first bundle is followed by something.
pub fn reads_as_one()
    ensures { ReadsAsOne }
{}
