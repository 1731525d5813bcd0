//! What holds of records, whatever made them. Each law is the contract of a function that does nothing.

ghost use Rattle.gate_records.specs.Laws.{IdsAreUsedOnce, MarkStays};

/// Whatever records follow one another: each id is begun at most once, ids rise, and each is done at most
/// once.
pub fn ids_are_used_once()
    ensures { IdsAreUsedOnce }
{}

/// A marked session stays so until it is cleared, or 1,024 later marks of its face came.
pub fn mark_stays()
    ensures { MarkStays }
{}
