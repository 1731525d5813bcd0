//! What is kept from an earlier run.

ghost use Rattle.std.specs.Prelude.{◌≡◌};
ghost use Rattle.std.specs.List.{filter};
ghost use Rattle.journal_file.specs.Keeping.{greater};
ghost use Rattle.journal_file.specs.Ties.{kept_of};
ghost use Rattle.gate_records.specs.Keeping.{is_young, reserve_to, first_of, recovered};

use journal_file::{Kept, Mark};

/// How many session numbers are reserved ahead.
const AHEAD: u64 = 4096;

/// Session numbers are below this one.
const NUMBERS: u64 = 4_294_967_296;

/// How long a mark stays over stops: 30 days, in ms.
const MARK_DAYS: u64 = 2_592_000_000;

/// What is kept from an earlier run, as a run begins with it. `wall` is what the wall clock shows at its
/// first reading, in ms since 2000, and the first sessions are those that are set for the faces.
///
/// Marks that are 30 days old go. A face's first session is the number that is set, or else the first
/// that isn't reserved, and 4,096 numbers are reserved from it on. It takes no memory.
pub fn recovered(kept: Kept, wall: u64, old_first: u64, new_first: u64) -> Kept
    ensures { kept_of result ≡ recovered wall old_first new_first (kept_of kept) }
{
    let Kept {
        pending,
        marks,
        old_reserved,
        new_reserved,
        greatest,
    } = kept;
    Kept {
        pending,
        marks: young(wall, marks),
        old_reserved: reserve_to(first_of(old_first, old_reserved)),
        new_reserved: reserve_to(first_of(new_first, new_reserved)),
        greatest,
    }
}

/// The marks that are less than 30 days old.
fn young(wall: u64, marks: Vec<Mark>) -> Vec<Mark>
    ensures { result.items ≡ filter (is_young wall) marks.items }
{
    let mut marks = marks;
    marks.retain(|mark| is_young(wall, mark));
    marks
}

/// Whether a mark is less than 30 days old.
fn is_young(wall: u64, mark: &Mark) -> bool
    ensures { result ≡ is_young wall mark.now }
{
    wall < MARK_DAYS || wall - MARK_DAYS < mark.when
}

/// The first session of a face: the number that is set, or else the first that isn't reserved.
pub fn first_of(set: u64, reserved: u64) -> u64
    ensures { result ≡ first_of set reserved }
{
    if set < reserved { reserved } else { set }
}

/// Up to which number session numbers are reserved, where this is the next one.
pub(crate) fn reserve_to(next: u64) -> u64
    ensures { result ≡ reserve_to next }
{
    if next >= NUMBERS {
        return NUMBERS;
    }
    NUMBERS.min(next + AHEAD)
}
