//! What goes to the journal, and then to the outside.

ghost use Rattle.std.specs.Prelude.{◌≡◌, ◌||◌, None, map, is_err, IfOk, IfSome, OnOk};
ghost use Rattle.store_traits.specs.Disk.{LeavesOnly, faults_after};
ghost use Rattle.journal_file.specs.Values.{KeptValue};
ghost use Rattle.journal_file.specs.Keeping.{kept_after};
ghost use Rattle.journal_file.specs.Spelling.{MayFollow};
ghost use Rattle.journal_file.specs.Legal.{IsLegal};
ghost use Rattle.journal_file.specs.Length.{entries_length, gate_of};
ghost use Rattle.journal_file.specs.Ties.{kept_of, record_of};
ghost use Rattle.gate_edges.specs.Made.{Commits, Installs};
ghost use Rattle.gate_journaled.specs.Says.{Says, Tells, MayMakeAll, kept_by, BelowEither};

use gate_edges::Outside;
use gate_journal::Journal;
use journal_file::{Kept, Record};
use std::alloc::Global;
use store_traits::{Store, StoreFault};

/// Commits records to the journal, and then has the outside keep that.
pub(crate) fn commit<O: Outside, S: Store>(
    alloc: Global,
    journal: &mut Journal<S>,
    outside: &mut O,
    records: &[Record],
) -> Result<usize, StoreFault>
    ensures length { IfOk result (λ n. n ≡ entries_length (map record_of records.now)) }
    ensures ahead { O.ahead outside.new ≡ O.ahead outside.old }
    ensures made { Commits (O.made outside.old) (O.made outside.new) result (map record_of records.now) }
    ensures writes { O.writes outside.new ≡ O.writes outside.old }
    ensures says { Tells S.seen
        → Says (O.made outside.old) (S.seen journal.old.store) (S.may_leave journal.old.store) journal.old.gate
        → OnOk result (Says (O.made outside.new) (S.seen journal.new.store) (S.may_leave journal.new.store) journal.new.gate) }
    ensures any_moment { Tells S.seen
        → Says (O.made outside.old) (S.seen journal.old.store) (S.may_leave journal.old.store) journal.old.gate
        → IfSome (O.made outside.old) (λ acts. MayMakeAll None acts
        → IfSome (kept_by None acts) (λ kept. MayFollow kept (map record_of records.now)
        → LeavesOnly S.moment S.left_since journal.old.store journal.new.store
        (BelowEither kept (kept_after kept (map record_of records.now))))) }
{
    let length = journal.commit(alloc, records)?;
    outside.commit(records)?;
    Ok(length)
}

/// Makes the journal anew of what is kept, and then has the outside keep that.
pub(crate) fn install<O: Outside, S: Store>(
    alloc: Global,
    journal: &mut Journal<S>,
    outside: &mut O,
    kept: &Kept,
) -> Result<usize, StoreFault>
    ensures place { IfOk result (λ n. n ≡ gate_of (kept_of kept.now)) }
    ensures ahead { O.ahead outside.new ≡ O.ahead outside.old }
    ensures made { Installs (O.made outside.old) (O.made outside.new) result (kept_of kept.now) }
    ensures writes { O.writes outside.new ≡ O.writes outside.old }
    ensures says { Tells S.seen
        → OnOk result (Says (O.made outside.new) (S.seen journal.new.store) (S.may_leave journal.new.store) journal.new.gate) }
    ensures any_moment { Tells S.seen
        → Says (O.made outside.old) (S.seen journal.old.store) (S.may_leave journal.old.store) journal.old.gate
        → IfSome (O.made outside.old) (λ acts. MayMakeAll None acts
        → IfSome (kept_by None acts) (λ before. IsLegal (kept_of kept.now)
        → LeavesOnly S.moment S.left_since journal.old.store journal.new.store
        (BelowEither before (kept_of kept.now)))) }
{
    let gate = journal.install(alloc, kept)?;
    outside.install(kept)?;
    Ok(gate)
}

/// The count of faults after a call: one more where it failed, up to the greatest number of 64 bits.
pub(crate) fn counted(faults: u64, answer: &Result<usize, StoreFault>) -> u64
    ensures { result ≡ faults_after faults answer.now }
{
    match answer {
        Err(StoreFault::Failed) => faults.saturating_add(1),
        Ok(_) | Err(StoreFault::Memory) => faults,
    }
}

/// Whether the disk may be ahead of what was made, after a call on the journal that answers so.
pub(crate) fn is_apart(apart: bool, answer: &Result<usize, StoreFault>) -> bool
    ensures { result ≡ (apart || is_err answer.now) }
{
    apart || answer.is_err()
}
