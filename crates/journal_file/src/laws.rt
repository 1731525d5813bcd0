//! What closed and open gates do, whatever stands behind them; what a file says that is made anew; and how
//! long a file is.

ghost use Rattle.std.specs.Prelude.{◌≡◌, ◌+◌, ℕ, List, [], ◌∷◌, ◌++◌, length};
ghost use Rattle.journal_file.specs.Values.{KeptValue, RecordValue, nothing_kept};
ghost use Rattle.journal_file.specs.Keeping.{kept_after};
ghost use Rattle.journal_file.specs.File.{opening, Reads};
ghost use Rattle.journal_file.specs.Spelling.{Closes, MayFollow, gated, behind_gate};
ghost use Rattle.journal_file.specs.Anew.{file_of, but_greatest, IsSound};
ghost use Rattle.journal_file.specs.Length.{entries_length, gate_of};
ghost use Rattle.journal_file.specs.Below.{IsBelow};
ghost use Rattle.journal_file.specs.Legal.{IsLegal};

/// What stands behind a closed gate counts for nothing, torn octets too.
pub fn closed_gate_ends()
    ensures { (file torn : List ℕ) (kept : KeptValue) → Closes file kept → Reads (file ++ torn) kept }
{}

/// Where the octet of a closed gate becomes an open one before records that may follow, they are the next
/// ones: all of them are done.
pub fn open_gate_goes_on()
    ensures { (front : List ℕ) (kept : KeptValue) (rs : List RecordValue)
        → Closes (front ++ 0 ∷ []) kept → MayFollow kept rs → Closes (front ++ gated rs) (kept_after kept rs) }
{}

/// A gate is closed by any octet but that of an open one.
pub fn any_closed_gate_ends()
    ensures { (front torn : List ℕ) (kept : KeptValue) (gate : ℕ)
        → Closes (front ++ 0 ∷ []) kept → (gate ≡ 1 → ⊥) → Reads (front ++ gate ∷ torn) kept }
{}

/// A file that is made anew of what is kept stands for the same, but that its greatest id is that of the
/// last block that is pending.
pub fn new_file_says_the_same()
    ensures { (kept : KeptValue) → IsSound kept → Closes (file_of kept) (but_greatest kept) }
{}

/// A file of records that may follow one another stands for what they leave.
pub fn records_are_read()
    ensures { (rs : List RecordValue) → MayFollow nothing_kept rs
        → Closes (opening ++ gated rs) (kept_after nothing_kept rs) }
{}

/// What a file says is kept may be written anew.
pub fn what_is_read_is_sound()
    ensures { (file : List ℕ) (kept : KeptValue) → Reads file kept → IsSound kept }
{}

/// What a file says is kept is legal.
pub fn what_is_read_is_legal()
    ensures { (file : List ℕ) (kept : KeptValue) → Reads file kept → IsLegal kept }
{}

/// What is legal stays so, whatever records may follow.
pub fn records_leave_what_is_legal()
    ensures { (kept : KeptValue) (rs : List RecordValue) → IsLegal kept → MayFollow kept rs
        → IsLegal (kept_after kept rs) }
{}

/// What is legal may be written anew.
pub fn what_is_legal_is_sound()
    ensures { (kept : KeptValue) → IsLegal kept → IsSound kept }
{}

/// What a file says that was made anew of what is legal is the same, and its greatest id isn't above.
pub fn new_file_is_below()
    ensures { (kept : KeptValue) → IsLegal kept → IsBelow (but_greatest kept) kept }
{}

/// So what may be committed by all that is kept may follow what such a file says, and leaves there the
/// same: ids go on above the greatest that was given, wherever the file's is.
pub fn records_may_follow_below()
    ensures { (lower kept : KeptValue) (rs : List RecordValue) → IsBelow lower kept → MayFollow kept rs
        → MayFollow lower rs × IsBelow (kept_after lower rs) (kept_after kept rs) }
{}

/// What is written behind a gate has the length of its records, each with an open gate.
pub fn gate_moves_by_entries()
    ensures { (rs : List RecordValue) → length (behind_gate rs) ≡ entries_length rs }
{}

/// The closed gate of a file made anew is its last octet.
pub fn gate_is_last()
    ensures { (kept : KeptValue) → length (file_of kept) ≡ gate_of kept + 1 }
{}

/// Records that are committed one after another take what they take together.
pub fn entries_add_up()
    ensures { (rs more : List RecordValue)
        → entries_length (rs ++ more) ≡ entries_length rs + entries_length more }
{}
