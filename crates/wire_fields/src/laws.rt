//! The laws of tables. Each function does nothing: its contract is a law of every table that can be
//! written, at any type that names a table.

ghost use Rattle.std.specs.Prelude.{◌≡◌, ◌≤◌, ℕ, List, [], ◌++◌, length, Ok, Err};
ghost use Rattle.wire_fields.specs.Format.{Format};
ghost use Rattle.wire_fields.specs.Refusal.{Stop, because, Refusal, Begins, ExactlyOne};
ghost use Rattle.wire_fields.specs.Reading.{read, IsSettled, IsOctets};
ghost use Rattle.wire_fields.specs.Whole.{ExactlyOneWhole};

/// A table: which causes it names, what its fields make up, and the fields.
pub trait Table {
    ghost Cause: { Type 0 };

    ghost Value: { Type 0 };

    ghost fields: { Format Cause Value };
}

/// What is read is spelled so.
pub fn found<T: Table>()
    ensures { (text : List ℕ) (k : ℕ) (a : T.Value) → IsOctets text
        → read T.fields text 0 ≡ Ok (a, k) → Begins T.fields text k a }
{}

/// What is spelled so is read, whatever follows it.
pub fn only<T: Table>()
    ensures { (text : List ℕ) (k : ℕ) (a : T.Value)
        → Begins T.fields text k a → read T.fields text 0 ≡ Ok (a, k) }
{}

/// What is refused has this refusal.
pub fn refused<T: Table>()
    ensures { (text : List ℕ) (at : ℕ) (s : Stop T.Cause) → IsOctets text
        → read T.fields text 0 ≡ Err (at, s) → Refusal T.fields [] text at s }
{}

/// What has a refusal is refused with it.
pub fn refuses<T: Table>()
    ensures { (text : List ℕ) (at : ℕ) (s : Stop T.Cause) → IsOctets text
        → Refusal T.fields [] text at s → read T.fields text 0 ≡ Err (at, s) }
{}

/// Of each text exactly one holds: one front of it spells the fields, with one value, or it is
/// refused at one place for one reason.
pub fn exactly_one<T: Table>()
    ensures { (text : List ℕ) → IsOctets text → ExactlyOne T.fields text }
{}

/// The same of a whole text, after whose fields nothing may follow.
pub fn exactly_one_whole<T: Table>()
    ensures { (text : List ℕ) (trailing : T.Cause) → IsOctets text
        → ExactlyOneWhole T.fields trailing text }
{}

/// What is settled stays so, however the octets go on.
pub fn stays<T: Table>()
    // A value, or a refusal other than the end of the text, is read again.
    ensures answers { (text more : List ℕ) → IsOctets text
        → IsSettled (read T.fields text 0)
        → read T.fields (text ++ more) 0 ≡ read T.fields text 0 }

    // A refusal for a cause is one of each longer text.
    ensures refusals { (text more : List ℕ) (at : ℕ) (cause : T.Cause) → IsOctets (text ++ more)
        → Refusal T.fields [] text at (because cause)
        → Refusal T.fields [] (text ++ more) at (because cause) }

    // The place of a refusal is in the text, or at its end.
    ensures places { (text : List ℕ) (at : ℕ) (s : Stop T.Cause)
        → Refusal T.fields [] text at s → at ≤ length text }

    // A front is one of each longer text, and of each shorter one that holds it.
    ensures longer { (text more : List ℕ) (k : ℕ) (a : T.Value)
        → Begins T.fields text k a → Begins T.fields (text ++ more) k a }
    ensures shorter { (text more : List ℕ) (k : ℕ) (a : T.Value) → k ≤ length text
        → Begins T.fields (text ++ more) k a → Begins T.fields text k a }
{}
