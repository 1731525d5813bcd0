//! What the definitions mean. Each law is the contract of a function that does nothing.

ghost use Rattle.std.specs.Prelude.{◌≡◌, ℕ, true};
ghost use Rattle.gate_log.specs.declared.event.Event.{Event};
ghost use Rattle.gate_log.specs.declared.subject.Subject.{Subject};
ghost use Rattle.gate_log.specs.Values.{subject_entries};
ghost use Rattle.gate_log.specs.Lines.{line_entries, line_of};
ghost use Rattle.gate_log.specs.Laws.{are_rising, IsOneLine};

/// The keys of a line, and those of its subject, stand in alphabetical order, each once.
pub fn keys_rise()
    ensures line { (at : ℕ) (event : Event) → are_rising (line_entries at event) ≡ true }
    ensures subject { (s : Subject) → are_rising (subject_entries s) ≡ true }
{}

/// A line has one line feed, at its end, and no other control character.
pub fn is_one_line()
    ensures { (at : ℕ) (event : Event) → IsOneLine (line_of at event) }
{}
