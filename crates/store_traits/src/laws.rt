//! What a crash leaves of a file whose writes are torn, and by which choice.

ghost use Rattle.std.specs.Prelude.{◌≡◌, ℕ, List};
ghost use Rattle.store_traits.specs.declared.torn.Change.{Change};
ghost use Rattle.store_traits.specs.Torn.{TearValue, MayBeLeft, left_by_all};

/// Each choice leaves a file that a crash may leave.
pub fn each_choice_may_be_left()
    ensures { (first : List ℕ) (log : List Change) (tears : List TearValue)
        → MayBeLeft first log (left_by_all tears log first) }
{}

/// Each file that a crash may leave is left by some choice.
pub fn each_file_is_left_by_a_choice()
    ensures { (first : List ℕ) (log : List Change) (c : List ℕ) → MayBeLeft first log c
        → (tears : List TearValue) × (left_by_all tears log first ≡ c) }
{}
