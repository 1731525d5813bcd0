//! Laws about what `receive` answers, each the contract of a function that does nothing.

ghost use Rattle.std.specs.Prelude.{ℕ, List};
ghost use Rattle.ltp_session.specs.RedPart.{IsFrontOfBlock};
ghost use Rattle.receive_run.specs.Receive.{Limits};
ghost use Rattle.receive_run.specs.KeepReceiving.{SameUnlessRefused};

/// Where every piece of a session is of one block, its red part is the front of that block: it
/// is handed up as it was sent.
pub fn red_part_is_front_of_block()
    ensures { IsFrontOfBlock }
{}

/// Where `receive` refuses no line, it answers the same with `--keep-going`.
pub fn keep_receiving_changes_refusals_alone()
    ensures { (limits : Limits) (most : ℕ) (input : List ℕ) → SameUnlessRefused limits most input }
{}
