//! Laws of what is decided, each the contract of a function that does nothing.

ghost use Rattle.peer_cases.specs.Laws.{RowInTurn, DecidedAsBefore};
ghost use Rattle.peer_cases.specs.Promises.{DecidedIsSendable};

/// Each bundle of a row alone is a row of that bundle; and the row is those one after the other, and its
/// end.
pub fn row_in_turn()
    ensures { RowInTurn }
{}

/// With settings that change nothing, where pieces go alone, none waits, 64 sessions suffice and octets are no
/// matter: a block of one bundle without an end, or of none, has the judgement that it had before.
pub fn decided_as_before()
    ensures { DecidedAsBefore }
{}

/// Where a bundle goes on, it has a piece, a session carries each of its pieces, and there is room for all of
/// them; where it doesn't, it has none.
pub fn decided_is_sendable()
    ensures { DecidedIsSendable }
{}
