//! What holds of the steps, each the contract of a function that does nothing.

ghost use Rattle.peer_gateway.specs.Laws.{CompleteGoes, CompleteAtOnce, ReadyGoes, PiecesInOrder, NothingRefused, HeadsAreSmall};
ghost use Rattle.peer_gateway.specs.Laws.{AgeRaisedOnce, SizedForAnyStay, RowsPassInTurn};
ghost use Rattle.peer_gateway.specs.Laws.{QueuedIsPut, FirstsArePut};

/// After a piece was added, nothing that is complete waits at its face while a session is free there. Where
/// none is wanted in a block, that is each piece.
pub fn complete_goes()
    ensures goes { CompleteGoes }
    ensures at_once { CompleteAtOnce }
{}

/// After a tick, and after a step in which a session ended, nothing that is ready waits at a face while a
/// session is free there: so no piece waits longer than it may.
pub fn ready_goes()
    ensures { ReadyGoes }
{}

/// What waited at a face and what was added there goes in this order, each piece once, or waits on: whatever
/// happens.
pub fn pieces_in_order()
    ensures { PiecesInOrder }
{}

/// No block that goes is refused: a session is free for it and has a number, and it is no longer than a
/// session carries.
pub fn nothing_refused()
    ensures { NothingRefused }
{}

/// Each datagram of a block that begins has at most 34 octets besides its data: so a block and its datagrams
/// have at most as many octets as it was given room for.
pub fn heads_are_small()
    ensures { HeadsAreSmall }
{}

/// Of each datagram that is made it is said whether it is put into its face's outbox. The octets of an outbox are
/// those that were there and those of each datagram that was put, and no more than may wait there.
pub fn queued_is_put()
    ensures { QueuedIsPut }
{}

/// Where a block begins at a face that keeps at most half of its memory, that stays so, and no datagram of the
/// block is dropped but where the outbox takes no more.
pub fn firsts_are_put()
    ensures { FirstsArePut }
{}

/// Where ages are raised, a piece goes as octets that read as its record with its age raised by the stay, once.
pub fn age_raised_once()
    ensures { AgeRaisedOnce }
{}

/// A piece has no more octets when it goes than its size says, however long it stayed.
pub fn sized_for_any_stay()
    ensures { SizedForAnyStay }
{}

/// A block that came whole passes as its bundles do, each in a block of its own, one after the other, and then
/// its end; also in what is told, but for their places in the row.
pub fn rows_pass_in_turn()
    ensures { RowsPassInTurn }
{}
