//! What holds of each half. Each law is the contract of a function that does nothing but cite laws of what
//! stands below.

ghost use Rattle.peer_half.specs.Laws.{DatagramsGoFirst, GoesInContact, GoesInOrder};
ghost use Rattle.peer_half.specs.Laws.{AddsInOrder, AddsWhileRoom, EventsAtOnce, GivenIsReserved};
ghost use Rattle.peer_half.specs.Laws.{LeavesWhenOpen, PutsAsCounted, ReadsMoments, RunnableSetsUp};

/// A runnable file sets up a gateway as one is taken, with the types of blocks that the file says.
pub fn runnable_sets_up()
    ensures { RunnableSetsUp }
{}

/// In each half its records are committed at once and before anything goes out, and all that goes out goes
/// before the first line is written.
pub fn datagrams_go_first()
    ensures { DatagramsGoFirst }
{}

/// When a face sends, each datagram that waited goes out once, in order, or waits on.
pub fn goes_in_order()
    ensures { GoesInOrder }
{}

/// A datagram goes out at a face, sent or lost, only in a half at whose reading of the wall clock the
/// face's link is open.
pub fn goes_in_contact()
    ensures { GoesInContact }
{
    outbox::laws::goes_out_in_contact();
}

/// What goes at a face leaves it at the first moment from now on at which the face's link is open, or now where
/// there is none.
pub fn leaves_when_open()
    ensures { LeavesWhenOpen }
{}

/// The moments of a half are those of its reading: the wall clock's, and each face's own.
pub fn reads_moments()
    ensures { ReadsMoments }
{}

/// In a half pieces of earlier runs are added, then time passes once, and then the datagrams come in order: all at
/// the moments of the half.
pub fn events_at_once()
    ensures { EventsAtOnce }
{}

/// What the gate puts into an outbox waits there, in order: the outbox drops none of it. So the gate counts the octets
/// that wait there.
pub fn puts_as_counted()
    ensures { PutsAsCounted }
{}

/// Pieces of earlier runs are added in order, each once, under the ids that they had.
pub fn adds_in_order()
    ensures { AddsInOrder }
{}

/// Pieces of earlier runs are added as long as there is room for the next one.
pub fn adds_while_room()
    ensures { AddsWhileRoom }
{}

/// After a half no number that a session has been given is above those that are reserved.
pub fn given_is_reserved()
    ensures { GivenIsReserved }
{
    peer_records::laws::numbers_are_reserved();
}
