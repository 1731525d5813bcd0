//! When a red part can be handed up twice, each law the contract of a function that does nothing.

ghost use Rattle.peer_once.specs.Pieces.{HandsUpRedParts};
ghost use Rattle.peer_once.specs.Uses.{UsedOnce, HandedUpAsSent};
ghost use Rattle.peer_once.specs.Laws.{HandedUpAgain, NoneOfTheMarked, KnownForATime, HandedUpOnceInTime, HandedUpApart, KeptWhereHeard};

/// A red part is handed up again only where its session opened anew: a red piece of it came, and it was
/// neither kept nor remembered.
pub fn handed_up_again()
    ensures { HandedUpAgain }
{}

/// What is remembered for good from the beginning is never handed up.
pub fn none_of_the_marked()
    ensures { NoneOfTheMarked }
{}

/// For as long as a number is remembered after its session was kept, or after a red piece of it came, it is
/// kept or remembered, unless runs are forgotten before their time.
pub fn known_for_a_time()
    ensures { KnownForATime }
{}

/// A red part is handed up again only where its session wasn't there for the time in which a number is
/// remembered, or where it was forgotten before its time, for want of places, and that was told.
pub fn handed_up_once_in_time()
    ensures { HandedUpOnceInTime }
{}

/// Unless runs are forgotten before their time, a red part isn't handed up twice within the time in which a
/// number is remembered.
pub fn handed_up_apart()
    ensures { HandedUpApart }
{}

/// A session is kept only where a segment of it came within the time in which a number is remembered.
pub fn kept_where_heard()
    ensures { KeptWhereHeard }
{}

/// A session's red part is handed up with the datagram that makes it whole, by the pieces since it opened, and
/// with no other.
pub fn hands_up_red_parts()
    ensures { HandsUpRedParts }
{}

/// A number that a peer uses again, each time for one block: the red part of a use is handed up once at most.
pub fn used_once()
    ensures { UsedOnce }
{}

/// A number that a peer uses again: what is handed up in a use is the red part that was sent in it.
pub fn handed_up_as_sent()
    ensures { HandedUpAsSent }
{}
