//! What holds of a face's sessions, each the contract of a function that does nothing.

ghost use Rattle.peer_sessions.specs.Laws.{NoneIsStale, StaysWithin, MomentsAreTouched};

/// After a datagram, and after a tick, no session is left that nothing touched for as long as a number is
/// remembered.
pub fn none_is_stale()
    ensures { NoneIsStale }
{}

/// Whatever happens at a face, it keeps no more receiving sessions than it may, and of all of them together no
/// more red octets than half its memory.
pub fn stays_within()
    ensures { StaysWithin }
{}

/// The moments are those of the receiving sessions, in the order in which they were touched.
pub fn moments_are_touched()
    ensures { MomentsAreTouched }
{}
