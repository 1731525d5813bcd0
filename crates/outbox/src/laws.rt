//! What a face sends, and how its time goes, over every run of readings, puts and sends. Each law
//! is the contract of a function that does nothing.

ghost use Rattle.outbox.specs.Laws.{GoesOutInContact, GoesOutInOrder, KeepsPace, TimeGoesOn};
ghost use Rattle.outbox.specs.Laws.{TimeStays};

/// What went out, and after it what still waits, is what was put and not dropped: each goes out
/// once, in order.
pub fn goes_out_in_order()
    ensures { GoesOutInOrder }
{}

/// Each goes out at a reading at which the link is open.
pub fn goes_out_in_contact()
    ensures { GoesOutInContact }
{}

/// While all readings lie in one contact that has a rate, no more octets go out than the rate
/// carries in the time and 10 milliseconds more, but for those of the longest datagram.
pub fn keeps_pace()
    ensures { KeepsPace }
{}

/// A face's moment never falls, and never grows faster than the monotonic clock.
pub fn time_goes_on()
    ensures { TimeGoesOn }
{}

/// It stays while the link is closed, and while datagrams wait.
pub fn time_stays()
    ensures { TimeStays }
{}
