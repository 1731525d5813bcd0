//! What holds of each run. Each law is the contract of a function that does nothing but cite those of
//! a gateway and of an outbox.

ghost use Rattle.peer_run_laws.specs.Gate.{GateIsOfEvents};
ghost use Rattle.peer_run_laws.specs.Bounds.{StaysWithinHalf, StaysWithinInRuns};
ghost use Rattle.peer_run_laws.specs.Faces.{CountsDropped, GoesAtOnceInRuns, GoesInContactInRuns};
ghost use Rattle.peer_run_laws.specs.Faces.{GoesOnceInOrder, IsFittedInRuns};
ghost use Rattle.peer_run_laws.specs.Faces.{KeepsPaceInRuns};
ghost use Rattle.peer_run_laws.specs.Faces.{TimeIsHeld, TimeIsOfHalf, TimeRises};
ghost use Rattle.peer_run_laws.specs.Ticks.{NoneWaitsLateInRuns, RunnableWaits, TicksOnce};

/// The gate of a run is what its ticks, its datagrams and the pieces of earlier runs make of a gate at its
/// beginning.
pub fn gate_is_of_events()
    ensures { GateIsOfEvents }
{}

// ---- what a face sends

/// What went out at a face in a run, sent or lost, and after it what still waits, is what was put there, in order:
/// each goes out once. What was put first are the cancels of the sessions that were marked when the run began. Of what
/// is made at a face that is put there of which the gate says so when it is made: the outbox has room for all of it.
pub fn goes_once_in_order()
    ensures order { GoesOnceInOrder }
    ensures fitted { IsFittedInRuns }
{
    outbox::laws::goes_out_in_order();
}

/// What is sent at a face in a run and isn't put there is counted by the face's outbox.
pub fn counts_dropped()
    ensures { CountsDropped }
{
    outbox::laws::goes_out_in_order();
}

/// Where the file has no contacts and no rate for a face, nothing waits there after a half: what waited before it, and
/// what the half's events put there, goes out in it, in order.
pub fn goes_at_once_in_runs()
    ensures { GoesAtOnceInRuns }
{
    outbox::laws::goes_out_in_order();
}

/// A datagram goes out at a face only in a half at whose reading the face's link is open, by the run's
/// file.
pub fn goes_in_contact_in_runs()
    ensures { GoesInContactInRuns }
{
    peer_half::laws::goes_in_contact();
}

/// In halves whose readings lie in one contact that has a rate, no more octets go out than the rate
/// carries in the time and 10 milliseconds more, but for those of the longest datagram.
pub fn keeps_pace_in_runs()
    ensures { KeepsPaceInRuns }
{
    outbox::laws::keeps_pace();
}

/// What a face keeps of what it sends stays within half of its memory: with each event, and after each half of a run,
/// where no piece that is added there is longer when it goes than its size says.
pub fn stays_within_half()
    ensures event { StaysWithinHalf }
    ensures runs { StaysWithinInRuns }
{
    outbox::laws::goes_out_in_order();
}

// ---- a face's time

/// A face's moment in a half is the one at which the half's events come to its sessions.
pub fn time_is_of_half()
    ensures { TimeIsOfHalf }
{}

/// From one half to the next a face's moment never falls, and grows by no more than the monotonic
/// clock does, whatever the clocks show.
pub fn time_rises()
    ensures { TimeRises }
{}

/// It stays where datagrams waited at the end of the half before, or the link was closed since.
pub fn time_is_held()
    ensures { TimeIsHeld }
{
    outbox::laws::time_stays();
}

// ---- what is due

/// What waits at a face of a runnable file waits for some time, where the file says that numbers are remembered for
/// some time: the timers of its sessions, the memory of those that are over, and pieces.
pub fn runnable_waits()
    ensures { RunnableWaits }
{}

/// Where a face's moment is that of the half before, the half's tick does nothing at the face: nothing is sent, told,
/// added or begun there, and its sessions and pieces stay. What was due went with the tick before, or when a session
/// was free again, and what was added since isn't due.
pub fn ticks_once()
    ensures { TicksOnce }
{
    peer_sessions::laws::none_is_stale();
    peer_gateway::laws::complete_goes();
    peer_gateway::laws::ready_goes();
}

/// After a half, while a session is free at a face, no block is complete there, and no piece has waited as long as it
/// may, by the face's moment.
pub fn none_waits_late_in_runs()
    ensures { NoneWaitsLateInRuns }
{
    peer_sessions::laws::none_is_stale();
    peer_gateway::laws::complete_goes();
    peer_gateway::laws::ready_goes();
}
