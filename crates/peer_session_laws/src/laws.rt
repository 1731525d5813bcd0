//! What holds of the sessions, each law the contract of a function that does nothing but cite those
//! of what stands below.

ghost use Rattle.peer_session_laws.specs.Sessions.{AreOfTheirFaces, PassesOnWhatIsHandedUp};
ghost use Rattle.peer_session_laws.specs.Sessions.{PassesWhole};
ghost use Rattle.peer_session_laws.specs.Runs.{AreOfTheirFacesInRuns};
ghost use Rattle.peer_session_laws.specs.Closed.{MarkedStayClosed};
ghost use Rattle.peer_session_laws.specs.Once.{HandedUpApartInRuns, HandedUpAsSentInRuns};
ghost use Rattle.peer_session_laws.specs.Once.{HandedUpOnceInRuns};
ghost use Rattle.peer_session_laws.specs.Once.{MomentsInOrder, NoneOfTheMarkedInRuns};
ghost use Rattle.peer_session_laws.specs.Once.{UsedOnceInRuns};
ghost use Rattle.peer_session_laws.specs.Own.{EndsAreTold, NumbersGoOn, NumbersRise};
ghost use Rattle.peer_session_laws.specs.Open.{OpenAreOwn, OwnAreOnce, OwnAreOpen};

/// The sessions of each face are what the datagrams that came there, its ticks and the blocks that
/// began there make of sessions at their beginning: whatever happened to a gateway, and after each
/// run.
pub fn are_of_their_faces()
    ensures events { AreOfTheirFaces }
    ensures runs { AreOfTheirFacesInRuns }
{
    peer_run_laws::laws::gate_is_of_events();
}

/// With an event the red part of a session is passed on from a face if and only if it becomes whole
/// there with it. Place by place it is the first octet that came since the session opened. What is
/// passed on is what the face's sessions hand up.
pub fn passes_whole()
    ensures handed_up { PassesOnWhatIsHandedUp }
    ensures whole { PassesWhole }
{
    peer_once::laws::hands_up_red_parts();
}

// ---- when a red part is handed up twice in a run

/// The moments of a face don't fall in a run.
pub fn moments_in_order()
    ensures { MomentsInOrder }
{
    peer_run_laws::laws::time_is_of_half();
}

/// A red part is handed up again at a face of a run only where its session wasn't there for the
/// time in which a number is remembered, or where it was forgotten before its time, for want of
/// places, and that was told.
pub fn handed_up_once_in_runs()
    ensures { HandedUpOnceInRuns }
{
    moments_in_order();
    peer_once::laws::handed_up_once_in_time();
}

/// Unless runs are forgotten before their time, a red part isn't handed up twice at a face of a run
/// within the time in which a number is remembered.
pub fn handed_up_apart_in_runs()
    ensures { HandedUpApartInRuns }
{
    moments_in_order();
    peer_once::laws::handed_up_apart();
}

/// A number that a peer uses again, each time for one block: the red part of a use is handed up
/// once at most.
pub fn used_once_in_runs()
    ensures { UsedOnceInRuns }
{
    moments_in_order();
    peer_once::laws::used_once();
}

/// A number that a peer uses again: what is handed up in a use is the red part that was sent in it.
pub fn handed_up_as_sent_in_runs()
    ensures { HandedUpAsSentInRuns }
{
    moments_in_order();
    peer_once::laws::handed_up_as_sent();
}

/// Nothing is passed on of a session that is marked when a run begins. What earlier runs kept is
/// legal, as what is read of a journal is.
pub fn none_of_the_marked_in_runs()
    ensures { NoneOfTheMarkedInRuns }
{
    peer_once::laws::none_of_the_marked();
}

/// No report on a session that is marked when a run begins goes out at its face in the run, sent or
/// lost, nor waits after it. What earlier runs kept is legal, as what is read of a journal is.
pub fn marked_stay_closed()
    ensures { MarkedStayClosed }
{
    peer_run_laws::laws::goes_once_in_order();
}

// ---- sessions of the gateway's own

/// The sessions that begin at a face with an event have numbers that no session of the face had
/// before.
pub fn numbers_rise()
    ensures { NumbersRise }
{}

/// No session that begins in a run has a number that earlier runs had reserved.
pub fn numbers_go_on()
    ensures { NumbersGoOn }
{}

/// With an event after which a session isn't open that was open before it, it is told that it was
/// sent, failed, or was cancelled.
pub fn ends_are_told()
    ensures { EndsAreTold }
{}

/// Each session that is open at a face is one of those that the run keeps as its own, and it stands
/// there once.
pub fn open_are_own()
    ensures open { OpenAreOwn }
    ensures once { OwnAreOnce }
{
    peer_events::laws::own_go_by_ends();
    peer_gateway::laws::pieces_in_order();
}

/// Each of those that the run keeps as its own is open, where each piece of earlier runs that was
/// to be added has an octet.
pub fn own_are_open()
    ensures { OwnAreOpen }
{
    peer_events::laws::own_go_by_ends();
    peer_gateway::laws::pieces_in_order();
}
