//! Laws of what is decided.

ghost use Rattle.gate_cases.specs.Promises.{PiecesHaveRoom, ReportsLiveADay};

/// The pieces of a bundle that goes on have a session each, which carries it.
pub fn pieces_have_room()
    ensures { PiecesHaveRoom }
{}

/// A status report lives a day, whichever version it has.
pub fn reports_live_a_day()
    ensures { ReportsLiveADay }
{}
