//! What an engine hands up, whoever is at the other end. Each law is the contract of a function that
//! does nothing.

ghost use Rattle.std.specs.Prelude.{◌≡◌, ◌^◌};
ghost use Rattle.ltp_engine.specs.declared.engine.TheConstants.{SESSIONS, HISTORY};
ghost use Rattle.ltp_engine.specs.RedParts.{HandsUpRedParts, HandsUpEachOnce};

/// Whatever comes to an engine, and from whomever: the red part of a session of its peer is handed
/// up with the datagram after which its length is known and each place below it is filled, and with
/// no other event. Place by place it is the first octet that came in a red piece that was taken.
pub fn hands_up_red_parts()
    ensures { HandsUpRedParts }
{}

/// No number's red part is handed up twice.
pub fn hands_up_each_once()
    ensures { HandsUpEachOnce }
{}

/// A new engine keeps 64 sessions of each direction, and remembers 65,536 runs of closed numbers.
pub fn new_engine_bounds()
    ensures sessions { SESSIONS ≡ 64 }
    ensures history { HISTORY ≡ 2 ^ 16 }
{}
