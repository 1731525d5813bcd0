//! What a gateway hands up at each face, whoever is at the other ends. Each law is the contract of a
//! function that does nothing but cite that of an engine.

ghost use Rattle.gateway_core.specs.RedParts.{AreEngines, HandsUpRedParts, HandsUpEachOnce};

/// Whatever happens to a gateway: the engine of each face is what an engine becomes to which come the
/// datagrams of the face, the pieces and reports that go out there, and the moments.
pub fn faces_are_engines()
    ensures { AreEngines }
{}

/// The red part of a session is handed up at its face with the event after which its length is known
/// and each place below it is filled, and with no other. Place by place it is the first octet that
/// came in a red piece that was taken.
pub fn hands_up_red_parts()
    ensures { HandsUpRedParts }
{
    ltp_engine::laws::hands_up_red_parts();
}

/// No session's red part is handed up twice at a face.
pub fn hands_up_each_once()
    ensures { HandsUpEachOnce }
{
    ltp_engine::laws::hands_up_each_once();
}
