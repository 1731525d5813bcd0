//! What `node` writes and hands up, whoever is at the other end. Each law is the contract of a
//! function that does nothing but cite that of an engine.

ghost use Rattle.node_run.specs.Node.{BeginsWithFirst};
ghost use Rattle.node_run.specs.RedParts.{AnswersEvents, HandsUpRedParts, HandsUpEachOnce};

/// Whatever the input: what is written are the answers to the events that its first lines say, in
/// their order, and after them at most the line of a refusal. No line that is answered or refused
/// passes a limit, and at a limit the next one does. The `up` lines are exactly the red
/// parts that are handed up with these events: no session's twice, and each with the event that
/// makes it whole, and with no other.
pub fn answers_events()
    ensures { AnswersEvents }
{
    ltp_engine::laws::hands_up_red_parts();
    ltp_engine::laws::hands_up_each_once();
}

/// The red part of a session of the peer is handed up with the line after which its length is known
/// and each place below it is filled, and with no other. Place by place it is the first octet that
/// came in a red piece that was taken.
pub fn hands_up_red_parts()
    ensures { HandsUpRedParts }
{
    ltp_engine::laws::hands_up_red_parts();
}

/// No session's red part is handed up twice.
pub fn hands_up_each_once()
    ensures { HandsUpEachOnce }
{
    ltp_engine::laws::hands_up_each_once();
}

/// The first block that a node sends has the session with number 1.
pub fn begins_with_first()
    ensures { BeginsWithFirst }
{}
