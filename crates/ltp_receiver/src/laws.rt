//! What the steps of a session promise, place by place. Each law is the contract of a function that
//! does nothing.

ghost use Rattle.ltp_receiver.specs.RedPart.{HandsUpOnce};
ghost use Rattle.ltp_session.specs.RedPart.{IsFrontOfBlock};

/// Whatever comes to a session: its red part is handed up with the event after which its length is
/// known and each place below it is filled, and with no other. Place by place it is the first octet
/// that came in a red piece whose octets were taken.
pub fn hands_up_once()
    ensures { HandsUpOnce }
{}

/// Where every piece that counts is of one block, the red part is the front of that block: it is
/// handed up as it was sent.
pub fn red_part_is_front_of_block()
    ensures { IsFrontOfBlock }
{}
