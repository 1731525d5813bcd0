//! What it says of a recording that its entries were accepted. Each law is the contract of a
//! function that does nothing.

ghost use Rattle.ltp_audit.specs.Laws.{AcceptsSegments, ClaimsWereSeen, AnsweredWereSeen};
ghost use Rattle.ltp_audit.specs.Laws.{AcknowledgedWereSeen};

/// What is accepted is a segment that stands on its side.
pub fn accepts_segments()
    ensures { AcceptsSegments }
{}

/// Each octet that an accepted report claims came before, in a red piece of its session.
pub fn claims_were_seen()
    ensures { ClaimsWereSeen }
{}

/// A checkpoint that an accepted report answers came before in its session.
pub fn answered_were_seen()
    ensures { AnsweredWereSeen }
{}

/// A report that is acknowledged came before in its session.
pub fn acknowledged_were_seen()
    ensures { AcknowledgedWereSeen }
{}
