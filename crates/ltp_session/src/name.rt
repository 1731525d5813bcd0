//! A session's name.

/// What tells one session from all others (RFC 5326, section 3.1).
#[derive(Clone, Copy, Debug, PartialEq, Eq)]
pub struct SessionName {
    /// The engine that sends the block, whoever sends a segment of the session.
    pub originator: u64,

    /// The session's number, which the originator chose.
    pub number: u64,
}
