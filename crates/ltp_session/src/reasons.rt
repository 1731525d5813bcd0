//! The reasons of the cancels that we send (RFC 5326, section 3.2.4).

/// There is no such client service (UNREACH).
pub const UNREACHABLE: u8 = 1;
/// A segment was sent as often as the policy allows (RLEXC).
pub const SENT_TOO_OFTEN: u8 = 2;
/// Red data came after green data in the block, or green before red (MISCOLORED).
pub const MISCOLOURED: u8 = 3;
/// The system gives the session up (SYS_CNCLD).
pub const BY_SYSTEM: u8 = 4;
