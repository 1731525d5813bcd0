//! A session of a sender of the Licklider Transmission Protocol (RFC 5326): how one block is sent
//! until its red part is claimed, or given up.
//!
//! [`Sender::begin`] answers all segments of the block. From then on a session is told what comes
//! (a report, a cancel, the acknowledgement of its own cancel) and what time it is, and answers
//! what is to be sent and noted. Each call is one step of the definition in `ltp_session`.
//!
//! Octets that are claimed are kept as ranges. The segments that are to be sent again are found in
//! one walk along the segments and these ranges.
#![tactic(auto)]

mod claims;
mod kept;
mod pieces;
mod ranges;
mod segments;
mod sender;
mod steps;

pub use sender::{Begun, Sender};
