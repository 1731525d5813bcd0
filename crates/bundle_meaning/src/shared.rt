//! What both versions say of a bundle.

use crate::report::Report;
use endpoint::{Endpoint, Fragment, Octets};

/// What both versions say of a bundle, in the units of version 7 (RFC 9171, section 4.3.1).
#[derive(Debug, Drop)]
pub struct Shared {
    /// Whom the bundle is for.
    pub destination: Endpoint,
    /// Who sent it.
    pub source: Endpoint,
    /// Who gets reports on it.
    pub report_to: Endpoint,
    /// When it was made, in milliseconds since the start of the year 2000 UTC.
    pub millis: u64,
    /// Which of the bundles of that millisecond it is.
    pub sequence: u64,
    /// When it expires, in milliseconds since the start of the year 2000 UTC.
    pub expiry: u128,
    /// The flags that mean the same in both versions, by bit: 0 fragment, 1 administrative, 2 must
    /// not be fragmented, 5 acknowledgement asked, 14, 16, 17 and 18 reports on reception, forwarding,
    /// delivery and deletion.
    pub flags: u64,
    /// Where the payload lies in the whole, if and only if flag bit 0 is set.
    pub fragment: Option<Fragment>,
    /// The payload block's flags that mean the same in both versions, by bit: 0 replicate in every
    /// fragment, 1 report if unprocessable, 2 delete bundle if unprocessable, 4 discard if
    /// unprocessable.
    pub payload_flags: u64,
    /// What the payload holds.
    pub content: Content,
}

/// What a payload holds.
#[derive(Debug, Drop)]
pub enum Content {
    /// Octets of an application, unread.
    Bytes(Octets),
    /// A status report, where flag bit 1 is set.
    Report(Report),
}
