//! Status reports, as both versions mean them.

use endpoint::Endpoint;

/// What a report says of one status (RFC 9171, section 6.1.1).
#[derive(Clone, Copy, Debug, PartialEq, Eq)]
pub enum Stamp {
    /// It isn't reported.
    No,
    /// It is reported without a time.
    Yes,
    /// It is reported with its time, in milliseconds since the start of the year 2000 UTC.
    At(u64),
}

/// The part of its subject's payload of which a report speaks.
#[derive(Clone, Copy, Debug, PartialEq, Eq)]
pub struct Part {
    /// The place of its first octet in the whole.
    pub offset: u64,
    /// How many octets it has.
    pub length: u64,
}

/// A status report (RFC 5050, section 6.1.1; RFC 9171, section 6.1.1).
#[derive(Debug, Drop)]
pub struct Report {
    /// Received, forwarded, delivered and deleted.
    pub stamps: [Stamp; 4],
    /// Of each of these times the part below one millisecond, in nanoseconds, which version 6 has.
    pub rests: [u32; 4],
    /// The reason code.
    pub reason: u8,
    /// Who sent the bundle of which the report speaks, its subject.
    pub source: Endpoint,
    /// When the subject was made, in milliseconds since the start of the year 2000 UTC.
    pub millis: u64,
    /// Which of the bundles of that millisecond the subject is.
    pub sequence: u64,
    /// The part of the subject's payload, where the subject is a fragment.
    pub fragment: Option<Part>,
}
