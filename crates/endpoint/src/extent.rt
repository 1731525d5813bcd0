//! Where a fragment lies.

/// The part of an application data unit that a fragment's payload is (RFC 5050, section 4.5).
#[derive(Clone, Copy, Debug, PartialEq, Eq)]
pub struct Fragment {
    /// The place of the payload's first octet in the whole.
    pub offset: u64,
    /// How many octets the whole has.
    pub total: u64,
}
