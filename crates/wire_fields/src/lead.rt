//! A head that says of which of two kinds it is.

/// The head of a CBOR item that is an unsigned number or a text string.
#[derive(Clone, Copy, Debug, PartialEq, Eq)]
pub enum UnsignedOrText {
    /// The number.
    Unsigned(u64),
    /// How many octets the text has, which stand after the head.
    Text(u64),
}
