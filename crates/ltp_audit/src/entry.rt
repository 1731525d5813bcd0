//! An entry of a recording.

use endpoint::Octets;

/// A datagram that left an engine, or came to it.
#[derive(Debug, Drop)]
pub struct Entry {
    /// Whether it left the engine.
    pub out: bool,
    /// The datagram.
    pub datagram: Octets,
}
