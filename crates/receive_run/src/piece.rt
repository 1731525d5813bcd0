//! A red piece of a line.
ghost use Rattle.std.specs.Prelude.{◌≡◌};

use ltp_session::SessionName;

/// A piece of a red part for client service 1, whose octets are lent out of its datagram
/// (RFC 5326).
#[derive(Clone, Copy, Debug)]
pub struct Piece<'a> {
    /// The session's name.
    pub name: SessionName,
    /// The place of the first octet in the block.
    pub offset: u64,
    /// Whether the red part ends with this piece.
    pub ends: bool,
    /// The octets.
    pub body: &'a [u8],
}
