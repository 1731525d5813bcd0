//! The records of a journal.

use crate::kept::Mark;
use gate_cases::Face;

/// How a session of our own ended.
#[derive(Clone, Copy, Debug, PartialEq, Eq)]
pub enum How {
    /// The peer has all of its block.
    Sent,
    /// It was given up.
    Failed,
    /// The peer cancelled it.
    Cancelled,
}

/// One record. Blocks are lent.
#[derive(Clone, Copy, Debug)]
pub enum Record<'a> {
    /// A block is begun at a face, under an id above all earlier ones. Where it has the moment at which
    /// its octets came, that stands in the record too.
    Begun {
        id: u64,
        face: Face,
        came: Option<u64>,
        block: &'a [u8],
    },
    /// The session of a pending id ended.
    Done {
        id: u64,
        how: How,
    },
    /// A report goes out about a session of the peer that isn't handed up.
    Marked(Mark),
    /// That session was handed up, or its sender cancelled it.
    Clear {
        face: Face,
        session: u64,
    },
    /// The numbers of a face below this one may have been used.
    Reserved {
        face: Face,
        number: u64,
    },
}
