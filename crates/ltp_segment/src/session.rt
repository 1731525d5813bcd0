//! What a session is told, and what it answers.

ghost use Rattle.std.specs.Prelude.{◌≡◌, None, Some};
ghost use Rattle.ltp_segment.specs.Notes.{note_name};

use crate::claims::Claims;
use crate::fault::SegmentCause;
use crate::outs::Outs;
use crate::segment::PieceKind;
use endpoint::Octets;

/// The greatest length of a block in octets, and of its red part.
pub const BLOCK_MAX: u64 = 4_194_304;

/// The number that `BLOCK_MAX` names.
pub fn greatest_block()
    ensures { BLOCK_MAX ≡ 4194304 }
{}

/// A piece as its datagram lends it.
#[derive(Clone, Copy, Debug)]
pub struct PieceView<'a> {
    /// Which part of the block it belongs to, and what ends with it.
    pub kind: PieceKind,
    /// The client service that the block is for.
    pub service: u64,
    /// The place of the first octet in the block.
    pub offset: u64,
    /// The checkpoint's serial number; 0 where the piece is no checkpoint.
    pub checkpoint: u64,
    /// The serial number of the report that the checkpoint answers; 0 where there is none.
    pub report: u64,
    /// The octets.
    pub body: &'a [u8],
}

/// A report as its datagram lends it.
#[derive(Clone, Copy, Debug)]
pub struct ReportView<'a> {
    /// The report's serial number.
    pub serial: u64,
    /// The serial number of the checkpoint that it answers; 0 where there is none.
    pub checkpoint: u64,
    /// The place after the last octet that it speaks of.
    pub upper: u64,
    /// The place of the first octet that it speaks of.
    pub lower: u64,
    /// The ranges that have come, with offsets counted from `lower`.
    pub claims: Claims<'a>,
}

/// What a session does in answer to an event.
#[derive(Debug, Drop)]
pub struct Step {
    /// The datagrams that are to be sent.
    pub out: Outs,
    /// The red part, where it is handed up.
    pub up: Option<Octets>,
    /// A piece of the green part, where one is handed up.
    pub green: Option<Green>,
    /// What is to be noted.
    pub note: Option<Note>,
}

impl Step {
    /// An answer that only sends.
    pub fn sending(out: Outs) -> Step
        ensures { result ≡ record { out = out; up = None; green = None; note = None } }
    {
        Step {
            out,
            up: None,
            green: None,
            note: None,
        }
    }

    /// An answer that sends and notes something, and hands nothing up.
    pub fn noting(out: Outs, note: Note) -> Step
        ensures { result ≡ record { out = out; up = None; green = None; note = Some note } }
    {
        Step {
            out,
            up: None,
            green: None,
            note: Some(note),
        }
    }
}

/// A piece of a green part, handed up as it came.
#[derive(Debug, Drop)]
pub struct Green {
    /// The session's number.
    pub session: u64,
    /// The place of the first octet in the block.
    pub offset: u64,
    /// Whether the block ends with it.
    pub last: bool,
    /// The octets.
    pub body: Octets,
}

/// What an operator of the link may want to know.
#[derive(Clone, Copy, Debug, PartialEq, Eq)]
pub enum Note {
    /// The block was sent, and its red part was claimed whole.
    Sent {
        /// The session's number.
        session: u64,
    },
    /// The session was given up.
    Failed {
        /// The session's number.
        session: u64,
        /// Why, as the cancel says it.
        reason: u8,
    },
    /// A block for a client service that isn't there.
    Refused {
        /// The session's number.
        session: u64,
        /// The client service.
        service: u64,
    },
    /// The other end gave the session up.
    Cancelled {
        /// The session's number.
        session: u64,
        /// Why, as the cancel says it.
        reason: u8,
    },
    /// The session longest untouched made room for another.
    Evicted {
        /// The session's number.
        session: u64,
    },
    /// A segment that isn't for this engine, or not from its peer.
    Stranger,
    /// A datagram that isn't a segment.
    BadSegment {
        /// How many octets are as they should be.
        at: usize,
        /// What is wrong with the field after them.
        cause: SegmentCause,
    },
    /// A piece or a report that doesn't fit what is known of its block.
    BadBounds {
        /// The session's number.
        session: u64,
    },
    /// A piece for a session that is over.
    Closed {
        /// The session's number.
        session: u64,
    },
    /// A new session, for which there is no room in the record of earlier ones.
    HistoryFull {
        /// The session's number.
        session: u64,
    },
}

impl Note {
    /// The note's name.
    pub fn name(&self) -> &'static str
        ensures { result.now ≡ note_name self.now }
    {
        match self {
            Note::Sent { .. } => "Sent",
            Note::Failed { .. } => "Failed",
            Note::Refused { .. } => "Refused",
            Note::Cancelled { .. } => "Cancelled",
            Note::Evicted { .. } => "Evicted",
            Note::Stranger => "Stranger",
            Note::BadSegment { .. } => "BadSegment",
            Note::BadBounds { .. } => "BadBounds",
            Note::Closed { .. } => "Closed",
            Note::HistoryFull { .. } => "HistoryFull",
        }
    }
}
