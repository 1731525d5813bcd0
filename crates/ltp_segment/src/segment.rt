//! A segment as its datagram lends it.

ghost use Rattle.std.specs.Prelude.{◌≡◌, ◌%◌};
ghost use Rattle.ltp_segment.specs.Kinds.{is_red, is_checkpoint, ends_red_part, ends_block};
ghost use Rattle.ltp_segment.specs.Types.{type_at};
ghost use Rattle.ltp_segment.specs.Spelling.{piece_type};

use crate::claims::Claims;

/// One segment. Data and claims are lent out of the datagram.
#[derive(Clone, Copy, Debug)]
pub struct Segment<'a> {
    /// The engine that sends the block, whoever sends the segment.
    pub originator: u64,
    /// The session's number, which the originator chose.
    pub session: u64,
    /// What the segment says.
    pub content: Content<'a>,
}

/// What a segment says (RFC 5326, section 3).
#[derive(Clone, Copy, Debug)]
pub enum Content<'a> {
    /// Octets of the block.
    Piece {
        /// Which part of the block they belong to, and what ends with them.
        kind: PieceKind,
        /// The client service that the block is for.
        service: u64,
        /// The place of the first octet in the block.
        offset: u64,
        /// The checkpoint's serial number; 0 where the piece is no checkpoint.
        checkpoint: u64,
        /// The serial number of the report that the checkpoint answers; 0 where there is none.
        report: u64,
        /// The octets.
        body: &'a [u8],
    },
    /// Which octets of a red part have come.
    Report {
        /// The report's serial number.
        serial: u64,
        /// The serial number of the checkpoint that it answers; 0 where there is none.
        checkpoint: u64,
        /// The place after the last octet that it speaks of.
        upper: u64,
        /// The place of the first octet that it speaks of.
        lower: u64,
        /// The ranges that have come, with offsets counted from `lower`.
        claims: Claims<'a>,
    },
    /// A report has come.
    ReportAck {
        /// The report's serial number.
        serial: u64,
    },
    /// The sender gives the session up.
    SenderCancel {
        /// Why it does.
        reason: u8,
    },
    /// The sender's cancel has come.
    SenderCancelAck,
    /// The receiver gives the session up.
    ReceiverCancel {
        /// Why it does.
        reason: u8,
    },
    /// The receiver's cancel has come.
    ReceiverCancelAck,
}

/// Which part of the block a piece belongs to, and what ends with it (RFC 5326, section 3.1).
#[derive(Clone, Copy, Debug, PartialEq, Eq)]
pub enum PieceKind {
    /// Red data, which is reported and sent again where it was lost.
    Red,
    /// Red data whose sender asks for a report.
    RedCheckpoint,
    /// The last of the red part, for which a report is asked.
    RedEnd,
    /// The last of the red part and of the block, for which a report is asked.
    RedEndBlock,
    /// Green data, which is sent once.
    Green,
    /// The last of the block, in its green part.
    GreenEndBlock,
}

impl PieceKind {
    /// Whether the piece belongs to the red part.
    pub fn is_red(&self) -> bool
        ensures { result ≡ is_red self.now }
    {
        match self {
            PieceKind::Green | PieceKind::GreenEndBlock => false,
            _ => true,
        }
    }

    /// Whether the piece asks for a report.
    pub fn is_checkpoint(&self) -> bool
        ensures { result ≡ is_checkpoint self.now }
    {
        match self {
            PieceKind::RedCheckpoint | PieceKind::RedEnd | PieceKind::RedEndBlock => true,
            _ => false,
        }
    }

    /// The number of its segment type.
    pub(crate) fn segment_type(&self) -> u8
        ensures { result ≡ piece_type self.now }
    {
        match self {
            PieceKind::Red => 0,
            PieceKind::RedCheckpoint => 1,
            PieceKind::RedEnd => 2,
            PieceKind::RedEndBlock => 3,
            PieceKind::Green => 4,
            PieceKind::GreenEndBlock => 7,
        }
    }

    /// Whether the red part ends with the piece.
    pub fn ends_red_part(&self) -> bool
        ensures { result ≡ ends_red_part self.now }
    {
        match self {
            PieceKind::RedEnd | PieceKind::RedEndBlock => true,
            _ => false,
        }
    }

    /// Whether the block ends with the piece.
    pub fn ends_block(&self) -> bool
        ensures { result ≡ ends_block self.now }
    {
        match self {
            PieceKind::RedEndBlock | PieceKind::GreenEndBlock => true,
            _ => false,
        }
    }
}

/// What a segment is, by the low half of its control octet (RFC 5326, section 3.1).
#[derive(Clone, Copy)]
pub(crate) enum SegmentType {
    Piece(PieceKind),
    Report,
    ReportAck,
    SenderCancel,
    SenderCancelAck,
    ReceiverCancel,
    ReceiverCancelAck,
}

/// The segment types by their numbers; four are not in use.
const SEGMENT_TYPES: [Option<SegmentType>; 16] = [
    Some(SegmentType::Piece(PieceKind::Red)),
    Some(SegmentType::Piece(PieceKind::RedCheckpoint)),
    Some(SegmentType::Piece(PieceKind::RedEnd)),
    Some(SegmentType::Piece(PieceKind::RedEndBlock)),
    Some(SegmentType::Piece(PieceKind::Green)),
    None,
    None,
    Some(SegmentType::Piece(PieceKind::GreenEndBlock)),
    Some(SegmentType::Report),
    Some(SegmentType::ReportAck),
    None,
    None,
    Some(SegmentType::SenderCancel),
    Some(SegmentType::SenderCancelAck),
    Some(SegmentType::ReceiverCancel),
    Some(SegmentType::ReceiverCancelAck),
];

impl SegmentType {
    /// The type that a control octet says, where it is in use.
    pub(crate) fn said_by(control: u8) -> Option<SegmentType>
        ensures { result ≡ type_at (control % 16) }
    {
        SEGMENT_TYPES[usize::from(control % 16)]
    }
}

/// A range of a red part that has come.
#[derive(Clone, Copy, Debug, PartialEq, Eq)]
pub struct Claim {
    /// The place of its first octet, counted from the report's lower bound.
    pub offset: u64,
    /// How many octets it has.
    pub length: u64,
}
