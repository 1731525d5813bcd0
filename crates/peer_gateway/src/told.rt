//! What a gateway tells of a step.

use block_types::LeftOut;
use bundle_rows::End;
use endpoint::Octets;
use gate_cases::{Face, GateCase};
use gate_log::Subject;
use ltp_segment::{Green, Note};
use piece_gathering::Piece;

/// What is told of a step at a face.
#[derive(Debug, Drop)]
pub enum Remark {
    /// What the face's engine notes.
    Engine {
        /// The note.
        note: Note,
    },
    /// Numbers of sessions were forgotten before their time.
    Forgotten {
        /// How many runs of numbers.
        runs: u64,
    },
    /// A green piece came, and is dropped.
    Green {
        /// The piece.
        green: Green,
    },
    /// A block begins, where pieces gather.
    Began {
        /// How many pieces it has.
        pieces: usize,
        /// How many octets.
        octets: usize,
        /// Its session.
        session: u64,
    },
    /// A bundle comes: what is told next about a bundle is about this one.
    Bundle {
        /// Its names, and how many octets its payload has.
        subject: Option<Subject>,
    },
    /// What is decided about a bundle.
    Case {
        /// Its place in its row, from 1, where it isn't alone in it.
        index: Option<usize>,
        /// The session in which it came.
        session: u64,
        /// The case.
        case: GateCase,
        /// How many pieces go on.
        pieces: usize,
        /// The session of the first of them, where each piece has one of its own.
        first: Option<u64>,
    },
    /// What the pieces of a bundle lack.
    Left {
        /// The bundle's place in its row, from 1, where it isn't alone in it.
        index: Option<usize>,
        /// The session in which it came.
        session: u64,
        /// What they lack.
        left: LeftOut,
    },
    /// A report on a bundle is sent.
    Reported {
        /// The bundle's place in its row, from 1, where it isn't alone in it.
        index: Option<usize>,
        /// The session in which it came.
        session: u64,
        /// The session of the report, where each piece has one of its own.
        report: Option<u64>,
    },
    /// A report on a bundle was asked for and isn't sent.
    Unreported {
        /// The bundle's place in its row, from 1, where it isn't alone in it.
        index: Option<usize>,
        /// The session in which it came.
        session: u64,
    },
    /// A row ends before its block does.
    End {
        /// The end's place in its row, from 1, where it isn't alone in it.
        index: Option<usize>,
        /// The session in which the block came.
        session: u64,
        /// Where the row ends, and why.
        end: End,
    },
}

/// What is told at a face.
#[derive(Debug, Drop)]
pub struct RemarkAt {
    /// The face.
    pub face: Face,
    /// What is told.
    pub remark: Remark,
}

/// A datagram that was made at a face.
#[derive(Debug, Drop)]
pub struct Outgoing {
    /// The face.
    pub face: Face,
    /// Its octets.
    pub datagram: Octets,
    /// Whether it is put into the face's outbox; else it is dropped.
    pub is_put: bool,
}

/// A piece was added at a face.
#[derive(Debug, Drop)]
pub struct Added {
    /// The face.
    pub face: Face,
    /// The piece.
    pub piece: Piece,
    /// Whether it is a report; else it is one of a bundle that goes on.
    pub is_report: bool,
}

/// A session began at a face.
#[derive(Debug, Drop)]
pub struct BlockBegun {
    /// The face.
    pub face: Face,
    /// The session's number.
    pub session: u64,
    /// The block, all of it red.
    pub block: Octets,
    /// How many pieces it has: they are those in front of all that waited.
    pub pieces: usize,
}
