//! What an operator must know.

use crate::subject::Subject;
use endpoint::Octets;
use gate_cases::{BadCause, Face};
use ltp_segment::SegmentCause;
use translate::Refused;

/// What an operator must know.
#[derive(Debug, Drop)]
pub enum Event {
    /// The run begins.
    Start {
        /// The number of the old face's first session.
        old: u64,
        /// The number of the new face's first session.
        new: u64,
        /// How many marks the journal keeps.
        marks: u64,
        /// How many pieces the journal has that wait to be sent again.
        pending: u64,
    },
    /// The metrics couldn't be put in place.
    MetricsFailed,
    /// Something happened to a face's link.
    Link {
        /// The face.
        face: Face,
        /// What.
        what: LinkEvent,
    },
    /// Something happened in a session of which no bundle is known.
    Session {
        /// The session's face.
        face: Face,
        /// The session's number.
        session: u64,
        /// What.
        what: SessionEvent,
    },
    /// Something happened to a block.
    Bundle {
        /// The face at which it came, or goes out.
        face: Face,
        /// The number of the session that carries it.
        session: u64,
        /// The bundle that is the front of the block; none where there is none.
        subject: Option<Subject>,
        /// What.
        what: BundleEvent,
    },
    /// Something happened to one of the bundles of a block that has more than one, or has octets after its
    /// only one.
    InRow {
        /// The face at which the block came.
        face: Face,
        /// The number of the session that carried it.
        session: u64,
        /// The bundle's place among those of the block, from 1.
        index: u64,
        /// The bundle.
        subject: Option<Subject>,
        /// What.
        what: BundleEvent,
    },
    /// A bundle passed without what the other version has no field for.
    LeftOut {
        /// The face at which its block came.
        face: Face,
        /// The number of the session that carried it.
        session: u64,
        /// The bundle's place among those of the block, from 1, where there is more than it.
        index: Option<u64>,
        /// The bundle.
        subject: Option<Subject>,
        /// The types of the extension blocks that were left out, in order.
        blocks: Octets,
        /// Whether more than them was left out, which a residue would have held.
        residue: bool,
    },
    /// A block was pending in the journal, and waits at a face that gathers for others to be sent again with.
    Waiting {
        /// The face.
        face: Face,
        /// The bundle that is the front of the block; none where there is none.
        subject: Option<Subject>,
    },
}

/// What happens to a face's link.
#[derive(Clone, Copy, Debug, PartialEq, Eq)]
pub enum LinkEvent {
    /// A contact of the face began.
    ContactOpened {
        /// Its rate in octets a second, if it has one.
        rate: Option<u64>,
        /// The moment at which it ends.
        until: u64,
    },
    /// The face has no contact now.
    ContactClosed {
        /// The moment at which the next one begins, if there is one.
        until: Option<u64>,
    },
    /// A segment came that isn't for this engine, or not from its peer.
    Stranger,
    /// A datagram came that isn't a segment.
    BadSegment {
        /// How many octets are as they should be.
        place: usize,
        /// What is wrong with the field after them.
        cause: SegmentCause,
    },
    /// A poll failed.
    PollFailed,
    /// Sends failed.
    SendFailed {
        /// How many, in this half.
        datagrams: u64,
    },
    /// Datagrams found no room in the outbox.
    OutboxFull {
        /// How many, in this half.
        datagrams: u64,
    },
    /// Sessions that are over were forgotten before their time, since there was no place for more.
    Forgotten {
        /// How many runs of consecutive numbers they were.
        runs: u64,
    },
}

/// What happens in a session of which no bundle is known.
#[derive(Clone, Copy, Debug, PartialEq, Eq)]
pub enum SessionEvent {
    /// A block came whole that isn't exactly one bundle of the face's version.
    BadBundle {
        /// The place of the first field that isn't there as it should be, or of the octets after the
        /// bundle.
        place: usize,
        /// What is wrong there.
        cause: BadCause,
    },
    /// A block came whole that is bundles of the face's version, and octets after them that aren't one.
    BadEnd {
        /// The place of these octets among the bundles of the block, from 1.
        index: u64,
        /// The place of the first field that isn't there as it should be, from the block's beginning.
        place: usize,
        /// What is wrong there.
        cause: BadCause,
    },
    /// A block of gathered pieces begins.
    Began {
        /// How many they are.
        bundles: u64,
        /// How many octets they have.
        octets: u64,
    },
    /// A green piece came, and was dropped.
    Green {
        /// Whether it ends its block.
        last: bool,
        /// How many octets it has.
        octets: u64,
        /// Where they stand in the block.
        offset: u64,
    },
    /// A receiving session was given up.
    Failed {
        /// Why, as the cancel says it.
        reason: u8,
    },
    /// The sender cancelled its session.
    Cancelled {
        /// Why, as the cancel says it.
        reason: u8,
    },
    /// A block came for a client service that isn't there.
    Refused {
        /// The client service.
        service: u64,
    },
    /// The session longest untouched made room for another.
    Evicted,
    /// A piece or a report came that doesn't fit what is known of its block.
    BadBounds,
    /// A piece came for a session that is over.
    Closed,
    /// A new session came, for which there is no room in the record of earlier ones.
    HistoryFull,
}

/// What happens to a block.
#[derive(Clone, Copy, Debug, PartialEq, Eq)]
pub enum BundleEvent {
    /// It was pending in the journal, and is sent again.
    Resumed,
    /// It came, and goes on at the other face.
    Passed {
        /// The number of the first session there; none where that face gathers, so that it isn't known yet.
        first: Option<u64>,
        /// In how many pieces it goes on, a session each.
        pieces: u64,
    },
    /// It came, and isn't translated.
    Untranslated {
        /// Why not.
        cause: Refused,
    },
    /// It came, and has expired.
    Expired,
    /// It came, and made as many hops as it may.
    HopLimit,
    /// It came, and there was no room for it at the other face.
    Storage,
    /// It came, and the report that it asks for was sent.
    Reported {
        /// The number of the report's session; none where the face gathers.
        report: Option<u64>,
    },
    /// It came, and the report that it asks for wasn't sent.
    Unreported,
    /// It was sent, and all of it was claimed.
    Sent {
        /// How many bundles it was, where several were gathered.
        bundles: Option<u64>,
    },
    /// It was sent, and the session was given up.
    Failed {
        /// How many bundles it was, where several were gathered.
        bundles: Option<u64>,
        /// Why, as the cancel says it.
        reason: u8,
    },
    /// It was sent, and the peer cancelled the session.
    Cancelled {
        /// How many bundles it was, where several were gathered.
        bundles: Option<u64>,
        /// Why, as the cancel says it.
        reason: u8,
    },
}
