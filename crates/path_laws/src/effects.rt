//! What a path does in answer to an event.

ghost use Rattle.std.specs.Prelude.{◌≡◌};
ghost use Rattle.path_laws.specs.Words.{join_word};

use crate::places::Place;
use endpoint::{Listed, Octets};
use gateway_core::GateNote;

/// A datagram that was sent. It has a number, by which it can be delivered.
#[derive(Debug, Drop)]
pub struct SentAt {
    /// Its number among all that were sent, from 0.
    pub k: usize,
    /// The place that sent it.
    pub from: Place,
    /// The place at the other end of the link.
    pub to: Place,
    /// Its octets.
    pub datagram: Octets,
}

/// Datagrams that were sent, in their order.
pub type SentList = Listed<SentAt>;

/// A block that came whole.
#[derive(Debug, Drop)]
pub struct UpAt {
    /// The place at which it came.
    pub place: Place,
    /// The session's number.
    pub session: u64,
    /// The block.
    pub body: Octets,
}

/// Blocks that came whole, in their order.
pub type PlaceUps = Listed<UpAt>;

/// What an end's joiner answered to a fragment that came there.
#[derive(Debug, Drop)]
pub enum EndJoin {
    /// Octets of the whole are still missing.
    Waiting,
    /// So they are, and for each place of the fragment an octet had come before.
    Repeat,
    /// Each octet of the whole is there.
    Whole {
        /// The bundle that is the whole, in the end's version.
        body: Octets,
    },
    /// The whole has more octets than are joined.
    TooLarge,
    /// A fragment with its name came, of a whole with another number of octets.
    TotalDiffers,
    /// Fragments of as many names are kept as can be, and its name is another.
    Full,
}

impl EndJoin {
    /// The answer's name.
    pub fn word(&self) -> &'static str
        ensures { result.now ≡ join_word self.now }
    {
        match self {
            EndJoin::Waiting => "Waiting",
            EndJoin::Repeat => "Repeat",
            EndJoin::Whole { .. } => "Whole",
            EndJoin::TooLarge => "TooLarge",
            EndJoin::TotalDiffers => "TotalDiffers",
            EndJoin::Full => "Full",
        }
    }
}

/// An answer of an end's joiner.
#[derive(Debug, Drop)]
pub struct JoinAt {
    /// The node of the end.
    pub place: Place,
    /// The answer.
    pub answer: EndJoin,
}

/// Answers of joiners, in their order.
pub type PlaceJoins = Listed<JoinAt>;

/// A note, and the place that it is about.
#[derive(Clone, Copy, Debug, PartialEq, Eq)]
pub struct NoteAt {
    /// The place.
    pub place: Place,
    /// The note.
    pub note: GateNote,
}

/// Notes, in their order.
pub type PlaceNotes = Listed<NoteAt>;

/// What a path does in answer to an event.
#[derive(Debug, Drop)]
pub struct PathEffects {
    /// The datagrams that were sent.
    pub sent: SentList,
    /// The blocks that came whole.
    pub ups: PlaceUps,
    /// What the joiners of the ends answered.
    pub joins: PlaceJoins,
    /// What is to be noted.
    pub notes: PlaceNotes,
}
