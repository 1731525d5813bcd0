//! What an operator of the gateway may want to know.

ghost use Rattle.std.specs.Prelude.{◌≡◌};
ghost use Rattle.gateway_core.specs.Notes.{gate_note_name};

use gate_cases::BadCause;
use ltp_segment::Note;
use translate::Refused;

/// What an operator of the gateway may want to know.
#[derive(Clone, Copy, Debug, PartialEq, Eq)]
pub enum GateNote {
    /// The face's engine notes this.
    Engine {
        /// Its note.
        note: Note,
    },
    /// A block isn't exactly one bundle of the face's version.
    BadBundle {
        /// The session in which it came.
        session: u64,
        /// The place of the first field that isn't there as it should be, or of the octets after the
        /// bundle.
        at: usize,
        /// What is wrong there.
        cause: BadCause,
    },
    /// A bundle isn't translated.
    Untranslated {
        /// The session in which it came.
        session: u64,
        /// Why not.
        cause: Refused,
    },
    /// A bundle has expired.
    Expired {
        /// The session in which it came.
        session: u64,
    },
    /// A bundle made as many hops as it may.
    HopLimit {
        /// The session in which it came.
        session: u64,
    },
    /// There was no room for a bundle at the other face.
    Storage {
        /// The session in which it came.
        session: u64,
    },
    /// A bundle went on.
    Passed {
        /// The session in which it came.
        session: u64,
        /// In how many pieces it went on.
        pieces: u64,
    },
    /// The report that a bundle asks for was sent.
    Reported {
        /// The session in which the bundle came.
        session: u64,
    },
    /// The report that a bundle asks for wasn't sent.
    Unreported {
        /// The session in which the bundle came.
        session: u64,
    },
}

impl GateNote {
    /// The note's name; of an engine's note that of the note itself.
    pub fn name(&self) -> &'static str
        ensures { result.now ≡ gate_note_name self.now }
    {
        match self {
            GateNote::Engine { note } => note.name(),
            GateNote::BadBundle { .. } => "BadBundle",
            GateNote::Untranslated { .. } => "Untranslated",
            GateNote::Expired { .. } => "Expired",
            GateNote::HopLimit { .. } => "HopLimit",
            GateNote::Storage { .. } => "Storage",
            GateNote::Passed { .. } => "Passed",
            GateNote::Reported { .. } => "Reported",
            GateNote::Unreported { .. } => "Unreported",
        }
    }
}
