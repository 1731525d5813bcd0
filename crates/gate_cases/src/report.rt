//! The status report that a bundle asks for.

ghost use Rattle.std.specs.Prelude.{◌≡◌};
ghost use Rattle.gate_cases.specs.Reports.{face_of};

use crate::face::Face;
use bundle_meaning::{Id6, Id7, Part};
use endpoint::Endpoint;

/// When a bundle was made, as its own version says it.
#[derive(Clone, Copy, Debug, PartialEq, Eq)]
pub enum Creation {
    /// In seconds, of a version 6 bundle.
    Six(Id6),
    /// In milliseconds, of a version 7 bundle.
    Seven(Id7),
}

/// What was done with a bundle, as far as it asked to be told.
#[derive(Clone, Copy, Debug, PartialEq, Eq)]
pub struct Statuses {
    /// It was received.
    pub received: bool,
    /// It was forwarded.
    pub forwarded: bool,
    /// It was deleted.
    pub deleted: bool,
}

/// A status report on a bundle, its subject: all that it says but when it is made, by whom, and its
/// number. It goes back at the face at which the subject came, in that face's version.
#[derive(Debug, Drop)]
pub struct AskedReport {
    /// Whom the report is for.
    pub report_to: Endpoint,
    /// Who sent the subject.
    pub source: Endpoint,
    /// When the subject was made; it says which version the report has.
    pub creation: Creation,
    /// The part of the subject's payload, where the subject is a fragment.
    pub fragment: Option<Part>,
    /// What was done with the subject.
    pub statuses: Statuses,
    /// The reason code.
    pub reason: u8,
    /// Whether the times of the statuses are given. In version 6 they always are.
    pub timed: bool,
}

impl AskedReport {
    /// The face at which the report goes back.
    pub fn face(&self) -> Face
        ensures { result ≡ face_of self.now.creation }
    {
        match self.creation {
            Creation::Six(_) => Face::Old,
            Creation::Seven(_) => Face::New,
        }
    }
}
