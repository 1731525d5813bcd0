//! The moments of an event.

ghost use Rattle.std.specs.Prelude.{◌≡◌};
ghost use Rattle.gateway_core.specs.Gate.{at_face};

use gate_cases::Face;

/// The moments of a face, in milliseconds.
#[derive(Clone, Copy, Debug, PartialEq, Eq)]
pub struct FaceMoments {
    /// The face's own moment, on which its timers run: it stands still while its link is closed.
    pub at: u64,
    /// Until when, by the wall clock, what goes at the face waits for its link: now, where that is open, and
    /// else its next contact.
    pub leaves: u64,
}

/// The moments of an event.
#[derive(Clone, Copy, Debug, PartialEq, Eq)]
pub struct Moments {
    /// What the wall clock shows, in milliseconds since the start of the year 2000 UTC.
    pub wall: u64,
    /// The moments of the old face.
    pub old: FaceMoments,
    /// The moments of the new face.
    pub new: FaceMoments,
}

impl Moments {
    /// The moments of a face.
    pub fn of(self, face: Face) -> FaceMoments
        ensures { result ≡ at_face (self.old, self.new) face }
    {
        match face {
            Face::Old => self.old,
            Face::New => self.new,
        }
    }
}
