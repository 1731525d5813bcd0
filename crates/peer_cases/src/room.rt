//! The room of a face, and reports that there is no room for.

ghost use Rattle.std.specs.Prelude.{◌≡◌};
ghost use Rattle.face_room.specs.Bounds.{AreBounds};

use face_room::{Bounds, Load, has_room};
use gate_cases::NUMBERS;

/// The least that a clock shows which was set: a second. A version 6 report's sequence number is made of
/// the milliseconds after a second.
const CLOCK_MIN: u64 = 1_000;

/// What a face may keep, and what it has to send.
#[derive(Clone, Copy, Debug, PartialEq, Eq)]
pub struct FaceRoom {
    /// What it may keep.
    pub bounds: Bounds,
    /// What it has to send.
    pub load: Load,
}

ghost use Rattle.peer_cases.specs.Cases.{is_unreported};

/// Whether a report that is asked for isn't made. `room` is that of the face at which the bundle came, and
/// `size` is how many octets the report's bundle has. Nor is one made where the clock shows less than a
/// second, or where the counter of the reports is spent. It takes no memory.
pub fn is_unreported(room: FaceRoom, size: u64, now: u64, counter: u64) -> bool
    requires { AreBounds room.bounds }
    ensures { result ≡ is_unreported room size now counter }
{
    !has_room(room.bounds, room.load, &[size]) || now < CLOCK_MIN || NUMBERS <= counter
}
