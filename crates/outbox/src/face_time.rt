//! The time of a face.

ghost use Rattle.std.specs.Prelude.{◌≡◌, ◌<◌, ◌^◌, None, Some};
ghost use Rattle.outbox.specs.FaceTime.{face_at, moment_at, gone_on, last_moment};

use crate::outbox::Outbox;
use crate::reading::Reading;
use std::marker::Model;

/// The last moment that a clock shows.
const LAST_MOMENT: u64 = (1 << 62) - 1;

/// The moment of a face, on which its timers run.
///
/// It begins at the wall clock's. It stands still while the face's link is closed, and while
/// datagrams wait in its outbox; else it goes on with the monotonic clock, however the wall clock
/// is set. A contract sees it as the moment and the reading at which it was told, or as none before
/// the first one.
#[derive(Debug, Drop)]
pub struct FaceTime {
    told: Option<Told>,
}

/// A moment, and the reading at which it was told.
#[derive(Clone, Copy, Debug)]
struct Told {
    moment: u64,
    reading: Reading,
}

impl Model for FaceTime {
    ghost use Rattle.std.specs.Prelude.{Option};
    ghost use Rattle.outbox.specs.FaceTime.{FaceMoment};
    ghost use Rattle.outbox.specs.Kept.{IsClockMoment, told_of};

    ghost Value = { Option FaceMoment };

    ghost view = { λ t. told_of t.told };

    ghost invariant = { λ t. IsClockMoment (told_of t.told) };
}

impl FaceTime {
    /// The time of a face before the first reading.
    pub fn new() -> FaceTime
        ensures { result ≡ None }
    {
        FaceTime { told: None }
    }

    /// The face's moment at a reading of the clocks, below 2^62. It is asked at each reading,
    /// before anything more is put into the outbox or taken out of it. It takes no memory.
    pub fn read(&mut self, outbox: &Outbox, reading: Reading) -> u64
        requires { reading.wall < 2 ^ 62 }
        ensures moment { result ≡ moment_at outbox.now self.old reading }
        ensures after { self.new ≡ Some (face_at outbox.now self.old reading) }
        ensures small { result < 2 ^ 62 }
    {
        let moment = match self.told {
            Some(told) => gone_on(told.moment, outbox.growth(told.reading, reading)),
            None => reading.wall,
        };
        self.told = Some(Told { moment, reading });
        moment
    }
}

/// A moment that goes on by so much, but not past the last one.
fn gone_on(moment: u64, time: u64) -> u64
    requires { moment < 2 ^ 62 }
    ensures gone { result ≡ gone_on moment time }
    ensures small { result < 2 ^ 62 }
{
    moment + time.min(LAST_MOMENT - moment)
}
