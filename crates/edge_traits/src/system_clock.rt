//! The system's clock.
ghost use Rattle.std.specs.Prelude.{◌≡◌, ◌<◌, ◌^◌, None};
ghost use Rattle.std.specs.Time.{system_time_nanos};
ghost use Rattle.edge_traits.specs.Adapters.{moment_of};

use crate::clock::Clock;
use std::time::{Clock as Timer, SystemTime, UNIX_EPOCH};

/// From 1970 to 2000, in milliseconds.
const TO_2000: u128 = 946_684_800_000;

/// The greatest moment that a clock shows.
const LAST: u128 = (1 << 62) - 1;

/// A clock over std's system clock. Where that is set back, or can't be read, it shows its last
/// answer again; at first that is 0.
#[derive(Drop)]
pub struct SystemClock<T: Drop> {
    timer: T,
    shown: u64,
    ghost small: { shown < 2 ^ 62 },
}

impl<T: Timer + Drop> SystemClock<T> {
    /// A clock that reads this one.
    pub fn new(timer: T) -> SystemClock<T>
        ensures { ⟦<SystemClock<T> as Clock>⟧.shown result ≡ 0 }
    {
        SystemClock { timer, shown: 0 }
    }
}

impl<T: Timer + Drop> Clock for SystemClock<T> {
    // It isn't told.
    ghost readings = { λ _. None };

    ghost shown = { λ c. c.shown };

    fn now(&mut self) -> u64 {
        if let Ok(time) = SystemTime::now(&self.timer) {
            self.shown = self.shown.max(moment(time));
        }
        self.shown
    }
}

/// The time as a moment of a clock.
fn moment(time: SystemTime) -> u64
    ensures { result ≡ moment_of (system_time_nanos time) }
{
    match time.duration_since(UNIX_EPOCH) {
        Ok(since_1970) => since_1970.as_millis().saturating_sub(TO_2000).min(LAST) as u64,
        Err(_) => 0,
    }
}
