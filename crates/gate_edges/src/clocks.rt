//! A wall clock and a monotonic clock, read together.

ghost use Rattle.std.specs.Prelude.{◌≡◌, ℕ, ◌<◌, ◌≤◌, ◌^◌, List, [], Option, None, Some, drop, length, IfOk};
ghost use Rattle.std.specs.Time.{system_time_nanos};
ghost use Rattle.edge_traits.specs.Adapters.{moment_of};
ghost use Rattle.gate_edges.specs.Clocks.{ReadsBoth, ArePlausible};
ghost use Rattle.outbox.specs.declared.reading.Reading.{Reading};

use outbox::Reading;
use std::alloc::{AllocError, Global};
use std::marker::Model;
use std::time::{Clock as Timer, SystemTime, UNIX_EPOCH};

/// From 1970 to 2000, in milliseconds.
const TO_2000: u128 = 946_684_800_000;

/// The greatest moment that a wall clock shows.
const LAST: u128 = (1 << 62) - 1;

/// Two clocks that are read together: a wall clock, which may be set and then jumps either way, and a
/// monotonic one, which never falls.
pub trait Clocks {
    // The readings to come, the last of them again and again, where they are told.
    ghost readings: { Self → Option (List Reading) };

    // What the monotonic clock showed last, or a number below the first.
    ghost shown: { Self → ℕ };

    /// What both show now: the wall clock less than 2^62.
    fn read(&mut self) -> Reading
        ensures rises { shown self.old ≤ result.monotonic }
        ensures shown { shown self.new ≡ result.monotonic }
        ensures small { result.wall < 2 ^ 62 }
        ensures reading { ReadsBoth (readings self.old) (readings self.new) result };
}

/// Clocks in memory, which show a list of readings and then the last again and again.
#[derive(Drop)]
pub struct MemClocks {
    readings: Vec<Reading>,
    at: usize,
    shown: u64,
}

impl Model for MemClocks {
    ghost use Rattle.std.specs.Prelude.{◌<◌, drop, length};
    ghost use Rattle.gate_edges.specs.Clocks.{ArePlausible, MemClocksNow};

    ghost Value = { MemClocksNow };

    ghost view = { λ c. record { to_come = drop c.at c.readings.items; shown = c.shown } };

    ghost invariant = { λ c. (c.at < length c.readings.items)
        × ArePlausible c.shown (drop c.at c.readings.items) };
}

impl MemClocks {
    /// Clocks that show these readings.
    pub fn new(alloc: Global, readings: &[Reading]) -> Result<MemClocks, AllocError>
        requires some { 0 < length readings.now }
        requires plausible { ArePlausible 0 readings.now }
        ensures { IfOk result (λ c. ⟦<MemClocks as Clocks>⟧.readings c ≡ Some readings.now) }
    {
        let readings = Vec::from_slice(alloc, readings)?;
        Ok(MemClocks {
            readings,
            at: 0,
            shown: 0,
        })
    }
}

impl Clocks for MemClocks {
    ghost readings = { λ c. Some c.to_come };

    ghost shown = { λ c. c.shown };

    fn read(&mut self) -> Reading {
        let reading = self.readings[self.at];
        self.shown = reading.monotonic;
        if self.at + 1 < self.readings.len() {
            self.at += 1;
        }
        reading
    }
}

/// The system's clocks. A clock that can't be read shows its last answer again; at first that is 0.
#[derive(Drop)]
pub struct SystemClocks<T: Drop> {
    timer: T,
    wall: u64,
    shown: u64,
    ghost small: { wall < 2 ^ 62 },
}

impl<T: Timer + Drop> SystemClocks<T> {
    /// Clocks that read these.
    pub fn new(timer: T) -> SystemClocks<T>
        ensures { ⟦<SystemClocks<T> as Clocks>⟧.shown result ≡ 0 }
    {
        SystemClocks {
            timer,
            wall: 0,
            shown: 0,
        }
    }
}

impl<T: Timer + Drop> Clocks for SystemClocks<T> {
    // They aren't told.
    ghost readings = { λ _. None };

    ghost shown = { λ c. c.shown };

    fn read(&mut self) -> Reading {
        if let Ok(time) = SystemTime::now(&self.timer) {
            self.wall = moment(time);
        }
        if let Ok(time) = self.timer.monotonic() {
            let millis = time.as_millis().min(u128::from(u64::MAX)) as u64;
            self.shown = self.shown.max(millis);
        }
        Reading {
            wall: self.wall,
            monotonic: self.shown,
        }
    }
}

/// The time as a moment of a wall clock.
fn moment(time: SystemTime) -> u64
    ensures { result ≡ moment_of (system_time_nanos time) }
{
    match time.duration_since(UNIX_EPOCH) {
        Ok(since_1970) => since_1970.as_millis().saturating_sub(TO_2000).min(LAST) as u64,
        Err(_) => 0,
    }
}
