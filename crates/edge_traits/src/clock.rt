//! A clock, in milliseconds since the start of the year 2000 UTC.
ghost use Rattle.std.specs.Prelude.{◌≡◌, ℕ, ◌+◌, ◌≤◌, ◌<◌, ◌^◌, List, Option, Some, drop, length, slice_index, IfOk};
ghost use Rattle.edge_traits.specs.Datagrams.{Reads, IsRising, AreBelow};

use std::alloc::{AllocError, Global};

/// A clock that never goes back.
pub trait Clock {
    // The readings to come, the last of them again and again, where they are told.
    ghost readings: { Self → Option (List ℕ) };

    // The last answer, or a number below the first.
    ghost shown: { Self → ℕ };

    /// The present moment in milliseconds since the start of the year 2000 UTC, below 2^62.
    fn now(&mut self) -> u64
        ensures rises { shown self.old ≤ result }
        ensures shown { shown self.new ≡ result }
        ensures small { result < 2 ^ 62 }
        ensures reading { Reads (readings self.old) (readings self.new) result };
}

/// A clock in memory, which shows a list of readings and then the last again and again.
#[derive(Drop)]
pub struct MemClock {
    readings: Vec<u64>,
    at: usize,
    shown: u64,
    ghost stands: { at < length readings.items },
    ghost rising: { IsRising readings.items },
    ghost small: { AreBelow (2 ^ 62) readings.items },
    ghost passed: { shown ≤ slice_index readings.items at },
}

impl MemClock {
    /// A clock that shows these readings.
    pub fn new(alloc: Global, readings: &[u64]) -> Result<MemClock, AllocError>
        requires some { 0 < length readings.now }
        requires rising { IsRising readings.now }
        requires small { AreBelow (2 ^ 62) readings.now }
        ensures { IfOk result (λ c. ⟦<MemClock as Clock>⟧.readings c ≡ Some readings.now) }
    {
        let readings = Vec::from_slice(alloc, readings)?;
        Ok(MemClock {
            readings,
            at: 0,
            shown: 0,
        })
    }
}

impl Clock for MemClock {
    ghost readings = { λ c. Some (drop c.at c.readings.items) };

    ghost shown = { λ c. c.shown };

    fn now(&mut self) -> u64 {
        let moment = self.readings[self.at];
        self.shown = moment;
        if self.at + 1 < self.readings.len() {
            self.at += 1;
        }
        moment
    }
}
