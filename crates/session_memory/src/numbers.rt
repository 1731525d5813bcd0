//! Sets of session numbers.

ghost use Rattle.std.specs.Prelude.{◌≡◌, ◌+◌, ◌<◌, ◌≤◌, ◌^◌, ◌==◌, ◌||◌, length, OnOk, OnErr};
ghost use Rattle.session_memory.specs.Numbers.{has, no_numbers, places_with, with_number, runs_in};
ghost use Rattle.session_memory.specs.Counting.{begins_run, runs_with, runs_after};

use spans::Spans;
use std::alloc::{AllocError, Global};
use std::marker::Model;

/// The last number that a session may have.
pub(crate) const LAST: u64 = u64::MAX;

/// Numbers of sessions, as ranges.
#[derive(Debug, Drop)]
pub(crate) struct Numbers {
    /// Those below the last one.
    places: Spans,
    /// Whether the last one is among them.
    last: bool,
    /// How many runs of consecutive numbers they are.
    runs: u64,
}

impl Model for Numbers {
    ghost use Rattle.std.specs.Prelude.{◌≡◌, length};
    ghost use Rattle.session_memory.specs.Numbers.{NumberSet, runs_in};
    ghost use Rattle.session_memory.specs.declared.numbers.TheConstants.{LAST};

    ghost Value = { NumberSet };

    ghost view = { λ n. record { places = n.places; last = n.last } };

    ghost invariant = { λ n. (length n.places ≡ LAST) × (n.runs ≡ runs_in (record { places = n.places; last = n.last })) };
}

impl Numbers {
    /// No numbers. It takes no memory.
    pub fn new(alloc: Global) -> Numbers
        ensures { result ≡ no_numbers }
    {
        Numbers {
            places: Spans::new(alloc, LAST),
            last: false,
            runs: 0,
        }
    }

    /// Whether a number is among them.
    pub fn has(&self, n: u64) -> bool
        ensures { result ≡ has self.now n }
    {
        if n == LAST {
            self.last
        } else {
            self.places.covers(n, n + 1)
        }
    }

    /// How many runs of consecutive numbers they are.
    pub fn runs(&self) -> u64
        ensures { result ≡ runs_in self.now }
    {
        self.runs
    }

    /// Whether the number after this one is among them.
    fn has_next(&self, n: u64) -> bool
        ensures { result ≡ has self.now (n + 1) }
    {
        let _ = &self.places;
        if n == LAST {
            return false;
        }
        self.has(n + 1)
    }

    /// Whether a run begins with a number, once that is among them.
    fn begins_run(&self, n: u64) -> bool
        ensures { result ≡ begins_run self.now n }
    {
        n == 0 || !self.has(n - 1)
    }

    /// How many runs there are once a number is among them that isn't.
    fn runs_with(&self, n: u64) -> u64
        requires { runs_in self.now < 2 ^ 63 }
        ensures { result ≡ runs_with self.now n }
    {
        let begun = self.runs() + u64::from(self.begins_run(n));
        begun.saturating_sub(u64::from(self.has_next(n)))
    }

    /// How many runs there are once a number is among them.
    fn runs_after(&self, n: u64) -> u64
        requires { runs_in self.now < 2 ^ 63 }
        ensures { result ≡ runs_after self.now n }
    {
        if self.has(n) {
            self.runs()
        } else {
            self.runs_with(n)
        }
    }

    /// Whether the last number is among them once a number is.
    fn ends_with(&self, n: u64) -> bool
        ensures { result ≡ (self.now.last || (n == LAST)) }
    {
        self.last || n == LAST
    }

    /// Adds a number. Memory may be wanted where a run is added; where it is, nothing changes.
    #[tactic(auto, unfolding(crate::specs::Numbers::with_number))]
    pub fn add(&mut self, n: u64) -> Result<(), AllocError>
        requires { runs_in self.old < 2 ^ 63 }
        ensures ok { OnOk result (self.new ≡ with_number n self.old) }
        ensures err { OnErr result (self.new ≡ self.old) }
        ensures few { runs_in self.new ≤ runs_in self.old + 1 }
    {
        let runs = self.runs_after(n);
        let last = self.ends_with(n);
        cover(&mut self.places, n)?;
        self.last = last;
        self.runs = runs;
        Ok(())
    }
}

/// Covers the place of a number, where it isn't the last one.
fn cover(places: &mut Spans, n: u64) -> Result<(), AllocError>
    requires { length places.old ≡ LAST }
    ensures ok { OnOk result (places.new ≡ places_with n places.old) }
    ensures err { OnErr result (places.new ≡ places.old) }
    ensures limit { length places.new ≡ LAST }
{
    if n != LAST {
        places.cover(n, n + 1)?;
    }
    Ok(())
}
