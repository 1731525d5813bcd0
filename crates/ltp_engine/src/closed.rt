//! The numbers of sessions that are over.

ghost use Rattle.std.specs.Prelude.{◌==◌, ◌||◌, ◌≡◌, ◌+◌, ◌<◌, ◌^◌, ◌++◌, false, IfOk, OnOk, OnErr};
ghost use Rattle.ltp_engine.specs.Closed.{is_among, none_closed, also_closed, begins_run};
ghost use Rattle.ltp_engine.specs.Closed.{runs_with, with_place};
ghost use Rattle.ltp_engine.specs.Elsewhere.{numbers_in, last_number, closed_numbers};

use spans::{Run, Spans};
use std::alloc::{AllocError, Global};
use std::marker::Model;

/// The last number that a session may have.
pub(crate) const LAST: u64 = u64::MAX;

/// Which numbers of sessions are closed, as ranges.
#[derive(Debug, Drop)]
pub(crate) struct Closed {
    /// Those below the last one.
    places: Spans,
    /// Whether the last one is.
    last: bool,
    /// How many runs of consecutive numbers there are.
    runs: u64,
}

impl Model for Closed {
    ghost use Rattle.std.specs.Prelude.{◌==◌, ◌||◌, ◌≡◌, length};
    ghost use Rattle.ltp_engine.specs.Closed.{ClosedValue};
    ghost use Rattle.ltp_engine.specs.declared.closed.TheConstants.{LAST};

    ghost Value = { ClosedValue };

    ghost view = { λ c. record { places = c.places; last = c.last; runs = c.runs } };

    ghost invariant = { λ c. length c.places ≡ LAST };
}

impl Closed {
    /// No number is closed. It takes no memory.
    pub fn new(alloc: Global) -> Closed
        ensures { result ≡ none_closed }
    {
        Closed {
            places: Spans::new(alloc, LAST),
            last: false,
            runs: 0,
        }
    }

    /// The closed numbers below the last one.
    pub fn places(&self) -> &Spans
        ensures { result.now ≡ self.now.places }
    {
        &self.places
    }

    /// How many runs there are.
    pub fn runs(&self) -> u64
        ensures { result ≡ self.now.runs }
    {
        self.runs
    }

    /// Whether a number is closed.
    pub fn has(&self, n: u64) -> bool
        ensures { result ≡ is_among self.now n }
    {
        if n == LAST {
            self.last
        } else {
            self.places.covers(n, n + 1)
        }
    }

    /// Whether the number after this one is closed.
    fn has_next(&self, n: u64) -> bool
        ensures { result ≡ is_among self.now (n + 1) }
    {
        let _ = &self.places;
        if n == LAST {
            return false;
        }
        self.has(n + 1)
    }

    /// Whether a run begins with a number, once that is closed.
    fn begins_run(&self, n: u64) -> bool
        ensures { result ≡ begins_run self.now n }
    {
        n == 0 || !self.has(n - 1)
    }

    /// How many runs there are once a number is closed.
    fn runs_with(&self, n: u64) -> u64
        requires { self.now.runs < 2 ^ 32 }
        ensures { result ≡ runs_with self.now n }
    {
        let begun = self.runs + u64::from(self.begins_run(n));
        begun.saturating_sub(u64::from(self.has_next(n)))
    }

    /// Whether the last number is closed once a number is.
    fn ends_with(&self, n: u64) -> bool
        ensures { result ≡ (self.now.last || (n == LAST)) }
    {
        self.last || n == LAST
    }

    /// The places with a number, where it isn't the last one.
    fn cover(&mut self, n: u64) -> Result<(), AllocError>
        ensures ok { OnOk result (self.new ≡ with_place n self.old) }
        ensures err { OnErr result (self.new ≡ self.old) }
    {
        if n != LAST {
            self.places.cover(n, n + 1)?;
        }
        Ok(())
    }

    /// Closes a number. Memory may be wanted where a run is added.
    #[tactic(auto, unfolding(crate::specs::Closed::also_closed))]
    pub fn close(&mut self, n: u64) -> Result<(), AllocError>
        requires { self.old.runs < 2 ^ 32 }
        ensures ok { OnOk result (self.new ≡ also_closed n self.old) }
        ensures err { OnErr result (self.new ≡ self.old) }
    {
        let runs = self.runs_with(n);
        let last = self.ends_with(n);
        self.cover(n)?;
        self.last = last;
        self.runs = runs;
        Ok(())
    }

    /// The closed numbers, in ascending order.
    #[tactic(auto, unfolding(crate::specs::Elsewhere::closed_numbers))]
    pub fn numbers(&self, alloc: Global) -> Result<Vec<u64>, AllocError>
        ensures { IfOk result (λ numbers. numbers.items ≡ closed_numbers self.now) }
    {
        let mut numbers = Vec::new(alloc);
        'runs: for run in self.places.runs() {
            add_run(&mut numbers, run)?;
        }
        add_last(&mut numbers, self.last)?;
        Ok(numbers)
    }
}

/// Adds the numbers of a run.
fn add_run(numbers: &mut Vec<u64>, run: Run) -> Result<(), AllocError>
    ensures { OnOk result (numbers.new.items ≡ numbers.old.items ++ numbers_in run) }
{
    let mut n = run.from;
    'adding: while n < run.to {
        numbers.push(n)?;
        n += 1;
    }
    Ok(())
}

/// Adds the last number that a session may have, where it is closed.
fn add_last(numbers: &mut Vec<u64>, last: bool) -> Result<(), AllocError>
    ensures { OnOk result (numbers.new.items ≡ numbers.old.items ++ last_number last) }
{
    if last {
        numbers.push(LAST)?;
    }
    Ok(())
}
