//! The claimed ranges of a red part, met in order.

ghost use Rattle.std.specs.Prelude.{◌≡◌, ℕ, ◌<◌, drop, length, IsTrue, ◌↔◌};
ghost use Rattle.spans.specs.Places.{runs_of};
ghost use Rattle.spans.specs.Runs.{AreApart, HasAll};
ghost use Rattle.ltp_sender.specs.Ranges.{ends_before, reaching, first_has, Forgets};

use spans::{Run, Runs, Spans};
use std::marker::Model;

/// The claimed ranges that are still to be met.
#[derive(Debug, Drop)]
pub(crate) struct Ranges<'a> {
    here: Option<Run>,
    later: Runs<'a>,
}

impl<'a> Model for Ranges<'a> {
    ghost use Rattle.std.specs.Prelude.{List};
    ghost use Rattle.spans.specs.declared.range.Run.{Run};
    ghost use Rattle.spans.specs.Runs.{AreApart};
    ghost use Rattle.ltp_sender.specs.Ranges.{from_here};

    ghost Value = { List Run };

    ghost view = { λ r. from_here r.here r.later };

    ghost invariant = { λ r. AreApart 0 (from_here r.here r.later) };
}

impl<'a> Ranges<'a> {
    /// All claimed ranges.
    pub(crate) fn of(claimed: &'a Spans) -> Ranges<'a>
        ensures { result ≡ runs_of claimed.now }
    {
        let mut later = claimed.runs();
        let here = later.next();
        Ranges { here, later }
    }

    /// Whether the first range ends before a place.
    fn end_before(&self, place: u64) -> bool
        ensures { result ≡ ends_before place self.now }
    {
        match self.here {
            Some(run) => run.to < place,
            None => false,
        }
    }

    /// Goes on to the next range.
    fn advance(&mut self)
        requires { 0 < length self.old }
        ensures { self.new ≡ drop 1 self.old }
    {
        self.here = self.later.next();
    }

    /// Goes on to the first range that doesn't end before a place.
    fn reach(&mut self, place: u64)
        ensures { self.new ≡ reaching place self.old }
    {
        'passing: while self.end_before(place) {
            self.advance();
        }
    }

    /// Whether the first range has all places from `from` to before `to`.
    fn first_has(&self, from: u64, to: u64) -> bool
        ensures apart { AreApart 0 self.now }
        ensures has { result ≡ first_has from to self.now }
    {
        match self.here {
            Some(run) => run.from <= from && to <= run.to,
            None => false,
        }
    }

    /// Whether the ranges have all places from `from` to before `to`. Ranges that end before
    /// `from` are passed over for good.
    pub(crate) fn have(&mut self, from: u64, to: u64) -> bool
        requires { from < to }
        ensures rest { Forgets from self.old self.new }
        ensures has { IsTrue result ↔ HasAll from to self.old }
    {
        self.reach(from);
        self.first_has(from, to)
    }
}
