//! The covered places below a limit.

ghost use Rattle.std.specs.Prelude.{◌≡◌, ℕ, ◌+◌, ◌-◌, ◌<◌, ◌≤◌, List, [], length, IfOk, OnOk};
ghost use Rattle.std.specs.Prelude.{OnErr, IsTrue, slice_get};
ghost use Rattle.spans.specs.Places.{uncovered, with_covered, uncovered_in, all_covered, AddsRun};
ghost use Rattle.spans.specs.Places.{runs_of, runs_reaching, runs_below};
ghost use Rattle.spans.specs.Places.{MayWant};

use crate::chunk::Chunk;
use crate::range::Run;
use crate::runs::Runs;
use crate::{pieces, reading};
use std::alloc::{AllocError, Global};
use std::marker::Model;

/// Which places below a limit are covered.
#[derive(Debug, Drop)]
pub struct Spans {
    limit: u64,
    chunks: Vec<Chunk>,
    alloc: Global,
}

impl Model for Spans {
    ghost use Rattle.std.specs.Prelude.{List, Bool};

    ghost Value = { List Bool };

    ghost use Rattle.spans.specs.Chunks.{joined};
    ghost use Rattle.spans.specs.Kept.{IsKept, places_from};

    ghost view = { λ s. places_from 0 s.limit (joined s.chunks.items) };

    ghost invariant = { λ s. IsKept s.limit s.chunks.items };
}

impl Spans {
    /// The places below a limit, none of them covered. It takes no memory.
    pub fn new(alloc: Global, limit: u64) -> Spans
        ensures uncovered { result ≡ uncovered limit }
        ensures limit { length result ≡ limit }
    {
        Spans {
            limit,
            chunks: Vec::new(alloc),
            alloc,
        }
    }

    /// Covers the places from `from` to before `to`, and tells how many of them were not
    /// covered before.
    ///
    /// Only a range that has a place, and neither overlaps nor touches a covered one, may want
    /// memory: the first one, and each once there are 16. A refusal leaves all as before.
    pub fn cover(&mut self, from: u64, to: u64) -> Result<u64, AllocError>
        requires order { from ≤ to }
        requires within { to ≤ length self.old }
        ensures covered { OnOk result (self.new ≡ with_covered from to self.old) }
        ensures fresh { IfOk result (λ n. n ≡ uncovered_in from to self.old) }
        ensures refused { OnErr result (AddsRun from to self.old) }
        // Memory may be wanted for the first run, and once there are a few.
        ensures wants { OnErr result (MayWant (runs_of self.old)) }
        ensures kept { OnErr result (self.new ≡ self.old) }
        ensures limit { length self.new ≡ length self.old }
    {
        if from == to {
            return Ok(0);
        }
        pieces::cover(&mut self.chunks, self.alloc, from, to)
    }

    /// Whether all places from `from` to before `to` are covered.
    pub fn covers(&self, from: u64, to: u64) -> bool
        requires order { from ≤ to }
        requires within { to ≤ length self.now }
        ensures { result ≡ all_covered from to self.now }
    {
        from == to || reading::covers(&self.chunks, from, to)
    }

    /// Whether all places below `to` are covered.
    pub fn is_whole(&self, to: u64) -> bool
        requires { to ≤ length self.now }
        ensures { result ≡ all_covered 0 to self.now }
    {
        self.covers(0, to)
    }

    /// The maximal covered range at an index. It walks over the chunks before it;
    /// [`Spans::runs`] goes over all.
    pub fn run(&self, i: usize) -> Option<Run>
        ensures { result ≡ slice_get (runs_of self.now) i }
    {
        reading::run(&self.chunks, i)
    }

    /// How many maximal covered ranges begin below `to`.
    pub fn count(&self, to: u64) -> usize
        requires { to ≤ length self.now }
        ensures { result ≡ runs_below to self.now }
    {
        reading::count(&self.chunks, to)
    }

    /// The maximal covered ranges that end at or after a place, in order. It is found by two binary
    /// searches, so a walk over what a range meets costs no more than these.
    pub fn runs_from(&self, place: u64) -> Runs<'_>
        ensures { result ≡ runs_reaching place self.now }
    {
        reading::runs_from(&self.chunks, place)
    }

    /// The maximal covered ranges, in order.
    pub fn runs(&self) -> Runs<'_>
        ensures { result ≡ runs_of self.now }
    {
        Runs::over(&self.chunks)
    }
}
