//! A chunk: a bounded number of runs, in order.

ghost use Rattle.std.specs.Prelude.{◌≡◌, ℕ, ◌+◌, ◌^◌, ◌<◌, ◌≤◌, ◌++◌, ◌∷◌, [], length, take};
ghost use Rattle.std.specs.Prelude.{drop, slice_index_or, slice_set, IfOk, OnOk, OnErr, IsTrue};
ghost use Rattle.std.specs.Prelude.{◌↔◌, nat_lt, count_by};
ghost use Rattle.std.specs.List.{insert};
ghost use Rattle.spans.specs.Growing.{grown_over, left_after};
ghost use Rattle.spans.specs.Runs.{AreApart, EndBefore, FirstReaches, end_after, last_begin};

use crate::growth::Growth;
use crate::range::Run;
use std::alloc::{AllocError, Global};
use std::marker::Model;

/// How many runs a chunk holds at the most.
pub(crate) const MOST: usize = 128;

/// For how many runs a chunk has room from its first one on. Most have few: a session of which one
/// octet came keeps one run.
pub(crate) const FEW: usize = 16;

/// Some runs that follow one another, and room for a few at least.
#[derive(Debug, Drop)]
pub(crate) struct Chunk {
    runs: Vec<Run>,
}

impl Model for Chunk {
    ghost use Rattle.std.specs.Prelude.{List, ◌≤◌, length, vec_capacity};
    ghost use Rattle.spans.specs.declared.range.Run.{Run};
    ghost use Rattle.spans.specs.declared.chunk.TheConstants.{MOST, FEW};

    ghost Value = { List Run };

    ghost view = { λ c. c.runs.items };

    ghost invariant = { λ c. (length c.runs.items ≤ MOST) × (FEW ≤ vec_capacity c.runs) };
}

impl Chunk {
    /// A chunk of one run.
    pub fn of(alloc: Global, run: Run) -> Result<Chunk, AllocError>
        ensures { IfOk result (λ c. c ≡ run ∷ []) }
    {
        let mut runs = Vec::with_capacity(alloc, FEW)?;
        runs.push(run)?;
        Ok(Chunk { runs })
    }

    /// A chunk of the runs from `at` on, with room for as many as it may hold.
    pub fn rest(&self, alloc: Global, at: usize) -> Result<Chunk, AllocError>
        requires { at ≤ length self.now }
        ensures { IfOk result (λ c. c ≡ drop at self.now) }
    {
        let mut runs = Vec::with_capacity(alloc, MOST)?;
        runs.extend_from_slice(&self.runs[at..])?;
        Ok(Chunk { runs })
    }

    /// How many runs it holds.
    pub fn len(&self) -> usize
        ensures len { result ≡ length self.now }
        ensures most { result ≤ MOST }
    {
        self.runs.len()
    }

    /// Whether it holds as many runs as it may.
    pub fn is_full(&self) -> bool
        ensures { IsTrue result ↔ (MOST ≤ length self.now) }
    {
        self.runs.len() >= MOST
    }

    /// The run at an index.
    pub fn run(&self, at: usize) -> Run
        requires { at < length self.now }
        ensures run { result ≡ slice_index_or self.now at result }
        ensures fits { at + 1 < 2 ^ 64 }
    {
        self.runs[at]
    }

    /// Where the last run ends.
    pub fn end(&self) -> u64
        ensures { result ≡ end_after 0 self.now }
    {
        match self.runs.last() {
            Some(run) => run.to,
            None => 0,
        }
    }

    /// Where the last run begins.
    pub fn last_begin(&self) -> u64
        ensures { result ≡ last_begin 0 self.now }
    {
        match self.runs.last() {
            Some(run) => run.from,
            None => 0,
        }
    }

    /// The index of the first run that ends at or after a place.
    pub fn reaching(&self, place: u64) -> usize
        requires { AreApart 0 self.now }
        ensures within { result ≤ length self.now }
        ensures before { EndBefore place (take result self.now) }
        ensures reached { FirstReaches place (drop result self.now) }
    {
        self.runs.partition_point(|run| run.to < place)
    }

    /// How many runs begin below `to`, where no run before one that does begins later.
    pub fn beginning_before(&self, to: u64) -> usize
        requires { AreApart 0 self.now }
        ensures within { result ≤ length self.now }
        ensures count { result ≡ count_by (λ r. nat_lt r.from to) self.now }
    {
        self.runs.partition_point(|run| run.from < to)
    }

    /// Adds a run at an index. Below a few runs no memory is wanted.
    pub fn insert(&mut self, at: usize, run: Run) -> Result<(), AllocError>
        requires at { at ≤ length self.old }
        requires room { length self.old < MOST }
        ensures ok { OnOk result (self.new ≡ insert self.old at run) }
        ensures wants { OnErr result (FEW ≤ length self.old) }
        ensures err { OnErr result (self.new ≡ self.old) }
    {
        self.runs.insert(at, run)?;
        Ok(())
    }

    /// Puts another run in the place of that at an index.
    pub fn set(&mut self, at: usize, run: Run)
        requires { at < length self.old }
        ensures { self.new ≡ slice_set self.old at run }
    {
        self.runs[at] = run;
    }

    /// Keeps the runs below an index.
    pub fn truncate(&mut self, len: usize)
        ensures { self.new ≡ take len self.old }
    {
        self.runs.truncate(len);
    }

    /// How far a run before this chunk comes that grows over the runs of it which begin at or
    /// before `to`.
    pub fn swallowed(&self, to: u64, mut growth: Growth) -> Growth
        requires apart { AreApart (growth.end + 1) self.now }
        requires bound { growth.fresh ≤ growth.end }
        ensures grown { result ≡ grown_over to growth self.now }
        ensures bound { result.fresh ≤ result.end }
    {
        let _taken = growth.over(&self.runs, to);
        growth
    }

    /// Takes out those runs from `at` on over which a run before them grows.
    pub fn absorb(&mut self, at: usize, to: u64, mut growth: Growth) -> Growth
        requires at { at ≤ length self.old }
        requires apart { AreApart (growth.end + 1) (drop at self.old) }
        requires bound { growth.fresh ≤ growth.end }
        ensures left { self.new ≡ take at self.old ++ left_after to (drop at self.old) }
        ensures grown { result ≡ grown_over to growth (drop at self.old) }
        ensures bound { result.fresh ≤ result.end }
    {
        let taken = growth.over(&self.runs[at..], to);
        self.runs.drain(at..at + taken);
        growth
    }
}
