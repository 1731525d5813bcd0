//! What is remembered of the sessions that are over.

ghost use Rattle.std.specs.Prelude.{◌≡◌, ◌+◌, ◌<◌, ◌≤◌, ◌^◌, IfSome, OnOk, OnErr, IfOk};
ghost use Rattle.session_memory.specs.Numbers.{has, runs_in};
ghost use Rattle.session_memory.specs.Memory.{nothing_remembered, is_remembered, is_due, is_full, is_old, turned, passed, with_place, forgotten, forgotten_by, closed, marked_with, touched, forgotten_at};

use crate::numbers::Numbers;
use std::alloc::{AllocError, Global};
use std::marker::Model;
use std::mem;

/// Which sessions of a peer are over, for a time.
///
/// A caller tells it of each session that is over ([`SessionMemory::close`]), and asks it whether a number
/// is one of them. Before each arrival and each tick it lets time [pass](SessionMemory::pass); before a
/// session opens it [makes a place](SessionMemory::make_place); and of each red piece of a session that is
/// over it [tells](SessionMemory::touch).
#[derive(Debug, Drop)]
pub struct SessionMemory {
    newer: Numbers,
    older: Numbers,
    marked: Numbers,
    since: u64,
    most: u64,
    keep_ms: u64,
    alloc: Global,
}

impl Model for SessionMemory {
    ghost use Rattle.std.specs.Prelude.{◌<◌, ◌≤◌, ◌^◌};
    ghost use Rattle.session_memory.specs.Numbers.{runs_in};
    ghost use Rattle.session_memory.specs.Memory.{Memory};

    ghost Value = { Memory };

    ghost view = { λ m. record {
      newer = m.newer;
      older = m.older;
      marked = m.marked;
      since = m.since;
      most = m.most;
      keep_ms = m.keep_ms;
    } };

    ghost invariant = { λ m. (runs_in m.newer ≤ m.most) × (runs_in m.older ≤ m.most) × (m.most < 2 ^ 63) };
}

impl SessionMemory {
    /// Nothing is remembered, at this moment. Either list will have at most so many runs of consecutive
    /// numbers, and a number is kept for so many milliseconds. It takes no memory.
    pub fn new(alloc: Global, most: u64, keep_ms: u64, now: u64) -> SessionMemory
        requires { most < 2 ^ 63 }
        ensures { result ≡ nothing_remembered most keep_ms now }
    {
        SessionMemory {
            newer: Numbers::new(alloc),
            older: Numbers::new(alloc),
            marked: Numbers::new(alloc),
            since: now,
            most,
            keep_ms,
            alloc,
        }
    }

    /// Whether the session with this number is over.
    pub fn has(&self, n: u64) -> bool
        ensures exact { result ≡ is_remembered self.now n }

        // Neither list has more runs than it may.
        ensures newer { runs_in self.now.newer ≤ self.now.most }
        ensures older { runs_in self.now.older ≤ self.now.most }
    {
        self.newer.has(n) || self.older.has(n) || self.marked.has(n)
    }

    /// How many runs the newer numbers have.
    pub fn runs(&self) -> u64
        ensures exact { result ≡ runs_in self.now.newer }
        ensures most { result ≤ self.now.most }
    {
        self.newer.runs()
    }

    /// Time has passed up to this moment: where the time of a list is over, the older numbers are
    /// forgotten, and the newer ones are the older.
    pub fn pass(&mut self, now: u64)
        ensures { self.new ≡ passed now self.old }
    {
        if self.is_due(now) {
            self.turn(now);
        }
    }

    /// Makes a place for another number, where so many sessions are received, each of which may add a run:
    /// where there is none, the older numbers are forgotten before their time. It answers how many runs
    /// those were, where there were any.
    pub fn make_place(&mut self, now: u64, receiving: u64) -> Option<u64>
        requires { receiving < 2 ^ 63 }
        ensures step { self.new ≡ with_place now receiving self.old }
        ensures forgotten { result ≡ forgotten_by self.old receiving }

        // There is a place then, where fewer sessions are received than a list has runs.
        ensures place { receiving < self.old.most → runs_in self.new.newer + receiving < self.new.most }
    {
        if !self.is_full(receiving) {
            return None;
        }
        let gone = self.forgotten();
        self.turn(now);
        gone
    }

    /// The session with this number is over. Memory may be wanted; where it is, nothing changes.
    pub fn close(&mut self, n: u64) -> Result<(), AllocError>
        requires { runs_in self.old.newer < self.old.most }
        ensures ok { OnOk result (self.new ≡ closed n self.old) }
        ensures err { OnErr result (self.new ≡ self.old) }
    {
        self.newer.add(n)
    }

    /// The session with this number is over, and is remembered for good. Memory may be wanted; where it is,
    /// nothing changes.
    pub fn mark(&mut self, n: u64) -> Result<(), AllocError>
        requires { runs_in self.old.marked < 2 ^ 63 }
        ensures ok { OnOk result (self.new ≡ marked_with n self.old) }
        ensures err { OnErr result (self.new ≡ self.old) }
    {
        self.marked.add(n)
    }

    /// A red piece came of the session with this number, which is over, while so many are received. A
    /// number that would be forgotten at the next turn is kept anew. It answers how many runs were
    /// forgotten for that before their time, where there were any. Memory may be wanted; then a place was
    /// made, and the number isn't kept anew.
    pub fn touch(&mut self, n: u64, now: u64, receiving: u64) -> Result<Option<u64>, AllocError>
        requires { receiving < self.old.most }
        ensures step { OnOk result (self.new ≡ touched n now receiving self.old) }
        ensures forgotten { IfOk result (λ gone. gone ≡ forgotten_at self.old n receiving) }
        ensures err { OnErr result (self.new ≡ with_place now receiving self.old) }
    {
        let _ = &self.newer;
        if !self.is_old(n) {
            return Ok(None);
        }
        let gone = self.make_place(now, receiving);
        self.close(n)?;
        Ok(gone)
    }

    /// Whether the time of the newer list is over.
    fn is_due(&self, now: u64) -> bool
        ensures { result ≡ is_due self.now now }
    {
        now.saturating_sub(self.since) >= self.keep_ms
    }

    /// Whether there is no place for another number, where so many sessions are received.
    pub fn is_full(&self, receiving: u64) -> bool
        requires { receiving < 2 ^ 63 }
        ensures { result ≡ is_full self.now receiving }
    {
        self.newer.runs() + receiving >= self.most
    }

    /// How many runs a turn forgets, where it forgets any.
    fn forgotten(&self) -> Option<u64>
        ensures { result ≡ forgotten self.now }
    {
        let runs = self.older.runs();
        if runs == 0 { None } else { Some(runs) }
    }

    /// Whether a number is among the older ones alone.
    fn is_old(&self, n: u64) -> bool
        ensures { result ≡ is_old self.now n }
    {
        self.older.has(n) && !self.newer.has(n) && !self.marked.has(n)
    }

    /// Forgets the older numbers; the newer ones are the older.
    #[tactic(auto, unfolding(crate::specs::Memory::turned))]
    fn turn(&mut self, now: u64)
        ensures { self.new ≡ turned now self.old }
    {
        let newer = mem::replace(&mut self.newer, Numbers::new(self.alloc));
        self.older = newer;
        self.since = now;
    }
}
