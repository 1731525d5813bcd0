//! An outside with a journal on a store.

ghost use Rattle.std.specs.Prelude.{◌≡◌, [], None, false, map, IfOk, IfSome, OnOk};
ghost use Rattle.store_traits.specs.Disk.{LeavesOnly};
ghost use Rattle.journal_file.specs.Keeping.{kept_after};
ghost use Rattle.journal_file.specs.Spelling.{MayFollow};
ghost use Rattle.journal_file.specs.Legal.{IsLegal};
ghost use Rattle.journal_file.specs.Length.{entries_length, gate_of};
ghost use Rattle.journal_file.specs.Ties.{kept_of, record_of};
ghost use Rattle.gate_edges.specs.Made.{Commits, Installs, Stored};
ghost use Rattle.gate_journaled.specs.Says.{Says, Tells, MayMakeAll, kept_by, BelowEither};

use crate::keeping::{commit, counted, install, is_apart};
use edge_traits::Failed;
use gate_cases::Face;
use gate_edges::Outside;
use gate_journal::Journal;
use journal_file::{Kept, Record};
use outbox::Reading;
use std::alloc::Global;
use store_traits::{Store, StoreFault};

/// An outside whose journal is on a store, and which keeps what is committed among what it made.
#[derive(Drop)]
pub struct Journaled<O: Outside + Drop, S: Store + Drop> {
    alloc: Global,
    /// The outside without a journal.
    pub outside: O,
    /// The journal.
    pub journal: Journal<S>,
    /// A call on the journal wasn't done to its end: the disk may be one call ahead of what was made, or
    /// not. A run ends with such a call.
    pub apart: bool,
    /// How many calls on the journal failed.
    faults: u64,
    ghost says: { ∥ (Tells S.seen → apart ≡ false
        → Says (O.made outside) (S.seen journal.store) (S.may_leave journal.store) journal.gate) ∥₁ },
}

impl<O: Outside + Drop, S: Store + Drop> Journaled<O, S> {
    /// The outside with this journal, of which nothing is known until it is made anew. Nothing was made
    /// yet.
    pub fn new(alloc: Global, outside: O, journal: Journal<S>) -> Journaled<O, S>
        requires { IfSome (O.made outside) (λ acts. acts ≡ []) }
        ensures ahead { ⟦<Journaled<O, S> as Outside>⟧.ahead result ≡ O.ahead outside }
        ensures made { ⟦<Journaled<O, S> as Outside>⟧.made result ≡ O.made outside }
        ensures writes { ⟦<Journaled<O, S> as Outside>⟧.writes result ≡ O.writes outside }
        ensures stores { ⟦<Journaled<O, S> as Outside>⟧.stores result ≡ record { faults = 0; failing = None } }
        ensures parts { (result.outside ≡ outside) × (result.journal ≡ journal) × (result.apart ≡ false) }
    {
        Journaled {
            alloc,
            outside,
            journal,
            apart: false,
            faults: 0,
        }
    }

    /// Between any two calls, and so when a datagram is sent, each file that a crash may leave says what is
    /// kept by what was made, unless a call on the journal wasn't done to its end.
    pub fn says_what_was_made(&self)
        ensures { ∥ (Tells S.seen → self.now.apart ≡ false
            → Says (O.made self.now.outside) (S.seen self.now.journal.store) (S.may_leave self.now.journal.store) self.now.journal.gate) ∥₁ }
    {}
}

impl<O: Outside + Drop, S: Store + Drop> Outside for Journaled<O, S> {
    ghost ahead = { λ j. O.ahead j.outside };

    ghost made = { λ j. O.made j.outside };

    ghost writes = { λ j. O.writes j.outside };

    ghost stores = { λ j. record { faults = j.faults; failing = None } };

    fn read(&mut self) -> Reading {
        self.outside.read()
    }

    fn poll(&mut self, face: Face, buf: &mut [u8]) -> Result<Option<usize>, Failed> {
        self.outside.poll(face, buf)
    }

    fn take_foreign(&mut self, face: Face) -> u64 {
        self.outside.take_foreign(face)
    }

    fn send(&mut self, face: Face, datagram: &[u8]) -> Result<(), Failed> {
        self.outside.send(face, datagram)
    }

    fn write(&mut self, text: &[u8]) -> Result<(), Failed> {
        self.outside.write(text)
    }

    fn show(&mut self, text: &[u8]) -> Result<(), Failed> {
        self.outside.show(text)
    }

    /// Commits to the journal, and then the outside keeps that.
    fn commit(&mut self, records: &[Record]) -> Result<usize, StoreFault>
        ensures length { IfOk result (λ n. n ≡ entries_length (map record_of records.now)) }
        ensures ahead { O.ahead self.new.outside ≡ O.ahead self.old.outside }
        ensures made { Commits (O.made self.old.outside) (O.made self.new.outside) result (map record_of records.now) }
        ensures writes { O.writes self.new.outside ≡ O.writes self.old.outside }
        ensures stores { Stored result (record { faults = self.old.faults; failing = None }) (record { faults = self.new.faults; failing = None }) }
        ensures apart { OnOk result (self.new.apart ≡ self.old.apart) }
        // At any moment of the call it says what was kept before, or what is kept with them.
        ensures any_moment { ∥ (Tells S.seen → self.old.apart ≡ false
            → IfSome (O.made self.old.outside) (λ acts. MayMakeAll None acts
            → IfSome (kept_by None acts) (λ kept. MayFollow kept (map record_of records.now)
            → LeavesOnly S.moment S.left_since self.old.journal.store self.new.journal.store
            (BelowEither kept (kept_after kept (map record_of records.now)))))) ∥₁ }
    {
        let answer = commit(self.alloc, &mut self.journal, &mut self.outside, records);
        self.apart = is_apart(self.apart, &answer);
        self.faults = counted(self.faults, &answer);
        answer
    }

    /// Makes the journal anew, and then the outside keeps that.
    fn install(&mut self, kept: &Kept) -> Result<usize, StoreFault>
        ensures place { IfOk result (λ n. n ≡ gate_of (kept_of kept.now)) }
        ensures ahead { O.ahead self.new.outside ≡ O.ahead self.old.outside }
        ensures made { Installs (O.made self.old.outside) (O.made self.new.outside) result (kept_of kept.now) }
        ensures writes { O.writes self.new.outside ≡ O.writes self.old.outside }
        ensures stores { Stored result (record { faults = self.old.faults; failing = None }) (record { faults = self.new.faults; failing = None }) }
        ensures apart { OnOk result (self.new.apart ≡ self.old.apart) }
        // At any moment of the call it says what was kept before, or what is kept.
        ensures any_moment { ∥ (Tells S.seen → self.old.apart ≡ false
            → IfSome (O.made self.old.outside) (λ acts. MayMakeAll None acts
            → IfSome (kept_by None acts) (λ before. IsLegal (kept_of kept.now)
            → LeavesOnly S.moment S.left_since self.old.journal.store self.new.journal.store
            (BelowEither before (kept_of kept.now))))) ∥₁ }
    {
        let answer = install(self.alloc, &mut self.journal, &mut self.outside, kept);
        self.apart = is_apart(self.apart, &answer);
        self.faults = counted(self.faults, &answer);
        answer
    }
}
