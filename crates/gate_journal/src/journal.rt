//! The journal.

ghost use Rattle.std.specs.Prelude.{◌≡◌, ◌⊎◌, ◌+◌, ℕ, List, Some, Err, map, IfOk, IfErr, IfSome, OnOk, OnErr};
ghost use Rattle.store_traits.specs.Disk.{LeavesOnly, faults_after};
ghost use Rattle.journal_file.specs.Values.{KeptValue};
ghost use Rattle.journal_file.specs.Keeping.{kept_after};
ghost use Rattle.journal_file.specs.File.{Reads};
ghost use Rattle.journal_file.specs.Spelling.{MayFollow};
ghost use Rattle.journal_file.specs.Anew.{but_greatest, IsSound};
ghost use Rattle.journal_file.specs.Length.{entries_length, gate_of};
ghost use Rattle.journal_file.specs.Ties.{kept_of, record_of};
ghost use Rattle.gate_journal.specs.Rest.{RestsWith, BeforeOrAfter};

use crate::steps::{open, replace};
use journal_file::{Kept, Record, write_behind_gate, write_file};
use std::alloc::Global;
use store_traits::{Store, StoreFault};

/// The greatest place of a gate, beyond which a file has no room in memory.
const GATE_MAX: usize = 1 << 62;

/// A journal on a store.
#[derive(Drop)]
pub struct Journal<S: Store> {
    /// The store with its file.
    pub store: S,
    /// The place of the closed gate, behind which the next records go.
    pub gate: usize,
}

impl<S: Store> Journal<S> {
    /// Writes records behind the closed gate and opens it. At `Ok` they are on the disk. Records that are
    /// committed are such as may follow what the file says. It answers how far the gate moved on.
    pub fn commit(&mut self, alloc: Global, records: &[Record]) -> Result<usize, StoreFault>
        // All of them are done, and no crash undoes them.
        ensures done { OnOk result (IfSome (S.seen self.old.store) (λ s. (k : KeptValue)
            → RestsWith s (S.may_leave self.old.store) self.old.gate k → MayFollow k (map record_of records.now)
            → IfSome (S.seen self.new.store) (λ t.
            RestsWith t (S.may_leave self.new.store) self.new.gate (kept_after k (map record_of records.now))))) }
        // A crash at any moment of the call leaves all of them or none.
        ensures any_moment { IfSome (S.seen self.old.store) (λ s. (k : KeptValue)
            → RestsWith s (S.may_leave self.old.store) self.old.gate k → MayFollow k (map record_of records.now)
            → LeavesOnly S.moment S.left_since self.old.store self.new.store
            (BeforeOrAfter k (kept_after k (map record_of records.now)))) }
        // The gate moves on by what was written.
        ensures gate { OnOk result (self.new.gate ≡ self.old.gate + entries_length (map record_of records.now)) }
        ensures length { IfOk result (λ n. n ≡ entries_length (map record_of records.now)) }
        ensures stays { OnErr result (self.new.gate ≡ self.old.gate) }
        // Where memory runs out nothing was done.
        ensures memory { result ≡ Err StoreFault.Memory → self.new ≡ self.old }
        ensures count { S.faults self.new.store ≡ faults_after (S.faults self.old.store) result }
    {
        if records.is_empty() {
            return Ok(0);
        }
        if self.gate >= GATE_MAX {
            return Err(StoreFault::Memory);
        }
        let mut octets = Vec::new(alloc);
        write_behind_gate(alloc, records, &mut octets)?;
        open(&mut self.store, self.gate, octets.as_slice())?;
        let length = octets.len();
        self.gate += length;
        Ok(length)
    }

    /// Makes the file anew of what is kept, which can be written. At `Ok` it is in the old one's place, on
    /// the disk. It answers the place of its gate.
    pub fn install(&mut self, alloc: Global, kept: &Kept) -> Result<usize, StoreFault>
        ensures rests { OnOk result (IfSome (S.seen self.old.store) (λ s. IsSound (kept_of kept.now)
            → IfSome (S.seen self.new.store) (λ t.
            RestsWith t (S.may_leave self.new.store) self.new.gate (but_greatest (kept_of kept.now))))) }
        // A crash at any moment of the call leaves what it might have left before, or a file that says the
        // same as what is given.
        ensures any_moment { IfSome (S.seen self.old.store) (λ s. IsSound (kept_of kept.now)
            → LeavesOnly S.moment S.left_since self.old.store self.new.store
            (λ c. S.may_leave self.old.store c ⊎ Reads c (but_greatest (kept_of kept.now)))) }
        // The gate stands at the file's last octet.
        ensures gate { OnOk result (self.new.gate ≡ gate_of (kept_of kept.now)) }
        ensures place { IfOk result (λ n. n ≡ gate_of (kept_of kept.now)) }
        ensures stays { OnErr result (self.new.gate ≡ self.old.gate) }
        // Where memory runs out nothing was done.
        ensures memory { result ≡ Err StoreFault.Memory → self.new ≡ self.old }
        ensures count { S.faults self.new.store ≡ faults_after (S.faults self.old.store) result }
    {
        let mut octets = Vec::new(alloc);
        write_file(alloc, kept, &mut octets)?;
        replace(&mut self.store, octets.as_slice())?;
        let gate = octets.len() - 1;
        self.gate = gate;
        Ok(gate)
    }
}
