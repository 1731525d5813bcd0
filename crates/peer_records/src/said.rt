//! What the journal says, and the records of a half. Each record is appended, and done to what is kept.

ghost use Rattle.std.specs.Prelude.{◌≡◌, ◌+◌, ◌^◌, ◌<◌, ◌≤◌, ◌∷◌, ◌++◌, [], false, length, map, IfOk, IfSome, IfNone, OnOk, OnErr};
ghost use Rattle.std.specs.List.{Contains, list_any};
ghost use Rattle.gate_records.specs.Keeping.{octets_of};
ghost use Rattle.gate_records.specs.Ties.{is_of_block};
ghost use Rattle.journal_file.specs.Keeping.{has_id, kept_with};
ghost use Rattle.journal_file.specs.Ties.{kept_of, record_of};
ghost use Rattle.journal_file.specs.Values.{a_begun, nothing_kept};
ghost use Rattle.peer_gateway.specs.Answers.{added_seen};
ghost use Rattle.peer_records.specs.Laws.{AreShort};
ghost use Rattle.peer_records.specs.Records.{begun_records};
ghost use Rattle.peer_records.specs.Said.{AreRising, IsOrdered, said_by, said_with, done_of};

use crate::ending::{Ended, say_ended, sorted_ids};
use crate::pending::{
    came_of, drop_ended, find, next_id, octets_in, octets_left, pending_of, with_octets,
};
use crate::record::StepRecord;
use journal_file::{Kept, Pending, Record};
use peer_gateway::Added;
use std::alloc::{AllocError, Global};
use std::marker::Model;

/// What the journal says, once the records are in it, and the records that are to be committed.
#[derive(Debug, Drop)]
pub(crate) struct Said {
    pub kept: Kept,
    pub records: Vec<StepRecord>,
    /// How many octets the pending blocks have.
    pub octets: u64,
}

impl Model for Said {
    ghost use Rattle.std.specs.Prelude.{◌≡◌, map};
    ghost use Rattle.gate_records.specs.Keeping.{octets_of};
    ghost use Rattle.journal_file.specs.Ties.{kept_of};
    ghost use Rattle.peer_records.specs.Said.{SaidValue, said_by};

    ghost Value = { SaidValue };

    ghost view = { λ s. record { kept = kept_of s.kept; records = map said_by s.records.items } };

    ghost invariant = { λ s. s.octets ≡ octets_of s.kept.pending.items };
}

impl Said {
    /// Nothing is kept. It takes no memory.
    pub fn none(alloc: Global) -> Said
        ensures { result ≡ record { kept = nothing_kept; records = [] } }
    {
        Said {
            kept: Kept::new(alloc),
            records: Vec::new(alloc),
            octets: 0,
        }
    }

    /// This is kept. It takes no memory.
    pub fn new(alloc: Global, kept: Kept) -> Result<Said, AllocError>
        ensures ok { IfOk result (λ s. s ≡ record { kept = kept_of kept; records = [] }) }
        ensures wanted { OnErr result (2 ^ 64 ≤ octets_of (kept_of kept).pending) }
    {
        let octets = octets_in(kept.pending.as_slice())?;
        Ok(Said {
            kept,
            records: Vec::new(alloc),
            octets,
        })
    }

    // ---- pieces that end

    /// `done` for each of these pieces. It walks through the pending ones once. Memory is wanted only where there
    /// are some.
    pub fn end_all(&mut self, alloc: Global, ended: &[Ended]) -> Result<(), AllocError>
        requires { IsOrdered (self.old).kept }
        ensures ok { OnOk result (self.new ≡ said_with (map done_of ended.now) self.old) }
        ensures wanted { OnErr result (ended.now ≡ [] → ⊥) }
    {
        if ended.is_empty() {
            return Ok(());
        }
        let ids = sorted_ids(alloc, ended)?;
        say_ended(&mut self.records, ended)?;
        drop_ended(&mut self.kept.pending, ids.as_slice());
        self.octets = octets_left(self.kept.pending.as_slice(), self.octets);
        Ok(())
    }

    // ---- pieces that are added

    /// `begun` for each piece that is added, under the next id.
    pub fn begin_all(&mut self, alloc: Global, added: &[Added]) -> Result<(), AllocError>
        ensures ok { OnOk result (self.new ≡ said_with
            (begun_records ((self.old).kept).greatest (map added_seen added.now)) self.old) }
        ensures short { OnOk result (AreShort (map added_seen added.now)) }
        ensures wanted { OnErr result (added.now ≡ [] → ⊥) }
    {
        'added: for one in added {
            self.add(alloc, one)?;
        }
        Ok(())
    }

    /// A report of the gateway has no record.
    fn add(&mut self, alloc: Global, added: &Added) -> Result<(), AllocError>
        ensures ok { OnOk result (self.new ≡ said_with
            (begun_records ((self.old).kept).greatest (added_seen added.now ∷ [])) self.old) }
        ensures short { AreShort (added_seen added.now ∷ []) }
    {
        let octets = added.piece.octets.len();
        let _ = came_of(added);
        if added.is_report {
            return Ok(());
        }
        self.begin(alloc, added, octets)
    }

    /// A piece, which has so many octets, is begun under the next id.
    fn begin(&mut self, alloc: Global, added: &Added, octets: usize) -> Result<(), AllocError>
        requires piece { (added.now).is_report ≡ false }
        requires octets { octets ≡ length ((added.now).piece).octets }
        ensures { OnOk result (self.new ≡ said_with
            (begun_records ((self.old).kept).greatest (added_seen added.now ∷ [])) self.old) }
    {
        let id = next_id(self.kept.greatest)?;
        let all = with_octets(self.octets, octets)?;
        let pending = pending_of(alloc, id, added)?;
        let recorded = pending_of(alloc, id, added)?;
        self.put(pending, recorded, all)
    }

    /// A piece is pending, and has its record. So many octets have all pending ones with it.
    #[tactic(auto, unfolding(journal_file::specs::Keeping::kept_with))]
    fn put(&mut self, pending: Pending, recorded: Pending, octets: u64) -> Result<(), AllocError>
        requires same { recorded ≡ pending }
        requires octets { octets ≡ octets_of ((self.old).kept).pending + length pending.block }
        ensures { OnOk result (self.new ≡ said_with (a_begun pending ∷ []) self.old) }
    {
        let id = pending.id;
        self.records.push(StepRecord::Begun(recorded))?;
        self.kept.pending.push(pending)?;
        self.kept.greatest = id;
        self.octets = octets;
        Ok(())
    }

    /// The pending piece of an id, if there is one and ids rise. It walks through few of them.
    pub fn find(&self, id: u64) -> Option<&Pending>
        ensures found { IfSome result (λ p. Contains ((self.now).kept).pending p.now) }
        ensures id { IfSome result (λ p. (p.now).id ≡ id) }
        ensures none { IfNone result (AreRising 0 ((self.now).kept).pending
            → list_any (has_id id) ((self.now).kept).pending ≡ false) }
    {
        find(self.kept.pending.as_slice(), id)
    }

    // ---- records of no piece

    /// A record that is of no piece is appended, and done to what is kept.
    pub fn append(&mut self, alloc: Global, said: StepRecord) -> Result<(), AllocError>
        requires { is_of_block (said_by said) ≡ false }
        ensures { OnOk result (self.new ≡ said_with (said_by said ∷ []) self.old) }
    {
        self.change(alloc, &said.as_record())?;
        self.records.push(said)?;
        Ok(())
    }

    /// What is kept changes by a record that is of no piece. After want of memory nothing is pending.
    fn change(&mut self, alloc: Global, said: &Record) -> Result<(), AllocError>
        requires { is_of_block (record_of said.now) ≡ false }
        ensures kept { OnOk result ((self.new).kept ≡ kept_with (self.old).kept (record_of said.now)) }
        ensures records { (self.new).records ≡ (self.old).records }
    {
        match self.kept.take(alloc, said) {
            Ok(()) => Ok(()),
            Err(AllocError) => {
                self.kept.pending.clear();
                self.octets = 0;
                Err(AllocError)
            }
        }
    }
}
