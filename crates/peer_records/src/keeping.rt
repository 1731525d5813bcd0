//! What a gateway knows of its journal while it runs.

ghost use Rattle.std.specs.Prelude.{◌≡◌, ◌==◌, ◌∷◌, [], not, map, IfOk, IfSome, IfNone, OnOk, OnErr, length, drop};
ghost use Rattle.journal_file.specs.Ties.{kept_of, record_of};
ghost use Rattle.gate_records.specs.Keeping.{octets_of};
ghost use Rattle.peer_records.specs.Keeping.{starts_peer_keeping, to_add_at};

use crate::held::Held;
use crate::pending::rises;
use crate::record::lent;
use crate::recording::record;
use crate::said::Said;
use crate::step::StepDone;
use crate::to_add::ToAdd;
use gate_cases::Face;
use gate_records::GateSessions;
use journal_file::{Kept, Pending, Record};
use std::alloc::{AllocError, Global};
use std::marker::Model;

/// What a gateway among other implementations knows of its journal while it runs, and the records that are to
/// be committed.
///
/// A contract sees what is known, once the records are in the journal, and the records. After want of
/// memory the value may only be dropped.
#[derive(Debug, Drop)]
pub struct Keeping {
    said: Said,
    held: Held,
    to_add: ToAdd,
}

impl Model for Keeping {
    ghost use Rattle.peer_records.specs.Halves.{PeerRecorded};
    ghost use Rattle.peer_records.specs.Said.{IsTied, shown};

    ghost Value = { PeerRecorded };

    ghost view = { λ k. shown k.said k.held };

    ghost invariant = { λ k. IsTied k.said k.held k.to_add };
}

impl Keeping {
    ghost use Rattle.peer_records.specs.Halves.{starts_half, recording, ends_half};
    ghost use Rattle.gate_records.specs.Records.{reserved_records};
    ghost use Rattle.peer_records.specs.Laws.{IsToAdd, DoesNothing, Fits};
    ghost use Rattle.peer_records.specs.Said.{happened_by};

    /// What is known before the first half, where this is kept from an earlier run
    /// ([`gate_records::recovered`] says what is). Memory is wanted only where pieces are pending. It is
    /// refused too where their ids don't rise up to the greatest, which no journal's do, and where they have
    /// 2^64 octets or more.
    pub fn new(alloc: Global, kept: Kept) -> Result<Keeping, AllocError>
        ensures ok { IfOk result (λ k. k ≡ starts_half (starts_peer_keeping (kept_of kept))) }
        ensures wanted { OnErr result ((kept_of kept).pending ≡ [] → ⊥) }
    {
        if !rises(kept.greatest, kept.pending.as_slice()) {
            return Err(AllocError);
        }
        let to_add = ToAdd::all(alloc, kept.pending.as_slice())?;
        let said = Said::new(alloc, kept)?;
        let held = Held::new(alloc);
        Ok(Keeping { said, held, to_add })
    }

    // ---- a half

    /// A step of the gate was done, and `gate` says which sessions are kept after it: its records are
    /// appended, and done to what is kept. It fails for want of memory, or where pieces were added and there
    /// are not as many ids below 2^64 left. Memory is wanted only where a piece was added, a block began, or
    /// there is a record.
    ///
    /// A step that added and ended nothing, and sends no report, walks through its own datagrams and what it
    /// tells alone.
    pub fn step<G: GateSessions>(
        &mut self,
        alloc: Global,
        step: &StepDone<'_>,
        gate: &G,
    ) -> Result<(), AllocError>
        ensures ok { OnOk result (self.new ≡ recording
            (happened_by step.now (G.opened gate.now) (G.handed_up gate.now)) self.old) }
        // So its records may follow those before, where a piece that it was to add again was still to be.
        ensures fits { OnOk result (IfSome (step.now).again (IsToAdd (self.old).keeping) → Fits
            (happened_by step.now (G.opened gate.now) (G.handed_up gate.now)) (self.old).keeping) }
        ensures wanted { OnErr result (DoesNothing
            (happened_by step.now (G.opened gate.now) (G.handed_up gate.now)) (self.old).keeping → ⊥) }
    {
        match record(alloc, &mut self.said, &mut self.held, step, gate) {
            Ok(()) => {
                self.to_add.step(step.again, step.added());
                Ok(())
            }
            Err(AllocError) => {
                self.said = Said::none(alloc);
                self.held = Held::new(alloc);
                self.to_add = ToAdd::none(alloc);
                Err(AllocError)
            }
        }
    }

    /// The half ends, with the next numbers of the two engines: numbers are reserved where these are
    /// above what is. Memory is wanted only there.
    pub fn reserve(&mut self, alloc: Global, old_next: u64, new_next: u64) -> Result<(), AllocError>
        ensures ok { OnOk result (self.new ≡ ends_half old_next new_next self.old) }
        ensures wanted { OnErr result
            (reserved_records old_next new_next ((self.old).keeping).kept ≡ [] → ⊥) }
    {
        match self.said.reserve_all(alloc, old_next, new_next) {
            Ok(()) => Ok(()),
            Err(AllocError) => {
                self.said = Said::none(alloc);
                self.held = Held::new(alloc);
                self.to_add = ToAdd::none(alloc);
                Err(AllocError)
            }
        }
    }

    /// Whether there are records that are to be committed. It takes no memory.
    pub fn has_records(&self) -> bool
        ensures { result ≡ not (length (self.now).records == 0) }
    {
        !self.said.records.is_empty()
    }

    /// The records that are to be committed, with their blocks lent. Memory is wanted only where there
    /// are some.
    pub fn records(&self, alloc: Global) -> Result<Vec<Record<'_>>, AllocError>
        ensures ok { IfOk result (λ records. map record_of records.items ≡ (self.now).records) }
        ensures wanted { OnErr result ((self.now).records ≡ [] → ⊥) }
    {
        lent(alloc, self.said.records.as_slice())
    }

    /// The records were committed, and the next half begins. It takes no memory.
    pub fn clear_records(&mut self)
        ensures { self.new ≡ starts_half (self.old).keeping }
    {
        self.said.records.clear();
    }

    // ---- pieces of earlier runs

    /// The first pending piece of an earlier run that is still to be added at a face, if there is one. It
    /// takes no memory, and walks through few of them.
    pub fn next_kept(&self, face: Face) -> Option<&Pending>
        ensures found { IfSome result (λ p. to_add_at face (self.now).keeping
            ≡ p.now ∷ drop 1 (to_add_at face (self.now).keeping)) }
        ensures none { IfNone result (to_add_at face (self.now).keeping ≡ []) }
    {
        let id = self.to_add.first(face)?;
        self.said.find(id)
    }

    // ---- what is kept

    /// What is kept, to make a file anew of. It takes no memory.
    pub fn kept(&self) -> &Kept
        ensures { kept_of result.now ≡ ((self.now).keeping).kept }
    {
        &self.said.kept
    }

    /// How many pieces are pending. It takes no memory.
    pub fn pending(&self) -> usize
        ensures { result ≡ length (((self.now).keeping).kept).pending }
    {
        self.said.kept.pending.len()
    }

    /// How many octets the pending pieces have. It takes no memory, and walks through nothing.
    pub fn pending_octets(&self) -> u64
        ensures { result ≡ octets_of (((self.now).keeping).kept).pending }
    {
        self.said.octets
    }

    /// How many sessions are marked. It takes no memory.
    pub fn marks(&self) -> usize
        ensures { result ≡ length (((self.now).keeping).kept).marks }
    {
        self.said.kept.marks.len()
    }
}
