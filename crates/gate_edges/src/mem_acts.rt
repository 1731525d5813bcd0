//! What was made, kept in memory.

ghost use Rattle.std.specs.Prelude.{◌≡◌, [], ◌∷◌, ◌++◌, map, Some, IfSome};
ghost use Rattle.std.specs.List.{flat_map};
ghost use Rattle.edge_traits.specs.Content.{Gains};
ghost use Rattle.gate_edges.specs.InMemory.{made_in};
ghost use Rattle.gate_edges.specs.Made.{tried, written, shown, committed, installed};
ghost use Rattle.journal_file.specs.Ties.{kept_of, record_of};

use crate::mem_records::{MemRecord, copy_kept, copy_records};
use endpoint::Octets;
use gate_cases::Face;
use journal_file::{Kept, Record};
use std::alloc::{AllocError, Global};
use std::marker::Model;

/// What was made outside.
#[derive(Debug, Drop)]
pub enum MemAct {
    /// A datagram was sent at a face.
    Sent(Face, Octets),
    /// A datagram was lost at a face: its send failed.
    Lost(Face, Octets),
    /// A text was written to its end.
    Wrote(Octets),
    /// A text was put in the place of the one before.
    Shown(Octets),
    /// Records were committed to the journal.
    Committed(Vec<MemRecord>),
    /// The journal was made anew of what is kept.
    Installed(Kept),
}

/// The acts so far, told as long as there was memory for all of them.
#[derive(Drop)]
pub struct MemActs {
    alloc: Global,
    acts: Vec<MemAct>,
    lost: bool,
}

impl Model for MemActs {
    ghost use Rattle.std.specs.Prelude.{List, Option};
    ghost use Rattle.std.specs.List.{flat_map};
    ghost use Rattle.edge_traits.specs.InMemory.{unless_lost};
    ghost use Rattle.gate_edges.specs.InMemory.{made_in};
    ghost use Rattle.gate_edges.specs.Made.{Made};

    ghost Value = { Option (List Made) };

    ghost view = { λ a. unless_lost a.lost (flat_map made_in a.acts.items) };
}

impl MemActs {
    /// None yet. It takes no memory.
    pub fn new(alloc: Global) -> MemActs
        ensures { result ≡ Some [] }
    {
        MemActs {
            alloc,
            acts: Vec::new(alloc),
            lost: false,
        }
    }

    /// The acts that were kept.
    pub fn as_slice(&self) -> &[MemAct]
        ensures { IfSome self.now (λ made. flat_map made_in result.now ≡ made) }
    {
        self.acts.as_slice()
    }

    /// Keeps that a datagram was sent at a face, or lost.
    pub fn tried(&mut self, face: Face, lost: bool, datagram: &[u8])
        ensures { Gains self.old self.new (tried face lost datagram.now ∷ []) }
    {
        match Octets::from_slice(self.alloc, datagram) {
            Ok(octets) => self.keep(act_of(face, lost, octets)),
            Err(AllocError) => self.lost = true,
        }
    }

    /// Keeps that a text was written.
    pub fn wrote(&mut self, text: &[u8])
        ensures { Gains self.old self.new (written text.now) }
    {
        match Octets::from_slice(self.alloc, text) {
            Ok(octets) => self.keep(MemAct::Wrote(octets)),
            Err(AllocError) => self.lost = true,
        }
    }

    /// Keeps that a text was put in place.
    pub fn shown(&mut self, text: &[u8])
        ensures { Gains self.old self.new (shown text.now ∷ []) }
    {
        match Octets::from_slice(self.alloc, text) {
            Ok(octets) => self.keep(MemAct::Shown(octets)),
            Err(AllocError) => self.lost = true,
        }
    }

    /// Keeps that records were committed.
    pub fn committed(&mut self, records: &[Record])
        ensures { Gains self.old self.new (committed (map record_of records.now) ∷ []) }
    {
        match copy_records(self.alloc, records) {
            Ok(copies) => self.keep(MemAct::Committed(copies)),
            Err(AllocError) => self.lost = true,
        }
    }

    /// Keeps that the journal was made anew.
    pub fn installed(&mut self, kept: &Kept)
        ensures { Gains self.old self.new (installed (kept_of kept.now) ∷ []) }
    {
        match copy_kept(self.alloc, kept) {
            Ok(copy) => self.keep(MemAct::Installed(copy)),
            Err(AllocError) => self.lost = true,
        }
    }

    /// Keeps an act.
    fn keep(&mut self, act: MemAct)
        ensures { Gains self.old self.new (made_in act) }
    {
        if self.acts.push(act).is_err() {
            self.lost = true;
        }
    }
}

/// That a datagram was sent at a face, or lost.
fn act_of(face: Face, lost: bool, datagram: Octets) -> MemAct
    ensures { made_in result ≡ tried face lost datagram ∷ [] }
{
    if lost {
        MemAct::Lost(face, datagram)
    } else {
        MemAct::Sent(face, datagram)
    }
}
