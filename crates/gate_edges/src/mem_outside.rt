//! An outside in memory.

ghost use Rattle.std.specs.Prelude.{◌≡◌, ◌<◌, ◌^◌, [], Some, Err, All, IfOk, IfSome};
ghost use Rattle.std.specs.List.{flat_map};
ghost use Rattle.gate_edges.specs.Ahead.{first_reading, after_reading};
ghost use Rattle.gate_edges.specs.InMemory.{made_in};
ghost use Rattle.gate_edges.specs.Made.{Stored};

use crate::failing::Failing;
use crate::lengths::{entries_length, gate_of};
use crate::mem_acts::{MemAct, MemActs};
use crate::mem_face::MemFace;
use crate::outside::Outside;
use edge_traits::Failed;
use gate_cases::Face;
use journal_file::{Kept, Record};
use outbox::Reading;
use std::alloc::{AllocError, Global};
use std::marker::Model;
use store_traits::StoreFault;

/// Readings in memory, the last of which is shown again and again.
#[derive(Drop)]
struct MemReadings {
    readings: Vec<Reading>,
    at: usize,
}

impl Model for MemReadings {
    ghost use Rattle.std.specs.Prelude.{List, ◌≤◌, ◌<◌, ◌^◌, All, drop, length};
    ghost use Rattle.outbox.specs.declared.reading.Reading.{Reading};

    ghost Value = { List Reading };

    ghost view = { λ r. drop r.at r.readings.items };

    ghost invariant = { λ r. (r.at ≤ length r.readings.items)
        × All (λ reading. reading.wall < 2 ^ 62) r.readings.items };
}

impl MemReadings {
    /// What the clocks show now.
    fn read(&mut self) -> Reading
        ensures small { result.wall < 2 ^ 62 }
        ensures reading { result ≡ first_reading self.old }
        ensures later { self.new ≡ after_reading self.old }
    {
        if self.at == self.readings.len() {
            return Reading {
                wall: 0,
                monotonic: 0,
            };
        }
        let reading = self.readings[self.at];
        if self.at + 1 < self.readings.len() {
            self.at += 1;
        }
        reading
    }
}

/// An outside in memory. It tells what comes, and what was made as long as there was memory to keep it.
#[derive(Drop)]
pub struct MemOutside {
    alloc: Global,
    readings: MemReadings,
    old: MemFace,
    new: MemFace,
    writing: Failing,
    showing: Failing,
    storing: Failing,
    /// How many writes failed.
    faults: u64,
    /// How many calls on the journal failed.
    store_faults: u64,
    acts: MemActs,
}

impl MemOutside {
    /// An outside that shows these readings, with the links of both faces. Write i fails if and only if
    /// place i of `writing` is true, a text that is shown likewise by `showing`, and a call on the journal
    /// by `storing`.
    pub fn new(
        alloc: Global,
        readings: &[Reading],
        old: MemFace,
        new: MemFace,
        writing: &[bool],
        showing: &[bool],
        storing: &[bool],
    ) -> Result<MemOutside, AllocError>
        requires { All (λ reading. reading.wall < 2 ^ 62) readings.now }
        ensures ahead { IfOk result (λ o. ⟦<MemOutside as Outside>⟧.ahead o ≡ Some record {
          readings = readings.now;
          old = old;
          new = new;
          showing = showing.now;
        }) }
        ensures made { IfOk result (λ o. ⟦<MemOutside as Outside>⟧.made o ≡ Some []) }
        ensures writes { IfOk result (λ o. ⟦<MemOutside as Outside>⟧.writes o
            ≡ record { faults = 0; failing = Some writing.now }) }
        ensures stores { IfOk result (λ o. ⟦<MemOutside as Outside>⟧.stores o
            ≡ record { faults = 0; failing = Some storing.now }) }
    {
        let readings = Vec::from_slice(alloc, readings)?;
        let writing = Failing::new(alloc, writing)?;
        let showing = Failing::new(alloc, showing)?;
        let storing = Failing::new(alloc, storing)?;
        Ok(MemOutside {
            alloc,
            readings: MemReadings { readings, at: 0 },
            old,
            new,
            writing,
            showing,
            storing,
            faults: 0,
            store_faults: 0,
            acts: MemActs::new(alloc),
        })
    }

    /// What was made, in order: all of it, where that is told.
    pub fn acts(&self) -> &[MemAct]
        ensures { IfSome (⟦<MemOutside as Outside>⟧.made self.now)
            (λ made. flat_map made_in result.now ≡ made) }
    {
        self.acts.as_slice()
    }
}

/// A call on the journal, which fails where it is to.
fn store(storing: &mut Failing, faults: &mut u64) -> Result<(), StoreFault>
    ensures stores { Stored result (record { faults = faults.old; failing = Some storing.old })
        (record { faults = faults.new; failing = Some storing.new }) }
    ensures memory { result ≡ Err StoreFault.Memory → ⊥ }
{
    if storing.fails() {
        *faults = faults.saturating_add(1);
        return Err(StoreFault::Failed);
    }
    Ok(())
}

impl Outside for MemOutside {
    ghost ahead = { λ o. Some record {
      readings = o.readings;
      old = o.old;
      new = o.new;
      showing = o.showing;
    } };

    ghost made = { λ o. o.acts };

    ghost writes = { λ o. record { faults = o.faults; failing = Some o.writing } };

    ghost stores = { λ o. record { faults = o.store_faults; failing = Some o.storing } };

    fn read(&mut self) -> Reading {
        self.readings.read()
    }

    fn poll(&mut self, face: Face, buf: &mut [u8]) -> Result<Option<usize>, Failed> {
        match face {
            Face::Old => self.old.poll(buf),
            Face::New => self.new.poll(buf),
        }
    }

    fn take_foreign(&mut self, face: Face) -> u64 {
        match face {
            Face::Old => self.old.take_foreign(),
            Face::New => self.new.take_foreign(),
        }
    }

    /// Keeps the datagram as sent, or as lost where this call is to fail.
    fn send(&mut self, face: Face, datagram: &[u8]) -> Result<(), Failed> {
        let sent = match face {
            Face::Old => self.old.send(),
            Face::New => self.new.send(),
        };
        self.acts.tried(face, sent.is_err(), datagram);
        sent
    }

    /// Keeps the text, or nothing of it where this call is to fail.
    fn write(&mut self, text: &[u8]) -> Result<(), Failed> {
        if self.writing.fails() {
            self.faults = self.faults.saturating_add(1);
            return Err(Failed);
        }
        self.acts.wrote(text);
        Ok(())
    }

    /// Keeps the text, or nothing where this call is to fail.
    fn show(&mut self, text: &[u8]) -> Result<(), Failed> {
        if self.showing.fails() {
            return Err(Failed);
        }
        self.acts.shown(text);
        Ok(())
    }

    /// Keeps the records, or nothing where this call is to fail.
    fn commit(&mut self, records: &[Record]) -> Result<usize, StoreFault> {
        let length = entries_length(self.alloc, records)?;
        store(&mut self.storing, &mut self.store_faults)?;
        self.acts.committed(records);
        Ok(length)
    }

    /// Keeps what is kept, or nothing where this call is to fail.
    fn install(&mut self, kept: &Kept) -> Result<usize, StoreFault> {
        let gate = gate_of(self.alloc, kept)?;
        store(&mut self.storing, &mut self.store_faults)?;
        self.acts.installed(kept);
        Ok(gate)
    }
}
