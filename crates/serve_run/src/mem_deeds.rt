//! What was done outside, kept in memory.
ghost use Rattle.std.specs.Prelude.{◌≡◌, [], ◌∷◌, Some, IfSome};
ghost use Rattle.std.specs.List.{flat_map};
ghost use Rattle.edge_traits.specs.Content.{Gains};
ghost use Rattle.edge_traits.specs.Datagrams.{PollsAtMost};
ghost use Rattle.serve_run.specs.Deeds.{read_clock, polled_link, sent_or_lost, write_failed, written};
ghost use Rattle.serve_run.specs.InMemory.{deeds_in};
ghost use Rattle.serve_run.specs.Tells.{polled_in};

use edge_traits::Failed;
use endpoint::Octets;
use gate_cases::Face;
use std::alloc::{AllocError, Global};
use std::marker::Model;

/// What was done outside.
#[derive(Debug, Drop)]
pub enum MemDeed {
    /// The clock was read, and showed this.
    Read(u64),
    /// A poll of a face's link failed.
    PollFailed(Face),
    /// A poll of a face's link found nothing.
    PolledEmpty(Face),
    /// A poll of a face's link gave a datagram.
    Polled(Face, Octets),
    /// A datagram was sent at a face.
    Sent(Face, Octets),
    /// A datagram was lost at a face: its send failed.
    Lost(Face, Octets),
    /// A text was written to its end.
    Wrote(Octets),
    /// A write failed.
    WriteFailed,
}

/// What was done so far, in the order done, told as long as there was memory for all of it.
#[derive(Drop)]
pub struct MemDeeds {
    alloc: Global,
    deeds: Vec<MemDeed>,
    lost: bool,
}

impl Model for MemDeeds {
    ghost use Rattle.std.specs.Prelude.{List, Option};
    ghost use Rattle.std.specs.List.{flat_map};
    ghost use Rattle.edge_traits.specs.InMemory.{unless_lost};
    ghost use Rattle.serve_run.specs.Deeds.{Deed};
    ghost use Rattle.serve_run.specs.InMemory.{deeds_in};

    ghost Value = { Option (List Deed) };

    ghost view = { λ d. unless_lost d.lost (flat_map deeds_in d.deeds.items) };
}

impl MemDeeds {
    /// Nothing yet. It takes no memory.
    pub fn new(alloc: Global) -> MemDeeds
        ensures { result ≡ Some [] }
    {
        MemDeeds {
            alloc,
            deeds: Vec::new(alloc),
            lost: false,
        }
    }

    /// What was kept.
    pub fn as_slice(&self) -> &[MemDeed]
        ensures { IfSome self.now (λ deeds. flat_map deeds_in result.now ≡ deeds) }
    {
        self.deeds.as_slice()
    }

    /// Keeps that the clock showed this.
    pub fn read(&mut self, now: u64)
        ensures { Gains self.old self.new (read_clock now ∷ []) }
    {
        self.keep(MemDeed::Read(now));
    }

    /// Keeps that a face's link was polled, and what came of it.
    pub fn polled(&mut self, face: Face, came: Result<Option<usize>, Failed>, buf: &[u8])
        requires { PollsAtMost came buf.now }
        ensures { Gains self.old self.new (polled_link face (polled_in buf.now came) ∷ []) }
    {
        match came {
            Err(Failed) => self.keep(MemDeed::PollFailed(face)),
            Ok(None) => self.keep(MemDeed::PolledEmpty(face)),
            Ok(Some(n)) => match Octets::from_slice(self.alloc, &buf[..n]) {
                Ok(datagram) => self.keep(MemDeed::Polled(face, datagram)),
                Err(AllocError) => self.lost = true,
            },
        }
    }

    /// Keeps that a datagram was sent at a face, or lost.
    pub fn tried(&mut self, face: Face, lost: bool, datagram: &[u8])
        ensures { Gains self.old self.new (sent_or_lost face lost datagram.now ∷ []) }
    {
        match Octets::from_slice(self.alloc, datagram) {
            Ok(datagram) => self.keep(deed_of(face, lost, datagram)),
            Err(AllocError) => self.lost = true,
        }
    }

    /// Keeps that a text was written.
    pub fn wrote(&mut self, text: &[u8])
        ensures { Gains self.old self.new (written text.now) }
    {
        match Octets::from_slice(self.alloc, text) {
            Ok(text) => self.keep(MemDeed::Wrote(text)),
            Err(AllocError) => self.lost = true,
        }
    }

    /// Keeps that a write failed.
    pub fn write_failed(&mut self)
        ensures { Gains self.old self.new (write_failed ∷ []) }
    {
        self.keep(MemDeed::WriteFailed);
    }

    /// Keeps a deed.
    fn keep(&mut self, deed: MemDeed)
        ensures { Gains self.old self.new (deeds_in deed) }
    {
        if self.deeds.push(deed).is_err() {
            self.lost = true;
        }
    }
}

/// That a datagram was sent at a face, or lost.
fn deed_of(face: Face, lost: bool, datagram: Octets) -> MemDeed
    ensures { deeds_in result ≡ sent_or_lost face lost datagram ∷ [] }
{
    if lost {
        MemDeed::Lost(face, datagram)
    } else {
        MemDeed::Sent(face, datagram)
    }
}
