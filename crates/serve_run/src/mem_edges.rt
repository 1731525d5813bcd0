//! An outside in memory.
ghost use Rattle.std.specs.Prelude.{◌≡◌, [], IfSome, Some};
ghost use Rattle.std.specs.List.{flat_map};
ghost use Rattle.edge_traits.specs.Outcome.{sink_tells};
ghost use Rattle.serve_run.specs.InMemory.{deeds_in};
ghost use Rattle.serve_run.specs.Tells.{links_tell};

use crate::edges::Edges;
use crate::mem_deeds::{MemDeed, MemDeeds};
use edge_traits::{Clock, Failed, Link, MemClock, MemLink, MemSink, Sink, write_all};
use gate_cases::Face;
use std::alloc::Global;

/// Two links, a clock and a sink in memory, driven as one. It tells what is done there, in order, as long
/// as there is memory to keep it.
#[derive(Drop)]
pub struct MemEdges {
    old: MemLink,
    new: MemLink,
    clock: MemClock,
    sink: MemSink,
    deeds: MemDeeds,
}

impl MemEdges {
    /// These driven as one. Nothing was done yet.
    pub fn new(
        alloc: Global,
        old: MemLink,
        new: MemLink,
        clock: MemClock,
        sink: MemSink,
    ) -> MemEdges
        ensures outside { ⟦<MemEdges as Edges>⟧.outside result ≡ record (links_tell
            ⟦<MemLink as Link>⟧.coming ⟦<MemLink as Link>⟧.gone ⟦<MemLink as Link>⟧.failing ⟦<MemLink as Link>⟧.faults
            old new (⟦<MemClock as Clock>⟧.readings clock)) { trace = Some [] } }
        ensures sink { ⟦<MemEdges as Edges>⟧.sink result
            ≡ sink_tells ⟦<MemSink as Sink>⟧.held ⟦<MemSink as Sink>⟧.faults ⟦<MemSink as Sink>⟧.failing sink }
    {
        MemEdges {
            old,
            new,
            clock,
            sink,
            deeds: MemDeeds::new(alloc),
        }
    }

    /// What was done, in order: all of it, where that is told.
    pub fn deeds(&self) -> &[MemDeed]
        ensures { IfSome (⟦<MemEdges as Edges>⟧.outside self.now).trace (λ deeds. flat_map deeds_in result.now ≡ deeds) }
    {
        self.deeds.as_slice()
    }
}

impl Edges for MemEdges {
    ghost outside = { λ e. record (links_tell
        ⟦<MemLink as Link>⟧.coming ⟦<MemLink as Link>⟧.gone ⟦<MemLink as Link>⟧.failing ⟦<MemLink as Link>⟧.faults
        e.old e.new (⟦<MemClock as Clock>⟧.readings e.clock)) { trace = e.deeds } };

    ghost sink = { λ e. sink_tells
        ⟦<MemSink as Sink>⟧.held ⟦<MemSink as Sink>⟧.faults ⟦<MemSink as Sink>⟧.failing e.sink };

    ghost lent = { λ _. [] };

    fn now(&mut self) -> u64 {
        let now = self.clock.now();
        self.deeds.read(now);
        now
    }

    fn poll(&mut self, face: Face, buf: &mut [u8]) -> Result<Option<usize>, Failed> {
        let came = match face {
            Face::Old => self.old.poll(buf),
            Face::New => self.new.poll(buf),
        };
        self.deeds.polled(face, came, buf);
        came
    }

    fn send(&mut self, face: Face, datagram: &[u8]) -> Result<(), Failed> {
        let sent = match face {
            Face::Old => self.old.send(datagram),
            Face::New => self.new.send(datagram),
        };
        self.deeds.tried(face, sent.is_err(), datagram);
        sent
    }

    /// The sink takes the whole text, or nothing where the write is to fail.
    fn write(&mut self, text: &[u8]) -> Result<(), Failed> {
        match write_all(&mut self.sink, text) {
            Ok(()) => {
                self.deeds.wrote(text);
                Ok(())
            }
            Err(failed) => {
                self.deeds.write_failed();
                Err(failed)
            }
        }
    }
}
