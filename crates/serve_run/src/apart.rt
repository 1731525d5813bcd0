//! Two links, a clock and a sink that stand each by itself, driven as one.
ghost use Rattle.std.specs.Prelude.{[], ◌∷◌};
ghost use Rattle.edge_traits.specs.Outcome.{sink_tells};
ghost use Rattle.serve_run.specs.Tells.{links_tell};

use crate::edges::Edges;
use edge_traits::{Clock, Failed, Link, Sink, write_all};
use gate_cases::Face;

/// Two links, a clock and a sink, each lent by whoever drives them. What they tell is what each of them
/// tells; so nothing is told of the order of their calls.
#[derive(Drop)]
pub struct Apart<'o, 'n, 'c, 's, K, L, C> {
    /// The link of the old face.
    pub old: &'o mut L,
    /// The link of the new face.
    pub new: &'n mut L,
    /// The clock.
    pub clock: &'c mut C,
    /// Where lines are written.
    pub sink: &'s mut K,
}

impl<'o, 'n, 'c, 's, K: Sink, L: Link, C: Clock> Edges for Apart<'o, 'n, 'c, 's, K, L, C> {
    ghost outside = { λ e. links_tell L.coming L.gone L.failing L.faults e.old.now e.new.now (C.readings e.clock.now) };

    ghost sink = { λ e. sink_tells K.held K.faults K.failing e.sink.now };

    ghost lent = { λ e. e.old.ghost_name ∷ e.new.ghost_name ∷ e.clock.ghost_name ∷ e.sink.ghost_name ∷ [] };

    fn now(&mut self) -> u64 {
        self.clock.now()
    }

    fn poll(&mut self, face: Face, buf: &mut [u8]) -> Result<Option<usize>, Failed> {
        match face {
            Face::Old => self.old.poll(buf),
            Face::New => self.new.poll(buf),
        }
    }

    fn send(&mut self, face: Face, datagram: &[u8]) -> Result<(), Failed> {
        match face {
            Face::Old => self.old.send(datagram),
            Face::New => self.new.send(datagram),
        }
    }

    fn write(&mut self, text: &[u8]) -> Result<(), Failed> {
        write_all(self.sink, text)
    }
}
