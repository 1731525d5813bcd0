//! A source and a sink that remember what a hint is made of: how the input begins, the piece of it
//! that was read last, and the end of what was written last. As source and sink they are the ones
//! below them.
ghost use Rattle.std.specs.Prelude.{◌≡◌, []};

use crate::given::{Given, Tail};
use edge_traits::{Failed, Sink, Source};

/// A source that remembers what it gave.
#[derive(Drop)]
pub struct Remembering<S: Drop> {
    source: S,
    given: Given,
}

impl<S: Source + Drop> Remembering<S> {
    /// A source over this one, which counts lines where the input is lines.
    pub fn new(source: S, is_lines: bool) -> Remembering<S>
        ensures left { ⟦<Remembering<S> as Source>⟧.left result ≡ S.left source }
        ensures faults { ⟦<Remembering<S> as Source>⟧.faults result ≡ S.faults source }
        ensures head { result.given.head ≡ [] }
    {
        Remembering {
            source,
            given: Given::new(is_lines),
        }
    }

    /// What it gave.
    pub fn given(&self) -> &Given
        ensures { result.now ≡ self.now.given }
    {
        &self.given
    }
}

impl<S: Source + Drop> Source for Remembering<S> {
    ghost left = { λ s. S.left s.source };

    ghost faults = { λ s. S.faults s.source };

    ghost failing = { λ s. S.failing s.source };

    fn read(&mut self, buf: &mut [u8]) -> Result<usize, Failed> {
        match self.source.read(buf) {
            Ok(n) => {
                self.given.take(&buf[..n]);
                Ok(n)
            }
            Err(failed) => Err(failed),
        }
    }
}

/// A sink that remembers the end of what was written last.
#[derive(Drop)]
pub struct Ending<K: Drop> {
    sink: K,
    tail: Tail,
}

impl<K: Sink + Drop> Ending<K> {
    /// A sink over this one.
    pub fn new(sink: K) -> Ending<K>
        ensures held { ⟦<Ending<K> as Sink>⟧.held result ≡ K.held sink }
        ensures faults { ⟦<Ending<K> as Sink>⟧.faults result ≡ K.faults sink }
    {
        Ending {
            sink,
            tail: Tail::new(),
        }
    }

    /// The sink.
    pub fn sink(&self) -> &K
        ensures { result.now ≡ self.now.sink }
    {
        &self.sink
    }

    /// The end of what was written last.
    pub fn tail(&self) -> &Tail
        ensures { result.now ≡ self.now.tail }
    {
        &self.tail
    }
}

impl<K: Sink + Drop> Sink for Ending<K> {
    ghost held = { λ s. K.held s.sink };

    ghost faults = { λ s. K.faults s.sink };

    ghost failing = { λ s. K.failing s.sink };

    fn write(&mut self, piece: &[u8]) -> Result<usize, Failed> {
        match self.sink.write(piece) {
            Ok(n) => {
                self.tail.set(&piece[..n]);
                Ok(n)
            }
            Err(failed) => Err(failed),
        }
    }
}
