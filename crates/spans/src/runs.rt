//! The maximal covered ranges, one after another.

ghost use Rattle.std.specs.Prelude.{◌≡◌, ◌<◌, ◌≤◌, List, [], length, slice_index_or};
ghost use Rattle.std.specs.Iterator.{YieldsFirst, item_count};
ghost use Rattle.spans.specs.Chunks.{AreFilled, joined, from_there};

use crate::chunk::Chunk;
use crate::pieces::Place;
use crate::range::Run;
use std::marker::Model;

/// The maximal covered ranges that are still to come.
#[derive(Debug, Drop)]
pub struct Runs<'a> {
    chunks: &'a [Chunk],
    at: usize,
}

impl<'a> Model for Runs<'a> {
    ghost use Rattle.std.specs.Prelude.{List};
    ghost use Rattle.spans.specs.declared.range.Run.{Run};

    ghost Value = { List Run };

    ghost use Rattle.spans.specs.Chunks.{IsAhead, from_there};

    ghost view = { λ r. from_there r.chunks.now 0 r.at };

    ghost invariant = { λ r. IsAhead r.chunks.now r.at };
}

impl<'a> Runs<'a> {
    /// All runs of some chunks.
    pub(crate) fn over(chunks: &'a [Chunk]) -> Runs<'a>
        requires { AreFilled chunks.now }
        ensures { result ≡ joined chunks.now }
    {
        Runs { chunks, at: 0 }
    }

    /// The runs of some chunks from a place on.
    pub(crate) fn from_place(chunks: &'a [Chunk], place: Place) -> Runs<'a>
        requires filled { AreFilled chunks.now }
        requires within { place.chunk ≤ length chunks.now }
        requires at { place.chunk < length chunks.now
            → place.at < length (slice_index_or chunks.now place.chunk []) }
        ensures { result ≡ from_there chunks.now place.chunk place.at }
    {
        Runs {
            chunks: &chunks[place.chunk..],
            at: place.at,
        }
    }
}

impl<'a> Iterator for Runs<'a> {
    type Item = Run;

    ghost next_gives = { YieldsFirst (λ r. r) };

    ghost remaining = { item_count (λ r. r) };

    fn next(&mut self) -> Option<Run> {
        let (first, others) = self.chunks.split_first()?;
        let run = first.run(self.at);
        if self.at + 1 < first.len() {
            self.at += 1;
            return Some(run);
        }
        self.chunks = others;
        self.at = 0;
        Some(run)
    }
}
