//! What the runs of the chunks cover, one at an index, and how many there are.

ghost use Rattle.std.specs.Prelude.{◌≡◌, ◌^◌, ◌<◌, [], length, slice_index_or, IsTrue, ◌↔◌};
ghost use Rattle.std.specs.Prelude.{nat_le, nat_lt, slice_get, count_by, filter};
ghost use Rattle.spans.specs.Chunks.{joined, AreFilled, from_there};
ghost use Rattle.spans.specs.Runs.{AreApart, HasAll, FirstHasAll};

use crate::chunk::Chunk;
use crate::pieces::{Place, reaching};
use crate::range::Run;
use crate::runs::Runs;

/// Whether a run stands at a place that has all places from `from` to before `to`.
fn has_all(chunks: &[Chunk], place: Place, from: u64, to: u64) -> bool
    requires at { place.chunk < length chunks.now
        → place.at < length (slice_index_or chunks.now place.chunk []) }
    ensures { IsTrue result ↔ FirstHasAll from to (from_there chunks.now place.chunk place.at) }
{
    if place.chunk >= chunks.len() {
        return false;
    }
    let run = chunks[place.chunk].run(place.at);
    run.from <= from && to <= run.to
}

/// Whether the runs have all places from `from` to before `to`.
pub(crate) fn covers(chunks: &[Chunk], from: u64, to: u64) -> bool
    requires some { from < to }
    requires apart { AreApart 0 (joined chunks.now) }
    requires filled { AreFilled chunks.now }
    ensures { IsTrue result ↔ HasAll from to (joined chunks.now) }
{
    has_all(chunks, reaching(chunks, from), from, to)
}

/// The run at an index.
pub(crate) fn run(chunks: &[Chunk], i: usize) -> Option<Run>
    ensures { result ≡ slice_get (joined chunks.now) i }
{
    let mut left = i;
    for chunk in chunks {
        if left < chunk.len() {
            return Some(chunk.run(left));
        }
        left -= chunk.len();
    }
    None
}

/// The runs that end at or after a place.
pub(crate) fn runs_from(chunks: &[Chunk], place: u64) -> Runs<'_>
    requires apart { AreApart 0 (joined chunks.now) }
    requires filled { AreFilled chunks.now }
    ensures { result ≡ filter (λ r. nat_le place r.to) (joined chunks.now) }
{
    Runs::from_place(chunks, reaching(chunks, place))
}

/// How many runs there are in some chunks.
fn total(chunks: &[Chunk]) -> usize
    requires { length (joined chunks.now) < 2 ^ 64 }
    ensures { result ≡ length (joined chunks.now) }
{
    let mut total = 0;
    for chunk in chunks {
        total += chunk.len();
    }
    total
}

/// How many runs begin below `to`.
pub(crate) fn count(chunks: &[Chunk], to: u64) -> usize
    requires apart { AreApart 0 (joined chunks.now) }
    requires filled { AreFilled chunks.now }
    requires fits { length (joined chunks.now) < 2 ^ 64 }
    ensures { result ≡ count_by (λ r. nat_lt r.from to) (joined chunks.now) }
{
    let whole = chunks.partition_point(|chunk| chunk.last_begin() < to);
    let before = total(&chunks[..whole]);
    if whole < chunks.len() {
        before + chunks[whole].beginning_before(to)
    } else {
        before
    }
}
