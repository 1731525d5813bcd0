//! A run of the chunks that grows, and takes out those that it meets.

ghost use Rattle.std.specs.Prelude.{◌≡◌, ◌+◌, ◌<◌, ◌≤◌, ◌++◌, ◌∷◌, [], length, take, drop};
ghost use Rattle.std.specs.Prelude.{slice_index_or};
ghost use Rattle.spans.specs.Chunks.{joined, AreFilled, before, from_there, MeetsWhole};
ghost use Rattle.spans.specs.Growing.{grown_over, left_after, widened, widening};
ghost use Rattle.spans.specs.Runs.{AreApart, last_begin};

use crate::chunk::Chunk;
use crate::growth::Growth;
use crate::pieces::Place;
use crate::range::Run;

/// How many chunks from an index on a growing run meets as a whole (the first that it doesn't
/// is answered), and how far it comes by them.
fn whole_chunks(chunks: &[Chunk], from: usize, to: u64, mut growth: Growth) -> (usize, Growth)
    requires within { from ≤ length chunks.now }
    requires apart { AreApart (growth.end + 1) (joined (drop from chunks.now)) }
    requires bound { growth.fresh ≤ growth.end }
    ensures met { MeetsWhole to growth result.1 chunks.now from result.0 }
    ensures stops { result.0 < length chunks.now
        → to < last_begin 0 (slice_index_or chunks.now result.0 []) }
{
    let mut whole = from;
    while whole < chunks.len() && chunks[whole].last_begin() <= to {
        growth = chunks[whole].swallowed(to, growth);
        whole += 1;
    }
    (whole, growth)
}

/// Lets a run grow over a chunk that it doesn't meet as a whole.
fn absorb_front(chunks: &mut Vec<Chunk>, chunk: usize, to: u64, growth: Growth) -> Growth
    requires apart { AreApart (growth.end + 1) (joined (drop chunk chunks.old.items)) }
    requires bound { growth.fresh ≤ growth.end }
    requires filled { AreFilled chunks.old.items }
    requires part { chunk < length chunks.old.items
        → to < last_begin 0 (slice_index_or chunks.old.items chunk []) }
    ensures filled { AreFilled chunks.new.items }
    ensures kept { take chunk chunks.new.items ≡ take chunk chunks.old.items }
    ensures len { length chunks.new.items ≡ length chunks.old.items }
    ensures left { joined (drop chunk chunks.new.items)
        ≡ left_after to (joined (drop chunk chunks.old.items)) }
    ensures grown { result ≡ grown_over to growth (joined (drop chunk chunks.old.items)) }
    ensures bound { result.fresh ≤ result.end }
{
    if chunk < chunks.len() {
        chunks[chunk].absorb(0, to, growth)
    } else {
        growth
    }
}

/// Takes out the chunks from `from` to before `to`.
fn cut(chunks: &mut Vec<Chunk>, from: usize, to: usize)
    requires order { from ≤ to }
    requires within { to ≤ length chunks.old.items }
    ensures { chunks.new.items ≡ take from chunks.old.items ++ drop to chunks.old.items }
{
    chunks.drain(from..to);
}

/// Lets a run grow over the chunks from an index on, and takes out what it meets there.
fn absorb(chunks: &mut Vec<Chunk>, from: usize, to: u64, growth: Growth) -> Growth
    requires within { from ≤ length chunks.old.items }
    requires apart { AreApart (growth.end + 1) (joined (drop from chunks.old.items)) }
    requires bound { growth.fresh ≤ growth.end }
    requires filled { AreFilled chunks.old.items }
    ensures filled { AreFilled chunks.new.items }
    ensures kept { take from chunks.new.items ≡ take from chunks.old.items }
    ensures left { joined (drop from chunks.new.items)
        ≡ left_after to (joined (drop from chunks.old.items)) }
    ensures grown { result ≡ grown_over to growth (joined (drop from chunks.old.items)) }
    ensures bound { result.fresh ≤ result.end }
{
    let (whole, growth) = whole_chunks(chunks, from, to, growth);
    let growth = absorb_front(chunks, whole, to, growth);
    cut(chunks, from, whole);
    growth
}

/// Lets a run grow over those from a place on, and takes out what it meets there.
fn absorb_from(chunks: &mut Vec<Chunk>, place: Place, to: u64, growth: Growth) -> Growth
    requires within { place.chunk < length chunks.old.items }
    requires at { place.at ≤ length (slice_index_or chunks.old.items place.chunk []) }
    requires some { 0 < place.at }
    requires apart { AreApart (growth.end + 1) (from_there chunks.old.items place.chunk place.at) }
    requires bound { growth.fresh ≤ growth.end }
    requires filled { AreFilled chunks.old.items }
    ensures filled { AreFilled chunks.new.items }
    ensures within { place.chunk < length chunks.new.items }
    ensures at { place.at ≤ length (slice_index_or chunks.new.items place.chunk []) }
    ensures before { before chunks.new.items place.chunk place.at
        ≡ before chunks.old.items place.chunk place.at }
    ensures left { from_there chunks.new.items place.chunk place.at
        ≡ left_after to (from_there chunks.old.items place.chunk place.at) }
    ensures grown { result
        ≡ grown_over to growth (from_there chunks.old.items place.chunk place.at) }
    ensures bound { result.fresh ≤ result.end }
{
    let growth = chunks[place.chunk].absorb(place.at, to, growth);
    absorb(chunks, place.chunk + 1, to, growth)
}

/// Puts another run in place of the one at a place.
fn set(chunks: &mut Vec<Chunk>, place: Place, run: Run)
    requires within { place.chunk < length chunks.old.items }
    requires at { place.at < length (slice_index_or chunks.old.items place.chunk []) }
    requires filled { AreFilled chunks.old.items }
    ensures filled { AreFilled chunks.new.items }
    ensures runs { joined chunks.new.items ≡ before chunks.old.items place.chunk place.at
        ++ run ∷ from_there chunks.old.items place.chunk (place.at + 1) }
{
    chunks[place.chunk].set(place.at, run);
}

/// Widens the run at a place to cover from `from` to before `to`, over those that it meets, and
/// tells how many places that adds.
pub(crate) fn widen(chunks: &mut Vec<Chunk>, place: Place, from: u64, to: u64) -> u64
    requires within { place.chunk < length chunks.old.items }
    requires at { place.at < length (slice_index_or chunks.old.items place.chunk []) }
    requires apart { AreApart 0 (joined chunks.old.items) }
    requires filled { AreFilled chunks.old.items }
    requires some { from < to }
    ensures filled { AreFilled chunks.new.items }
    ensures runs { joined chunks.new.items ≡ before chunks.old.items place.chunk place.at
        ++ widened from to (from_there chunks.old.items place.chunk place.at) }
    ensures added { result ≡ widening from to (from_there chunks.old.items place.chunk place.at) }
{
    let first = chunks[place.chunk].run(place.at);
    let begin = from.min(first.from);
    let growth = Growth {
        end: first.to,
        fresh: first.from - begin,
    };
    let after = Place {
        chunk: place.chunk,
        at: place.at + 1,
    };
    let growth = absorb_from(chunks, after, to, growth);
    let end = to.max(growth.end);
    set(
        chunks,
        place,
        Run {
            from: begin,
            to: end,
        },
    );
    growth.fresh + (end - growth.end)
}
