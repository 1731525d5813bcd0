//! The chunks of a `Spans`: the search for a place, and a run that is added.

ghost use Rattle.std.specs.Prelude.{◌≡◌, ◌+◌, ◌^◌, ◌<◌, ◌≤◌, ◌++◌, ◌∷◌, [], length};
ghost use Rattle.std.specs.Prelude.{slice_index_or, IfOk, IfSome, IfNone, OnOk, OnErr, IsTrue, ◌↔◌};
ghost use Rattle.spans.specs.declared.chunk.TheConstants.{MOST};
ghost use Rattle.spans.specs.Chunks.{joined, AreFilled, before, from_there, split_at};
ghost use Rattle.spans.specs.Places.{MayWant};
ghost use Rattle.spans.specs.Runs.{AreApart, EndBefore, FirstReaches, BeginsBy, Covers};
ghost use Rattle.spans.specs.Runs.{IsApartFrom};

use crate::chunk::{Chunk, MOST};
use crate::merge::widen;
use crate::range::Run;
use std::alloc::{AllocError, Global};

/// A run's place: which chunk, and which of its runs. One past the last chunk is a place too.
#[derive(Clone, Copy, Debug)]
pub(crate) struct Place {
    pub chunk: usize,
    pub at: usize,
}

/// The place of the first run that ends at or after `from`.
pub(crate) fn reaching(chunks: &[Chunk], from: u64) -> Place
    requires apart { AreApart 0 (joined chunks.now) }
    requires filled { AreFilled chunks.now }
    ensures within { result.chunk ≤ length chunks.now }
    ensures at { result.chunk < length chunks.now
        → result.at < length (slice_index_or chunks.now result.chunk []) }
    ensures end { length chunks.now ≤ result.chunk → result.at ≡ 0 }
    ensures before { EndBefore from (before chunks.now result.chunk result.at) }
    ensures reached { FirstReaches from (from_there chunks.now result.chunk result.at) }
{
    let chunk = chunks.partition_point(|chunk| chunk.end() < from);
    let at = if chunk < chunks.len() {
        chunks[chunk].reaching(from)
    } else {
        0
    };
    Place { chunk, at }
}

/// Whether a run stands at a place that begins at or before `to`.
pub(crate) fn begins_by(chunks: &[Chunk], place: Place, to: u64) -> bool
    requires at { place.chunk < length chunks.now
        → place.at < length (slice_index_or chunks.now place.chunk []) }
    ensures { IsTrue result ↔ BeginsBy to (from_there chunks.now place.chunk place.at) }
{
    place.chunk < chunks.len() && chunks[place.chunk].run(place.at).from <= to
}

/// Cuts a chunk in two, of which the first keeps `keep` runs. It takes all its memory first.
fn split(
    chunks: &mut Vec<Chunk>,
    alloc: Global,
    chunk: usize,
    keep: usize,
) -> Result<(), AllocError>
    requires within { chunk < length chunks.old.items }
    requires keep { keep ≤ length (slice_index_or chunks.old.items chunk []) }
    ensures ok { OnOk result (chunks.new.items ≡ split_at chunk keep chunks.old.items) }
    ensures err { OnErr result (chunks.new.items ≡ chunks.old.items) }
{
    let rest = chunks[chunk].rest(alloc, keep)?;
    chunks.insert(chunk + 1, rest)?;
    chunks[chunk].truncate(keep);
    Ok(())
}

/// The place among the chunks for a run that is to be added, in a chunk that may hold one more.
fn make_room(chunks: &mut Vec<Chunk>, alloc: Global, place: Place) -> Result<Place, AllocError>
    requires within { place.chunk < length chunks.old.items }
    requires at { place.at ≤ length (slice_index_or chunks.old.items place.chunk []) }
    requires filled { AreFilled chunks.old.items }
    ensures filled { AreFilled chunks.new.items }
    ensures within { IfOk result (λ p. p.chunk < length chunks.new.items) }
    ensures at { IfOk result (λ p. p.at ≤ length (slice_index_or chunks.new.items p.chunk [])) }
    ensures before { IfOk result (λ p. before chunks.new.items p.chunk p.at
        ≡ before chunks.old.items place.chunk place.at) }
    ensures rest { IfOk result (λ p. from_there chunks.new.items p.chunk p.at
        ≡ from_there chunks.old.items place.chunk place.at) }
    ensures room { IfOk result (λ p. length (slice_index_or chunks.new.items p.chunk []) < MOST) }
    ensures wants { OnErr result (MayWant (joined chunks.old.items)) }
    ensures runs { joined chunks.new.items ≡ joined chunks.old.items }
{
    if !chunks[place.chunk].is_full() {
        return Ok(place);
    }
    let keep = chunks[place.chunk].len() / 2;
    split(chunks, alloc, place.chunk, keep)?;
    Ok(moved(place, keep))
}

/// Where a place is once its chunk was cut in two, of which the first kept `keep` runs.
fn moved(place: Place, keep: usize) -> Place
    requires { place.chunk + 1 < 2 ^ 64 }
    ensures below { place.at ≤ keep → result ≡ place }
    ensures above { keep < place.at
        → (result.chunk ≡ place.chunk + 1) × (result.at + keep ≡ place.at) }
{
    if place.at <= keep {
        place
    } else {
        Place {
            chunk: place.chunk + 1,
            at: place.at - keep,
        }
    }
}

/// Adds a run at a place in a chunk that may hold one more.
fn insert(chunks: &mut Vec<Chunk>, place: Place, run: Run) -> Result<(), AllocError>
    requires within { place.chunk < length chunks.old.items }
    requires at { place.at ≤ length (slice_index_or chunks.old.items place.chunk []) }
    requires room { length (slice_index_or chunks.old.items place.chunk []) < MOST }
    requires filled { AreFilled chunks.old.items }
    ensures filled { AreFilled chunks.new.items }
    ensures ok { OnOk result (joined chunks.new.items
        ≡ before chunks.old.items place.chunk place.at
        ++ run ∷ from_there chunks.old.items place.chunk place.at) }
    ensures wants { OnErr result (MayWant (joined chunks.old.items)) }
    ensures err { OnErr result (joined chunks.new.items ≡ joined chunks.old.items) }
{
    chunks[place.chunk].insert(place.at, run)?;
    Ok(())
}

/// The place after all runs, where the last chunk may hold one more.
fn end_with_room(chunks: &[Chunk]) -> Option<Place>
    ensures last { IfSome result (λ p. p.chunk + 1 ≡ length chunks.now) }
    ensures at { IfSome result (λ p. p.at ≡ length (slice_index_or chunks.now p.chunk [])) }
    ensures room { IfSome result (λ p. p.at < MOST) }
    ensures wants { IfNone result (MayWant (joined chunks.now)) }
{
    let chunk = chunks.len().checked_sub(1)?;
    let at = chunks[chunk].len();
    if at >= MOST {
        return None;
    }
    Some(Place { chunk, at })
}

/// Adds a run after all others.
fn append(chunks: &mut Vec<Chunk>, alloc: Global, run: Run) -> Result<(), AllocError>
    requires filled { AreFilled chunks.old.items }
    ensures filled { AreFilled chunks.new.items }
    ensures ok { OnOk result (joined chunks.new.items ≡ joined chunks.old.items ++ run ∷ []) }
    ensures wants { OnErr result (MayWant (joined chunks.old.items)) }
    ensures err { OnErr result (joined chunks.new.items ≡ joined chunks.old.items) }
{
    if let Some(place) = end_with_room(chunks) {
        insert(chunks, place, run)?;
        return Ok(());
    }
    let chunk = Chunk::of(alloc, run)?;
    chunks.push(chunk)?;
    Ok(())
}

/// Adds a run at a place.
pub(crate) fn add(
    chunks: &mut Vec<Chunk>,
    alloc: Global,
    place: Place,
    run: Run,
) -> Result<(), AllocError>
    requires within { place.chunk ≤ length chunks.old.items }
    requires at { place.at ≤ length (slice_index_or chunks.old.items place.chunk []) }
    requires filled { AreFilled chunks.old.items }
    ensures filled { AreFilled chunks.new.items }
    ensures ok { OnOk result (joined chunks.new.items ≡ before chunks.old.items place.chunk place.at
        ++ run ∷ from_there chunks.old.items place.chunk place.at) }
    ensures wants { OnErr result (MayWant (joined chunks.old.items)) }
    ensures err { OnErr result (joined chunks.new.items ≡ joined chunks.old.items) }
{
    if place.chunk == chunks.len() {
        return append(chunks, alloc, run);
    }
    let place = make_room(chunks, alloc, place)?;
    insert(chunks, place, run)?;
    Ok(())
}

/// Covers a range, and tells how many of its places are new. Where a run is added there may be
/// no memory for it, and all is as before.
pub(crate) fn cover(
    chunks: &mut Vec<Chunk>,
    alloc: Global,
    from: u64,
    to: u64,
) -> Result<u64, AllocError>
    requires some { from < to }
    requires apart { AreApart 0 (joined chunks.old.items) }
    requires filled { AreFilled chunks.old.items }
    ensures filled { AreFilled chunks.new.items }
    ensures ok { IfOk result (Covers from to (joined chunks.old.items) (joined chunks.new.items)) }
    ensures refused { OnErr result (IsApartFrom from to (joined chunks.old.items)) }
    ensures wants { OnErr result (MayWant (joined chunks.old.items)) }
    ensures err { OnErr result (joined chunks.new.items ≡ joined chunks.old.items) }
{
    let place = reaching(chunks, from);
    if begins_by(chunks, place, to) {
        return Ok(widen(chunks, place, from, to));
    }
    add(chunks, alloc, place, Run { from, to })?;
    Ok(to - from)
}
