//! A run over an outside in memory that goes on from a journal's file, and what it made as a text.

ghost use Rattle.std.specs.Prelude.{◌≡◌, ◌<◌, ◌^◌, [], All, IfOk, IfSome};
ghost use Rattle.peer_half.specs.Setup.{IsRunnable};
ghost use Rattle.journal_file.specs.Legal.{IsLegal};
ghost use Rattle.journal_file.specs.Ties.{kept_of};

use edge_traits::LONGEST_DATAGRAM;
use endpoint::Octets;
use gate_cases::Face;
use gate_config::{GateFile, read};
use gate_edges::{MemAct, MemFace, MemOutside, Outside};
use gate_journal::{Journal, recover};
use gate_journaled::Journaled;
use gate_run::laws::what_is_read_is_runnable;
use gate_run::{GateStatus, gate};
use journal_file::Kept;
use outbox::Reading;
use std::alloc::{AllocError, Global};
use std::test::Fail;
use store_traits::TornStore;

/// The greatest moment that a clock shows.
const LAST: u64 = (1 << 62) - 1;

/// What is outside of a run, with its journal.
pub(crate) type Over = Journaled<MemOutside, TornStore>;

/// What comes to a run.
#[derive(Clone, Copy)]
pub(crate) struct Comes {
    /// The gateway's configuration.
    pub(crate) file: &'static str,
    /// What the clocks show in each half, both alike.
    pub(crate) readings: &'static [u64],
    /// What the polls of each face give, in hex, the old face first; `-` where nothing is there.
    pub(crate) gives: [&'static [&'static str]; 2],
}

/// A run of so many turns over a store with this file. The call on the store before which so many others
/// come fails, where one is named.
pub(crate) fn run(
    alloc: Global,
    comes: &Comes,
    turns: u64,
    before: &[u8],
    fails: Option<usize>,
) -> Result<(GateStatus, Over), Fail> {
    let mut store = TornStore::new(alloc, before, fails)?;
    let kept = recovered(alloc, &mut store)?;
    let outside = outside_of(alloc, comes)?;
    let mut over = Journaled::new(alloc, outside, Journal { store, gate: 0 });
    let status = go(alloc, comes.file, kept, turns, &mut over)?;
    Ok((status, over))
}

/// What is kept by the file of a store.
fn recovered(alloc: Global, store: &mut TornStore) -> Result<Kept, Fail>
    ensures { IfOk result (λ kept. IsLegal (kept_of kept)) }
{
    match recover(alloc, store) {
        Ok(kept) => Ok(kept),
        Err(_) => Err(Fail::new("a file isn't recovered")),
    }
}

/// Runs the gateway for so many turns, going on from what is kept.
pub(crate) fn go(
    alloc: Global,
    text: &str,
    kept: Kept,
    turns: u64,
    over: &mut Over,
) -> Result<GateStatus, Fail>
    requires { IsLegal (kept_of kept) }
{
    let file = file(alloc, text)?;
    Ok(gate(alloc, &file, Some(kept), turns, over))
}

/// What a gateway's file means.
fn file(alloc: Global, text: &str) -> Result<GateFile, Fail>
    ensures { IfOk result IsRunnable }
{
    what_is_read_is_runnable();
    match read(alloc, text.as_bytes()) {
        Ok(file) => Ok(file),
        Err(_) => Err(Fail::new("a configuration is refused")),
    }
}

/// What is outside of a run but for its journal.
fn outside_of(alloc: Global, comes: &Comes) -> Result<MemOutside, Fail>
    ensures { IfOk result (λ o. IfSome (⟦<MemOutside as Outside>⟧.made o) (λ acts. acts ≡ [])) }
{
    let readings = readings(alloc, comes.readings)?;
    let old = link(alloc, comes.gives[0])?;
    let new = link(alloc, comes.gives[1])?;
    let outside = MemOutside::new(alloc, &readings, old, new, &[], &[], &[])?;
    Ok(outside)
}

/// What clocks show that show these moments.
fn readings(alloc: Global, moments: &[u64]) -> Result<Vec<Reading>, AllocError>
    ensures { IfOk result (λ readings. All (λ reading. reading.wall < 2 ^ 62) readings.items) }
{
    let mut readings = Vec::new(alloc);
    for moment in moments {
        readings.push(Reading {
            wall: (*moment).min(LAST),
            monotonic: *moment,
        })?;
    }
    Ok(readings)
}

/// A face's link, of which each poll gives this.
fn link(alloc: Global, gives: &[&str]) -> Result<MemFace, Fail> {
    let mut link = MemFace::new(alloc, &[])?;
    for given in gives {
        if *given == "-" {
            link.put_none()?;
        } else {
            put(&mut link, octets(alloc, given)?.as_slice())?;
        }
    }
    Ok(link)
}

/// Has a datagram come on a link.
pub(crate) fn put(link: &mut MemFace, datagram: &[u8]) -> Result<(), Fail> {
    if datagram.len() > LONGEST_DATAGRAM {
        return Err(Fail::new("a datagram is too long"));
    }
    link.put(datagram)?;
    Ok(())
}

/// The octets that digits say.
pub(crate) fn octets(alloc: Global, digits: &str) -> Result<Vec<u8>, Fail> {
    match hex::decode(alloc, digits.as_bytes()) {
        Ok(octets) => Ok(octets),
        Err(_) => Err(Fail::new("digits aren't hex")),
    }
}

/// The name of a face.
pub(crate) fn named(face: Face) -> &'static str {
    match face {
        Face::Old => "old",
        Face::New => "new",
    }
}

/// What was made, as a text: a line for each datagram and for each call on the journal, the lines as they
/// were written, and the metrics after a line of their own.
pub(crate) fn told(alloc: Global, acts: &[MemAct]) -> Result<String, Fail> {
    let mut text = String::new(alloc);
    for act in acts {
        tell(alloc, &mut text, act)?;
        if let MemAct::Shown(metrics) = act {
            add(&mut text, metrics)?;
        }
    }
    Ok(text)
}

/// Adds an act: a line, or the lines that were written. Of the metrics it is a line that they were shown.
pub(crate) fn tell(alloc: Global, text: &mut String, act: &MemAct) -> Result<(), Fail> {
    match act {
        MemAct::Sent(face, datagram) => tell_datagram(alloc, text, "sent", *face, datagram),
        MemAct::Lost(face, datagram) => tell_datagram(alloc, text, "lost", *face, datagram),
        MemAct::Wrote(lines) => add(text, lines),
        MemAct::Shown(_) => tell_call(text, "shown\n"),
        MemAct::Committed(_) => tell_call(text, "committed\n"),
        MemAct::Installed(_) => tell_call(text, "installed\n"),
    }
}

/// Adds the line of a call.
fn tell_call(text: &mut String, line: &str) -> Result<(), Fail> {
    text.push_str(line)?;
    Ok(())
}

/// Adds the line of a datagram.
fn tell_datagram(
    alloc: Global,
    text: &mut String,
    how: &str,
    face: Face,
    datagram: &Octets,
) -> Result<(), Fail> {
    let (face, digits) = (named(face), hex::encode(alloc, datagram.as_slice())?);
    write!(text, "{how} {face} {digits}\n")?;
    Ok(())
}

/// Adds a text that was written.
fn add(text: &mut String, written: &Octets) -> Result<(), Fail> {
    let Ok(written) = str::from_utf8(written.as_slice()) else {
        return Err(Fail::new("what is written isn't UTF-8"));
    };
    text.push_str(written)?;
    Ok(())
}
