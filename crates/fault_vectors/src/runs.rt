//! What the tables share: words, octets, links in memory, and a run of words over an outside.

use edge_traits::{LONGEST_DATAGRAM, MemClock, MemLink, Sink, Source, Status};
use gateway_run::{Word, run};
use std::alloc::{AllocError, Global};
use std::test::Fail;

/// Room for what a row writes, and for what it sends.
pub(crate) const ROOM: usize = 4096;

/// A gateway, for two turns.
pub(crate) const SERVE: &[&str] = &["serve", "ipn:9.0", "a", "b", "c", "d", "2"];

/// A bundle of version 6, in session 1 of the old node.
pub(crate) const COMES: &str = "0301010001001702000681100d02010101000000008768053c00010803616263";

/// The same bundle in version 7, in the gateway's first session to the new node.
pub(crate) const PASSES: &str =
    "0303010001002902009f8907000182028202018202820101820100821a000f42450019ea5b425a46850101000043616263ff";

/// The moment that clocks show.
const MOMENT: u64 = 1_010_000;

/// How a table writes octets.
#[derive(Clone, Copy)]
pub(crate) enum Form {
    /// As they are.
    Text,
    /// In hex.
    Hex,
}

/// The octets that a table writes so.
pub(crate) fn octets(alloc: Global, form: Form, text: &str) -> Result<Vec<u8>, Fail> {
    match form {
        Form::Text => Ok(Vec::from_slice(alloc, text.as_bytes())?),
        Form::Hex => decoded(alloc, text),
    }
}

/// The octets that a table writes in hex.
fn decoded(alloc: Global, text: &str) -> Result<Vec<u8>, Fail> {
    match hex::decode(alloc, text.as_bytes()) {
        Ok(octets) => Ok(octets),
        Err(_) => Err(Fail::new("a row isn't hex")),
    }
}

/// The words.
fn words(alloc: Global, texts: &[&str]) -> Result<Vec<Word>, AllocError> {
    let mut words = Vec::new(alloc);
    for text in texts {
        words.push(Word::new(String::from_str(alloc, text)?))?;
    }
    Ok(words)
}

/// Both links of a gateway, the old one first.
#[derive(Drop)]
pub(crate) struct Links {
    pub(crate) old: MemLink,
    pub(crate) new: MemLink,
}

/// Links on which this comes, in hex, and of which these calls fail.
pub(crate) fn links_with(
    alloc: Global,
    coming: [&[&str]; 2],
    failing: [&[bool]; 2],
) -> Result<Links, Fail> {
    let old = link(alloc, coming[0], failing[0])?;
    let new = link(alloc, coming[1], failing[1])?;
    Ok(Links { old, new })
}

/// A link on which this comes, in hex, and of which these calls fail.
fn link(alloc: Global, coming: &[&str], failing: &[bool]) -> Result<MemLink, Fail> {
    let mut link = MemLink::new(alloc, ROOM, failing)?;
    for text in coming {
        put(&mut link, decoded(alloc, text)?.as_slice())?;
    }
    Ok(link)
}

/// Has a datagram come on a link.
fn put(link: &mut MemLink, datagram: &[u8]) -> Result<(), Fail> {
    if datagram.len() > LONGEST_DATAGRAM {
        return Err(Fail::new("a row is no datagram"));
    }
    link.put(datagram)?;
    Ok(())
}

/// Whether exactly these datagrams went on a link, in hex.
pub(crate) fn went(alloc: Global, link: &MemLink, wanted: &[&str]) -> Result<bool, Fail> {
    let mut all = Vec::new(alloc);
    let mut lengths = Vec::new(alloc);
    for text in wanted {
        let datagram = decoded(alloc, text)?;
        all.extend_from_slice(&datagram)?;
        lengths.push(datagram.len())?;
    }
    Ok(link.octets() == all.as_slice() && link.lengths() == lengths.as_slice())
}

/// Whether a write that fails is tried at a place of a text: at the first and the last octet of each line, and
/// now and then between them.
pub(crate) fn is_tried(before: &[u8], after: &[u8]) -> bool {
    before.ends_with(b"\n") || after.starts_with(b"\n") || before.len() % 32 == 0
}

/// Runs the words over this source, sink and links.
pub(crate) fn run_over<S: Source, K: Sink>(
    alloc: Global,
    texts: &[&str],
    source: &mut S,
    sink: &mut K,
    links: &mut Links,
) -> Result<Status, AllocError> {
    let words = words(alloc, texts)?;
    let mut clock = MemClock::new(alloc, &[MOMENT])?;
    let (old, new) = (&mut links.old, &mut links.new);
    Ok(run(alloc, &words, source, sink, old, new, &mut clock))
}
