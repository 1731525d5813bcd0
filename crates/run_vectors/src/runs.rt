//! What the tables share: a run of words over an input in memory, and octets written in hex.
ghost use Rattle.std.specs.Prelude.{◌≡◌};

use edge_traits::{
    MemClock, MemLink, MemSink, MemSource, Sink, Source, Status, SureSink, SureSource,
};
use gateway_run::{Word, run};
use std::alloc::{AllocError, Global};
use std::test::Fail;

/// A red part in one piece: originator 1, session 7, the octets `abc`.
pub(crate) const WHOLE: &str = "030107000100030800616263\n";

/// Room for what a row writes.
const ROOM: usize = 4096;

/// The octets that a row writes in hex.
pub(crate) fn octets(alloc: Global, text: &str) -> Result<Vec<u8>, Fail> {
    match hex::decode(alloc, text.as_bytes()) {
        Ok(octets) => Ok(octets),
        Err(_) => Err(Fail::new("a row isn't hex")),
    }
}

/// The words.
fn words(alloc: Global, texts: &[&str]) -> Result<Vec<Word>, AllocError> {
    let mut words = Vec::new(alloc);
    for text in texts {
        words.push(Word::new(String::from_str(alloc, text)?))?;
    }
    Ok(words)
}

/// Runs the words over this source and sink, with links to which nothing comes and a clock
/// that shows 0.
pub(crate) fn run_over<S: Source, K: Sink>(
    alloc: Global,
    texts: &[&str],
    source: &mut S,
    sink: &mut K,
) -> Result<Status, AllocError>
    requires source { S.faults source.old ≡ 0 }
    requires sink { K.faults sink.old ≡ 0 }
{
    let words = words(alloc, texts)?;
    let mut old_link = MemLink::new(alloc, 0, &[])?;
    let mut new_link = MemLink::new(alloc, 0, &[])?;
    let mut clock = MemClock::new(alloc, &[0])?;
    Ok(run(
        alloc,
        &words,
        source,
        sink,
        &mut old_link,
        &mut new_link,
        &mut clock,
    ))
}

/// Whether a run over octets in memory, where no read or write fails, ends and writes so.
pub(crate) fn surely(
    alloc: Global,
    texts: &[&str],
    input: &[u8],
    output: &str,
    status: Status,
) -> Result<bool, AllocError> {
    let mut source = SureSource::new(alloc, input)?;
    let mut sink = SureSink::new(alloc, ROOM)?;
    let ended = run_over(alloc, texts, &mut source, &mut sink)?;
    Ok(ended == status && sink.octets() == output.as_bytes())
}

/// Whether a run over octets in memory, where these reads and writes fail, ends and writes so.
pub(crate) fn with_faults(
    alloc: Global,
    texts: &[&str],
    input: &[u8],
    failing: (&[bool], &[bool]),
    output: &str,
    status: Status,
) -> Result<bool, AllocError> {
    let mut source = MemSource::new(alloc, input, failing.0)?;
    let mut sink = MemSink::new(alloc, ROOM, failing.1)?;
    let ended = run_over(alloc, texts, &mut source, &mut sink)?;
    Ok(ended == status && sink.octets() == output.as_bytes())
}
