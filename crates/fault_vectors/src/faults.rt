//! One run of each command, of which each read and each write fails.

use crate::rows::{MADE, ROWS, Row};
use crate::runs::{ROOM, is_tried, links_with, octets, run_over};
use edge_traits::{Reading, Sink, Status, SureSink, Writing};
use std::alloc::Global;
use std::io::{self, ErrorKind, Read};
use std::test::Fail;

/// A reader of std that gives a piece a read. The read before which so many others come is an error,
/// and those after it give what is left.
#[derive(Drop)]
struct Pieces<'a> {
    left: &'a [Vec<u8>],
    before: usize,
}

impl Read for Pieces<'_> {
    fn read(&mut self, buf: &mut [u8]) -> io::Result<usize> {
        let fails = self.before == 0;
        self.before = self.before.wrapping_sub(1);
        if fails {
            return Err(ErrorKind::TimedOut.into());
        }
        let Some((piece, left)) = self.left.split_first() else {
            return Ok(0);
        };
        self.left = left;
        piece.as_slice().read(buf)
    }
}

/// More reads than a run makes: none fails.
const NEVER: usize = 1_000_000;

/// What each read of a row gives.
fn pieces_of(alloc: Global, row: &Row) -> Result<Vec<Vec<u8>>, Fail> {
    let mut pieces = Vec::new(alloc);
    for (piece, _) in row.reads {
        pieces.push(octets(alloc, row.form, piece)?)?;
    }
    Ok(pieces)
}

/// What the first reads of a row settle.
fn settled(alloc: Global, row: &Row, reads: usize) -> Result<String, Fail> {
    let mut text = String::new(alloc);
    for (_, settled) in row.reads.iter().take(reads) {
        text.push_str(settled)?;
    }
    Ok(text)
}

/// Runs a row into a sink. The read before which so many others come fails.
fn run_row<K: Sink>(
    alloc: Global,
    row: &Row,
    pieces: &[Vec<u8>],
    before: usize,
    sink: &mut K,
) -> Result<Status, Fail> {
    let mut source = Reading::new(Pieces {
        left: pieces,
        before,
    });
    let mut links = links_with(alloc, [&[], &[]], [&[], &[]])?;
    let status = run_over(alloc, row.words, &mut source, sink, &mut links)?;
    Ok(status)
}

/// Whether a read that fails after so many others ends the run, and exactly what those settle is
/// written.
fn read_fails_so(
    alloc: Global,
    row: &Row,
    pieces: &[Vec<u8>],
    before: usize,
) -> Result<bool, Fail> {
    let mut sink = SureSink::new(alloc, ROOM)?;
    let status = run_row(alloc, row, pieces, before, &mut sink)?;
    let wanted = settled(alloc, row, before)?;
    Ok(status == Status::ReadFault && sink.octets() == wanted.as_bytes())
}

/// The first read of a row that fails otherwise.
fn wrong_read(alloc: Global, row: &Row) -> Result<Option<usize>, Fail> {
    let pieces = pieces_of(alloc, row)?;
    for before in 0..row.reads.len() {
        if !read_fails_so(alloc, row, &pieces, before)? {
            return Ok(Some(before));
        }
    }
    Ok(None)
}

#[test]
fn a_failed_read_ends_the_run(rt: HostRuntime) -> Result<(), Fail> {
    for row in ROWS {
        let wrong = wrong_read(rt.alloc(), row)?;
        assert!(rt; wrong.is_none(), "{:?} {wrong:?}", row.words);
    }
    Ok(())
}

/// Whether a run ends so into a writer that has room for this and no more, and has exactly this.
fn ends_so(
    alloc: Global,
    row: &Row,
    pieces: &[Vec<u8>],
    wanted: &[u8],
    ends: Status,
) -> Result<bool, Fail> {
    let mut octets = vec![in alloc; 0u8; wanted.len()]?;
    let mut sink = Writing::new(octets.as_mut_slice());
    let status = run_row(alloc, row, pieces, NEVER, &mut sink)?;
    Ok(status == ends && octets.as_slice() == wanted)
}

/// Whether a row ends as it should where there is room for all that its reads settle.
fn is_whole(alloc: Global, row: &Row, wanted: &[u8]) -> Result<bool, Fail> {
    let pieces = pieces_of(alloc, row)?;
    ends_so(alloc, row, &pieces, wanted, row.status)
}

/// The first octet of what a row writes at which a writer without room for it doesn't end the run.
fn wrong_write(alloc: Global, row: &Row, wanted: &[u8]) -> Result<Option<usize>, Fail> {
    let pieces = pieces_of(alloc, row)?;
    for at in 0..wanted.len() {
        let (before, after) = wanted.split_at(at);
        if is_tried(before, after) && !ends_so(alloc, row, &pieces, before, Status::WriteFault)? {
            return Ok(Some(at));
        }
    }
    Ok(None)
}

#[test]
fn a_failed_write_ends_the_run(rt: HostRuntime) -> Result<(), Fail> {
    for row in ROWS.iter().chain(MADE) {
        let wanted = settled(rt.alloc(), row, row.reads.len())?;
        let whole = is_whole(rt.alloc(), row, wanted.as_bytes())?;
        assert!(rt; whole, "{:?}", row.words);
        let wrong = wrong_write(rt.alloc(), row, wanted.as_bytes())?;
        assert!(rt; wrong.is_none(), "{:?} {wrong:?}", row.words);
    }
    Ok(())
}
