//! Streams of version 6 bundles, fed in pieces of several sizes.

ghost use Rattle.std.specs.Prelude.{◌≡◌, ◌+◌, ◌<◌, ◌≤◌, ◌^◌, length, false, IfOk, IfSome};
ghost use Rattle.bundle_vectors.specs.Streams.{IsAt6};

use crate::rows::octets;
use bundle6::{Fail6, Reader6};
use std::alloc::{AllocError, Global};
use std::fmt::Write;
use std::test::Fail;

/// Streams, and what is told of them: where each bundle ends, and a refusal at its place or the
/// end.
const STREAMS: &[(&str, &str)] = &[
    ("", "end\n"),
    (
        "0681100d02010101000000008768053c000108036162630681100d02010101000000008768053c00010803616263",
        "23\n46\nend\n",
    ),
    // An octet after a bundle, and the beginning of another.
    (
        "0681100d02010101000000008768053c0001080361626361",
        "23\n23 Version\n",
    ),
    (
        "0681100d02010101000000008768053c000108036162630681100d02010101000000008768",
        "23\n37 Truncated\n",
    ),
    // Streams that end inside a field.
    ("06", "1 Truncated\n"),
    ("0681100d020101010000000087", "12 Truncated\n"),
    (
        "0681100d02010101000000008768053c000108036162",
        "20 Truncated\n",
    ),
    // Fields that aren't as they should be.
    ("07", "0 Version\n"),
    ("0681100d02010101000000008768053c0101", "17 Names\n"),
    ("0681100e02010101000000008768053c000108", "17 PrimaryEnd\n"),
    (
        "0681100d02010101000000008768053c00020803616263",
        "18 NoPayload\n",
    ),
];

/// Appends the place where a bundle ends.
fn write_end(text: &mut String, at: usize) -> Result<(), AllocError> {
    write!(text, "{at}\n")
}

/// Appends the place and the cause of a refusal.
fn write_refusal(text: &mut String, at: usize, word: &str) -> Result<(), AllocError> {
    write!(text, "{at} {word}\n")
}

/// Whether the end of a stream is answered so, and again after that.
fn ends(reader: &mut Reader6, text: &mut String) -> Result<bool, AllocError>
    requires { reader.old.spent ≡ false }
{
    let first = reader.finish();
    match first {
        Ok(()) => {
            text.push_str("end\n")?;
            Ok(true)
        }
        Err(Fail6::Refused { at, cause }) => {
            write_refusal(text, at, cause.word())?;
            Ok(reader.finish() == first)
        }
        Err(Fail6::Memory) => Ok(false),
    }
}

/// What a reader takes of a piece that begins at a place of the stream: the place after it. A
/// refusal is told and answered again.
fn take(
    reader: &mut Reader6,
    piece: &[u8],
    at: usize,
    text: &mut String,
) -> Result<Option<usize>, AllocError>
    requires ready { IsAt6 reader.old at }
    requires room { at + length piece.now < 2 ^ 64 }
    ensures ready { IfOk result (λ next. IfSome next (IsAt6 reader.new)) }
    ensures within { IfOk result (λ next. IfSome next (λ place. place ≤ at + length piece.now)) }
{
    match reader.feed(piece) {
        Ok(fed) => {
            let next = at + fed.used;
            if fed.bundle.is_some() {
                write_end(text, next)?;
            }
            Ok(Some(next))
        }
        Err(Fail6::Memory) => Err(AllocError),
        Err(Fail6::Refused { at, cause }) => {
            write_refusal(text, at, cause.word())?;
            if reader.finish() != Err(Fail6::Refused { at, cause }) {
                text.push_str("another answer\n")?;
            }
            Ok(None)
        }
    }
}

/// Whether this is told of a stream that is fed in pieces of so many octets.
fn tells(alloc: Global, stream: &[u8], size: usize, wanted: &str) -> Result<bool, Fail> {
    let mut reader = Reader6::new(alloc);
    let mut text = String::new(alloc);
    let mut at = 0usize;
    'feeding: for _ in 0..stream.len() {
        let end = at.saturating_add(size).min(stream.len());
        match take(&mut reader, &stream[at..end], at, &mut text)? {
            Some(next) => at = next,
            None => return Ok(text.as_str() == wanted),
        }
    }
    Ok(ends(&mut reader, &mut text)? && text.as_str() == wanted)
}

/// Whether this is told of a stream, however it is cut.
fn tells_alike(alloc: Global, row: (&str, &str)) -> Result<bool, Fail> {
    let stream = octets(alloc, row.0)?;
    let one = tells(alloc, &stream, 1, row.1)?;
    let some = tells(alloc, &stream, 7, row.1)?;
    Ok(one && some && tells(alloc, &stream, stream.len(), row.1)?)
}

#[test]
fn cuts_make_no_difference(rt: HostRuntime) -> Result<(), Fail> {
    for &row in STREAMS {
        assert!(rt; tells_alike(rt.alloc(), row)?, "{}", row.0);
    }
    Ok(())
}
