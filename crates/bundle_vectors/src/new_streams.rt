//! The first piece of a stream of version 7 bundles.

use crate::rows::octets;
use bundle7::{Fail7, Reader7};
use std::alloc::Global;
use std::test::Fail;

/// How many octets are taken and whether they complete a bundle, or the place and cause of a
/// refusal.
type Told = Result<(usize, bool), (usize, &'static str)>;

/// Pieces, and what is told of them.
const PIECES: &[(&str, Told)] = &[
    (
        "9f8907000182028202018202820101820100821a000f42450019ea5b425a46850101000043616263ff",
        Ok((41, true)),
    ),
    (
        "9f8907000182028202018202820101820100821a000f42450019ea5b425a46850101000043616263ff9f8907000182028202018202820101820100821a000f42450019ea5b425a46850101000043616263ff",
        Ok((41, true)),
    ),
    (
        "9f8907000182028202018202820101820100821a000f42450019ea5b425a46850101000043616263ff61",
        Ok((41, true)),
    ),
    ("", Ok((0, false))),
    (
        "9f8907000182028202018202820101820100821a00",
        Ok((21, false)),
    ),
    (
        "9f8907000182028202018202820101820100821a000f42450019ea5b425a46850101000043616263",
        Ok((40, false)),
    ),
    ("06", Err((0, "Start"))),
    ("9f89071800", Err((3, "Number"))),
    (
        "9f8907000182028202018202820101820100821a000f42450019ea5b425a47850101000043616263ff",
        Err((29, "Crc")),
    ),
    (
        "9f8907000182028202018202820101820100821a000f42450019ea5b425a4685010100004361626300",
        Err((40, "Break")),
    ),
];

/// Whether this is told of the first piece of a stream.
fn tells(alloc: Global, text: &str, wanted: Told) -> Result<bool, Fail> {
    let piece = octets(alloc, text)?;
    let mut reader = Reader7::new(alloc);
    Ok(match reader.feed(&piece) {
        Ok(fed) => wanted == Ok((fed.used, fed.bundle.is_some())),
        Err(Fail7::Refused { at, cause }) => wanted == Err((at, cause.word())),
        Err(Fail7::Memory) => false,
    })
}

#[test]
fn first_pieces(rt: HostRuntime) -> Result<(), Fail> {
    for &(text, wanted) in PIECES {
        assert!(rt; tells(rt.alloc(), text, wanted)?, "{text}");
    }
    Ok(())
}
