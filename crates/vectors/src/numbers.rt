//! Numbers of RFC 5050 and their spellings.

use crate::lines::octets;
use sdnv::{SdnvFault, len, read, write};
use std::alloc::Global;
use std::test::Fail;

/// Numbers and their shortest spellings. The first two are the examples of RFC 5050, section 4.1.
const SHORTEST: &[(u64, &str)] = &[
    (0xABC, "953C"),
    (0x1234, "A434"),
    (0, "00"),
    (127, "7F"),
    (128, "8100"),
    (16383, "FF7F"),
    (18446744073709551615, "81FFFFFFFFFFFFFFFF7F"),
];

/// Whether a number is written so, and read again with more after it.
fn is_spelled(alloc: Global, value: u64, text: &str) -> Result<bool, Fail> {
    let spelling = octets(alloc, text)?;
    let mut out = Vec::new(alloc);
    write(value, &mut out)?;
    let written = out.as_slice() == spelling.as_slice() && len(value) == spelling.len();
    write(1, &mut out)?;
    Ok(written && read(&out) == Ok((value, spelling.len())))
}

#[test]
fn numbers_have_a_shortest_spelling(rt: HostRuntime) -> Result<(), Fail> {
    for &(value, text) in SHORTEST {
        assert!(rt; is_spelled(rt.alloc(), value, text)?, "{value}");
    }
    Ok(())
}

/// Octets, and the number and the length of its text, or the fault.
const READ: &[(&str, Result<(u64, usize), SdnvFault>)] = &[
    ("80807F", Ok((127, 3))),
    ("80808080808080808001", Ok((1, 10))),
    ("80FFFFFFFFFFFFFFFF7F", Ok((9223372036854775807, 10))),
    ("FFFFFFFFFFFFFFFFFF7F", Err(SdnvFault::TooLarge)),
    ("82808080808080808000", Err(SdnvFault::TooLarge)),
    ("80808080808080808080", Err(SdnvFault::TooLong)),
    ("8080808080808080808000", Err(SdnvFault::TooLong)),
    ("FFFFFFFFFFFFFFFFFFFF7F", Err(SdnvFault::TooLong)),
    ("808080808080808080", Err(SdnvFault::Short)),
    ("81", Err(SdnvFault::Short)),
    ("", Err(SdnvFault::Short)),
];

#[test]
fn texts_are_read_or_refused(rt: HostRuntime) -> Result<(), Fail> {
    for &(text, wanted) in READ {
        assert!(rt; read(&octets(rt.alloc(), text)?) == wanted, "{text}");
    }
    Ok(())
}
