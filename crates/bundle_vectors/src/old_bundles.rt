//! Bundles of version 6: octets that are read and written again, and refusals.

ghost use Rattle.bundle6.specs.Legal.{IsLegal};

use crate::rows::{is, octets};
use bundle6::{Blocks6, Bundle6, Fail6, decode6, encode6, judge6};
use std::alloc::Global;
use std::test::Fail;

/// From ipn:1.1 to ipn:2.1, made in second 1000, with the payload `abc`.
const NUMBERED: &str = "0681100d02010101000000008768053c00010803616263";

/// The same from dtn://a/x to dtn://b/y.
const NAMED: &str =
    "068110220004000a001000108768053c1564746e002f2f622f79002f2f612f78006e6f6e6500010803616263";

/// One whose second block refers to three endpoints.
const REFERRING: &str =
    "069c81014500040004080c0012028952043669706e00312e300064746e0059444c7e2b00312e3200322e3200302e3138343436373434303733373039353531363135006e6f6e6500262701010146135f030016001a083104fbe1d287";

/// Octets of a bundle, and what is written of it.
const WRITTEN: &[(&str, &str)] = &[
    (NUMBERED, NUMBERED),
    (NAMED, NAMED),
    (REFERRING, REFERRING),
    // Flags with a group of zeros in front.
    ("068081100d02010101000000008768053c00010803616263", NUMBERED),
    // A count of no references.
    ("0681100d02010101000000008768053c0001480003616263", NUMBERED),
    // Names as texts, though numbers would do.
    (
        "06811022000400080c100c108768053c1569706e00322e3100312e310064746e006e6f6e6500010803616263",
        NUMBERED,
    ),
    // A block of another type in front of the payload.
    (
        "0681100d02010101000000008768053c00050001ff010803616263",
        "0681100d02010101000000008768053c00050001ff010803616263",
    ),
];

/// Whether a bundle is written so.
fn is_encoded(alloc: Global, bundle: &Bundle6, wanted: &str) -> Result<bool, Fail>
    requires { IsLegal bundle.now }
{
    let again = encode6(alloc, bundle)?;
    is(alloc, &again, wanted)
}

/// Whether octets with more after them are read and judged to their end, and written so.
fn is_written(alloc: Global, text: &str, wanted: &str) -> Result<bool, Fail> {
    let mut stream = octets(alloc, text)?;
    let size = stream.len();
    stream.push(0x06)?;
    match decode6(alloc, &stream) {
        Ok((bundle, used)) => {
            let ended = used == size && judge6(&stream) == Ok(size);
            Ok(ended && is_encoded(alloc, &bundle, wanted)?)
        }
        Err(_) => Ok(false),
    }
}

#[test]
fn bundles_are_written_in_their_canonical_octets(rt: HostRuntime) -> Result<(), Fail> {
    for &(text, wanted) in WRITTEN {
        assert!(rt; is_written(rt.alloc(), text, wanted)?, "{text}");
    }
    Ok(())
}

/// Whether octets are judged to be refused at a place for a cause.
fn is_judged(bytes: &[u8], place: usize, word: &str) -> bool {
    match judge6(bytes) {
        Err(refused) => refused.at == place && refused.cause.word() == word,
        Ok(_) => false,
    }
}

/// Whether octets are refused at a place for a cause.
fn is_refused(alloc: Global, bytes: &[u8], place: usize, word: &str) -> bool {
    match decode6(alloc, bytes) {
        Err(Fail6::Refused { at, cause }) => {
            at == place && cause.word() == word && is_judged(bytes, place, word)
        }
        _ => false,
    }
}

/// Bundles, and the places of their fields.
const PLACES: &[(&str, &[usize])] = &[
    (
        NUMBERED,
        &[
            0, 1, 3, 4, 5, 6, 7, 8, 9, 10, 11, 12, 14, 15, 16, 17, 18, 19, 20,
        ],
    ),
    (
        NAMED,
        &[
            0, 1, 3, 4, 5, 6, 7, 8, 9, 10, 11, 12, 14, 15, 16, 17, 38, 39, 40, 41,
        ],
    ),
];

/// Whether each front is refused where the field begins that it ends in.
fn cuts_are_refused(alloc: Global, bytes: &[u8], places: &[usize]) -> bool {
    let mut field = 0;
    for end in 0..bytes.len() {
        if places.contains(&end) {
            field = end;
        }
        if !is_refused(alloc, &bytes[..end], field, "Truncated") {
            return false;
        }
    }
    true
}

#[test]
fn each_cut_stands_at_its_field(rt: HostRuntime) -> Result<(), Fail> {
    for &(text, places) in PLACES {
        let bytes = octets(rt.alloc(), text)?;
        assert!(rt; cuts_are_refused(rt.alloc(), &bytes, places), "{text}");
    }
    Ok(())
}

/// Octets, the place where they are no bundle, and the cause: one row a cause. rows/check has more.
const REFUSED: &[(&str, usize, &str)] = &[
    ("", 0, "Truncated"),
    ("07", 0, "Version"),
    ("06ffffffffffffffffff7f", 1, "Number"),
    ("0681100d02010101000000008768053c0101", 17, "Names"),
    ("0681100e02010101000000008768053c000108", 17, "PrimaryEnd"),
    (
        "0681100d02010101000000008768053c00010003616263010800",
        23,
        "SecondPayload",
    ),
    (
        "0681100d02010101000000008768053c00020803616263",
        18,
        "NoPayload",
    ),
    (
        "068110220004000a001000108768053c1564746e002f2f622f79002f2f612f78006e6f6e6500014801001503616263",
        42,
        "BlockRefs",
    ),
    (
        "0681110f02010101000000008768053c00020201080163",
        21,
        "FragmentRange",
    ),
];

#[test]
fn each_cause_stands_at_its_field(rt: HostRuntime) -> Result<(), Fail> {
    for &(text, at, word) in REFUSED {
        let bytes = octets(rt.alloc(), text)?;
        assert!(rt; is_refused(rt.alloc(), &bytes, at, word), "{text}");
    }
    Ok(())
}

/// Whether the blocks of a bundle are the same, taken out and put in again.
fn blocks_stay(alloc: Global, blocks: Blocks6) -> Result<bool, Fail> {
    let count = blocks.len();
    let mut again = Blocks6::new(alloc);
    for block in blocks.into_vec() {
        again.push(block)?;
    }
    Ok(again.len() == count && Blocks6::from_vec(again.into_vec()).as_slice().len() == count)
}

#[test]
fn blocks_are_a_list(rt: HostRuntime) -> Result<(), Fail> {
    let bytes = octets(rt.alloc(), REFERRING)?;
    match decode6(rt.alloc(), &bytes) {
        Ok((bundle, _)) => assert!(rt; blocks_stay(rt.alloc(), bundle.blocks)?),
        Err(_) => assert!(rt; false),
    }
    Ok(())
}
