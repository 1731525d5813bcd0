//! Bundles of version 7, the place and cause of each refusal, endpoints and bodies.

use crate::rows::{is, octets};
use bundle7::{
    Blocks7, Bundle7, EidFault, Fail7, Hop, age_of, decode7, encode7, hop_of, judge7, previous_of,
    read_eid, write_eid,
};
use endpoint::Endpoint;
use std::alloc::Global;
use std::test::Fail;

/// From ipn:1.1 to ipn:2.1 with the payload `abc` and a CRC-16 on the primary block.
const PLAIN: &str =
    "9f8907000182028202018202820101820100821a000f42450019ea5b425a46850101000043616263ff";

/// A fragment with four extension blocks, names of both schemes and checks of each type, as another
/// program wrote it.
const RICH: &str =
    "9f8b071a000400010282016f2f2f6e6f64652f67726f75702f7e788202821b0000000100000000008201656e6f6e6532821b80000000000000001a000111701a05265c00051903e844d83a1a49860a0210024582181e181d44fb77970e860619012c0001458202820101428f748507040100451a000100008618c805000240449689a2668601010101581e000102030405060708090a0b0c0d0e0f101112131415161718191a1b1c1d42da12ff";

/// Whether a bundle is written so.
fn is_encoded(alloc: Global, bundle: &Bundle7, wanted: &str) -> Result<bool, Fail> {
    let again = encode7(alloc, bundle)?;
    is(alloc, &again, wanted)
}

/// Whether octets with more after them are read and judged to their end, and written in the same
/// octets.
fn is_written_again(alloc: Global, text: &str) -> Result<bool, Fail> {
    let mut stream = octets(alloc, text)?;
    let size = stream.len();
    stream.push(0x9f)?;
    match decode7(alloc, &stream) {
        Ok((bundle, used)) => {
            let ended = used == size && judge7(&stream) == Ok(size);
            Ok(ended && is_encoded(alloc, &bundle, text)?)
        }
        Err(_) => Ok(false),
    }
}

/// Bundles: the two above, one with an extension block and its CRC-16, and one with no check at
/// all.
const WRITTEN: &[&str] = &[
    PLAIN,
    RICH,
    "9f8907000182028202018202820101820100821a000f42450019ea5b425a46860b0200014042efc5850101000043616263ff",
    "9f8807000082028202018202820101820100821a000f42450019ea5b850101000043616263ff",
];

#[test]
fn bundles_are_written_in_their_octets(rt: HostRuntime) -> Result<(), Fail> {
    for &text in WRITTEN {
        assert!(rt; is_written_again(rt.alloc(), text)?, "{text}");
    }
    Ok(())
}

/// Whether octets are judged to be refused at a place for a cause.
fn is_judged(bytes: &[u8], place: usize, word: &str) -> bool {
    match judge7(bytes) {
        Err(refused) => refused.at == place && refused.cause.word() == word,
        Ok(_) => false,
    }
}

/// Whether octets are refused at a place for a cause.
fn is_refused(alloc: Global, bytes: &[u8], place: usize, word: &str) -> bool {
    match decode7(alloc, bytes) {
        Err(Fail7::Refused { at, cause }) => {
            at == place && cause.word() == word && is_judged(bytes, place, word)
        }
        _ => false,
    }
}

/// The places of the fields of `PLAIN`.
const PLACES: [usize; 30] = [
    0, 1, 2, 3, 4, 5, 6, 7, 8, 9, 10, 11, 12, 13, 14, 15, 16, 17, 18, 19, 24, 25, 28, 29, 31, 32,
    33, 34, 35, 36,
];

#[test]
fn each_cut_stands_at_its_field(rt: HostRuntime) -> Result<(), Fail> {
    let bytes = octets(rt.alloc(), PLAIN)?;
    let mut field = 0;
    for end in 0..bytes.len() {
        if PLACES.contains(&end) || end == 37 || end == 40 {
            field = end;
        }
        let cut = &bytes[..end];
        assert!(rt; is_refused(rt.alloc(), cut, field, "Truncated"), "{end}");
    }
    Ok(())
}

/// How many octets of `PLAIN` stand in front, what stands after them, and the refusal: one row a
/// cause. rows/check has more.
const REFUSED: &[(usize, &str, usize, &str)] = &[
    (0, "06", 0, "Start"),
    (1, "87", 1, "Head"),
    (2, "06", 2, "Version"),
    (3, "1800", 3, "Number"),
    (4, "03", 4, "CrcType"),
    (4, "00", 4, "ItemCount"),
    (5, "82016120", 8, "Eid"),
    (5, "820118", 7, "Truncated"),
    (18, "83", 18, "Timestamp"),
    (28, "44", 28, "Crc"),
    (29, "5a47", 29, "Crc"),
    (
        0,
        "9f8a070100820100820100820100820100000103850101000043616263ff",
        25,
        "FragmentRange",
    ),
    (31, "84", 31, "BlockHead"),
    (31, "850b02000040850c02", 39, "BlockNumber"),
    (36, "63", 36, "Body"),
    (31, "850702000041008507", 39, "Repeated"),
    (31, "850a02000043820001", 37, "ExtensionBody"),
    (31, "860b0200024044cad706d2", 38, "Crc"),
    (40, "00", 40, "Break"),
];

/// Whether the front of `PLAIN` and what stands after it are refused so.
fn row_holds(alloc: Global, row: (usize, &str, usize, &str)) -> Result<bool, Fail> {
    let (front, after, at, word) = row;
    let mut bytes = octets(alloc, PLAIN)?;
    bytes.truncate(front);
    bytes.extend_from_slice(&octets(alloc, after)?)?;
    Ok(is_refused(alloc, &bytes, at, word))
}

#[test]
fn each_cause_stands_at_its_field(rt: HostRuntime) -> Result<(), Fail> {
    for &row in REFUSED {
        assert!(rt; row_holds(rt.alloc(), row)?, "{} {}", row.0, row.1);
    }
    Ok(())
}

/// Whether the extension blocks of a bundle are as many, taken out and put in again.
fn blocks_stay(alloc: Global, blocks: Blocks7) -> bool {
    let count = blocks.len();
    let again = Blocks7::from_vec(blocks.into_vec());
    Blocks7::new(alloc).len() == 0 && again.as_slice().len() == count
}

#[test]
fn blocks_are_a_list(rt: HostRuntime) -> Result<(), Fail> {
    let bytes = octets(rt.alloc(), RICH)?;
    match decode7(rt.alloc(), &bytes) {
        Ok((bundle, _)) => assert!(rt;
            bundle.exts.len() == 4 && blocks_stay(rt.alloc(), bundle.exts)
        ),
        Err(_) => assert!(rt; false),
    }
    Ok(())
}

/// Octets of an endpoint, and its text.
const EIDS: &[(&str, &str)] = &[
    ("820100", "dtn:none"),
    ("82016121", "dtn:!"),
    ("8201652f2f622f79", "dtn://b/y"),
    ("8202820101", "ipn:1.1"),
    ("8202820000", "ipn:0.0"),
    ("8202821bffffffffffffffff17", "ipn:18446744073709551615.23"),
];

/// Whether an endpoint is read of the front of octets, up to this place.
fn is_front(alloc: Global, bytes: &[u8], endpoint: &Endpoint, end: usize) -> Result<bool, Fail> {
    let (read, size) = read_eid(alloc, bytes)?;
    Ok(size == end && read == *endpoint)
}

/// Whether an endpoint is written as these octets, and read with more after it.
fn is_spelled(alloc: Global, bytes: &[u8], endpoint: &Endpoint) -> Result<bool, Fail> {
    let mut out = Vec::new(alloc);
    write_eid(endpoint, &mut out)?;
    let written = out.as_slice() == bytes;
    out.push(0xff)?;
    Ok(written && is_front(alloc, &out, endpoint, bytes.len())?)
}

/// Whether an endpoint is written and read so, and read as previous node.
fn is_eid(alloc: Global, text: &str, name: &str) -> Result<bool, Fail> {
    let bytes = octets(alloc, text)?;
    let endpoint = Endpoint::from_text(alloc, name.as_bytes())?;
    let previous = previous_of(alloc, &bytes)? == endpoint;
    Ok(previous && is_spelled(alloc, &bytes, &endpoint)?)
}

#[test]
fn endpoints_are_read_and_written(rt: HostRuntime) -> Result<(), Fail> {
    for &(text, name) in EIDS {
        assert!(rt; is_eid(rt.alloc(), text, name)?, "{name}");
    }
    Ok(())
}

/// Octets that are no endpoint, or more than one.
const NO_EIDS: &[(&str, bool)] = &[
    ("", false),
    ("8201", false),
    ("820160", false),
    ("82011800", false),
    ("820282010100", true),
    ("820100ff", true),
    ("830100", false),
    ("8203820101", false),
];

/// Whether octets are refused as previous node, and as an endpoint with more after it.
fn is_no_eid(alloc: Global, text: &str, fronts: bool) -> Result<bool, Fail> {
    let bytes = octets(alloc, text)?;
    let read = read_eid(alloc, &bytes).is_ok();
    Ok(read == fronts && previous_of(alloc, &bytes).err() == Some(EidFault::Eid))
}

#[test]
fn other_octets_are_no_endpoint(rt: HostRuntime) -> Result<(), Fail> {
    for &(text, fronts) in NO_EIDS {
        assert!(rt; is_no_eid(rt.alloc(), text, fronts)?, "{text}");
    }
    Ok(())
}

/// Bodies, with limit and count of a hop count, or the age.
const HOPS: &[(&str, Option<Hop>)] = &[
    (
        "82181e181d",
        Some(Hop {
            limit: 30,
            count: 29,
        }),
    ),
    ("820100", Some(Hop { limit: 1, count: 0 })),
    (
        "8218ff1bffffffffffffffff",
        Some(Hop {
            limit: 255,
            count: 18446744073709551615,
        }),
    ),
    ("820001", None),
    ("8219010000", None),
    ("82181d", None),
    ("82011800", None),
    ("82010000", None),
    ("83010000", None),
    ("", None),
];

/// Bodies, with the age of a bundle.
const AGES: &[(&str, Option<u64>)] = &[
    ("00", Some(0)),
    ("1a00010000", Some(65536)),
    ("1bffffffffffffffff", Some(18446744073709551615)),
    ("0000", None),
    ("1800", None),
    ("", None),
];

/// Whether a body is a hop count, and which.
fn is_hop(alloc: Global, text: &str, hop: Option<Hop>) -> Result<bool, Fail> {
    let body = octets(alloc, text)?;
    Ok(hop_of(&body) == hop)
}

/// Whether a body is an age, and which.
fn is_age(alloc: Global, text: &str, age: Option<u64>) -> Result<bool, Fail> {
    let body = octets(alloc, text)?;
    Ok(age_of(&body) == age)
}

#[test]
fn bodies_are_read_exactly(rt: HostRuntime) -> Result<(), Fail> {
    for &(text, hop) in HOPS {
        assert!(rt; is_hop(rt.alloc(), text, hop)?, "{text}");
    }
    for &(text, age) in AGES {
        assert!(rt; is_age(rt.alloc(), text, age)?, "{text}");
    }
    Ok(())
}
