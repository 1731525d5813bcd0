//! Check values from outside: the catalogues' text of nine digits, the texts of RFC 3720, appendix
//! B.4, for CRC-32C, and the primary block of a bundle.

use crate::lines::octets;
use crc_fields::{Register16, Register32, crc16, crc16_zeroed, crc32c, crc32c_zeroed};
use std::test::Fail;

/// Octets, their CRC-16 X-25 and their CRC-32C.
const CHECKED: &[(&str, u16, u32)] = &[
    ("", 0x0000, 0x0000_0000),
    ("313233343536373839", 0x906e, 0xe306_9283),
    (
        "0000000000000000000000000000000000000000000000000000000000000000",
        0xcd70,
        0x8a91_36aa,
    ),
    (
        "ffffffffffffffffffffffffffffffffffffffffffffffffffffffffffffffff",
        0xe051,
        0x62a8_ab43,
    ),
    (
        "000102030405060708090a0b0c0d0e0f101112131415161718191a1b1c1d1e1f",
        0x53e4,
        0x46dd_794e,
    ),
    // The quick brown fox jumps over the lazy dog
    (
        "54686520717569636b2062726f776e20666f78206a756d7073206f76657220746865206c617a7920646f67",
        0x9358,
        0x2262_0404,
    ),
];

/// Whether two parts of a text give these checks one after the other.
fn parts_give(front: &[u8], back: &[u8], sixteen: u16, thirty_two: u32) -> bool {
    let short = Register16::new().update(front).update(back).finish();
    let long = Register32::new().update(front).update(back).finish();
    short == sixteen && long == thirty_two
}

/// Whether a text has these checks, also where it lies in two parts.
fn has_checks(text: &[u8], sixteen: u16, thirty_two: u32) -> bool {
    for at in 0..text.len() {
        if !parts_give(&text[..at], &text[at..], sixteen, thirty_two) {
            return false;
        }
    }
    crc16(text) == sixteen && crc32c(text) == thirty_two
}

#[test]
fn texts_have_their_checks(rt: HostRuntime) -> Result<(), Fail> {
    for &(text, sixteen, thirty_two) in CHECKED {
        let bytes = octets(rt.alloc(), text)?;
        assert!(rt; has_checks(&bytes, sixteen, thirty_two), "{text}");
    }
    Ok(())
}

/// A primary block with its CRC-16 in the last two octets.
const BLOCK: [u8; 30] = [
    0x89, 0x07, 0x00, 0x01, 0x82, 0x02, 0x82, 0x02, 0x01, 0x82, 0x02, 0x82, 0x01, 0x01, 0x82, 0x01,
    0x00, 0x82, 0x1a, 0x00, 0x0f, 0x42, 0x45, 0x00, 0x19, 0xea, 0x5b, 0x42, 0x5a, 0x46,
];

#[test]
fn a_block_holds_its_own_check(rt: HostRuntime) {
    assert!(rt; crc16_zeroed(&BLOCK, 28) == 0x5a46);
    assert!(rt; crc32c_zeroed(&BLOCK, 26) == 0x6afa_781b);
}
