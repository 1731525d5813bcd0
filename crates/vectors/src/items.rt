//! The examples of RFC 8949, appendix A, that lie in the subset, and every first octet.

use crate::lines::octets;
use cbor_lite::{
    CborFault, read_array, read_bool, read_break, read_bytes, read_head, read_head_of, read_text,
    read_uint, write_array, write_bool, write_bytes, write_head, write_text, write_uint,
};
use std::alloc::Global;
use std::test::Fail;

/// A number, the octets after the first one of its shortest head, and the head.
const NUMBERS: &[(u64, usize, &str)] = &[
    (0, 0, "00"),
    (1, 0, "01"),
    (10, 0, "0a"),
    (23, 0, "17"),
    (24, 1, "1818"),
    (25, 1, "1819"),
    (100, 1, "1864"),
    (255, 1, "18ff"),
    (256, 2, "190100"),
    (1000, 2, "1903e8"),
    (65535, 2, "19ffff"),
    (65536, 4, "1a00010000"),
    (1_000_000, 4, "1a000f4240"),
    (4_294_967_295, 4, "1affffffff"),
    (4_294_967_296, 8, "1b0000000100000000"),
    (1_000_000_000_000, 8, "1b000000e8d4a51000"),
    (18_446_744_073_709_551_615, 8, "1bffffffffffffffff"),
];

/// Whether a number is written as this head, and read again with more after it.
fn is_spelled(alloc: Global, value: u64, head: &[u8]) -> Result<bool, Fail> {
    let mut out = Vec::new(alloc);
    write_uint(value, &mut out)?;
    let written = out.as_slice() == head;
    out.push(0xff)?;
    Ok(written && read_uint(&out) == Ok((value, head.len())))
}

/// Whether each front of a head is too short.
fn cuts_are_short(head: &[u8]) -> bool {
    for end in 0..head.len() {
        if read_uint(&head[..end]) != Err(CborFault::Short) {
            return false;
        }
    }
    true
}

/// Whether the number is refused in each head that is longer than this one.
fn longer_are_refused(alloc: Global, value: u64, width: usize) -> Result<bool, Fail> {
    for (first, wider) in [(24u8, 1usize), (25, 2), (26, 4), (27, 8)] {
        let mut head = Vec::new(alloc);
        head.push(first)?;
        for octet in value
            .to_be_bytes()
            .iter()
            .skip(8usize.saturating_sub(wider))
        {
            head.push(*octet)?;
        }
        if wider > width && read_uint(&head) != Err(CborFault::NotShortest) {
            return Ok(false);
        }
    }
    Ok(true)
}

/// Whether a number has this head and no other.
fn has_one_head(alloc: Global, value: u64, width: usize, text: &str) -> Result<bool, Fail> {
    let head = octets(alloc, text)?;
    let spelled = is_spelled(alloc, value, &head)? && cuts_are_short(&head);
    Ok(spelled && longer_are_refused(alloc, value, width)?)
}

#[test]
fn numbers_have_one_head(rt: HostRuntime) -> Result<(), Fail> {
    for &(value, width, text) in NUMBERS {
        assert!(rt; has_one_head(rt.alloc(), value, width, text)?, "{text}");
    }
    Ok(())
}

/// Strings, and what spells them as octets and as text.
const STRINGS: &[(&str, &str, &str)] = &[
    ("", "40", "60"),
    ("01020304", "4401020304", "6401020304"),
    ("61", "4161", "6161"),
    ("49455446", "4449455446", "6449455446"),
    ("225c", "42225c", "62225c"),
    ("e6b0b4", "43e6b0b4", "63e6b0b4"),
    ("f0908591", "44f0908591", "64f0908591"),
];

/// Whether a string is written and read so, as octets and as text.
fn string_is_spelled(alloc: Global, row: (&str, &str, &str)) -> Result<bool, Fail> {
    let body = octets(alloc, row.0)?;
    let bytes = octets(alloc, row.1)?;
    let text = octets(alloc, row.2)?;
    let mut out = Vec::new(alloc);
    write_bytes(&body, &mut out)?;
    write_text(&body, &mut out)?;
    let written = out.as_slice().strip_prefix(bytes.as_slice()) == Some(text.as_slice());
    let wanted = Ok((body.as_slice(), bytes.len()));
    Ok(written && read_bytes(&out) == wanted && read_text(&text) == wanted)
}

#[test]
fn strings_have_one_spelling(rt: HostRuntime) -> Result<(), Fail> {
    for &row in STRINGS {
        assert!(rt; string_is_spelled(rt.alloc(), row)?, "{}", row.2);
    }
    Ok(())
}

#[test]
fn truths_and_arrays_are_written(rt: HostRuntime) -> Result<(), Fail> {
    let mut out = Vec::new(rt.alloc());
    write_bool(false, &mut out)?;
    write_bool(true, &mut out)?;
    write_array(0, &mut out)?;
    write_array(3, &mut out)?;
    write_array(25, &mut out)?;
    write_head(2, 256, &mut out)?;
    assert!(rt; out.as_slice() == b"\xf4\xf5\x80\x83\x98\x19\x59\x01\x00".as_slice());
    assert!(rt; read_head_of(2, b"\x59\x01\x00") == Ok((256, 3)));
    assert!(rt; read_array(b"\x98\x19\x01") == Ok((25, 2)));
    Ok(())
}

#[test]
fn nothing_is_short_of_each_item(rt: HostRuntime) {
    let short = CborFault::Short;
    assert!(rt; read_break(&[]) == Err(short) && read_bool(&[]) == Err(short));
    assert!(rt; read_uint(&[]) == Err(short) && read_array(&[]) == Err(short));
    assert!(rt; read_bytes(&[]) == Err(short) && read_text(&[]) == Err(short));
    assert!(rt; read_head(&[]).err() == Some(short));
}

/// What a head with this first octet is worth, where zeros follow it or nothing does.
fn number_of(first: u8, more: bool) -> Result<(u64, usize), CborFault> {
    match first % 32 {
        0..=23 => Ok((u64::from(first % 32), 1)),
        24..=27 if more => Err(CborFault::NotShortest),
        24..=27 => Err(CborFault::Short),
        _ => Err(CborFault::Kind),
    }
}

/// The length of a string with this first octet, where so many octets are there.
fn size_of(first: u8, there: usize) -> Result<usize, CborFault> {
    let (length, head) = number_of(first, there > 1)?;
    let size = head.saturating_add(length as usize);
    if size <= there {
        Ok(size)
    } else {
        Err(CborFault::Short)
    }
}

/// A head's worth, where its first octet is of this kind.
fn of_kind(
    kind: u8,
    first: u8,
    number: Result<(u64, usize), CborFault>,
) -> Result<(u64, usize), CborFault> {
    if first / 32 == kind {
        number
    } else {
        Err(CborFault::Kind)
    }
}

/// Whether heads, numbers and arrays that begin so are read or refused as they are to be.
fn heads_hold(first: u8, text: &[u8]) -> bool {
    let number = number_of(first, text.len() > 1);
    let head = match read_head(text) {
        Ok((head, size)) => head.major == first / 32 && Ok((head.value, size)) == number,
        Err(fault) => Err(fault) == number,
    };
    head && read_uint(text) == of_kind(0, first, number)
        && read_array(text) == of_kind(4, first, number)
}

/// Whether a string of a kind that begins so is read or refused as it is to be.
fn string_holds(
    kind: u8,
    first: u8,
    there: usize,
    read: Result<(&[u8], usize), CborFault>,
) -> bool {
    match read {
        Ok((_, size)) => first / 32 == kind && size_of(first, there) == Ok(size),
        Err(fault) if first / 32 == kind => size_of(first, there) == Err(fault),
        Err(fault) => fault == CborFault::Kind,
    }
}

/// The same of truth values and of the break.
fn single_octets_hold(first: u8, text: &[u8]) -> bool {
    let truth = match first {
        0xf4 => Ok((false, 1)),
        0xf5 => Ok((true, 1)),
        _ => Err(CborFault::Kind),
    };
    let end = if first == 0xff {
        Ok(1)
    } else {
        Err(CborFault::Kind)
    };
    read_bool(text) == truth && read_break(text) == end
}

#[test]
fn every_first_octet(rt: HostRuntime) {
    for first in 0..=255u8 {
        let mut text = [0u8; 32];
        text[0] = first;
        for there in [1, 32] {
            let text = &text[..there];
            assert!(rt; heads_hold(first, text), "{first}");
            assert!(rt; string_holds(2, first, there, read_bytes(text)), "{first}");
            assert!(rt; string_holds(3, first, there, read_text(text)), "{first}");
            assert!(rt; single_octets_hold(first, text), "{first}");
        }
    }
}
