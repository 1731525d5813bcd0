//! The basic kinds of fields, and waybills whose octets were put together by hand.

use crate::lines::octets;
use std::alloc::Global;
use std::test::Fail;
use waybill::{Cause, Fail as Refusal, Item, Part, decode, decode_whole};
use wire_fields::{
    ARRAY, Miss, UnsignedOrText, head_at, number_at, octet_at, octets_at, unsigned_or_text_at,
};

/// Octets that the rows below read at a place.
const TEXT: [u8; 6] = [0x05, 0x81, 0x00, 0x84, 0x63, 0x18];

#[test]
fn octets_and_numbers_are_read_at_a_place(rt: HostRuntime) {
    let text = TEXT.as_slice();
    assert!(rt; octet_at(text, 5) == Ok((0x18, 6)));
    assert!(rt; octet_at(text, 6) == Err(Miss::Truncated));
    assert!(rt; octets_at(text, 1, 2) == Ok((b"\x81\x00".as_slice(), 3)));
    assert!(rt; octets_at(text, 1, 6) == Err(Miss::Truncated));
    assert!(rt; octets_at(text, 1, 18446744073709551615) == Err(Miss::Truncated));
    assert!(rt; number_at(text, 1) == Ok((128, 3)));
}

#[test]
fn heads_are_read_at_a_place(rt: HostRuntime) {
    let text = TEXT.as_slice();
    assert!(rt; head_at(text, 3, ARRAY) == Ok((4, 4)));
    assert!(rt; head_at(text, 4, ARRAY) == Err(Miss::Absent));
    assert!(rt; unsigned_or_text_at(text, 0) == Ok((UnsignedOrText::Unsigned(5), 1)));
    assert!(rt; unsigned_or_text_at(text, 4) == Ok((UnsignedOrText::Text(3), 5)));
    assert!(rt; unsigned_or_text_at(text, 5) == Err(Miss::Truncated));
}

/// Two seals, a part sent by `ab`, goods, a last item, the sum of these 16 octets, the seals.
const WHOLE: &str = "57020105626162030a010701ff020900ca048100";

/// Where octets are refused, and for what.
fn refusal_of(alloc: Global, bytes: &[u8]) -> Option<(usize, Cause)> {
    match decode(alloc, bytes) {
        Err(Refusal::Refused { at, cause }) => Some((at, cause)),
        _ => None,
    }
}

#[test]
fn a_waybill_is_read(rt: HostRuntime) -> Result<(), Fail> {
    let bytes = octets(rt.alloc(), WHOLE)?;
    let bill = decode_whole(rt.alloc(), &bytes)?;
    let part = Part {
        offset: 3,
        total: 10,
    };
    assert!(rt; bill.front.sender == Some(b"ab".as_slice()));
    assert!(rt; bill.front.part == Some(part));
    let items = [Item { kind: 1, number: 7 }, Item { kind: 2, number: 9 }];
    assert!(rt; bill.items.as_slice() == items.as_slice());
    assert!(rt; bill.seals.as_slice() == [4, 128].as_slice());
    Ok(())
}

#[test]
fn a_cut_waybill_ends_inside_a_field(rt: HostRuntime) -> Result<(), Fail> {
    let bytes = octets(rt.alloc(), WHOLE)?;
    for length in 0..bytes.len() {
        let at = match length {
            6 => 5,
            19 => 18,
            _ => length,
        };
        let refusal = refusal_of(rt.alloc(), &bytes[..length]);
        assert!(rt; refusal == Some((at, Cause::Truncated)), "{length}");
    }
    Ok(())
}

/// Octets, the place where they are no waybill, and why.
const REFUSED: [(&str, usize, Cause); 19] = [
    ("58", 0, Cause::Mark),
    ("5710", 1, Cause::Count),
    ("5700808080808080808080", 2, Cause::Truncated),
    ("570080808080808080808080", 2, Cause::Number),
    ("5700000105", 4, Cause::Sender),
    ("5700000160", 4, Cause::Sender),
    ("5700000169", 4, Cause::Sender),
    ("5700000181", 4, Cause::Sender),
    ("5700000118", 4, Cause::Truncated),
    ("570000011800", 4, Cause::Sender),
    ("57000103000505", 6, Cause::Range),
    ("5700000200", 5, Cause::FrontEnd),
    ("570000010004", 5, Cause::Kind),
    ("570000010001070003", 8, Cause::SecondGoods),
    ("570000010000010000020000030000", 14, Cause::TooManyItems),
    ("570000010001010000020000030001", 14, Cause::SecondGoods),
    ("57000001000007000207", 9, Cause::Repeated),
    ("570000010002070052", 8, Cause::Check),
    ("5702000100020700510504", 10, Cause::Order),
];

#[test]
fn each_cause_stands_at_its_place(rt: HostRuntime) -> Result<(), Fail> {
    for (text, at, cause) in REFUSED {
        let bytes = octets(rt.alloc(), text)?;
        assert!(rt;
            refusal_of(rt.alloc(), &bytes) == Some((at, cause)),
            "{text}"
        );
    }
    Ok(())
}

#[test]
fn an_octet_behind_a_waybill_is_refused(rt: HostRuntime) -> Result<(), Fail> {
    let bytes = octets(rt.alloc(), "57000001000207005300")?;
    let refused = Refusal::Refused {
        at: 9,
        cause: Cause::Trailing,
    };
    assert!(rt; decode_whole(rt.alloc(), &bytes).err() == Some(refused));
    assert!(rt; format!(in rt.alloc(); "{refused}")?.as_str() == "Trailing at 9");
    Ok(())
}
