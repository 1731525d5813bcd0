//! Bundles in pieces.

use bundle_judges::{Judge6, Judge7};
use bundle6::Judged6;
use bundle7::Judged7;
use std::test::Fail;

/// The front of a bundle, inside its primary block.
const FRONT: [u8; 10] = [0x06, 0x81, 0x10, 0x0D, 0x02, 0x01, 0x01, 0x01, 0x00, 0x00];
/// The rest of it.
const REST: [u8; 13] = [
    0x00, 0x00, 0x87, 0x68, 0x05, 0x3C, 0x00, 0x01, 0x08, 0x03, 0x61, 0x62, 0x63,
];

/// A bundle of version 7 with both checks: inside its primary block,
const START: [u8; 20] = [
    0x9F, 0x89, 0x07, 0x1A, 0x00, 0x04, 0x00, 0x40, 0x01, 0x82, 0x02, 0x82, 0x01, 0x00, 0x82, 0x02,
    0x82, 0x02, 0x01, 0x82,
];
/// up to the middle of its payload,
const MIDDLE: [u8; 24] = [
    0x02, 0x82, 0x01, 0x01, 0x82, 0x1A, 0x00, 0x0F, 0x42, 0x45, 0x18, 0xF1, 0x01, 0x42, 0xDF, 0x9B,
    0x86, 0x01, 0x01, 0x01, 0x02, 0x44, 0xA1, 0x2D,
];
/// and to its end.
const END: [u8; 8] = [0x4A, 0x71, 0x44, 0x45, 0x11, 0xED, 0xC3, 0xFF];

#[test]
fn a_bundle_comes_in_two_pieces(rt: HostRuntime) -> Result<(), Fail> {
    let mut judge = Judge6::new(rt.alloc());
    let front = judge.feed(&FRONT);
    assert!(rt;
        front
            == Ok(Judged6 {
                used: 10,
                whole: None
            })
    );
    if front.is_ok() {
        let rest = judge.feed(&REST);
        assert!(rt;
            rest == Ok(Judged6 {
                used: 13,
                whole: Some(23)
            })
        );
        if rest.is_ok() {
            assert!(rt; judge.finish() == Ok(()));
        }
    }
    Ok(())
}

#[test]
fn a_bundle_with_checks_comes_in_three_pieces(rt: HostRuntime) -> Result<(), Fail> {
    let mut judge = Judge7::new(rt.alloc());
    let start = judge.feed(&START);
    assert!(rt;
        start
            == Ok(Judged7 {
                used: 20,
                whole: None
            })
    );
    if start.is_ok() {
        let middle = judge.feed(&MIDDLE);
        assert!(rt;
            middle
                == Ok(Judged7 {
                    used: 24,
                    whole: None
                })
        );
        if middle.is_ok() {
            let end = judge.feed(&END);
            assert!(rt;
                end == Ok(Judged7 {
                    used: 8,
                    whole: Some(52)
                })
            );
            if end.is_ok() {
                assert!(rt; judge.finish() == Ok(()));
            }
        }
    }
    Ok(())
}
