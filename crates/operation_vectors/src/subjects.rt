//! The bundle that a line of the log is about, by the octets of its block. The wanted texts are those of
//! whole runs of an independent model.

use crate::lines::{has, line, subject};
use gate_cases::Face;
use gate_log::{BundleEvent, Event, subject_of};
use std::alloc::Global;
use std::test::Fail;

/// Blocks, and what a line says of the bundle at their front: names of both schemes and nobody's, names
/// that need escapes, fragments, blocks before the payload, octets after the bundle, none.
const SUBJECTS: &[(&str, &str)] = &[
    (
        "068110260004000a00120012877f01bd84401764746e002f2f622f78002f2f612f22795c006e6f6e65000108\
0352d23a",
        r#"{"creation":[1023,1],"destination":"dtn://b/x","fragment":null,"payload":3,"source":"dtn://a/\"y\\","version":6}"#,
    ),
    (
        "068111280004000a001200128e1100bd84401764746e002f2f622f78002f2f612f22795c006e6f6e65001f54\
01080a5945feb80211bc000032",
        r#"{"creation":[1809,0],"destination":"dtn://b/x","fragment":[31,84],"payload":10,"source":"dtn://a/\"y\\","version":6}"#,
    ),
    (
        "06948210170000020101000081ffffffffffffffff7f877287673c00010a245d34e8cfb507dc0de90a95da18\
a6cfd12a67a5632a87e3d743a0bbfa9e58c38586a79a81",
        r#"{"creation":[1010,999],"destination":"dtn:none","fragment":null,"payload":36,"source":"ipn:2.1","version":6}"#,
    ),
    (
        "9f890700018201652f2f622f788201672f2f612f22795c820100821a000f9c19001a3b9ac9ff42a467850101\
00004352d23aff",
        r#"{"creation":[1023001,0],"destination":"dtn://b/x","fragment":null,"payload":3,"source":"dtn://a/\"y\\","version":7}"#,
    ),
    (
        "9f89071a000400040182010082028202008202820101821903e80719072b42754f8501011820004491492b8e\
ff",
        r#"{"creation":[1000,7],"destination":"dtn:none","fragment":null,"payload":4,"source":"ipn:2.0","version":7}"#,
    ),
    (
        "9f8b071a000240010182028201018201636e6f6e820165733e296b5b821a000f694f0019ea60010e4208c886\
0202040248277e4cf06178066a44c5d9be558518c00300004314ebaa85010100004dc584566390fdd284b90b5dfdd3ff",
        r#"{"creation":[1009999,0],"destination":"ipn:1.1","fragment":[1,14],"payload":13,"source":"dtn:non","version":7}"#,
    ),
    (
        "0681100d02010101000000008768053c0001080361626300",
        r#"{"creation":[1000,5],"destination":"ipn:2.1","fragment":null,"payload":3,"source":"ipn:1.1","version":6}"#,
    ),
    ("0681100d02010101000000008768053c000108036162", "null"),
    ("9f8907", "null"),
];

/// What the line of a block that was sent has before its bundle.
const FRONT: &str = "{\"at\":\"2000-01-01T00:00:00.000Z\",\"event\":\"sent\",\
\"face\":\"old\",\"session\":5,\"subject\":";

#[test]
fn the_front_of_a_block_is_the_subject(rt: HostRuntime) -> Result<(), Fail> {
    for (block, shown) in SUBJECTS {
        let event = Event::Bundle {
            face: Face::Old,
            session: 5,
            subject: subject(rt.alloc(), block)?,
            what: BundleEvent::Sent { bundles: None },
        };
        assert!(rt;
            has(rt.alloc(), 0, event, &[FRONT, shown, "}\n"])?,
            "{shown}"
        );
    }
    Ok(())
}

/// A bundle of version 7 whose names have 1,023 octets each, all of which need an escape, and whose
/// numbers have as many digits as there are, but for the payload's.
fn longest(alloc: Global) -> Result<Vec<u8>, Fail> {
    let mut block = hex::decode(alloc, b"9f8a070100".as_slice())?;
    for _ in 0..2 {
        block.extend_from_slice(b"\x82\x01\x79\x03\xff")?;
        for _ in 0..1023 {
            block.push(b'"')?;
        }
    }
    let end = "820100821bffffffffffffffff1bffffffffffffffff001bfffffffffffffffc1bffffffffffffffff";
    block.extend_from_slice(hex::decode(alloc, end.as_bytes())?.as_slice())?;
    block.extend_from_slice(hex::decode(alloc, b"850101000043616263ff".as_slice())?.as_slice())?;
    Ok(block)
}

#[test]
fn the_longest_names_make_the_longest_line(rt: HostRuntime) -> Result<(), Fail> {
    let block = longest(rt.alloc())?;
    let event = Event::Bundle {
        face: Face::Old,
        session: u64::MAX,
        subject: subject_of(rt.alloc(), block.as_slice())?,
        what: BundleEvent::Passed {
            first: Some(u64::MAX),
            pieces: u64::MAX,
        },
    };
    assert!(rt; line(rt.alloc(), u64::MAX, &event)?.len() == 4_429);
    Ok(())
}
