//! Blocks that are judged, and the reports on them.

ghost use Rattle.std.specs.Prelude.{◌<◌, IfOk};
ghost use Rattle.gate_cases.specs.Promises.{AreAskable, IsAskable};

use bundle6::Cause6;
use bundle7::Cause7;
use endpoint::{Endpoint, Octets};
use gate_cases::{
    AskedReport, BLOCK_MAX, BadCause, Face, GateCase, Judged, NUMBERS, Room, SENDING_MAX, judge,
};
use std::alloc::Global;
use std::test::Fail;
use translate::Refused;

/// Of version 6, from ipn:1.1 to ipn:2.1 with the payload `abc`; and the same in version 7. They expire
/// at 1,060,000.
const SIX: &str = "0681100d02010101000000008768053c00010803616263";

const SEVEN: &str =
    "9f8907000182028202018202820101820100821a000f42450019ea5b425a46850101000043616263ff";

/// As the first, and it must not be cut; and the same in version 7.
const SIX_WHOLE: &str = "0681140d02010101000000008768053c00010803616263";

const SEVEN_WHOLE: &str =
    "9f8907040182028202018202820101820100821a000f42450019ea5b427a0d850101000043616263ff";

/// The pieces of two octets in version 7.
const SEVEN_FRONT: &str =
    "9f8b07010182028202018202820101820100821a000f42450019ea5b0003426fb08501010000426162ff";

const SEVEN_END: &str =
    "9f8b07010182028202018202820101820100821a000f42450019ea5b020342793885010100004163ff";

/// There is all the room.
const ROOM: Room = Room {
    sending: 0,
    next_session: 1,
};

/// The moment at which blocks come, unless a row has another.
const NOW: u64 = 1_010_000;

/// Past every bundle's life.
const LATE: u64 = 1_060_001;

fn digit(octet: u8) -> u8
    ensures { result < 16 }
{
    match octet {
        b'0'..=b'9' => octet - b'0',
        b'a'..=b'f' => octet - b'a' + 10,
        _ => 0,
    }
}

/// The octets that are written in hex.
fn octets(alloc: Global, text: &str) -> Result<Vec<u8>, Fail> {
    let mut octets = Vec::new(alloc);
    for pair in text.as_bytes().chunks_exact(2) {
        if let [high, low] = pair {
            octets.push(digit(*high) * 16 + digit(*low))?;
        }
    }
    Ok(octets)
}

/// What is decided about a block in hex, with the greatest pieces.
fn judged(alloc: Global, face: Face, text: &str, now: u64) -> Result<Judged, Fail>
    ensures { IfOk result (λ given. AreAskable given.report) }
{
    Ok(judge(alloc, face, &octets(alloc, text)?, now, 65_536, ROOM)?)
}

/// Whether the bundle goes on in these pieces in hex, and no report is asked for.
fn goes_on(alloc: Global, given: &Judged, pieces: &[&str]) -> Result<bool, Fail> {
    let mut same = is_passed(given) && given.pieces.len() == pieces.len();
    for (piece, text) in given.pieces.as_slice().iter().zip(pieces.iter()) {
        if piece.as_slice() != octets(alloc, text)?.as_slice() {
            same = false;
        }
    }
    Ok(same)
}

fn is_passed(given: &Judged) -> bool {
    given.case == GateCase::Passed && given.report.is_none()
}

/// Whether the bundle is stopped for this case, and no report is asked for.
fn is_stopped(given: &Judged, case: GateCase) -> bool {
    given.case == case && given.pieces.len() == 0 && given.report.is_none()
}

/// Whether this goes on of a block in hex.
fn gives(alloc: Global, face: Face, text: &str, there: &str) -> Result<bool, Fail> {
    goes_on(alloc, &judged(alloc, face, text, NOW)?, &[there])
}

/// Whether a block in hex is stopped for this case.
fn stops(alloc: Global, face: Face, text: &str, now: u64, case: GateCase) -> Result<bool, Fail> {
    Ok(is_stopped(&judged(alloc, face, text, now)?, case))
}

#[test]
fn bundles_pass(rt: HostRuntime) -> Result<(), Fail> {
    assert!(rt; gives(rt.alloc(), Face::Old, SIX, SEVEN)?);
    assert!(rt; gives(rt.alloc(), Face::New, SEVEN, SIX)?);
    Ok(())
}

/// Whether a block in hex isn't exactly one bundle for this cause, whose name is the word.
fn is_bad(
    alloc: Global,
    face: Face,
    text: &str,
    at: usize,
    cause: BadCause,
    word: &str,
) -> Result<bool, Fail> {
    let message = format!(in alloc; "{cause}")?;
    let named = message.as_str() == word && cause.word() == word;
    Ok(named && stops(alloc, face, text, NOW, GateCase::BadBundle { at, cause })?)
}

/// Blocks that aren't exactly one bundle of the face's version, with the place and the cause.
const BAD: &[(Face, &str, usize, BadCause, &str)] = &[
    (
        Face::Old,
        "616263",
        0,
        BadCause::Six {
            cause: Cause6::Version,
        },
        "Version",
    ),
    (
        Face::Old,
        "0681100d02010101000000008768053c000108036162",
        20,
        BadCause::Six {
            cause: Cause6::Truncated,
        },
        "Truncated",
    ),
    (
        Face::Old,
        "0681100d02010101000000008768053c0001080361626306",
        23,
        BadCause::Trailing,
        "Trailing",
    ),
    (
        Face::New,
        "9f8907000182028202018202820101820100821a000f42450019ea5b425a47850101000043616263ff",
        29,
        BadCause::Seven { cause: Cause7::Crc },
        "Crc",
    ),
    (
        Face::New,
        SIX,
        0,
        BadCause::Seven {
            cause: Cause7::Start,
        },
        "Start",
    ),
];

#[test]
fn bad_blocks_are_told_by_place_and_cause(rt: HostRuntime) -> Result<(), Fail> {
    for (face, text, at, cause, word) in BAD {
        assert!(rt;
            is_bad(rt.alloc(), *face, text, *at, *cause, word)?,
            "{text}"
        );
    }
    Ok(())
}

#[test]
fn a_bundle_passes_until_it_expires(rt: HostRuntime) -> Result<(), Fail> {
    let given = judged(rt.alloc(), Face::Old, SIX, LATE - 1)?;
    assert!(rt; goes_on(rt.alloc(), &given, &[SEVEN])?);
    assert!(rt; stops(rt.alloc(), Face::Old, SIX, LATE, GateCase::Expired)?);
    Ok(())
}

/// Of 30 hops 29 are made; and the same on the other face, where one more is.
const HOPS: &str = "\
    9f8907000182028202018202820101820100821a000f42450019ea5b425a46850a0200004582181e181d85010100\
    0043616263ff";

const HOPS_THERE: &str =
    "0681100d02010101000000008768053c00c1000d423637470a02000082181e181e010803616263";

/// Of 30 hops all are made.
const NO_HOP: &str = "\
    9f8907000182028202018202820101820100821a000f42450019ea5b425a46850a0200004582181e181e85010100\
    0043616263ff";

#[test]
fn a_hop_is_counted(rt: HostRuntime) -> Result<(), Fail> {
    assert!(rt; gives(rt.alloc(), Face::New, HOPS, HOPS_THERE)?);
    assert!(rt; stops(rt.alloc(), Face::New, NO_HOP, NOW, GateCase::HopLimit)?);
    // That it has expired comes first.
    assert!(rt; stops(rt.alloc(), Face::New, NO_HOP, LATE, GateCase::Expired)?);
    Ok(())
}

/// With a previous node.
const PREVIOUS: &str = "\
    9f8907000182028202018202820101820100821a000f42450019ea5b425a46850602000045820282050085010100\
    0043616263ff";

/// After the payload there are a previous node and another block; and of these the other alone.
const AFTER: &str = "\
    0681100d02010101000000008768053c00010003616263c1000d42363747060200008202820500c1080942363747\
    1403000078";

const AFTER_THERE: &str = "\
    9f8907000182028202018202820101820100821a000f42450019ea5b425a468518c0020100554236374781100864\
    746e3a6e6f6e6500010000000085140300004178850101000043616263ff";

#[test]
fn the_previous_node_stays_behind(rt: HostRuntime) -> Result<(), Fail> {
    assert!(rt; gives(rt.alloc(), Face::New, PREVIOUS, SIX)?);
    assert!(rt; gives(rt.alloc(), Face::Old, AFTER, AFTER_THERE)?);
    Ok(())
}

/// How many pieces there would be, the open sessions, the next number, and whether there is room.
const ROOMS: &[(usize, usize, u64, bool)] = &[
    (1, SENDING_MAX - 1, 1, true),
    (1, SENDING_MAX, 1, false),
    (2, SENDING_MAX - 2, 1, true),
    (2, SENDING_MAX - 1, 1, false),
    (1, 0, NUMBERS - 1, true),
    (2, 0, NUMBERS - 1, false),
    (1, 0, NUMBERS, false),
];

/// The most octets that a piece of the first has, where it is one piece or two.
fn cut_of(pieces: usize) -> u64
    ensures { 0 < result }
{
    if pieces == 1 { 3 } else { 2 }
}

/// Whether the first goes on in one piece or in two, or else is stopped for want of room.
fn has_room(alloc: Global, pieces: usize, room: Room, enough: bool) -> Result<bool, Fail> {
    let given = judge(
        alloc,
        Face::Old,
        &octets(alloc, SIX)?,
        NOW,
        cut_of(pieces),
        room,
    )?;
    Ok(if enough {
        is_passed(&given) && given.pieces.len() == pieces
    } else {
        is_stopped(&given, GateCase::Storage)
    })
}

#[test]
fn pieces_want_sessions(rt: HostRuntime) -> Result<(), Fail> {
    for (pieces, sending, next_session, enough) in ROOMS {
        let room = Room {
            sending: *sending,
            next_session: *next_session,
        };
        assert!(rt;
            has_room(rt.alloc(), *pieces, room, *enough)?,
            "{pieces} {sending} {next_session}"
        );
    }
    Ok(())
}

/// Whether these pieces go on of a block in hex that is cut into twos.
fn in_twos(alloc: Global, text: &str, pieces: &[&str]) -> Result<bool, Fail> {
    let given = judge(alloc, Face::Old, &octets(alloc, text)?, NOW, 2, ROOM)?;
    goes_on(alloc, &given, pieces)
}

#[test]
fn a_payload_is_cut(rt: HostRuntime) -> Result<(), Fail> {
    assert!(rt; in_twos(rt.alloc(), SIX, &[SEVEN_FRONT, SEVEN_END])?);
    // A bundle that must not be cut stays whole.
    assert!(rt; in_twos(rt.alloc(), SIX_WHOLE, &[SEVEN_WHOLE])?);
    Ok(())
}

/// The case of a block that comes at the old face.
fn case_of(alloc: Global, block: &[u8], room: Room) -> Result<GateCase, Fail> {
    Ok(judge(alloc, Face::Old, block, NOW, 65_536, room)?.case)
}

/// As the bundle that must not be cut, with a payload of 4 MiB.
fn long(alloc: Global) -> Result<Vec<u8>, Fail> {
    let mut block = octets(alloc, "0681140d02010101000000008768053c00010882808000")?;
    for _ in 0..BLOCK_MAX {
        block.push(0)?;
    }
    Ok(block)
}

#[test]
fn a_piece_that_is_too_long_has_no_room(rt: HostRuntime) -> Result<(), Fail> {
    let block = long(rt.alloc())?;
    assert!(rt; case_of(rt.alloc(), &block, ROOM)? == GateCase::Storage);
    Ok(())
}

/// As the first with these flags, and with 64 blocks more.
fn many(alloc: Global, front: &str) -> Result<Vec<u8>, Fail> {
    let mut block = octets(alloc, front)?;
    for _ in 0..64 {
        block.push(2)?;
        block.push(0)?;
        block.push(0)?;
    }
    for octet in octets(alloc, "010803616263")? {
        block.push(octet)?;
    }
    Ok(block)
}

/// There are no sessions left.
const FULL: Room = Room {
    sending: SENDING_MAX,
    next_session: 1,
};

#[test]
fn too_many_blocks_come_before_want_of_room(rt: HostRuntime) -> Result<(), Fail> {
    let too_many = GateCase::Untranslated {
        cause: Refused::TooManyBlocks,
    };
    let block = many(rt.alloc(), "0681100d02010101000000008768053c00")?;
    assert!(rt; case_of(rt.alloc(), &block, ROOM)? == GateCase::Passed);
    // Priority expedited wants a residue.
    let block = many(rt.alloc(), "0682100d02010101000000008768053c00")?;
    assert!(rt; case_of(rt.alloc(), &block, ROOM)? == too_many);
    assert!(rt; case_of(rt.alloc(), &block, FULL)? == too_many);
    Ok(())
}

/// What comes at a face at a moment, its case, and the report on it with its number.
struct Reported {
    face: Face,
    text: &'static str,
    now: u64,
    case: GateCase,
    counter: u64,
    report: &'static str,
}

const REPORTED: &[Reported] = &[
    Reported {
        face: Face::Old,
        text: "069081180d02010101010100008768053c00010803616263",
        now: NOW,
        case: GateCase::Untranslated {
            cause: Refused::CustodyAsked,
        },
        counter: 0,
        report: "0681120f010109000000000087720085a300000108111010008772008768050769706e3a312e31",
    },
    // A fragment, of which reception, forwarding and deletion are asked for.
    Reported {
        face: Face::Old,
        text: "069581110f02010101010100008768053c000714010803616263",
        now: 1_010_123,
        case: GateCase::Passed,
        counter: 3,
        report: "\
            0681121001010900000000008772983385a3000001081c11050007038772bad3a9408772bad3a9408768\
            050769706e3a312e31",
    },
    // Reception and deletion, first without times.
    Reported {
        face: Face::New,
        text: "\
            9f89071a0004400001820282020182028201018202820101821a000f42450019ea5b427bcf8501010000\
            43616263ff",
        now: LATE,
        case: GateCase::Expired,
        counter: 2,
        report: "\
            9f8907020182028201018202820900820100821a00102ca1021a05265c00425c2e850101000058198201\
            848481f581f481f481f5018202820101821a000f424500ff",
    },
    Reported {
        face: Face::New,
        text: "\
            9f89071a0004404001820282020182028201018202820101821a000f42450019ea5b4207878501010000\
            43616263ff",
        now: LATE,
        case: GateCase::Expired,
        counter: 2,
        report: "\
            9f8907020182028201018202820900820100821a00102ca1021a05265c00425c2e850101000058238201\
            848482f51a00102ca181f481f482f51a00102ca1018202820101821a000f424500ff",
    },
];

/// The bundle in which a report goes back from ipn:9.0. Numbers and moments are small here, and the
/// remainders say so.
fn spelled(alloc: Global, asked: &AskedReport, counter: u64, now: u64) -> Result<Octets, Fail>
    requires { IsAskable asked.now }
{
    let gate = Endpoint::Ipn {
        node: 9,
        service: 0,
    };
    Ok(asked.spell(alloc, &gate, counter % 256, now % 10_000_000)?)
}

/// Whether the case and the report are those of the row.
fn is_reported(alloc: Global, row: &Reported) -> Result<bool, Fail> {
    let given = judged(alloc, row.face, row.text, row.now)?;
    let Some(asked) = &given.report else {
        return Ok(false);
    };
    let report = spelled(alloc, asked, row.counter, row.now)?;
    let same = report.as_slice() == octets(alloc, row.report)?.as_slice();
    Ok(same && given.case == row.case && asked.face() == row.face)
}

#[test]
fn reports_are_spelled(rt: HostRuntime) -> Result<(), Fail> {
    for row in REPORTED {
        let text = row.text;
        assert!(rt; is_reported(rt.alloc(), row)?, "{text}");
    }
    Ok(())
}

/// An administrative bundle, though its flags ask.
const ADMINISTRATIVE: &str = "\
    9f89071a0004400201820282020182028201018202820101821a000f42450019ea5b423a29850101000058198201\
    848481f581f481f481f4008202820101821a000f424500ff";

/// Report-to is null.
const TO_NOBODY: &str = "\
    9f89071a000440000182028202018202820101820100821a000f42450019ea5b42583d850101000043616263ff";

#[test]
fn nobody_is_told_what_nobody_asked(rt: HostRuntime) -> Result<(), Fail> {
    assert!(rt;
        stops(
            rt.alloc(),
            Face::New,
            ADMINISTRATIVE,
            LATE,
            GateCase::Expired
        )?
    );
    assert!(rt; stops(rt.alloc(), Face::New, TO_NOBODY, LATE, GateCase::Expired)?);
    assert!(rt; stops(rt.alloc(), Face::New, SEVEN, LATE, GateCase::Expired)?);
    Ok(())
}
