//! Rows of bundles: what stands in a block, and what is decided about each bundle.

ghost use Rattle.std.specs.Prelude.{◌≡◌, IfOk};
ghost use Rattle.face_room.specs.Bounds.{AreBounds};
ghost use Rattle.peer_cases.specs.Items.{IsItem};

use crate::face::octets;
use block_types::{BlockTypes, LeftOut};
use face_room::{Bounds, Load, Waiting, has_room};
use gate_cases::{Face, GateCase};
use peer_cases::{Decision, FaceRoom, Item, Items, PeerSettings, SizedPiece, decide};
use std::alloc::{AllocError, Global};
use std::fmt::Write;
use std::test::Fail;

/// Ten seconds after the bundles of the rows were made.
const NOW: u64 = 1_010_000;

/// The most octets of a payload in one piece.
const CUT: u64 = 1_000_000;

/// The other face is idle, has 256 MiB, and sends each piece alone.
const ROOM: FaceRoom = FaceRoom {
    bounds: Bounds {
        sessions: 64,
        memory: 268_435_456,
        wanted: 0,
        segment: 1024,
        outbox: 536_870_912,
    },
    load: Load {
        next_session: 1,
        kept: 0,
        waiting: Waiting { blocks: 0, last: 0 },
    },
};

/// What an operator set: the types of residues and wraps on the wire, and whether blocks of version 6 are
/// left out.
#[derive(Clone, Copy)]
struct Set {
    residue: u64,
    wrap: u64,
    bare: bool,
}

const PLAIN: Set = Set {
    residue: 192,
    wrap: 193,
    bare: false,
};

const OTHER_TYPES: Set = Set {
    residue: 200,
    wrap: 201,
    bare: false,
};

const BARE: Set = Set {
    residue: 192,
    wrap: 193,
    bare: true,
};

/// The settings of a gateway.
fn settings(set: Set) -> Result<PeerSettings, Fail> {
    let Some(types) = BlockTypes::new(set.residue, set.wrap) else {
        return Err(Fail::new("there are no such types"));
    };
    Ok(PeerSettings {
        types,
        bare: set.bare,
        raises: true,
    })
}

/// Settings, a face, the block that comes there, and the lines of its bundles and its end: the place in the
/// row, where it has more than one bundle or an end; the case; what goes on; why a report is due; and the
/// types of what was left out.
type Row = (Set, Face, &'static str, &'static str);

const ROWS: &[Row] = &[
    // a bundle of which nothing is left out, though other blocks would be
    (
        BARE,
        Face::Old,
        "0681100d02010101000000008768053c00010803616263",
        "Passed\n> 9f8907000182028202018202820101820100821a000f42450019ea5b425a46850101000043616263ff\n",
    ),
    // a bundle
    (
        PLAIN,
        Face::Old,
        "0681100d02010101000000008768053c00010803616263",
        "Passed\n> 9f8907000182028202018202820101820100821a000f42450019ea5b425a46850101000043616263ff\n",
    ),
    // two bundles
    (
        PLAIN,
        Face::Old,
        "0681100d02010101000000008768053c000108036162630681100d02010101000000008768063c00010803616263",
        "1 Passed\n> 9f8907000182028202018202820101820100821a000f42450019ea5b425a46850101000043616263ff\n2 Passed\n> 9f8907000182028202018202820101820100821a000f42460019ea5a42cc2d850101000043616263ff\n",
    ),
    (
        PLAIN,
        Face::New,
        "9f8907000182028202018202820101820100821a000f42450019ea5b425a46850101000043616263ff9f8907000182028202018202820101820100821a000f42460019ea5a42cc2d850101000043616263ff",
        "1 Passed\n> 0681100d02010101000000008768053c00010803616263\n2 Passed\n> 0681100d02010101000000008768063c00010803616263\n",
    ),
    // a bundle, one whose primary block has another length, and a third
    (
        PLAIN,
        Face::Old,
        "0681100d02010101000000008768053c000108036162630681100c02010101000000008768063c000108036162630681100d02010101000000008768053c00010803616263",
        "1 Passed\n> 9f8907000182028202018202820101820100821a000f42450019ea5b425a46850101000043616263ff\n2 end 40 PrimaryEnd\n",
    ),
    // an octet after a bundle
    (
        PLAIN,
        Face::Old,
        "0681100d02010101000000008768053c0001080361626300",
        "1 Passed\n> 9f8907000182028202018202820101820100821a000f42450019ea5b425a46850101000043616263ff\n2 end 23 Version\n",
    ),
    // the first octets of another after a bundle
    (
        PLAIN,
        Face::New,
        "9f8907000182028202018202820101820100821a000f42450019ea5b425a46850101000043616263ff9f8907000182028202018202820101820100821a00",
        "1 Passed\n> 0681100d02010101000000008768053c00010803616263\n2 end 60 Truncated\n",
    ),
    // a residue and a wrap with other types, there and back
    (
        OTHER_TYPES,
        Face::Old,
        "0682100d02010101000000008768053c001300020001010803616263",
        "Passed\n> 9f8907000182028202018202820101820100821a000f42450019ea5b425a468518c8020100554236374782100864746e3a6e6f6e650000000000008518c903000049423637471300000001850101000043616263ff\n",
    ),
    (
        OTHER_TYPES,
        Face::New,
        "9f8907000182028202018202820101820100821a000f42450019ea5b425a468518c8020100554236374782100864746e3a6e6f6e650000000000008518c903000049423637471300000001850101000043616263ff",
        "Passed\n> 0682100d02010101000000008768053c001300020001010803616263\n",
    ),
    // another's block of type 193, on that wire and on a plain one
    (
        OTHER_TYPES,
        Face::New,
        "9f8907000182028202018202820101820100821a000f42450019ea5b425a468518c102000043820100850101000043616263ff",
        "Passed\n> 0681100d02010101000000008768053c00c1000c423637478141020000820100010803616263\n",
    ),
    (
        PLAIN,
        Face::Old,
        "0681100d02010101000000008768053c00c1000c423637478141020000820100010803616263",
        "Passed\n> 9f8907000182028202018202820101820100821a000f42450019ea5b425a468518c102000043820100850101000043616263ff\n",
    ),
    // a bundle of low priority with a block of type 19, of which neither goes on
    (
        BARE,
        Face::Old,
        "0682100d02010101000000008768053c001300020001010803616263",
        "Passed\n> 9f8907000182028202018202820101820100821a000f42450019ea5b425a46850101000043616263ff\nleft 13 true\n",
    ),
    // a bundle that lived for a second and asks for a report of that, before another
    (
        PLAIN,
        Face::Old,
        "069081100d020101010101000087680501000108036162630681100d02010101000000008768053c00010803616263",
        "1 Expired\nreport 1\n2 Passed\n> 9f8907000182028202018202820101820100821a000f42450019ea5b425a46850101000043616263ff\n",
    ),
];

/// A case's name; of those that no row has, none.
fn name_of(case: GateCase) -> &'static str {
    match case {
        GateCase::Passed => "Passed",
        GateCase::Expired => "Expired",
        GateCase::Storage => "Storage",
        _ => "",
    }
}

/// Appends the place in the row, where there is one.
fn write_index(text: &mut String, index: Option<usize>) -> Result<(), AllocError> {
    if let Some(index) = index {
        write!(text, "{index} ")?;
    }
    Ok(())
}

/// Appends the lines of the pieces that go on.
fn write_pieces(alloc: Global, text: &mut String, pieces: &[SizedPiece]) -> Result<(), AllocError> {
    for piece in pieces {
        let digits = hex::encode(alloc, piece.octets.as_slice())?;
        write!(text, "> {digits}\n")?;
    }
    Ok(())
}

/// Appends the line of what was left out.
fn write_left(alloc: Global, text: &mut String, left: &LeftOut) -> Result<(), AllocError> {
    let residue = left.residue;
    let kinds = hex::encode(alloc, left.kinds.as_slice())?;
    write!(text, "left {kinds} {residue}\n")
}

/// Appends the lines of what is decided.
fn write_decision(alloc: Global, text: &mut String, decision: &Decision) -> Result<(), AllocError> {
    let name = name_of(decision.case);
    write!(text, "{name}\n")?;
    write_pieces(alloc, text, decision.pieces.as_slice())?;
    if let Some(report) = &decision.report {
        let reason = report.reason;
        write!(text, "report {reason}\n")?;
    }
    match &decision.left {
        Some(left) => write_left(alloc, text, left),
        None => Ok(()),
    }
}

/// Appends the lines of an item of a row.
fn write_item(
    alloc: Global,
    text: &mut String,
    settings: PeerSettings,
    face: Face,
    item: Item<'_>,
) -> Result<(), AllocError>
    requires { IsItem face item }
{
    match item {
        Item::Bundle { index, octets } => {
            write_index(text, index)?;
            let decision = decide(alloc, settings, face, octets, NOW, CUT, ROOM)?;
            write_decision(alloc, text, &decision)
        }
        Item::End { index, end } => {
            write_index(text, index)?;
            let (at, word) = (end.at, end.cause.word());
            write!(text, "end {at} {word}\n")
        }
    }
}

/// The lines of a block.
fn lines_of(alloc: Global, set: Set, face: Face, block: &str) -> Result<String, Fail> {
    let settings = settings(set)?;
    let block = octets(alloc, block)?;
    let mut items = Items::new(face, &block);
    let mut text = String::new(alloc);
    for _ in 0..4 {
        if let Some(item) = items.next_item() {
            write_item(alloc, &mut text, settings, face, item)?;
        }
    }
    Ok(text)
}

#[test]
fn bundles_of_a_row(rt: HostRuntime) -> Result<(), Fail> {
    let alloc = rt.alloc();
    for &(set, face, block, lines) in ROWS {
        assert_eq!(rt;
            lines_of(alloc, set, face, block)?.as_str(),
            lines,
            "{block}"
        );
    }
    Ok(())
}

/// A face of 32 MiB, at which a piece of 4,000,042 octets waits: that needs twice its octets, and 34 for
/// each of its 3,907 segments. Fifteen sixteenths of the half are 15,728,640 octets.
const FILLED: FaceRoom = FaceRoom {
    bounds: Bounds {
        sessions: 64,
        memory: 33_554_432,
        wanted: 0,
        segment: 1024,
        outbox: 536_870_912,
    },
    load: Load {
        next_session: 1,
        kept: 8_132_922,
        waiting: Waiting {
            blocks: 1,
            last: 4_000_042,
        },
    },
};

#[test]
fn room_for_another_piece(rt: HostRuntime) {
    // 3,649 segments; 7,595,718 octets
    assert!(rt; has_room(FILLED.bounds, FILLED.load, &[3_735_826]));
    assert!(rt; !has_room(FILLED.bounds, FILLED.load, &[3_735_827]));
    assert!(rt; !has_room(FILLED.bounds, FILLED.load, &[4_000_042]));
    // an idle face has room for the greatest piece, and for none above it
    assert!(rt; has_room(FILLED.bounds, ROOM.load, &[4_194_304]));
    assert!(rt; !has_room(ROOM.bounds, ROOM.load, &[4_194_305]));
}
