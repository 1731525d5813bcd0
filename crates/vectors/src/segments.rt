//! Segments written out by hand, with what they say or why they are refused.

use crate::lines::{octets, write_numbers, write_words};
use endpoint::Octets;
use ltp_segment::{
    BLOCK_MAX, Claim, Claims, Content, Note, Outs, PieceKind, Policy, PolicyFault, Segment,
    SegmentCause, SegmentFault, decode, write_ack, write_cancel, write_cancel_ack, write_piece,
    write_report,
};
use std::alloc::{AllocError, Global};
use std::fmt::Write;
use std::test::Fail;

/// A datagram of each type: its octets, the places of its fields, and those of its numbers. The
/// first has a header extension of one octet and an empty trailer extension.
const EACH_TYPE: &[(&str, &[usize], &[usize], &str)] = &[
    (
        "0301071102016101000308006162630300",
        &[0, 1, 2, 3, 4, 5, 6, 7, 8, 9, 10, 11, 12, 15, 16],
        &[1, 2, 5, 7, 8, 9, 10, 11, 16],
        "1 7 RedEndBlock 1 0 8 0 616263",
    ),
    (
        "00010700010003616263",
        &[0, 1, 2, 3, 4, 5, 6, 7],
        &[1, 2, 4, 5, 6],
        "1 7 Red 1 0 0 0 616263",
    ),
    (
        "010101000184000203026162",
        &[0, 1, 2, 3, 4, 5, 7, 8, 9, 10],
        &[1, 2, 4, 5, 7, 8, 9],
        "1 1 RedCheckpoint 1 512 3 2 6162",
    ),
    (
        "0201070001000208006162",
        &[0, 1, 2, 3, 4, 5, 6, 7, 8, 9],
        &[1, 2, 4, 5, 6, 7, 8],
        "1 7 RedEnd 1 0 8 0 6162",
    ),
    (
        "030107000100030800616263",
        &[0, 1, 2, 3, 4, 5, 6, 7, 8, 9],
        &[1, 2, 4, 5, 6, 7, 8],
        "1 7 RedEndBlock 1 0 8 0 616263",
    ),
    (
        "0401090002050161",
        &[0, 1, 2, 3, 4, 5, 6, 7],
        &[1, 2, 4, 5, 6],
        "1 9 Green 2 5 0 0 61",
    ),
    (
        "0701090001000161",
        &[0, 1, 2, 3, 4, 5, 6, 7],
        &[1, 2, 4, 5, 6],
        "1 9 GreenEndBlock 1 0 0 0 61",
    ),
    (
        "0801010002028930000200840088008130",
        &[0, 1, 2, 3, 4, 5, 6, 8, 9, 10, 11, 13, 15],
        &[1, 2, 4, 5, 6, 8, 9, 10, 11, 13, 15],
        "1 1 report 2 2 1200 0 0+512 1024+176",
    ),
    (
        "0901010000",
        &[0, 1, 2, 3, 4],
        &[1, 2, 4],
        "1 1 report ack 0",
    ),
    (
        "0c01010002",
        &[0, 1, 2, 3, 4],
        &[1, 2],
        "1 1 sender cancel 2",
    ),
    ("0d010100", &[0, 1, 2, 3], &[1, 2], "1 1 sender cancel ack"),
    (
        "0e01070003",
        &[0, 1, 2, 3, 4],
        &[1, 2],
        "1 7 receiver cancel 3",
    ),
    (
        "0f010700",
        &[0, 1, 2, 3],
        &[1, 2],
        "1 7 receiver cancel ack",
    ),
];

/// Appends the kind of a piece.
fn write_kind(text: &mut String, kind: PieceKind) -> Result<(), AllocError> {
    write!(text, " {kind:?}")
}

/// Appends octets in hex, with a blank before them.
fn write_octets(alloc: Global, text: &mut String, octets: &[u8]) -> Result<(), AllocError> {
    let digits = hex::encode(alloc, octets)?;
    write_words(text, &[" ", digits.as_str()])
}

/// Appends the claims of a report.
fn write_claims(text: &mut String, claims: Claims<'_>) -> Result<(), AllocError> {
    for Claim { offset, length } in claims {
        write!(text, " {offset}+{length}")?;
    }
    Ok(())
}

/// Appends a word, and a number after it.
fn write_word(text: &mut String, word: &str, number: u64) -> Result<(), AllocError> {
    text.push_str(word)?;
    write_numbers(text, &[number])
}

/// Appends what a segment says.
fn write_content(alloc: Global, text: &mut String, content: Content<'_>) -> Result<(), AllocError> {
    match content {
        Content::Piece {
            kind,
            service,
            offset,
            checkpoint,
            report,
            body,
        } => {
            write_kind(text, kind)?;
            write_numbers(text, &[service, offset, checkpoint, report])?;
            write_octets(alloc, text, body)
        }
        Content::Report {
            serial,
            checkpoint,
            upper,
            lower,
            claims,
        } => {
            text.push_str(" report")?;
            write_numbers(text, &[serial, checkpoint, upper, lower])?;
            write_claims(text, claims)
        }
        Content::ReportAck { serial } => write_word(text, " report ack", serial),
        Content::SenderCancel { reason } => write_word(text, " sender cancel", u64::from(reason)),
        Content::SenderCancelAck => text.push_str(" sender cancel ack"),
        Content::ReceiverCancel { reason } => {
            write_word(text, " receiver cancel", u64::from(reason))
        }
        Content::ReceiverCancelAck => text.push_str(" receiver cancel ack"),
    }
}

/// What a datagram says, or at which place it is refused and why.
fn told(alloc: Global, datagram: &[u8]) -> Result<String, AllocError> {
    let mut text = String::new(alloc);
    match decode(datagram) {
        Err(SegmentFault { at, cause }) => write!(text, "{at} {}", cause.word())?,
        Ok(
            Segment {
                originator,
                session,
                content,
            },
        ) => {
            write!(text, "{originator} {session}")?;
            write_content(alloc, &mut text, content)?;
        }
    }
    Ok(text)
}

/// Whether a datagram says this.
fn says(alloc: Global, datagram: &[u8], wanted: &str) -> Result<bool, AllocError> {
    Ok(told(alloc, datagram)?.as_str() == wanted)
}

/// Whether octets, with some of one kind after them, are refused so.
fn is_refused(
    alloc: Global,
    front: &[u8],
    after: &[u8],
    at: usize,
    cause: SegmentCause,
) -> Result<bool, AllocError> {
    let mut datagram = Vec::from_slice(alloc, front)?;
    datagram.extend_from_slice(after)?;
    Ok(decode(&datagram).err() == Some(SegmentFault { at, cause }))
}

/// Whether each front is refused where the field begins that it ends in.
fn cuts_are_refused(alloc: Global, datagram: &[u8], places: &[usize]) -> Result<bool, AllocError> {
    let mut field = 0;
    for end in 0..datagram.len() {
        if places.contains(&end) {
            field = end;
        }
        if !is_refused(alloc, &datagram[..end], &[], field, SegmentCause::Truncated)? {
            return Ok(false);
        }
    }
    Ok(true)
}

/// Ten octets that end no number.
const ENDLESS: [u8; 10] = [0x80; 10];

/// Whether ten octets that end no number are refused at each place where one begins.
fn numbers_are_refused(
    alloc: Global,
    datagram: &[u8],
    places: &[usize],
) -> Result<bool, AllocError> {
    for at in places {
        let front = &datagram[..datagram.len().min(*at)];
        if !is_refused(alloc, front, &ENDLESS, *at, SegmentCause::Number)? {
            return Ok(false);
        }
    }
    Ok(true)
}

/// Whether a datagram says what it is to say, and its cuts and its numbers are refused, and an
/// octet after it.
fn type_holds(alloc: Global, row: (&str, &[usize], &[usize], &str)) -> Result<bool, Fail> {
    let datagram = octets(alloc, row.0)?;
    let said = says(alloc, &datagram, row.3)?;
    let cut = cuts_are_refused(alloc, &datagram, row.1)?;
    let numbers = numbers_are_refused(alloc, &datagram, row.2)?;
    let more = is_refused(
        alloc,
        &datagram,
        &[0],
        datagram.len(),
        SegmentCause::Trailing,
    )?;
    Ok(said && cut && numbers && more)
}

#[test]
fn each_type_is_read_and_each_cut_is_refused(rt: HostRuntime) -> Result<(), Fail> {
    for &row in EACH_TYPE {
        assert!(rt; type_holds(rt.alloc(), row)?, "{}", row.3);
    }
    Ok(())
}

/// Datagrams, and what they say or where they are refused.
const TOLD: &[(&str, &str)] = &[
    ("13", "0 Version"),
    ("f5", "0 Version"),
    ("05", "0 Kind"),
    ("06", "0 Kind"),
    ("0a", "0 Kind"),
    ("0b", "0 Kind"),
    ("030107000100030000616263", "7 Serial"),
    ("010107000100000000", "7 Serial"),
    ("020107000100000000", "7 Serial"),
    ("080107000008030000", "4 Serial"),
    // A checkpoint may answer no report, and a report no checkpoint.
    ("080107000800030000", "1 7 report 8 0 3 0"),
    // An end of 2^64 is out of range, and one octet less isn't.
    ("04010700010181ffffffffffffffff7f", "6 Range"),
    ("04010700010081ffffffffffffffff7f", "16 Truncated"),
    ("000107000181ffffffffffffffff7f0161", "15 Range"),
    ("080107000808030300", "7 Bounds"),
    ("080107000808030400", "7 Bounds"),
    // A claim is empty, begins inside the one before it, or ends beyond the bounds.
    ("0801070008080903010000", "10 Claim"),
    ("08010700080809030200020102", "12 Claim"),
    ("08010700080809030200020002", "12 Claim"),
    ("0801070008080903010007", "10 Claim"),
    ("0801070008080903010181ffffffffffffffff7f", "10 Claim"),
    // It may touch the one before it, and reach the bound.
    ("08010700080809030200020204", "1 7 report 8 8 9 3 0+2 2+4"),
    // A number as large as can be.
    (
        "0981ffffffffffffffff7f81ffffffffffffffff7f0000",
        "18446744073709551615 18446744073709551615 report ack 0",
    ),
    // Counts and lengths that are larger than what is there are no work.
    ("080107000808090381ffffffffffffffff7f", "18 Truncated"),
    ("0d0107100181ffffffffffffffff7f", "15 Truncated"),
    ("0d010701010261", "6 Truncated"),
    ("0d0107ff010261", "6 Truncated"),
    ("0d0107210100020161030162", "1 7 sender cancel ack"),
    ("0d010701", "4 Truncated"),
    ("0d010701010000", "6 Trailing"),
    ("0c01010007", "1 1 sender cancel 7"),
    ("0c010100ff", "1 1 sender cancel 255"),
    ("0001070000000161", "1 7 Red 0 0 0 0 61"),
    ("0001070001000000", "7 Trailing"),
    ("0080010700010000", "1 7 Red 1 0 0 0 "),
];

#[test]
fn conditions_are_tested_at_their_fields(rt: HostRuntime) -> Result<(), Fail> {
    for &(text, wanted) in TOLD {
        let datagram = octets(rt.alloc(), text)?;
        assert!(rt; says(rt.alloc(), &datagram, wanted)?, "{text}");
    }
    Ok(())
}

/// Whether a datagram has these octets.
fn is(alloc: Global, datagram: &Octets, text: &str) -> Result<bool, Fail> {
    Ok(datagram.as_slice() == octets(alloc, text)?.as_slice())
}

#[test]
fn pieces_are_written(rt: HostRuntime) -> Result<(), Fail> {
    let alloc = rt.alloc();
    let piece = write_piece(alloc, 1, 7, PieceKind::RedEndBlock, 1, 0, 8, 0, b"abc")?;
    assert!(rt; is(alloc, &piece, "030107000100030800616263")?);
    let piece = write_piece(alloc, 1, 1, PieceKind::RedCheckpoint, 1, 512, 3, 2, b"ab")?;
    assert!(rt; is(alloc, &piece, "010101000184000203026162")?);
    let green = write_piece(alloc, 1, 9, PieceKind::GreenEndBlock, 1, 0, 0, 0, b"a")?;
    assert!(rt; is(alloc, &green, "0701090001000161")?);
    Ok(())
}

/// The claims of a report on 1,200 octets.
const CLAIMS: [Claim; 2] = [
    Claim {
        offset: 0,
        length: 512,
    },
    Claim {
        offset: 1024,
        length: 176,
    },
];

#[test]
fn reports_are_written(rt: HostRuntime) -> Result<(), Fail> {
    let alloc = rt.alloc();
    let report = write_report(alloc, 1, 1, 2, 2, 1200, 0, &CLAIMS)?;
    assert!(rt; is(alloc, &report, "0801010002028930000200840088008130")?);
    assert!(rt; is(alloc, &write_ack(alloc, 1, 1, 2)?, "0901010002")?);
    Ok(())
}

#[test]
fn cancels_are_written(rt: HostRuntime) -> Result<(), Fail> {
    let alloc = rt.alloc();
    assert!(rt; is(alloc, &write_cancel(alloc, 1, 1, true, 2)?, "0c01010002")?);
    assert!(rt; is(alloc, &write_cancel(alloc, 1, 7, false, 3)?, "0e01070003")?);
    assert!(rt; is(alloc, &write_cancel_ack(alloc, 1, 1, true)?, "0d010100")?);
    assert!(rt; is(alloc, &write_cancel_ack(alloc, 1, 7, false)?, "0f010700")?);
    Ok(())
}

#[test]
fn datagrams_are_a_list(rt: HostRuntime) -> Result<(), Fail> {
    let mut outs = Outs::new(rt.alloc());
    outs.push(write_ack(rt.alloc(), 1, 1, 2)?)?;
    let again = Outs::from_vec(outs.into_vec());
    assert!(rt; again.len() == 1 && again.as_slice().len() == 1);
    Ok(())
}

/// Sendings, and the waits after them under the default policy.
const WAITS: &[(u32, u64)] = &[
    (1, 10_000),
    (2, 20_000),
    (4, 80_000),
    (5, 160_000),
    (6, 160_000),
    (100, 160_000),
];

#[test]
fn waits_double_up_to_the_cap(rt: HostRuntime) {
    let policy = Policy::default();
    for &(sending, wait) in WAITS {
        assert!(rt; policy.wait(sending.max(1)) == wait, "{sending}");
    }
    assert!(rt; policy.segment == 1024 && policy.limit == 10 && BLOCK_MAX == 4_194_304);
}

/// Segment size, timeout, limit and cap, and why they are no policy.
const POLICIES: &[((u32, u64, u32, u64), Option<PolicyFault>)] = &[
    ((512, 1, 1, 1), None),
    ((8192, 3_600_000, 100, 3_600_000), None),
    ((511, 0, 0, 0), Some(PolicyFault::Segment)),
    ((8193, 1, 1, 1), Some(PolicyFault::Segment)),
    ((512, 0, 0, 0), Some(PolicyFault::Timeout)),
    ((512, 3_600_001, 1, 3_600_001), Some(PolicyFault::Timeout)),
    ((512, 1, 0, 0), Some(PolicyFault::Limit)),
    ((512, 1, 101, 1), Some(PolicyFault::Limit)),
    ((512, 10_000, 1, 9_999), Some(PolicyFault::Cap)),
    ((512, 1, 1, 3_600_001), Some(PolicyFault::Cap)),
];

#[test]
fn the_first_value_out_of_its_range_is_named(rt: HostRuntime) {
    for &((segment, timeout, limit, cap), fault) in POLICIES {
        let made = Policy::new(segment, timeout, limit, cap);
        assert!(rt; made.err() == fault, "{segment} {timeout} {limit} {cap}");
    }
}

/// Kinds of pieces: whether they are red, ask for a report, and end the red part.
const KINDS: &[(PieceKind, bool, bool, bool)] = &[
    (PieceKind::Red, true, false, false),
    (PieceKind::RedCheckpoint, true, true, false),
    (PieceKind::RedEnd, true, true, true),
    (PieceKind::RedEndBlock, true, true, true),
    (PieceKind::Green, false, false, false),
    (PieceKind::GreenEndBlock, false, false, false),
];

#[test]
fn kinds_of_pieces(rt: HostRuntime) {
    for &(kind, red, checkpoint, ends) in KINDS {
        assert!(rt; kind.is_red() == red && kind.is_checkpoint() == checkpoint);
        assert!(rt; kind.ends_red_part() == ends);
    }
}

/// Notes and their names.
const NOTES: &[(Note, &str)] = &[
    (Note::Sent { session: 1 }, "Sent"),
    (
        Note::Failed {
            session: 1,
            reason: 2,
        },
        "Failed",
    ),
    (
        Note::Refused {
            session: 1,
            service: 2,
        },
        "Refused",
    ),
    (
        Note::Cancelled {
            session: 1,
            reason: 1,
        },
        "Cancelled",
    ),
    (Note::Evicted { session: 1 }, "Evicted"),
    (Note::Stranger, "Stranger"),
    (
        Note::BadSegment {
            at: 10,
            cause: SegmentCause::Claim,
        },
        "BadSegment",
    ),
    (Note::BadBounds { session: 1 }, "BadBounds"),
    (Note::Closed { session: 7 }, "Closed"),
    (Note::HistoryFull { session: 1 }, "HistoryFull"),
];

#[test]
fn each_note_has_its_name(rt: HostRuntime) {
    for &(note, name) in NOTES {
        assert!(rt; note.name() == name, "{name}");
    }
}
