//! Lines of `receive`, what they give, and calls that fail.

use crate::runs::{WHOLE, run_over, surely, with_faults};
use edge_traits::{Status, SureSource, Writing};
use std::alloc::{AllocError, Global};
use std::test::Fail;

/// A red part in two pieces, the end first.
const IN_PIECES: &str = "030107000103030800646566\n00010700010003616263\n";

/// Lines that are taken to their end, and what is written.
const TAKEN: &[(&str, &str)] = &[
    ("", ""),
    (WHOLE, "up 1 7 616263\n"),
    (
        "030107000100030800616263\n030107000100030800616263\n",
        "up 1 7 616263\nskip 2\n",
    ),
    (IN_PIECES, "up 1 7 616263646566\n"),
    (
        "00010700010003616263\n0301070001020208005859\n",
        "up 1 7 61626359\n",
    ),
    // Ends of a piece: 1,048,576 and one more, 4,194,304 and one more.
    ("0001070001bfff7f0161\n", ""),
    ("0001070001c080000161\n", ""),
    ("000107000181ffff7f0161\n", ""),
    ("0001070001828080000161\n", "note 1 BadBounds\n"),
    // Another segment, extensions, and a red part that is a bundle.
    ("0801070008080300010003\n", "skip 1\n"),
    ("0301071102016101000308006162630300\n", "up 1 7 616263\n"),
    (
        "0301010001001702000681100d02010101000000008768053c00010803616263\n",
        "up 1 1 0681100d02010101000000008768053c00010803616263\n",
    ),
];

/// Lines of which the last is refused, and what is written.
const REFUSED: &[(&str, &str)] = &[
    ("zz\n", "refused line 1 Hex\n"),
    ("\n", "refused line 1 0 Truncated\n"),
    ("030107000100030000616263\n", "refused line 1 7 Serial\n"),
    ("03010711\n", "refused line 1 4 Truncated\n"),
    (
        "03010700010003080061626300\n",
        "refused line 1 12 Trailing\n",
    ),
    // Each front of a red part in one piece.
    ("03\n", "refused line 1 1 Truncated\n"),
    ("0301\n", "refused line 1 2 Truncated\n"),
    ("030107\n", "refused line 1 3 Truncated\n"),
    ("03010700\n", "refused line 1 4 Truncated\n"),
    ("0301070001\n", "refused line 1 5 Truncated\n"),
    ("030107000100\n", "refused line 1 6 Truncated\n"),
    ("03010700010003\n", "refused line 1 7 Truncated\n"),
    ("0301070001000308\n", "refused line 1 8 Truncated\n"),
    ("030107000100030800\n", "refused line 1 9 Truncated\n"),
    ("03010700010003080061\n", "refused line 1 9 Truncated\n"),
    ("0301070001000308006162\n", "refused line 1 9 Truncated\n"),
];

/// Whether `receive` of these lines writes this and ends so.
fn receives(alloc: Global, row: (&str, &str), status: Status) -> Result<bool, AllocError> {
    surely(alloc, &["receive"], row.0.as_bytes(), row.1, status)
}

#[test]
fn lines_are_received(rt: HostRuntime) -> Result<(), Fail> {
    for &row in TAKEN {
        assert!(rt; receives(rt.alloc(), row, Status::Done)?, "{}", row.0);
    }
    for &row in REFUSED {
        assert!(rt; receives(rt.alloc(), row, Status::Refused)?, "{}", row.0);
    }
    Ok(())
}

/// Lines, reads and writes that fail, what is written, and how the run ends.
const FAULTS: &[(&str, &[bool], &[bool], &str, Status)] = &[
    (WHOLE, &[], &[], "up 1 7 616263\n", Status::Done),
    (WHOLE, &[true], &[], "", Status::ReadFault),
    (WHOLE, &[], &[true], "", Status::WriteFault),
];

#[test]
fn a_fault_ends_the_run(rt: HostRuntime) -> Result<(), Fail> {
    for &(input, reads, writes, output, status) in FAULTS {
        assert!(rt;
            with_faults(
                rt.alloc(),
                &["receive"],
                input.as_bytes(),
                (reads, writes),
                output,
                status
            )?,
            "{status:?}"
        );
    }
    Ok(())
}

/// Two whole lines and a half, which one read takes.
const HALF_A_LINE_MORE: &str = "030107000103030800646566\n00010700010003616263\n0301080001000308";

/// Whether the second read fails, so that the run ends with it, and what the octets read settle was
/// written: the line for the two that ended.
fn second_read_fails(alloc: Global) -> Result<bool, AllocError> {
    with_faults(
        alloc,
        &["receive"],
        HALF_A_LINE_MORE.as_bytes(),
        (&[false, true], &[]),
        "up 1 7 616263646566\n",
        Status::ReadFault,
    )
}

#[test]
fn what_was_read_before_a_failed_read_is_answered(rt: HostRuntime) -> Result<(), Fail> {
    assert!(rt; second_read_fails(rt.alloc())?);
    Ok(())
}

/// How a run ends whose sink is the adapter over a writer that takes nothing.
fn taken_by_nobody(alloc: Global) -> Result<Status, AllocError> {
    let mut source = SureSource::new(alloc, WHOLE.as_bytes())?;
    let mut room = [0u8; 0];
    let mut sink = Writing::new(room.as_mut_slice());
    run_over(alloc, &["receive"], &mut source, &mut sink)
}

#[test]
fn a_writer_that_takes_nothing_ends_the_run(rt: HostRuntime) -> Result<(), Fail> {
    assert!(rt; taken_by_nobody(rt.alloc())? == Status::WriteFault);
    Ok(())
}

/// Words that name no command.
const OTHER_WORDS: &[&[&str]] = &[&["cut", "0"], &[], &["receive", "receive"]];

#[test]
fn other_words_write_nothing(rt: HostRuntime) -> Result<(), Fail> {
    for &texts in OTHER_WORDS {
        assert!(rt;
            surely(rt.alloc(), texts, WHOLE.as_bytes(), "", Status::Usage)?,
            "{texts:?}"
        );
    }
    Ok(())
}
