//! Lines of `node`, what they give, and a read that fails.

use crate::runs::{surely, with_faults};
use edge_traits::Status;
use std::alloc::{AllocError, Global};
use std::test::Fail;

/// The end with number 2 of a link, whose peer has number 1.
const WORDS: &[&str] = &["node", "2", "1"];

/// Lines that are answered to their end, and what is written.
const ANSWERED: &[(&str, &str)] = &[
    ("", ""),
    // A red part comes; its report is sent again, and acknowledged; and it comes once more.
    (
        "in 030107000100030800616263\nclock 10000\nin 0901070008\nin 030107000100030800616263\n",
        "out 0801070008080300010003\nup 7 616263\nout 0801070008080300010003\nnote Closed 7\n",
    ),
    // A piece whose end lies below what came, and a green piece in the red part.
    (
        "in 00010700010003616263\nin 0201070001000208006162\nin 0401070001020162\n",
        "note BadBounds 7\nout 0e01070003\nnote Failed 7 3\n",
    ),
    ("in 0701090001000161\n", "green 9 0 1 61\n"),
    ("send\n", "refused Empty\n"),
    ("send 616263\n", "out 030201000100030200616263\n"),
    // A client service that isn't there.
    (
        "in 0001070002000161\n",
        "out 0e01070001\nnote Refused 7 2\n",
    ),
];

#[test]
fn an_end_of_a_link_answers(rt: HostRuntime) -> Result<(), Fail> {
    for &(input, output) in ANSWERED {
        assert!(rt;
            surely(rt.alloc(), WORDS, input.as_bytes(), output, Status::Done)?,
            "{input}"
        );
    }
    Ok(())
}

/// So many first pieces of different sessions, the first of session 1.
fn first_pieces(alloc: Global, count: u8) -> Result<String, AllocError> {
    let mut text = String::new(alloc);
    for session in 1..=count {
        write!(text, "in 0001{session:02x}0001000161\n")?;
    }
    Ok(text)
}

#[test]
fn a_65th_session_evicts_the_first(rt: HostRuntime) -> Result<(), Fail> {
    for (count, output) in [(64, ""), (65, "note Evicted 1\n")] {
        let input = first_pieces(rt.alloc(), count)?;
        assert!(rt;
            surely(rt.alloc(), WORDS, input.as_bytes(), output, Status::Done)?,
            "{count}"
        );
    }
    Ok(())
}

/// Lines of which the last ends the run, what is written, and how it ends.
const ENDED: &[(&str, &str, Status)] = &[
    ("\n", "refused line 1 Word\n", Status::Refused),
    ("clock 05\n", "refused line 1 Number\n", Status::Refused),
    (
        "in 0701090001000161\nin 0\n",
        "green 9 0 1 61\nrefused line 2 Hex\n",
        Status::Refused,
    ),
    (
        "send\nclock 4611686018427387904\n",
        "refused Empty\n",
        Status::Limit,
    ),
];

#[test]
fn a_line_ends_the_run(rt: HostRuntime) -> Result<(), Fail> {
    for &(input, output, status) in ENDED {
        assert!(rt;
            surely(rt.alloc(), WORDS, input.as_bytes(), output, status)?,
            "{input}"
        );
    }
    Ok(())
}

/// Whether the second read fails, so that the run ends with it, and what the octets read settle was
/// written: what is sent and handed up for the line that ended.
fn second_read_fails(alloc: Global) -> Result<bool, AllocError> {
    with_faults(
        alloc,
        WORDS,
        b"in 030107000100030800616263\nin 0001",
        (&[false, true], &[]),
        "out 0801070008080300010003\nup 7 616263\n",
        Status::ReadFault,
    )
}

#[test]
fn what_was_read_before_a_failed_read_is_answered(rt: HostRuntime) -> Result<(), Fail> {
    assert!(rt; second_read_fails(rt.alloc())?);
    Ok(())
}

/// Words that name no end of a link.
const OTHER_WORDS: &[&[&str]] = &[
    &["node"],
    &["node", "2"],
    &["node", "2", "2"],
    &["node", "0", "1"],
    &["node", "02", "1"],
    &["node", "2", "4294967296"],
    &["node", "2", "1", "1"],
];

#[test]
fn other_words_are_no_end(rt: HostRuntime) -> Result<(), Fail> {
    for &texts in OTHER_WORDS {
        assert!(rt;
            surely(rt.alloc(), texts, b"send\n", "", Status::Usage)?,
            "{texts:?}"
        );
    }
    Ok(())
}
