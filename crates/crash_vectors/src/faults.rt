//! Two turns, of which each call outside fails.

use crate::acts::{Act, Given, Goes, Line, push_act};
use crate::failing::{Failing, turns};
use gate_run::GateStatus;
use journal_file::{Pending, read_kept};
use std::alloc::{AllocError, Global};
use std::test::Fail;

/// No call fails.
const NONE: Failing = Failing {
    links: [&[], &[]],
    writing: &[],
    showing: &[],
    storing: None,
};

/// In the first turn a bundle comes from a node, and in the second one its report on what went to it. After
/// them nothing is there.
const BOTH: &[Given] = &[Given::Bundle, Given::Nothing, Given::Report];

/// What is made where no call fails: before the turns, and in each half.
const BEGINNING: &[Act] = &[Act::Anew];

const FIRST: &[Act] = &[
    Act::Kept,
    Act::Sent(Goes::OldReport),
    Act::Sent(Goes::Passes),
    Act::Says(Line::Start),
    Act::Says(Line::OldPassed),
    Act::Shown,
];

const SECOND: &[Act] = &[
    Act::Kept,
    Act::Sent(Goes::Back),
    Act::Sent(Goes::NewReport),
    Act::Says(Line::NewPassed),
];

const THIRD: &[Act] = &[
    Act::Kept,
    Act::Sent(Goes::OldAnswer),
    Act::Says(Line::OldSent),
];

const FOURTH: &[Act] = &[
    Act::Kept,
    Act::Sent(Goes::NewAnswer),
    Act::Says(Line::NewSent),
];

/// Which calls fail, what the polls give, how the run ends, and what is made before the turns and in each
/// half. A link's calls are polls and sends in one list. The old one's are, where none fails: a poll
/// that gives the bundle, one that gives nothing, the report; in the second half the bundle of the new
/// node; in the third one two polls and the answer. The new one's are: the bundle of the old node; in the
/// second half two polls and the report; in the fourth one two polls and the answer.
struct Row {
    failing: Failing,
    gives: [&'static [Given]; 2],
    ends: GateStatus,
    made: &'static [&'static [Act]],
}

/// Each poll fails in turn.
const POLLS: &[Row] = &[
    // No call fails.
    Row {
        failing: NONE,
        gives: [BOTH, BOTH],
        ends: GateStatus::Done,
        made: &[BEGINNING, FIRST, SECOND, THIRD, FOURTH],
    },
    // A failed poll takes nothing: what comes is there in the face's next half.
    Row {
        failing: Failing {
            links: [&[true], &[]],
            ..NONE
        },
        gives: [&[Given::Bundle], BOTH],
        ends: GateStatus::Done,
        made: &[
            BEGINNING,
            &[Act::Says(Line::Start), Act::Says(Line::OldPoll), Act::Shown],
            SECOND,
            &[
                Act::Kept,
                Act::Sent(Goes::OldReport),
                Act::Sent(Goes::Passes),
                Act::Says(Line::OldPassed),
            ],
            FOURTH,
        ],
    },
    Row {
        failing: Failing {
            links: [&[false, true], &[]],
            ..NONE
        },
        gives: [&[Given::Bundle, Given::Report], BOTH],
        ends: GateStatus::Done,
        made: &[
            BEGINNING,
            &[
                Act::Kept,
                Act::Sent(Goes::OldReport),
                Act::Sent(Goes::Passes),
                Act::Says(Line::Start),
                Act::Says(Line::OldPassed),
                Act::Says(Line::OldPoll),
                Act::Shown,
            ],
            SECOND,
            THIRD,
            FOURTH,
        ],
    },
    Row {
        failing: Failing {
            links: [&[false, false, false, false, true], &[]],
            ..NONE
        },
        gives: [BOTH, BOTH],
        ends: GateStatus::Done,
        made: &[
            BEGINNING,
            FIRST,
            SECOND,
            &[Act::Says(Line::OldPoll)],
            FOURTH,
        ],
    },
    Row {
        failing: Failing {
            links: [&[false, false, false, false, false, true], &[]],
            ..NONE
        },
        gives: [BOTH, BOTH],
        ends: GateStatus::Done,
        made: &[
            BEGINNING,
            FIRST,
            SECOND,
            &[
                Act::Kept,
                Act::Sent(Goes::OldAnswer),
                Act::Says(Line::OldSent),
                Act::Says(Line::OldPoll),
            ],
            FOURTH,
        ],
    },
    Row {
        failing: Failing {
            links: [&[], &[false, true]],
            ..NONE
        },
        gives: [&[Given::Bundle], &[Given::Bundle]],
        ends: GateStatus::Done,
        made: &[BEGINNING, FIRST, &[Act::Says(Line::NewPoll)], &[], SECOND],
    },
    Row {
        failing: Failing {
            links: [&[], &[false, false, true]],
            ..NONE
        },
        gives: [BOTH, &[Given::Bundle, Given::Report]],
        ends: GateStatus::Done,
        made: &[
            BEGINNING,
            FIRST,
            &[
                Act::Kept,
                Act::Sent(Goes::Back),
                Act::Sent(Goes::NewReport),
                Act::Says(Line::NewPassed),
                Act::Says(Line::NewPoll),
            ],
            THIRD,
            FOURTH,
        ],
    },
    Row {
        failing: Failing {
            links: [&[], &[false, false, false, false, true]],
            ..NONE
        },
        gives: [BOTH, BOTH],
        ends: GateStatus::Done,
        made: &[BEGINNING, FIRST, SECOND, THIRD, &[Act::Says(Line::NewPoll)]],
    },
    Row {
        failing: Failing {
            links: [&[], &[false, false, false, false, false, true]],
            ..NONE
        },
        gives: [BOTH, BOTH],
        ends: GateStatus::Done,
        made: &[
            BEGINNING,
            FIRST,
            SECOND,
            THIRD,
            &[
                Act::Kept,
                Act::Sent(Goes::NewAnswer),
                Act::Says(Line::NewSent),
                Act::Says(Line::NewPoll),
            ],
        ],
    },
];

/// Each send fails in turn.
const SENDS: &[Row] = &[
    // A failed send loses its datagram alone, and has its line after those of the half's steps.
    Row {
        failing: Failing {
            links: [&[false, false, true], &[]],
            ..NONE
        },
        gives: [BOTH, BOTH],
        ends: GateStatus::Done,
        made: &[
            BEGINNING,
            &[
                Act::Kept,
                Act::Lost(Goes::OldReport),
                Act::Sent(Goes::Passes),
                Act::Says(Line::Start),
                Act::Says(Line::OldPassed),
                Act::Says(Line::OldSend),
                Act::Shown,
            ],
            SECOND,
            THIRD,
            FOURTH,
        ],
    },
    Row {
        failing: Failing {
            links: [&[false, false, false, true], &[]],
            ..NONE
        },
        gives: [&[Given::Bundle], BOTH],
        ends: GateStatus::Done,
        made: &[
            BEGINNING,
            FIRST,
            &[
                Act::Kept,
                Act::Lost(Goes::Back),
                Act::Sent(Goes::NewReport),
                Act::Says(Line::NewPassed),
                Act::Says(Line::OldSend),
            ],
            &[],
            FOURTH,
        ],
    },
    Row {
        failing: Failing {
            links: [&[false, false, false, false, false, false, true], &[]],
            ..NONE
        },
        gives: [BOTH, BOTH],
        ends: GateStatus::Done,
        made: &[
            BEGINNING,
            FIRST,
            SECOND,
            &[
                Act::Kept,
                Act::Lost(Goes::OldAnswer),
                Act::Says(Line::OldSent),
                Act::Says(Line::OldSend),
            ],
            FOURTH,
        ],
    },
    Row {
        failing: Failing {
            links: [&[], &[true]],
            ..NONE
        },
        gives: [BOTH, &[Given::Bundle]],
        ends: GateStatus::Done,
        made: &[
            BEGINNING,
            &[
                Act::Kept,
                Act::Sent(Goes::OldReport),
                Act::Lost(Goes::Passes),
                Act::Says(Line::Start),
                Act::Says(Line::OldPassed),
                Act::Says(Line::NewSend),
                Act::Shown,
            ],
            SECOND,
            THIRD,
            &[],
        ],
    },
    Row {
        failing: Failing {
            links: [&[], &[false, false, false, true]],
            ..NONE
        },
        gives: [BOTH, BOTH],
        ends: GateStatus::Done,
        made: &[
            BEGINNING,
            FIRST,
            &[
                Act::Kept,
                Act::Sent(Goes::Back),
                Act::Lost(Goes::NewReport),
                Act::Says(Line::NewPassed),
                Act::Says(Line::NewSend),
            ],
            THIRD,
            FOURTH,
        ],
    },
    Row {
        failing: Failing {
            links: [&[], &[false, false, false, false, false, false, true]],
            ..NONE
        },
        gives: [BOTH, BOTH],
        ends: GateStatus::Done,
        made: &[
            BEGINNING,
            FIRST,
            SECOND,
            THIRD,
            &[
                Act::Kept,
                Act::Lost(Goes::NewAnswer),
                Act::Says(Line::NewSent),
                Act::Says(Line::NewSend),
            ],
        ],
    },
];

/// The metrics can't be put in place.
const SHOWS: &[Row] = &[
    // Metrics that can't be put in place have a line.
    Row {
        failing: Failing {
            showing: &[true],
            ..NONE
        },
        gives: [BOTH, BOTH],
        ends: GateStatus::Done,
        made: &[
            BEGINNING,
            &[
                Act::Kept,
                Act::Sent(Goes::OldReport),
                Act::Sent(Goes::Passes),
                Act::Says(Line::Start),
                Act::Says(Line::OldPassed),
                Act::Says(Line::Metrics),
            ],
            SECOND,
            THIRD,
            FOURTH,
        ],
    },
    // All sends fail too.
    Row {
        failing: Failing {
            links: [&[false, false, true, true], &[true, false, false, true]],
            showing: &[true],
            ..NONE
        },
        gives: [&[Given::Bundle], &[Given::Bundle]],
        ends: GateStatus::Done,
        made: &[
            BEGINNING,
            &[
                Act::Kept,
                Act::Lost(Goes::OldReport),
                Act::Lost(Goes::Passes),
                Act::Says(Line::Start),
                Act::Says(Line::OldPassed),
                Act::Says(Line::OldSend),
                Act::Says(Line::NewSend),
                Act::Says(Line::Metrics),
            ],
            &[
                Act::Kept,
                Act::Lost(Goes::Back),
                Act::Lost(Goes::NewReport),
                Act::Says(Line::NewPassed),
                Act::Says(Line::OldSend),
                Act::Says(Line::NewSend),
            ],
            &[],
            &[],
        ],
    },
    // All polls fail.
    Row {
        failing: Failing {
            links: [&[true, true], &[true, true]],
            showing: &[true],
            ..NONE
        },
        gives: [BOTH, BOTH],
        ends: GateStatus::Done,
        made: &[
            BEGINNING,
            &[
                Act::Says(Line::Start),
                Act::Says(Line::OldPoll),
                Act::Says(Line::Metrics),
            ],
            &[Act::Says(Line::NewPoll)],
            &[Act::Says(Line::OldPoll)],
            &[Act::Says(Line::NewPoll)],
        ],
    },
];

/// Each write of lines fails in turn: nothing follows it.
const WRITES: &[Row] = &[
    // The lines of a half follow its datagrams.
    Row {
        failing: Failing {
            writing: &[true],
            ..NONE
        },
        gives: [BOTH, BOTH],
        ends: GateStatus::WriteFault,
        made: &[
            BEGINNING,
            &[
                Act::Kept,
                Act::Sent(Goes::OldReport),
                Act::Sent(Goes::Passes),
            ],
        ],
    },
    Row {
        failing: Failing {
            writing: &[false, true],
            ..NONE
        },
        gives: [BOTH, BOTH],
        ends: GateStatus::WriteFault,
        made: &[
            BEGINNING,
            FIRST,
            &[Act::Kept, Act::Sent(Goes::Back), Act::Sent(Goes::NewReport)],
        ],
    },
    Row {
        failing: Failing {
            writing: &[false, false, true],
            ..NONE
        },
        gives: [BOTH, BOTH],
        ends: GateStatus::WriteFault,
        made: &[
            BEGINNING,
            FIRST,
            SECOND,
            &[Act::Kept, Act::Sent(Goes::OldAnswer)],
        ],
    },
    Row {
        failing: Failing {
            writing: &[false, false, false, true],
            ..NONE
        },
        gives: [BOTH, BOTH],
        ends: GateStatus::WriteFault,
        made: &[
            BEGINNING,
            FIRST,
            SECOND,
            THIRD,
            &[Act::Kept, Act::Sent(Goes::NewAnswer)],
        ],
    },
    // The line that the metrics couldn't be put in place is one, too.
    Row {
        failing: Failing {
            writing: &[false, true],
            showing: &[true],
            ..NONE
        },
        gives: [BOTH, BOTH],
        ends: GateStatus::WriteFault,
        made: &[
            BEGINNING,
            &[
                Act::Kept,
                Act::Sent(Goes::OldReport),
                Act::Sent(Goes::Passes),
                Act::Says(Line::Start),
                Act::Says(Line::OldPassed),
            ],
        ],
    },
];

/// Which calls on the journal's store fail, the first and the one after the last, how the run ends, what
/// is made, and the ids of the blocks that are pending by the file that a crash leaves then.
struct Stop {
    calls: (usize, usize),
    ends: Option<GateStatus>,
    made: &'static [&'static [Act]],
    pending: &'static [u64],
}

/// Each call on the store fails in turn. The file is read; it is made anew by a new file, its octets, a
/// sync, a rename and a sync; and in each half the records are committed by a write, a sync, the write that
/// opens the gate, and a sync.
const STOPS: &[Stop] = &[
    // A journal that can't be read: the run isn't begun.
    Stop {
        calls: (0, 1),
        ends: None,
        made: &[],
        pending: &[],
    },
    // One that can't be made anew: nothing is made.
    Stop {
        calls: (1, 6),
        ends: Some(GateStatus::Journal),
        made: &[],
        pending: &[],
    },
    // Records that can't be committed: nothing of their half goes, and no line is written of it.
    Stop {
        calls: (6, 10),
        ends: Some(GateStatus::Journal),
        made: &[BEGINNING],
        pending: &[],
    },
    Stop {
        calls: (10, 14),
        ends: Some(GateStatus::Journal),
        made: &[BEGINNING, FIRST],
        pending: &[1],
    },
    Stop {
        calls: (14, 18),
        ends: Some(GateStatus::Journal),
        made: &[BEGINNING, FIRST, SECOND],
        pending: &[1, 2],
    },
    Stop {
        calls: (18, 22),
        ends: Some(GateStatus::Journal),
        made: &[BEGINNING, FIRST, SECOND, THIRD],
        pending: &[1],
    },
    // There are no more calls.
    Stop {
        calls: (22, 24),
        ends: Some(GateStatus::Done),
        made: &[BEGINNING, FIRST, SECOND, THIRD, FOURTH],
        pending: &[],
    },
];

/// What halves make, as a text.
fn text_of(alloc: Global, halves: &[&[Act]]) -> Result<String, AllocError> {
    let mut text = String::new(alloc);
    for acts in halves {
        for act in *acts {
            push_act(&mut text, *act)?;
        }
    }
    Ok(text)
}

/// Whether a text is what these halves make.
fn is_made(alloc: Global, text: &str, halves: &[&[Act]]) -> Result<bool, AllocError> {
    let wanted = text_of(alloc, halves)?;
    Ok(text == wanted.as_str())
}

/// What a run makes in place of what a row wants, where it isn't that.
fn otherwise(alloc: Global, row: &Row) -> Result<Option<String>, Fail> {
    let went = turns(alloc, &row.gives, &row.failing)?;
    if went.status == Some(row.ends) && is_made(alloc, went.made.as_str(), row.made)? {
        return Ok(None);
    }
    Ok(Some(went.made))
}

/// The first of these rows that doesn't go so, and what is made in its run.
fn wrong(alloc: Global, rows: &[Row]) -> Result<Option<(usize, String)>, Fail> {
    for (number, row) in rows.iter().enumerate() {
        if let Some(made) = otherwise(alloc, row)? {
            return Ok(Some((number, made)));
        }
    }
    Ok(None)
}

#[test]
fn a_failed_call_on_a_link_has_a_line_and_ends_nothing(rt: HostRuntime) -> Result<(), Fail> {
    for rows in [POLLS, SENDS, SHOWS] {
        let wrong = wrong(rt.alloc(), rows)?;
        assert!(rt; wrong.is_none(), "{wrong:?}");
    }
    Ok(())
}

#[test]
fn nothing_follows_a_failed_write(rt: HostRuntime) -> Result<(), Fail> {
    let wrong = wrong(rt.alloc(), WRITES)?;
    assert!(rt; wrong.is_none(), "{wrong:?}");
    Ok(())
}

/// Whether the blocks that are pending by a file have these ids.
fn are_pending(alloc: Global, file: &[u8], ids: &[u64]) -> Result<bool, Fail> {
    let Ok(kept) = read_kept(alloc, file) else {
        return Err(Fail::new("the file is damaged"));
    };
    Ok(have_ids(&kept.pending, ids))
}

/// Whether blocks have these ids.
fn have_ids(blocks: &[Pending], ids: &[u64]) -> bool {
    if blocks.len() != ids.len() {
        return false;
    }
    'blocks: for (block, id) in blocks.iter().zip(ids) {
        if block.id != *id {
            return false;
        }
    }
    true
}

/// Whether a run of which this call on the store fails stops so.
fn stops_so(alloc: Global, stop: &Stop, call: usize) -> Result<bool, Fail> {
    let failing = Failing {
        storing: Some(call),
        ..NONE
    };
    let went = turns(alloc, &[BOTH, BOTH], &failing)?;
    Ok(
        went.status == stop.ends
            && is_made(alloc, went.made.as_str(), stop.made)?
            && are_pending(alloc, &went.left, stop.pending)?,
    )
}

#[test]
fn nothing_follows_a_failed_call_on_the_journal(rt: HostRuntime) -> Result<(), Fail> {
    for stop in STOPS {
        for call in stop.calls.0..stop.calls.1 {
            assert!(rt; stops_so(rt.alloc(), stop, call)?, "{call}");
        }
    }
    Ok(())
}
