//! Two turns of `serve`, of which each poll, each send and each write fails.

use crate::runs::{COMES, Links, PASSES, SERVE, is_tried, links_with, run_over, went};
use edge_traits::{Sink, Status, SureSink, SureSource, Writing};
use std::alloc::Global;
use std::test::Fail;

/// The gateway's report on what comes from the old node.
const OLD_REPORT: &str = "0801010002021700010017";

/// The bundle of version 7, in session 1 of the new node.
const NEW_COMES: &str =
    "0304010001002902009f8907000182028202018202820101820100821a000f42450019ea5b425a46850101000043616263ff";

/// The gateway's report on it.
const NEW_REPORT: &str = "0804010002022900010029";

/// It in version 6, in the gateway's first session to the old node.
const BACK: &str = "0302010001001702000681100d02010101000000008768053c00010803616263";

/// What is written of the bundle from the old node.
const FROM_OLD: &str =
    "up g.o 1 0681100d02010101000000008768053c00010803616263\nnote g.o Passed 1 1\n";

/// What is written of the bundle from the new node.
const FROM_NEW: &str =
    "up g.n 1 9f8907000182028202018202820101820100821a000f42450019ea5b425a46850101000043616263ff\nnote g.n Passed 1 1\n";

/// Which calls fail, the old link's first, what is written, and what goes on each link. A link's
/// calls are polls and sends in one list: the old one's are a poll, the report, in the new half the
/// bundle that came from the new node, and the poll of the second turn; the new one's are the bundle
/// that came from the old node, a poll, the report, and the poll of the second turn.
struct Row {
    failing: [&'static [bool]; 2],
    text: &'static [&'static str],
    gone: [&'static [&'static str]; 2],
}

const ROWS: &[Row] = &[
    // No call fails.
    Row {
        failing: [&[], &[]],
        text: &[FROM_OLD, FROM_NEW],
        gone: [&[OLD_REPORT, BACK], &[PASSES, NEW_REPORT]],
    },
    // A failed poll takes nothing: what came is there in the next turn.
    Row {
        failing: [&[true], &[]],
        text: &["note old Poll\n", FROM_NEW, FROM_OLD],
        gone: [&[BACK, OLD_REPORT], &[NEW_REPORT, PASSES]],
    },
    Row {
        failing: [&[], &[false, true]],
        text: &[FROM_OLD, "note new Poll\n", FROM_NEW],
        gone: [&[OLD_REPORT, BACK], &[PASSES, NEW_REPORT]],
    },
    Row {
        failing: [&[false, false, false, true], &[]],
        text: &[FROM_OLD, FROM_NEW, "note old Poll\n"],
        gone: [&[OLD_REPORT, BACK], &[PASSES, NEW_REPORT]],
    },
    Row {
        failing: [&[], &[false, false, false, true]],
        text: &[FROM_OLD, FROM_NEW, "note new Poll\n"],
        gone: [&[OLD_REPORT, BACK], &[PASSES, NEW_REPORT]],
    },
    // A failed send has its line before the others of its step, and its datagram alone is lost.
    Row {
        failing: [&[false, true], &[]],
        text: &["note old Send\n", FROM_OLD, FROM_NEW],
        gone: [&[BACK], &[PASSES, NEW_REPORT]],
    },
    Row {
        failing: [&[], &[true]],
        text: &["note new Send\n", FROM_OLD, FROM_NEW],
        gone: [&[OLD_REPORT, BACK], &[NEW_REPORT]],
    },
    Row {
        failing: [&[false, false, true], &[]],
        text: &[FROM_OLD, "note old Send\n", FROM_NEW],
        gone: [&[OLD_REPORT], &[PASSES, NEW_REPORT]],
    },
    Row {
        failing: [&[], &[false, false, true]],
        text: &[FROM_OLD, "note new Send\n", FROM_NEW],
        gone: [&[OLD_REPORT, BACK], &[PASSES]],
    },
    // Every call fails, and no run ends with that.
    Row {
        failing: [&[true, true, true, true], &[true, true, true, true]],
        text: &[
            "note old Poll\n",
            "note new Poll\n",
            "note old Poll\n",
            "note new Poll\n",
        ],
        gone: [&[], &[]],
    },
];

/// Makes the two turns over links of which these calls fail.
fn turns<K: Sink>(
    alloc: Global,
    failing: [&[bool]; 2],
    sink: &mut K,
) -> Result<(Status, Links), Fail> {
    let mut source = SureSource::new(alloc, b"")?;
    let mut links = links_with(alloc, [&[COMES], &[NEW_COMES]], failing)?;
    let status = run_over(alloc, SERVE, &mut source, sink, &mut links)?;
    Ok((status, links))
}

/// What stands end to end.
fn joined(alloc: Global, texts: &[&str]) -> Result<String, Fail> {
    let mut whole = String::new(alloc);
    for text in texts {
        whole.push_str(text)?;
    }
    Ok(whole)
}

/// Whether exactly this went on both links.
fn both_went(alloc: Global, links: &Links, gone: [&[&str]; 2]) -> Result<bool, Fail> {
    let old = went(alloc, &links.old, gone[0])?;
    let new = went(alloc, &links.new, gone[1])?;
    Ok(old && new)
}

/// Whether a row goes so.
fn goes_so(alloc: Global, row: &Row) -> Result<bool, Fail> {
    let mut sink = SureSink::new(alloc, 4096)?;
    let (status, links) = turns(alloc, row.failing, &mut sink)?;
    let wanted = joined(alloc, row.text)?;
    let wrote = status == Status::Done && sink.octets() == wanted.as_bytes();
    let went = both_went(alloc, &links, row.gone)?;
    Ok(wrote && went)
}

#[test]
fn a_failed_call_has_a_line_and_ends_nothing(rt: HostRuntime) -> Result<(), Fail> {
    for row in ROWS {
        assert!(rt; goes_so(rt.alloc(), row)?, "{:?}", row.failing);
    }
    Ok(())
}

/// What goes on each link in the step in which the old node's bundle comes.
const ONE_STEP: [&[&str]; 2] = [&[OLD_REPORT], &[PASSES]];

/// And what has gone after the one in which the new node's comes.
const BOTH_STEPS: [&[&str]; 2] = [&[OLD_REPORT, BACK], &[PASSES, NEW_REPORT]];

/// Whether a writer that has room for what comes before a place ends the run there, and has exactly
/// that, and no step is made after the one whose lines have no room.
fn stops_so(alloc: Global, before: &[u8]) -> Result<bool, Fail> {
    let mut octets = vec![in alloc; 0u8; before.len()]?;
    let (status, links) = turns(alloc, [&[], &[]], &mut Writing::new(octets.as_mut_slice()))?;
    let gone = if before.len() < FROM_OLD.len() {
        ONE_STEP
    } else {
        BOTH_STEPS
    };
    let wrote = status == Status::WriteFault && octets.as_slice() == before;
    let went = both_went(alloc, &links, gone)?;
    Ok(wrote && went)
}

#[test]
fn a_failed_write_ends_the_run_with_its_step(rt: HostRuntime) -> Result<(), Fail> {
    let wanted = joined(rt.alloc(), &[FROM_OLD, FROM_NEW])?;
    for at in 0..wanted.len() {
        let (before, after) = wanted.as_bytes().split_at(at);
        if is_tried(before, after) {
            assert!(rt; stops_so(rt.alloc(), before)?, "{at}");
        }
    }
    Ok(())
}
