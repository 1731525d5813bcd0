//! What engine 2 records of its exchange with peer 1, event by event.

ghost use Rattle.std.specs.Prelude.{◌≡◌, ◌<◌, ◌^◌, false, OnOk};

use crate::answers::{MOMENTS, policy};
use crate::lines::{are_lines, is_so, octets, write_octets, write_words};
use ltp_audit::{Audit, Entry, Recorder};
use ltp_engine::SubmitRefused;
use ltp_segment::Policy;
use std::alloc::{AllocError, Global};
use std::test::Fail;

/// What the engine is told.
#[derive(Clone, Copy, Debug)]
enum Told {
    /// A block in hex is to be sent, all of it red.
    Block(&'static str),
    /// A datagram in hex comes.
    Datagram(&'static str),
    /// Time has passed.
    Time,
}

use Told::{Block, Datagram, Time};

/// A moment; what the engine is told then; and the lines by which the recording grows.
type Row = (u64, Told, &'static str);

/// Appends the lines of entries.
fn write_entries(alloc: Global, text: &mut String, entries: &[Entry]) -> Result<(), AllocError> {
    for entry in entries {
        write_words(text, &[if entry.out { "out" } else { "in" }])?;
        write_octets(alloc, text, entry.datagram.as_slice())?;
    }
    Ok(())
}

/// Tells the engine of a row.
fn tell(alloc: Global, recorder: &mut Recorder, told: Told, now: u64) -> Result<(), Fail>
    requires whole { recorder.old.spent ≡ false }
    requires moment { now < 2 ^ 62 }
    ensures { OnOk result (recorder.new.spent ≡ false) }
{
    match told {
        Block(text) => {
            let block = octets(alloc, text)?;
            let red = block.len() as u64;
            recorder.submit(&block, red, now)?;
        }
        Datagram(text) => {
            recorder.arrive(&octets(alloc, text)?, now)?;
        }
        Time => {
            recorder.tick(now)?;
        }
    }
    Ok(())
}

/// Tells the engine of a row, and appends the lines by which the recording grows.
fn record(alloc: Global, recorder: &mut Recorder, row: Row, text: &mut String) -> Result<(), Fail>
    requires { recorder.old.spent ≡ false }
    ensures { OnOk result (recorder.new.spent ≡ false) }
{
    let (now, told, _) = row;
    if now >= MOMENTS {
        return Err(Fail::new("a row is too late"));
    }
    let from = recorder.entries().len();
    tell(alloc, recorder, told, now)?;
    if let Some(entries) = recorder.entries().get(from..) {
        write_entries(alloc, text, entries)?;
    }
    Ok(())
}

/// The recording grows by the lines of a row.
fn holds(alloc: Global, recorder: &mut Recorder, row: Row) -> Result<(), Fail>
    requires { recorder.old.spent ≡ false }
    ensures { OnOk result (recorder.new.spent ≡ false) }
{
    let mut text = String::new(alloc);
    record(alloc, recorder, row, &mut text)?;
    are_lines(text.as_str(), row.2)
}

/// The recording grows by the lines of each row.
fn play(alloc: Global, recorder: &mut Recorder, rows: &[Row]) -> Result<(), Fail>
    requires { recorder.old.spent ≡ false }
{
    for &row in rows {
        holds(alloc, recorder, row)?;
    }
    Ok(())
}

/// An audit accepts each entry of a recording, and there is no other.
fn accepts(audit: &mut Audit, recorder: &Recorder) -> Result<(), Fail> {
    let count = recorder.entries().len();
    for i in 0..count {
        let Some(entry) = recorder.entry(i) else {
            return Err(Fail::new("an entry isn't there"));
        };
        is_so(
            audit.add(entry.out, entry.datagram.as_slice()).is_ok(),
            "an entry is refused",
        )?;
    }
    is_so(recorder.entry(count).is_none(), "there is another entry")
}

/// An audit of engine 2 accepts a recording.
fn is_accepted(alloc: Global, recorder: &Recorder) -> Result<(), Fail> {
    let mut audit = Audit::new(alloc, 2, 1);
    accepts(&mut audit, recorder)
}

/// The recording of engine 2, whose first session is 1, grows by the lines of each row, and an audit
/// accepts it.
fn goes(alloc: Global, policy: Policy, rows: &[Row]) -> Result<(), Fail> {
    let mut recorder = Recorder::new(alloc, 2, 1, 1, policy);
    play(alloc, &mut recorder, rows)?;
    is_accepted(alloc, &recorder)
}

/// A red part of the peer. Its report is sent again until it is acknowledged.
const HEARD: &[Row] = &[
    (
        0,
        Datagram("030107000100030800616263"),
        "in 030107000100030800616263\nout 0801070008080300010003\n",
    ),
    (9_999, Time, ""),
    (10_000, Time, "out 0801070008080300010003\n"),
    (10_000, Datagram("0901070008"), "in 0901070008\n"),
    (40_000, Time, ""),
];

/// A block of either side. When time passes the engine's own sessions are first.
const BOTH_WAYS: &[Row] = &[
    (0, Block("616263"), "out 030201000100030200616263\n"),
    (
        0,
        Datagram("030107000100030800646566"),
        "in 030107000100030800646566\nout 0801070008080300010003\n",
    ),
    (
        10_000,
        Time,
        "out 030201000100030200616263\nout 0801070008080300010003\n",
    ),
    (
        10_001,
        Datagram("0802010007020300010201"),
        "in 0802010007020300010201\nout 0902010007\nout 030201000100030307616263\n",
    ),
    (
        10_002,
        Datagram("0802010008030300010003"),
        "in 0802010008030300010003\nout 0902010008\n",
    ),
    (10_003, Datagram("0901070008"), "in 0901070008\n"),
    (90_000, Time, ""),
];

#[test]
fn what_comes_is_recorded_before_what_is_sent(rt: HostRuntime) -> Result<(), Fail> {
    goes(rt.alloc(), Policy::default(), HEARD)?;
    goes(rt.alloc(), Policy::default(), BOTH_WAYS)
}

/// All four cancels and their acknowledgements, where each segment is sent once: a checkpoint that
/// isn't answered, a session that the peer refuses, one that it gives up, and a green octet before
/// red ones.
const CANCELS: &[Row] = &[
    (0, Block("616263"), "out 030201000100030200616263\n"),
    (10_000, Time, "out 0c02010002\n"),
    (10_001, Datagram("0d020100"), "in 0d020100\n"),
    (10_002, Block("64"), "out 03020200010001030064\n"),
    (
        10_003,
        Datagram("0e02020001"),
        "in 0e02020001\nout 0f020200\n",
    ),
    (
        10_004,
        Datagram("0c01080000"),
        "in 0c01080000\nout 0d010800\n",
    ),
    (
        10_005,
        Datagram("00010700010003616263"),
        "in 00010700010003616263\n",
    ),
    (
        10_006,
        Datagram("0401070001020162"),
        "in 0401070001020162\nout 0e01070003\n",
    ),
    (10_007, Datagram("0f010700"), "in 0f010700\n"),
    (90_000, Time, ""),
];

#[test]
fn a_cancel_is_recorded(rt: HostRuntime) -> Result<(), Fail> {
    let policy = policy(1024, 10_000, 1, 160_000)?;
    goes(rt.alloc(), policy, CANCELS)
}

/// What comes is recorded as it came: no octets, what is no segment, and the acknowledgement of
/// what was never sent. Nothing is sent for them.
const NOISE: &[Row] = &[
    (0, Datagram(""), "in \n"),
    (1, Datagram("0a010700"), "in 0a010700\n"),
    (2, Datagram("0901070008"), "in 0901070008\n"),
    (3, Datagram("0d020100"), "in 0d020100\n"),
];

#[test]
fn all_that_comes_is_recorded(rt: HostRuntime) -> Result<(), Fail> {
    let mut recorder = Recorder::new(rt.alloc(), 2, 1, 1, Policy::default());
    play(rt.alloc(), &mut recorder, NOISE)
}

/// Whether a block is refused as empty, and nothing is recorded.
fn refuses(recorder: &mut Recorder) -> bool
    requires { recorder.old.spent ≡ false }
{
    match recorder.submit(&[], 0, 0) {
        Err(SubmitRefused::Empty) => recorder.entries().is_empty() && recorder.entry(0).is_none(),
        _ => false,
    }
}

#[test]
fn a_block_that_is_refused_is_not_recorded(rt: HostRuntime) -> Result<(), Fail> {
    let mut recorder = Recorder::new(rt.alloc(), 2, 1, 1, Policy::default());
    is_so(refuses(&mut recorder), "a block is recorded")
}
