//! One session of a sender: what it sends, what it waits for, and how it ends.

ghost use Rattle.std.specs.Prelude.{◌≡◌, ◌<◌, ◌^◌, false, IfOk, OnOk};

use crate::answers::{MOMENTS, Part, Row, are, policy, write_outs, write_state, write_step};
use crate::lines::{are_lines, block, is_so, octets};
use crate::reports::{is_report, report_on_seconds};
use ltp_segment::{BLOCK_MAX, Content, Note, Outs, Policy, ReportView, Step, decode};
use ltp_sender::{Begun, Sender};
use spans::Run;
use std::alloc::Global;
use std::test::Fail;

/// What a session answers to a report.
fn hear_report(
    alloc: Global,
    sender: &mut Sender,
    report: ReportView<'_>,
    now: u64,
) -> Result<Step, Fail>
    requires whole { sender.old.spent ≡ false }
    requires moment { now < 2 ^ 62 }
    ensures { OnOk result (sender.new.spent ≡ false) }
{
    if !is_report(alloc, report)? {
        return Err(Fail::new("a row's report isn't one"));
    }
    Ok(sender.report(report, now)?)
}

/// What a session answers to the content of a segment that comes for it. Only the acknowledgement
/// of a cancel has no answer.
fn answer(
    alloc: Global,
    sender: &mut Sender,
    content: Content<'_>,
    now: u64,
) -> Result<Option<Step>, Fail>
    requires whole { sender.old.spent ≡ false }
    requires moment { now < 2 ^ 62 }
    ensures { OnOk result (sender.new.spent ≡ false) }
{
    match content {
        Content::Report {
            serial,
            checkpoint,
            upper,
            lower,
            claims,
        } => {
            let report = ReportView {
                serial,
                checkpoint,
                upper,
                lower,
                claims,
            };
            Ok(Some(hear_report(alloc, sender, report, now)?))
        }
        Content::ReceiverCancel { reason } => Ok(Some(sender.cancelled(reason)?)),
        Content::SenderCancelAck => {
            sender.cancel_acknowledged();
            Ok(None)
        }
        _ => Err(Fail::new("a row isn't for a sender")),
    }
}

/// What a session answers to a datagram that comes for it.
fn hear(alloc: Global, sender: &mut Sender, datagram: &[u8], now: u64) -> Result<Option<Step>, Fail>
    requires whole { sender.old.spent ≡ false }
    requires moment { now < 2 ^ 62 }
    ensures { OnOk result (sender.new.spent ≡ false) }
{
    match decode(datagram) {
        Ok(segment) => answer(alloc, sender, segment.content, now),
        Err(_) => Err(Fail::new("a row isn't a segment")),
    }
}

/// What a session answers to a row: to its datagram, or to its moment where there is none.
fn act(alloc: Global, sender: &mut Sender, row: Row) -> Result<Option<Step>, Fail>
    requires { sender.old.spent ≡ false }
    ensures { OnOk result (sender.new.spent ≡ false) }
{
    let (now, text, _) = row;
    if now >= MOMENTS {
        return Err(Fail::new("a row is too late"));
    }
    if text.is_empty() {
        return Ok(Some(sender.tick(now)?));
    }
    hear(alloc, sender, &octets(alloc, text)?, now)
}

/// Appends the lines of what a session answers to a row, and how it stands after that.
fn tell(alloc: Global, sender: &mut Sender, row: Row, text: &mut String) -> Result<(), Fail>
    requires { sender.old.spent ≡ false }
    ensures { OnOk result (sender.new.spent ≡ false) }
{
    if let Some(step) = act(alloc, sender, row)? {
        write_step(alloc, text, &step)?;
    }
    write_state(text, sender.deadline(), sender.is_over())?;
    Ok(())
}

/// A session answers to a row as it is to.
fn holds(alloc: Global, sender: &mut Sender, row: Row) -> Result<(), Fail>
    requires { sender.old.spent ≡ false }
    ensures { OnOk result (sender.new.spent ≡ false) }
{
    let mut text = String::new(alloc);
    tell(alloc, sender, row, &mut text)?;
    are_lines(text.as_str(), row.2)
}

/// A block in hex and the length of its red part, with the moment at which it is sent and the lines
/// of that.
type Start = (&'static str, u64, u64, &'static str);

/// Begins session 1 of engine 1 with a block.
fn begin(alloc: Global, policy: &Policy, block: &[u8], red: u64, now: u64) -> Result<Begun, Fail>
    ensures { IfOk result (λ begun. begun.sender.spent ≡ false) }
{
    if now >= MOMENTS || red > block.len() as u64 {
        return Err(Fail::new("a row begins no session"));
    }
    Ok(Sender::begin(alloc, 1, 1, block, red, now, policy)?)
}

/// Begins session 1 of engine 1 as a row says.
fn begin_so(alloc: Global, policy: &Policy, start: Start) -> Result<Begun, Fail>
    ensures { IfOk result (λ begun. begun.sender.spent ≡ false) }
{
    let block = octets(alloc, start.0)?;
    begin(alloc, policy, &block, start.1, start.2)
}

/// The lines of what a session sends at its beginning, and how it stands then, are these.
fn is_begun(alloc: Global, begun: &Begun, wanted: &'static str) -> Result<(), Fail>
    requires { begun.now.sender.spent ≡ false }
{
    let mut sent = String::new(alloc);
    write_outs(alloc, &mut sent, &begun.out)?;
    write_state(&mut sent, begun.sender.deadline(), begun.sender.is_over())?;
    are_lines(sent.as_str(), wanted)
}

/// A session answers to each row as it is to.
fn play(alloc: Global, sender: &mut Sender, rows: &[Row]) -> Result<(), Fail>
    requires { sender.old.spent ≡ false }
{
    for &row in rows {
        holds(alloc, sender, row)?;
    }
    Ok(())
}

/// Session 1 of engine 1 begins so, and then answers to each row as it is to.
fn goes(alloc: Global, policy: &Policy, start: Start, rows: &[Row]) -> Result<(), Fail> {
    let mut begun = begin_so(alloc, policy, start)?;
    is_begun(alloc, &begun, start.3)?;
    play(alloc, &mut begun.sender, rows)
}

/// A block of three red octets, sent at 0 under the default policy.
const SMALL: Start = ("616263", 3, 0, "out 030101000100030200616263\ndue 10000\n");

/// A bundle of 23 octets, sent as one red segment at 1,010,000.
const BUNDLE: Start = (
    "0681100d02010101000000008768053c00010803616263",
    23,
    1_010_000,
    "out 0301010001001702000681100d02010101000000008768053c00010803616263\ndue 1020000\n",
);

/// Sent three times with waits of 10, 20 and 40 seconds, then given up; the cancel is sent again
/// and acknowledged.
const GIVEN_UP: &[Row] = &[
    (1_019_999, "", "due 1020000\n"),
    (
        1_020_000,
        "",
        "out 0301010001001702000681100d02010101000000008768053c00010803616263\ndue 1040000\n",
    ),
    (1_039_999, "", "due 1040000\n"),
    (
        1_040_000,
        "",
        "out 0301010001001702000681100d02010101000000008768053c00010803616263\ndue 1080000\n",
    ),
    (1_079_999, "", "due 1080000\n"),
    (
        1_080_000,
        "",
        "out 0c01010002\nnote Failed 1 2\ndue 1090000\n",
    ),
    (1_090_000, "", "out 0c01010002\ndue 1110000\n"),
    (1_090_001, "0d010100", "over\n"),
    (2_000_000, "", "over\n"),
];

#[test]
fn waits_double_until_it_is_given_up(rt: HostRuntime) -> Result<(), Fail> {
    let policy = policy(1024, 10_000, 3, 40_000)?;
    goes(rt.alloc(), &policy, BUNDLE, GIVEN_UP)
}

/// The last time that a segment may be sent its wait is as long as the cap, and no longer.
const CAPPED: &[Row] = &[
    (10_000, "", "out 030101000100030200616263\ndue 30000\n"),
    (30_000, "", "out 030101000100030200616263\ndue 70000\n"),
    (70_000, "", "out 030101000100030200616263\ndue 110000\n"),
    (109_999, "", "due 110000\n"),
    (110_000, "", "out 0c01010002\nnote Failed 1 2\ndue 120000\n"),
];

#[test]
fn no_wait_is_longer_than_the_cap(rt: HostRuntime) -> Result<(), Fail> {
    let policy = policy(1024, 10_000, 4, 40_000)?;
    goes(rt.alloc(), &policy, SMALL, CAPPED)
}

/// A report on more octets than the red part has is only noted. What others claim adds up, also
/// where they name no checkpoint of the session's.
const CLAIMED_IN_PARTS: &[Row] = &[
    (1, "0801010002020400010004", "note BadBounds 1\ndue 10000\n"),
    (2, "0801010003090300010002", "out 0901010003\ndue 10000\n"),
    (
        3,
        "0801010004000300010102",
        "out 0901010004\nnote Sent 1\nover\n",
    ),
    // A session that is over acknowledges reports, and has no timer.
    (4, "0801010004000300010102", "out 0901010004\nover\n"),
    (5, "0801010002020400010004", "out 0901010002\nover\n"),
    (20_000, "", "over\n"),
];

#[test]
fn claims_add_up(rt: HostRuntime) -> Result<(), Fail> {
    goes(rt.alloc(), &Policy::default(), SMALL, CLAIMED_IN_PARTS)
}

/// A report leaves the one segment open: it is sent again, as an answer to that report. The next
/// checkpoint has its own timer, and the report's repetition begins no other round.
const UNCLAIMED: &[Row] = &[
    (
        5_000,
        "0801010007020300010201",
        "out 0901010007\nout 030101000100030307616263\ndue 15000\n",
    ),
    (
        5_001,
        "0801010007020300010201",
        "out 0901010007\ndue 15000\n",
    ),
    (15_000, "", "out 030101000100030307616263\ndue 35000\n"),
    (
        16_000,
        "0801010008030300010002",
        "out 0901010008\nnote Sent 1\nover\n",
    ),
];

#[test]
fn what_is_unclaimed_is_sent_again(rt: HostRuntime) -> Result<(), Fail> {
    goes(rt.alloc(), &Policy::default(), SMALL, UNCLAIMED)
}

/// A report with the greatest serial number is answered as any other.
const GREATEST_SERIAL: &[Row] = &[
    (
        1,
        "080101008fffffff7f020300010201",
        "out 090101008fffffff7f\nout 03010100010003038fffffff7f616263\ndue 10001\n",
    ),
    (
        2,
        "080101008fffffff7f030300010003",
        "out 090101008fffffff7f\nnote Sent 1\nover\n",
    ),
];

#[test]
fn a_serial_may_be_the_greatest(rt: HostRuntime) -> Result<(), Fail> {
    goes(rt.alloc(), &Policy::default(), SMALL, GREATEST_SERIAL)
}

/// A moment at which the checkpoint was sent again, once more: nothing is due then.
const STANDING_STILL: &[Row] = &[
    (0, "", "due 10000\n"),
    (10_000, "", "out 030101000100030200616263\ndue 30000\n"),
    (10_000, "", "due 30000\n"),
    (10_000, "", "due 30000\n"),
    (
        10_000,
        "0801010002020300010003",
        "out 0901010002\nnote Sent 1\nover\n",
    ),
];

#[test]
fn a_moment_may_stand_still(rt: HostRuntime) -> Result<(), Fail> {
    goes(rt.alloc(), &Policy::default(), SMALL, STANDING_STILL)
}

/// The receiver's cancel ends the session, and is acknowledged each time.
const REFUSED: &[Row] = &[
    (1, "0d010100", "due 10000\n"),
    (2, "0e01010001", "out 0f010100\nnote Cancelled 1 1\nover\n"),
    (3, "0e01010001", "out 0f010100\nover\n"),
];

#[test]
fn a_cancel_of_the_receiver_ends_it(rt: HostRuntime) -> Result<(), Fail> {
    goes(rt.alloc(), &Policy::default(), SMALL, REFUSED)
}

/// Two sendings are the most, of the checkpoint and of the cancel. While it is cancelling a report
/// within the bounds is acknowledged, and one beyond them is noted.
const TWICE: &[Row] = &[
    (10_000, "", "out 030101000100030200616263\ndue 30000\n"),
    (30_000, "", "out 0c01010002\nnote Failed 1 2\ndue 40000\n"),
    (
        30_001,
        "0801010002020300010003",
        "out 0901010002\ndue 40000\n",
    ),
    (
        30_002,
        "0801010002020400010003",
        "note BadBounds 1\ndue 40000\n",
    ),
    (40_000, "", "out 0c01010002\ndue 60000\n"),
    (60_000, "", "over\n"),
];

#[test]
fn a_cancel_is_sent_as_often_as_the_policy_says(rt: HostRuntime) -> Result<(), Fail> {
    let policy = policy(1024, 10_000, 2, 160_000)?;
    goes(rt.alloc(), &policy, SMALL, TWICE)
}

/// A green part after the red one, and a block that is all green, whose session is over at once.
const COLOURED: &[Start] = &[
    (
        "616263",
        1,
        0,
        "out 02010100010001020061\nout 070101000101026263\ndue 10000\n",
    ),
    ("616263", 0, 0, "out 07010100010003616263\nover\n"),
];

#[test]
fn green_follows_red(rt: HostRuntime) -> Result<(), Fail> {
    for &start in COLOURED {
        goes(rt.alloc(), &Policy::default(), start, &[])?;
    }
    Ok(())
}

/// A report on 1,200 octets, and what a session sends for it: of each datagram a front in hex, and a
/// range of the block after it. Last whether the session has its note and is over.
type Round = (&'static str, &'static [Part], bool);

/// A report that claims the first of three segments, but names another checkpoint; one that leaves
/// the second open; and one that claims all.
const ROUNDS: &[Round] = &[
    ("08010100020989300001008400", &[("0901010002", 0, 0)], false),
    (
        "0801010002028930000200840088008130",
        &[("0901010002", 0, 0), ("0101010001840084000302", 512, 1024)],
        false,
    ),
    ("08010100030389300001008930", &[("0901010003", 0, 0)], true),
];

/// Whether a session has its note, or none where it isn't to.
fn is_noted(note: Option<Note>, ends: bool) -> bool {
    match note {
        Some(Note::Sent { session: 1 }) => ends,
        Some(_) => false,
        None => !ends,
    }
}

/// Whether a session sends these datagrams, and has its note or doesn't.
fn is_step(
    alloc: Global,
    step: &Step,
    wanted: &[Part],
    ends: bool,
    block: &[u8],
) -> Result<bool, Fail> {
    Ok(is_noted(step.note, ends) && are(alloc, &step.out, wanted, block)?)
}

/// Whether a session answers to a report on its block as it is to.
fn round_holds(alloc: Global, sender: &mut Sender, row: Round, block: &[u8]) -> Result<bool, Fail>
    requires { sender.old.spent ≡ false }
    ensures { OnOk result (sender.new.spent ≡ false) }
{
    let (text, wanted, ends) = row;
    let report = octets(alloc, text)?;
    match hear(alloc, sender, &report, 0)? {
        Some(step) => is_step(alloc, &step, wanted, ends, block),
        None => Ok(false),
    }
}

/// A session answers to each report on its block as it is to, and is over then or isn't.
fn goes_round(alloc: Global, sender: &mut Sender, rows: &[Round], block: &[u8]) -> Result<(), Fail>
    requires { sender.old.spent ≡ false }
{
    for &row in rows {
        let holds = round_holds(alloc, sender, row, block)?;
        is_so(holds && sender.is_over() == row.2, row.0)?;
    }
    Ok(())
}

/// A block of 1,200 octets in segments of 512.
const THREE_SEGMENTS: &[Part] = &[
    ("0001010001008400", 0, 512),
    ("000101000184008400", 512, 1024),
    ("0301010001880081300200", 1024, 1200),
];

/// Begins session 1 of engine 1 at 0, with a block that is all red and goes in segments of 512.
fn begin_red(alloc: Global, block: &[u8]) -> Result<Begun, Fail>
    ensures { IfOk result (λ begun. begun.sender.spent ≡ false) }
{
    let policy = policy(512, 10_000, 10, 160_000)?;
    begin(alloc, &policy, block, block.len() as u64, 0)
}

/// A block is sent in three segments, and each round goes as it is to.
fn is_sent_again(alloc: Global, begun: &mut Begun, block: &[u8]) -> Result<(), Fail>
    requires { begun.old.sender.spent ≡ false }
{
    is_so(
        are(alloc, &begun.out, THREE_SEGMENTS, block)?,
        "the three segments",
    )?;
    goes_round(alloc, &mut begun.sender, ROUNDS, block)
}

#[test]
fn an_open_segment_is_sent_again(rt: HostRuntime) -> Result<(), Fail> {
    let octets = block(rt.alloc(), 1200)?;
    is_so(octets.len() == 1200, "the block's length")?;
    let mut begun = begin_red(rt.alloc(), &octets)?;
    is_sent_again(rt.alloc(), &mut begun, &octets)
}

/// Whether so many datagrams are sent, of which the last begins with these octets.
fn end_so(outs: &Outs, count: usize, front: &[u8]) -> bool {
    match outs.as_slice().last() {
        Some(last) => outs.len() == count && last.as_slice().starts_with(front),
        None => false,
    }
}

/// Whether so many datagrams are sent, of which the last begins so.
fn end_with(alloc: Global, outs: &Outs, count: usize, front: &str) -> Result<bool, Fail> {
    let front = octets(alloc, front)?;
    Ok(end_so(outs, count, &front))
}

/// The last of 8,192 segments of the greatest block, as far as its octets, as it is sent first.
const LAST: &str = "030101000181fffc0084000200";

/// The same, as it is sent again for the report on every second one.
const LAST_AGAIN: &str = "030101000181fffc0084000302";

/// Whether the report on every second segment is acknowledged, and all but the 1,024 segments that it
/// claims are sent again.
fn is_answered(alloc: Global, sender: &mut Sender) -> Result<bool, Fail>
    requires { sender.old.spent ≡ false }
    ensures { OnOk result (sender.new.spent ≡ false) }
{
    let report = report_on_seconds(alloc, 512)?;
    match hear(alloc, sender, &report, 0)? {
        Some(step) => end_with(alloc, &step.out, 7169, LAST_AGAIN),
        None => Ok(false),
    }
}

/// The greatest block is sent in 8,192 segments, and the report on every second one is answered.
fn is_cut_short(alloc: Global, begun: &mut Begun) -> Result<(), Fail>
    requires { begun.old.sender.spent ≡ false }
{
    is_so(end_with(alloc, &begun.out, 8192, LAST)?, "the segments")?;
    let sender = &mut begun.sender;
    is_so(is_answered(alloc, sender)?, "what is sent again")?;
    let first = Run { from: 0, to: 512 };
    let claimed = sender.claimed();
    is_so(
        claimed.run(0) == Some(first) && claimed.run(1024).is_none(),
        "what is claimed",
    )
}

/// The greatest block in 8,192 segments, and a report that claims the first 1,024 of every second
/// one: the rest is sent again.
#[test]
fn a_cut_report_is_answered(rt: HostRuntime) -> Result<(), Fail> {
    let octets = block(rt.alloc(), BLOCK_MAX)?;
    is_so(octets.len() == 4_194_304, "the block's length")?;
    let mut begun = begin_red(rt.alloc(), &octets)?;
    is_cut_short(rt.alloc(), &mut begun)
}
