//! One session of a receiver: what it reports, what it hands up, and how it ends.

ghost use Rattle.std.specs.Prelude.{◌≡◌, ◌<◌, ◌≤◌, ◌^◌, false, true, length, OnOk};
ghost use Rattle.ltp_receiver.specs.Receiver.{IsOpen};
ghost use Rattle.ltp_segment.specs.declared.session.TheConstants.{BLOCK_MAX};
ghost use Rattle.ltp_session.specs.Cells.{stop_of};

use crate::answers::{MOMENTS, Part, Row, are, policy, with_part, write_state, write_step};
use crate::lines::{are_lines, block, is_so, octets};
use crate::reports::report_on_seconds;
use endpoint::Octets;
use ltp_receiver::Receiver;
use ltp_segment::{BLOCK_MAX, Content, PieceKind, PieceView, Policy, Step, decode};
use spans::Run;
use std::alloc::Global;
use std::test::Fail;

/// Whether a session is open.
fn is_open(receiver: &Receiver) -> bool
    requires { receiver.now.spent ≡ false }
    ensures { result ≡ true → IsOpen receiver.now.kept }
{
    !receiver.is_over() && !receiver.is_cancelling()
}

/// Whether a piece can be one of a block.
fn is_part(piece: &PieceView<'_>) -> bool
    ensures some { result ≡ true → 0 < length piece.now.body.now }
    ensures fits { result ≡ true → stop_of piece.now.offset piece.now.body.now ≤ BLOCK_MAX }
{
    match piece.offset.checked_add(piece.body.len() as u64) {
        Some(stop) => !piece.body.is_empty() && stop <= BLOCK_MAX,
        None => false,
    }
}

/// What an open session answers to a piece that can be one of a block.
fn take(receiver: &mut Receiver, piece: &PieceView<'_>, now: u64) -> Result<Step, Fail>
    requires whole { receiver.old.spent ≡ false }
    requires moment { now < 2 ^ 62 }
    ensures { OnOk result (receiver.new.spent ≡ false) }
{
    if !is_open(receiver) || !is_part(piece) {
        return Err(Fail::new("no such piece may come"));
    }
    Ok(receiver.piece(piece, now)?)
}

/// What a session answers to the content of a segment that comes for it. Acknowledgements have no
/// answer.
fn answer(receiver: &mut Receiver, content: Content<'_>, now: u64) -> Result<Option<Step>, Fail>
    requires whole { receiver.old.spent ≡ false }
    requires moment { now < 2 ^ 62 }
    ensures { OnOk result (receiver.new.spent ≡ false) }
{
    match content {
        Content::Piece {
            kind,
            service,
            offset,
            checkpoint,
            report,
            body,
        } => {
            let piece = PieceView {
                kind,
                service,
                offset,
                checkpoint,
                report,
                body,
            };
            Ok(Some(take(receiver, &piece, now)?))
        }
        Content::ReportAck { serial } => {
            receiver.acknowledged(serial);
            Ok(None)
        }
        Content::ReceiverCancelAck => {
            receiver.cancel_acknowledged();
            Ok(None)
        }
        _ => Err(Fail::new("a row isn't for a receiver")),
    }
}

/// What a session answers to a datagram that comes for it.
fn hear(receiver: &mut Receiver, datagram: &[u8], now: u64) -> Result<Option<Step>, Fail>
    requires whole { receiver.old.spent ≡ false }
    requires moment { now < 2 ^ 62 }
    ensures { OnOk result (receiver.new.spent ≡ false) }
{
    match decode(datagram) {
        Ok(segment) => answer(receiver, segment.content, now),
        Err(_) => Err(Fail::new("a row isn't a segment")),
    }
}

/// What a session answers to a row: to its datagram, or to its moment where there is none.
fn act(alloc: Global, receiver: &mut Receiver, row: Row) -> Result<Option<Step>, Fail>
    requires { receiver.old.spent ≡ false }
    ensures { OnOk result (receiver.new.spent ≡ false) }
{
    let (now, text, _) = row;
    if now >= MOMENTS {
        return Err(Fail::new("a row is too late"));
    }
    if text.is_empty() {
        return Ok(Some(receiver.tick(now)?));
    }
    hear(receiver, &octets(alloc, text)?, now)
}

/// Appends the lines of what a session answers to a row, and how it stands after that.
fn tell(alloc: Global, receiver: &mut Receiver, row: Row, text: &mut String) -> Result<(), Fail>
    requires { receiver.old.spent ≡ false }
    ensures { OnOk result (receiver.new.spent ≡ false) }
{
    if let Some(step) = act(alloc, receiver, row)? {
        write_step(alloc, text, &step)?;
    }
    write_state(text, receiver.deadline(), receiver.is_over())?;
    Ok(())
}

/// A session answers to a row as it is to.
fn holds(alloc: Global, receiver: &mut Receiver, row: Row) -> Result<(), Fail>
    requires { receiver.old.spent ≡ false }
    ensures { OnOk result (receiver.new.spent ≡ false) }
{
    let mut text = String::new(alloc);
    tell(alloc, receiver, row, &mut text)?;
    are_lines(text.as_str(), row.2)
}

/// A session answers to each row as it is to.
fn play(alloc: Global, receiver: &mut Receiver, rows: &[Row]) -> Result<(), Fail>
    requires { receiver.old.spent ≡ false }
{
    for &row in rows {
        holds(alloc, receiver, row)?;
    }
    Ok(())
}

/// Session 7 of engine 1 answers to each row as it is to.
fn goes(alloc: Global, policy: &Policy, rows: &[Row]) -> Result<(), Fail> {
    let mut receiver = Receiver::new(alloc, 1, 7, policy);
    play(alloc, &mut receiver, rows)
}

/// A block in one piece: it is handed up and reported. The report is sent again until it is
/// acknowledged; an acknowledgement that names another serial closes nothing.
const IN_ONE_PIECE: &[Row] = &[
    (
        0,
        "030107000100030800616263",
        "out 0801070008080300010003\nup 616263\ndue 10000\n",
    ),
    (9_999, "", "due 10000\n"),
    (10_000, "", "out 0801070008080300010003\ndue 30000\n"),
    (10_001, "0901070009", "due 30000\n"),
    (10_002, "0f010700", "due 30000\n"),
    (10_003, "0901070008", "over\n"),
    (30_000, "", "over\n"),
];

#[test]
fn a_report_is_sent_until_it_is_acknowledged(rt: HostRuntime) -> Result<(), Fail> {
    goes(rt.alloc(), &Policy::default(), IN_ONE_PIECE)
}

/// Two pieces, the end first. An acknowledgement of the report on the end alone leaves the session
/// open, without a timer.
const END_FIRST: &[Row] = &[
    (
        0,
        "030107000103030800646566",
        "out 0801070008080600010303\ndue 10000\n",
    ),
    (1, "00010700010003616263", "up 616263646566\ndue 10000\n"),
    (2, "0901070008", ""),
    (40_000, "", ""),
];

#[test]
fn the_end_may_come_first(rt: HostRuntime) -> Result<(), Fail> {
    goes(rt.alloc(), &Policy::default(), END_FIRST)
}

/// The first octet that came for a place stays.
const OVERLAPPING: &[Row] = &[
    (0, "00010700010003616263", ""),
    (
        1,
        "0301070001020208005859",
        "out 0801070008080400010004\nup 61626359\ndue 10001\n",
    ),
];

#[test]
fn the_first_octet_stays(rt: HostRuntime) -> Result<(), Fail> {
    goes(rt.alloc(), &Policy::default(), OVERLAPPING)
}

/// A checkpoint within the red part is reported up to its own end, and hands nothing up.
const INNER_CHECKPOINT: &[Row] = &[
    (
        0,
        "010107000100030800616263",
        "out 0801070008080300010003\ndue 10000\n",
    ),
    (1, "0901070008", ""),
    (
        2,
        "02010700010301090064",
        "out 0801070009090400010004\nup 61626364\ndue 10002\n",
    ),
    (3, "0701070001040165", "green 7 4 true 65\ndue 10002\n"),
    (4, "0901070009", "over\n"),
];

#[test]
fn a_checkpoint_within_the_red_part(rt: HostRuntime) -> Result<(), Fail> {
    goes(rt.alloc(), &Policy::default(), INNER_CHECKPOINT)
}

/// A checkpoint comes before all other octets, and the red part goes on after it.
const CHECKPOINT_FIRST: &[Row] = &[
    (
        0,
        "010107000103030800646566",
        "out 0801070008080600010303\ndue 10000\n",
    ),
    (1, "00010700010003616263", "due 10000\n"),
    (
        2,
        "02010700010601090067",
        "out 0801070009090700010007\nup 61626364656667\ndue 10002\n",
    ),
    (3, "0901070009", "over\n"),
];

#[test]
fn a_checkpoint_may_come_before_all_data(rt: HostRuntime) -> Result<(), Fail> {
    goes(rt.alloc(), &Policy::default(), CHECKPOINT_FIRST)
}

/// The greatest serial number, of a checkpoint and of an acknowledgement that closes nothing.
const GREATEST_SERIAL: &[Row] = &[
    (
        0,
        "030107000100038fffffff7f00616263",
        "out 08010700088fffffff7f0300010003\nup 616263\ndue 10000\n",
    ),
    (1, "090107008fffffff7f", "due 10000\n"),
    (2, "0901070008", "over\n"),
];

#[test]
fn a_serial_may_be_the_greatest(rt: HostRuntime) -> Result<(), Fail> {
    goes(rt.alloc(), &Policy::default(), GREATEST_SERIAL)
}

/// A moment at which a report was sent again, once more: nothing is due then.
const STANDING_STILL: &[Row] = &[
    (
        0,
        "030107000100030800616263",
        "out 0801070008080300010003\nup 616263\ndue 10000\n",
    ),
    (0, "", "due 10000\n"),
    (10_000, "", "out 0801070008080300010003\ndue 30000\n"),
    (10_000, "", "due 30000\n"),
    (10_000, "", "due 30000\n"),
    (10_000, "0901070008", "over\n"),
];

#[test]
fn a_moment_may_stand_still(rt: HostRuntime) -> Result<(), Fail> {
    goes(rt.alloc(), &Policy::default(), STANDING_STILL)
}

/// The red part's end stays where it is, and nothing comes after it. A checkpoint that comes again
/// has a fresh report, in place of the one before it, and hands nothing up again.
const MOVING_END: &[Row] = &[
    (
        0,
        "030107000100030800616263",
        "out 0801070008080300010003\nup 616263\ndue 10000\n",
    ),
    (
        1,
        "03010700010004080061626364",
        "note BadBounds 7\ndue 10000\n",
    ),
    (2, "0301070001000208006162", "note BadBounds 7\ndue 10000\n"),
    (3, "0001070001030164", "note BadBounds 7\ndue 10000\n"),
    (
        4,
        "030107000100030800787878",
        "out 0801070009080300010003\ndue 10004\n",
    ),
    (5, "0901070008", "due 10004\n"),
    (6, "0901070009", "over\n"),
];

#[test]
fn an_end_stays_where_it_is(rt: HostRuntime) -> Result<(), Fail> {
    goes(rt.alloc(), &Policy::default(), MOVING_END)
}

/// An end before red octets that came is only noted; a green piece before them ends the session.
const GREEN_IN_RED: &[Row] = &[
    (0, "00010700010003616263", ""),
    (1, "0201070001000208006162", "note BadBounds 7\n"),
    (
        2,
        "0401070001020162",
        "out 0e01070003\nnote Failed 7 3\ndue 10002\n",
    ),
    (3, "0901070008", "due 10002\n"),
    (4, "0f010700", "over\n"),
];

/// Red octets after green ones.
const RED_AFTER_GREEN: &[Row] = &[
    (0, "00010700010003616263", ""),
    (1, "0401070001060164", "green 7 6 false 64\n"),
    (
        2,
        "000107000103056465666768",
        "out 0e01070003\nnote Failed 7 3\ndue 10002\n",
    ),
];

/// A green octet below the end of a red part that came whole.
const GREEN_BELOW_THE_END: &[Row] = &[
    (
        0,
        "030107000103030800646566",
        "out 0801070008080600010303\ndue 10000\n",
    ),
    (
        1,
        "0701070001050161",
        "out 0e01070003\nnote Failed 7 3\ndue 10001\n",
    ),
];

#[test]
fn colours_that_cross_end_the_session(rt: HostRuntime) -> Result<(), Fail> {
    let policy = Policy::default();
    goes(rt.alloc(), &policy, GREEN_IN_RED)?;
    goes(rt.alloc(), &policy, RED_AFTER_GREEN)?;
    goes(rt.alloc(), &policy, GREEN_BELOW_THE_END)
}

/// A report that was sent twice ends the session: given up where the red part isn't whole.
const UNANSWERED: &[Row] = &[
    (
        0,
        "030107000103030800646566",
        "out 0801070008080600010303\ndue 10000\n",
    ),
    (10_000, "", "out 0801070008080600010303\ndue 30000\n"),
    (30_000, "", "out 0e01070002\nnote Failed 7 2\ndue 40000\n"),
    (40_000, "", "out 0e01070002\ndue 60000\n"),
    (60_000, "", "over\n"),
];

/// Where the red part was handed up it is over at that, without a note.
const UNANSWERED_BUT_WHOLE: &[Row] = &[
    (
        0,
        "030107000100030800616263",
        "out 0801070008080300010003\nup 616263\ndue 10000\n",
    ),
    (10_000, "", "out 0801070008080300010003\ndue 30000\n"),
    (30_000, "", "over\n"),
];

#[test]
fn a_report_is_sent_as_often_as_the_policy_says(rt: HostRuntime) -> Result<(), Fail> {
    let policy = policy(1024, 10_000, 2, 160_000)?;
    goes(rt.alloc(), &policy, UNANSWERED)?;
    goes(rt.alloc(), &policy, UNANSWERED_BUT_WHOLE)
}

/// A segment of a block of 1,200 octets, or an acknowledgement; the report that answers it, where one
/// does; and whether the block is handed up.
type Segment = (Part, &'static [Part], bool);

/// The first segment and the last come, then the second, late, and then once more as a checkpoint,
/// with an acknowledgement before it.
const THREE_SEGMENTS: &[Segment] = &[
    (("0001010001008400", 0, 512), &[], false),
    (
        ("0301010001880081300200", 1024, 1200),
        &[("0801010002028930000200840088008130", 0, 0)],
        false,
    ),
    (("000101000184008400", 512, 1024), &[], true),
    (("0901010002", 0, 0), &[], false),
    (
        ("0101010001840084000302", 512, 1024),
        &[("08010100030389300001008930", 0, 0)],
        false,
    ),
];

/// Whether this block is handed up, or nothing where it isn't to be.
fn is_up(up: &Option<Octets>, whole: bool, block: &[u8]) -> bool {
    match up {
        Some(octets) => whole && octets.as_slice() == block,
        None => !whole,
    }
}

/// Whether a session sends these datagrams, and hands this block up or doesn't.
fn is_step(
    alloc: Global,
    step: &Step,
    wanted: &[Part],
    whole: bool,
    block: &[u8],
) -> Result<bool, Fail> {
    Ok(is_up(&step.up, whole, block) && are(alloc, &step.out, wanted, block)?)
}

/// Whether a session answers to a segment of this block as it is to.
fn segment_holds(
    alloc: Global,
    receiver: &mut Receiver,
    row: Segment,
    block: &[u8],
) -> Result<bool, Fail>
    requires { receiver.old.spent ≡ false }
    ensures { OnOk result (receiver.new.spent ≡ false) }
{
    let (segment, wanted, whole) = row;
    let datagram = with_part(alloc, segment, block)?;
    match hear(receiver, &datagram, 0)? {
        Some(step) => is_step(alloc, &step, wanted, whole, block),
        None => Ok(wanted.is_empty() && !whole),
    }
}

/// A session answers to each segment of this block as it is to, and isn't over at it; an
/// acknowledgement ends it then, and nothing is kept.
fn takes(alloc: Global, receiver: &mut Receiver, rows: &[Segment], block: &[u8]) -> Result<(), Fail>
    requires { receiver.old.spent ≡ false }
{
    for &row in rows {
        let holds = segment_holds(alloc, receiver, row, block)?;
        is_so(holds && !receiver.is_over(), row.0.0)?;
    }
    receiver.acknowledged(3);
    is_so(
        receiver.is_over() && receiver.filled().run(0).is_none(),
        "it goes on",
    )
}

#[test]
fn a_late_segment_makes_a_block_whole(rt: HostRuntime) -> Result<(), Fail> {
    let octets = block(rt.alloc(), 1200)?;
    let mut receiver = Receiver::new(rt.alloc(), 1, 1, &Policy::default());
    takes(rt.alloc(), &mut receiver, THREE_SEGMENTS, &octets)
}

/// Takes so many red pieces with these octets, each followed by as many places that stay empty.
fn take_seconds(receiver: &mut Receiver, body: &[u8], count: u64) -> Result<(), Fail>
    requires { receiver.old.spent ≡ false }
    ensures { OnOk result (receiver.new.spent ≡ false) }
{
    let stride = (body.len() as u64).saturating_mul(2);
    for i in 0..count {
        let piece = PieceView {
            kind: PieceKind::Red,
            service: 1,
            offset: i.saturating_mul(stride),
            checkpoint: 0,
            report: 0,
            body,
        };
        take(receiver, &piece, 0)?;
    }
    Ok(())
}

/// The size of a segment, how many come at every second place from 0 on, and where the last one
/// begins, with which the block ends.
type WithGaps = (u64, u64, u64);

/// Single octets at 0 to 2,046 and at 2,048; and every second of 8,192 segments, with the last.
const WITH_GAPS: &[WithGaps] = &[(1, 1024, 2048), (512, 4096, 4_193_792)];

/// Takes the last piece of a block, with these octets, and answers the step.
fn take_last(receiver: &mut Receiver, body: &[u8], offset: u64) -> Result<Step, Fail>
    requires { receiver.old.spent ≡ false }
    ensures { OnOk result (receiver.new.spent ≡ false) }
{
    let last = PieceView {
        kind: PieceKind::RedEndBlock,
        service: 1,
        offset,
        checkpoint: 2,
        report: 0,
        body,
    };
    take(receiver, &last, 0)
}

/// Whether this report alone is sent.
fn is_only_report(step: &Step, wanted: &[u8]) -> bool {
    match step.out.as_slice() {
        [report] => report.as_slice() == wanted,
        _ => false,
    }
}

/// Whether a block with gaps, in segments of these octets, is reported with the greatest number of
/// claims, up to the last one's stop.
fn report_is_cut(
    receiver: &mut Receiver,
    row: WithGaps,
    octets: &[u8],
    wanted: &[u8],
) -> Result<bool, Fail>
    requires { receiver.old.spent ≡ false }
{
    let (size, count, end) = row;
    take_seconds(receiver, octets, count)?;
    let step = take_last(receiver, octets, end)?;
    let claimed = Run {
        from: size.saturating_mul(2046),
        to: size.saturating_mul(2047),
    };
    Ok(is_only_report(&step, wanted) && receiver.filled().run(1023) == Some(claimed))
}

/// Whether the report on a block with gaps is cut.
fn is_cut(alloc: Global, row: WithGaps) -> Result<bool, Fail> {
    let octets = block(alloc, row.0)?;
    let wanted = report_on_seconds(alloc, row.0)?;
    let mut receiver = Receiver::new(alloc, 1, 1, &Policy::default());
    report_is_cut(&mut receiver, row, &octets, &wanted)
}

#[test]
fn a_report_has_1024_claims_at_most(rt: HostRuntime) -> Result<(), Fail> {
    for &row in WITH_GAPS {
        assert!(rt; is_cut(rt.alloc(), row)?, "{}", row.0);
    }
    Ok(())
}
