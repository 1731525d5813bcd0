//! Links that stop losing.

ghost use Rattle.std.specs.Prelude.{◌≡◌, false, OnOk};

use crate::lines::{are_lines, is_so, write_numbers, write_words};
use crate::links::{deliver, link};
use crate::told::{write_all, write_outs, write_told};
use ltp_world::{DrainRefused, Drained, End, LinkWorld, Pick};
use std::alloc::{AllocError, Global};
use std::test::Fail;

/// A bundle of 23 octets, which is sent as one red segment.
const BUNDLE: &[u8] = &[
    0x06, 0x81, 0x10, 0x0d, 0x02, 0x01, 0x01, 0x01, 0, 0, 0, 0, 0x87, 0x68, 0x05, 0x3c, 0, 1, 8, 3,
    0x61, 0x62, 0x63,
];

/// Moments are below this one.
const MOMENTS: u64 = 1 << 62;

/// What happens on a link.
#[derive(Clone, Copy)]
enum Event {
    /// The first end submits the bundle, all red.
    Submit,
    /// A datagram of all that were sent is delivered.
    Deliver(usize),
    /// The clock is set.
    Clock(u64),
    /// The link stops losing.
    Drain,
    /// The same, and picks say what is delivered next.
    DrainBy(&'static [Pick]),
}

/// An event, and the lines of what the ends do. Of a drain each event's lines come after a line
/// `event`, and the last line has their number.
type Row = (Event, &'static str);

/// Appends the lines of a drain.
fn write_drained(alloc: Global, text: &mut String, drained: &Drained) -> Result<(), AllocError> {
    for ends in drained.effects.as_slice() {
        write_words(text, &["event\n"])?;
        write_all(alloc, text, ends.as_slice())?;
    }
    write_words(text, &["events"])?;
    write_numbers(text, &[drained.events])?;
    write_words(text, &["\n"])
}

/// The first end submits the bundle.
fn submit(alloc: Global, world: &mut LinkWorld, text: &mut String) -> Result<(), Fail>
    requires { world.old.spent ≡ false }
    ensures { OnOk result (world.new.spent ≡ false) }
{
    match world.submit(End::First, BUNDLE, BUNDLE.len() as u64) {
        Ok(effects) => {
            write_outs(alloc, text, "first", effects.out.as_slice())?;
            Ok(())
        }
        Err(_) => Err(Fail::new("the bundle isn't sent")),
    }
}

/// The clock is set.
fn set_clock(alloc: Global, world: &mut LinkWorld, now: u64, text: &mut String) -> Result<(), Fail>
    requires { world.old.spent ≡ false }
    ensures { OnOk result (world.new.spent ≡ false) }
{
    if now >= MOMENTS {
        return Err(Fail::new("a row is too late"));
    }
    let ends = world.clock(now)?;
    write_all(alloc, text, ends.as_slice())?;
    Ok(())
}

/// The link stops losing.
fn drain(alloc: Global, world: &mut LinkWorld, text: &mut String) -> Result<(), Fail>
    requires { world.old.spent ≡ false }
    ensures { OnOk result (world.new.spent ≡ false) }
{
    match world.drain() {
        Ok(drained) => Ok(write_drained(alloc, text, &drained)?),
        Err(DrainRefused::TooLate) => Ok(write_words(text, &["TooLate\n"])?),
        Err(DrainRefused::Memory) => Err(Fail::new("memory ran out")),
    }
}

/// The link stops losing, and picks say what is delivered next.
fn drain_by(
    alloc: Global,
    world: &mut LinkWorld,
    picks: &[Pick],
    text: &mut String,
) -> Result<(), Fail>
    requires { world.old.spent ≡ false }
    ensures { OnOk result (world.new.spent ≡ false) }
{
    match world.drain_by(picks) {
        Ok(drained) => Ok(write_drained(alloc, text, &drained)?),
        Err(DrainRefused::TooLate) => Ok(write_words(text, &["TooLate\n"])?),
        Err(DrainRefused::Memory) => Err(Fail::new("memory ran out")),
    }
}

/// An event happens, and the lines of it are appended.
fn happens(
    alloc: Global,
    world: &mut LinkWorld,
    event: Event,
    text: &mut String,
) -> Result<(), Fail>
    requires { world.old.spent ≡ false }
    ensures { OnOk result (world.new.spent ≡ false) }
{
    match event {
        Event::Submit => submit(alloc, world, text),
        Event::Deliver(k) => {
            let told = deliver(world, k)?;
            write_told(alloc, text, &told)?;
            Ok(())
        }
        Event::Clock(now) => set_clock(alloc, world, now, text),
        Event::Drain => drain(alloc, world, text),
        Event::DrainBy(picks) => drain_by(alloc, world, picks, text),
    }
}

/// An event goes as its row says.
fn holds(alloc: Global, world: &mut LinkWorld, row: Row) -> Result<(), Fail>
    requires { world.old.spent ≡ false }
    ensures { OnOk result (world.new.spent ≡ false) }
{
    let mut text = String::new(alloc);
    happens(alloc, world, row.0, &mut text)?;
    are_lines(text.as_str(), row.1)
}

/// A link goes as the rows say, and ends at this moment after so many datagrams.
fn play(
    alloc: Global,
    world: &mut LinkWorld,
    rows: &[Row],
    now: u64,
    sent: usize,
) -> Result<(), Fail>
    requires { world.old.spent ≡ false }
{
    for &row in rows {
        holds(alloc, world, row)?;
    }
    is_so(world.now() == now, "the clock at the end")?;
    is_so(world.sent() == sent, "how many datagrams were sent")
}

/// A link that sends what waits so often goes as the rows say, and ends at this moment after so many
/// datagrams.
fn goes(alloc: Global, limit: u32, rows: &[Row], now: u64, sent: usize) -> Result<(), Fail> {
    let mut world = link(alloc, 1024, limit)?;
    play(alloc, &mut world, rows, now, sent)
}

/// Datagram 0, the one segment of the bundle.
const SENT: Row = (
    Event::Submit,
    "first out 0301010001001702000681100d02010101000000008768053c00010803616263\n",
);

/// The clock is set to the segment's deadline, and it is sent again; and then it comes, the report on
/// it, and the acknowledgement of that.
const LOST: &[Row] = &[
    SENT,
    (
        Event::Drain,
        "event\nfirst out 0301010001001702000681100d02010101000000008768053c00010803616263\nevent\nsecond out 0801010002021700010017\nsecond up 1 0681100d02010101000000008768053c00010803616263\nevent\nfirst out 0901010002\nfirst note Sent 1\nevent\nevents 4\n",
    ),
];

#[test]
fn a_lost_segment_comes_again(rt: HostRuntime) -> Result<(), Fail> {
    goes(rt.alloc(), 10, LOST, 10_000, 4)
}

/// The segment was sent as often as it may be: the session is cancelled, and the cancel and the
/// acknowledgement of it come. Such a link isn't hopeful.
const GIVEN_UP: &[Row] = &[
    SENT,
    (
        Event::Clock(10_000),
        "first out 0301010001001702000681100d02010101000000008768053c00010803616263\n",
    ),
    (
        Event::Drain,
        "event\nfirst out 0c01010002\nfirst note Failed 1 2\nevent\nsecond out 0d010100\nevent\nevents 3\n",
    ),
];

#[test]
fn a_sender_gives_up_at_its_limit(rt: HostRuntime) -> Result<(), Fail> {
    goes(rt.alloc(), 2, GIVEN_UP, 30_000, 4)
}

/// The acknowledgement of the report is lost: the report comes again at its deadline, and its
/// acknowledgement comes.
const UNACKNOWLEDGED: &[Row] = &[
    SENT,
    (
        Event::Deliver(0),
        "second out 0801010002021700010017\nsecond up 1 0681100d02010101000000008768053c00010803616263\n",
    ),
    (
        Event::Deliver(1),
        "first out 0901010002\nfirst note Sent 1\n",
    ),
    (
        Event::Drain,
        "event\nsecond out 0801010002021700010017\nevent\nfirst out 0901010002\nevent\nevents 3\n",
    ),
];

#[test]
fn a_lost_acknowledgement_comes_again(rt: HostRuntime) -> Result<(), Fail> {
    goes(rt.alloc(), 10, UNACKNOWLEDGED, 10_000, 5)
}

/// Nothing was sent.
const SILENT: &[Row] = &[(Event::Drain, "events 0\n")];

#[test]
fn a_link_on_which_nothing_was_sent_is_drained(rt: HostRuntime) -> Result<(), Fail> {
    goes(rt.alloc(), 10, SILENT, 0, 0)
}

/// So late that the deadline of what is sent then is 2^62.
const LATE: u64 = MOMENTS - 10_000;

/// A deadline that the clock can't be set to. The world stays as it was.
const TOO_LATE: &[Row] = &[
    (Event::Clock(LATE), ""),
    SENT,
    (Event::Drain, "TooLate\n"),
    (Event::Drain, "TooLate\n"),
];

#[test]
fn a_deadline_of_two_to_the_62_is_too_late(rt: HostRuntime) -> Result<(), Fail> {
    goes(rt.alloc(), 10, TOO_LATE, LATE, 1)
}

/// The lost segment comes twice after all: a report on each time, and the second one after the
/// session is over at its sender, which acknowledges it all the same.
const TWICE: &[Row] = &[
    SENT,
    (
        Event::DrainBy(&[Pick::Old { k: 0 }, Pick::Old { k: 0 }]),
        "event\nsecond out 0801010002021700010017\nsecond up 1 0681100d02010101000000008768053c00010803616263\nevent\nsecond out 0801010003021700010017\nevent\nfirst out 0901010002\nfirst note Sent 1\nevent\nfirst out 0901010003\nevent\nevent\nevents 6\n",
    ),
];

#[test]
fn an_old_segment_comes_twice(rt: HostRuntime) -> Result<(), Fail> {
    goes(rt.alloc(), 10, TWICE, 0, 5)
}

/// Neither end has anything new: the pick of an end sets the clock. A datagram that there isn't, and
/// one that is new, don't come, and an end that has nothing new waits for the other.
const PICKED: &[Row] = &[
    SENT,
    (
        Event::DrainBy(&[
            Pick::Old { k: 9 },
            Pick::Second,
            Pick::Old { k: 1 },
            Pick::Second,
            Pick::First,
        ]),
        "event\nfirst out 0301010001001702000681100d02010101000000008768053c00010803616263\nevent\nsecond out 0801010002021700010017\nsecond up 1 0681100d02010101000000008768053c00010803616263\nevent\nfirst out 0901010002\nfirst note Sent 1\nevent\nevents 4\n",
    ),
];

#[test]
fn picks_that_do_nothing_count_no_event(rt: HostRuntime) -> Result<(), Fail> {
    goes(rt.alloc(), 10, PICKED, 10_000, 4)
}
