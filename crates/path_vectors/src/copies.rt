//! Old segments of every kind that come once more in a drain.

ghost use Rattle.std.specs.Prelude.{◌≡◌, false, OnOk};

use crate::lines::{block, is_so};
use crate::links::{deliver, link};
use ltp_world::{End, LinkWorld, Pick};
use std::alloc::{AllocError, Global};
use std::test::Fail;

/// Moments are below this one.
const MOMENTS: u64 = 1 << 62;

/// What happens before the drain.
#[derive(Clone, Copy)]
enum Step {
    /// The first end submits a block of two segments, all red.
    Submit,
    /// A datagram of all that were sent is delivered.
    Deliver(usize),
    /// The clock is set.
    Clock(u64),
}

/// The first segment of a block is lost, and what waits for an answer is sent twice: both ends cancel
/// the session, and each hears the other's cancel and its acknowledgement. Of a second block the
/// checkpoint comes, and the report on it; the acknowledgement and the segment that the report asks
/// for don't.
const BEFORE: &[Step] = &[
    Step::Submit,
    Step::Deliver(1),
    Step::Clock(10_000),
    Step::Clock(30_000),
    Step::Deliver(5),
    Step::Deliver(6),
    Step::Deliver(7),
    Step::Deliver(8),
    Step::Submit,
    Step::Deliver(10),
    Step::Deliver(11),
];

/// Each kind of segment, the number of one of them, and how many events a drain has in which that one
/// comes once more.
const KINDS: &[(&str, usize, u64)] = &[
    ("a piece that is no checkpoint", 9, 7),
    ("a checkpoint", 10, 7),
    ("a report", 11, 6),
    ("an acknowledgement of a report", 12, 5),
    ("a sender's cancel", 5, 8),
    ("the acknowledgement of that", 7, 7),
    ("a receiver's cancel", 6, 8),
    ("the acknowledgement of that", 8, 7),
];

/// How many events the drain has without an old segment.
const ALONE: u64 = 6;

/// What the sessions cost that are kept before the drain: the second one has two segments.
const COST: u64 = 2 + 16;

/// What an old segment of the second session costs at most by the segments of its block.
const OF_SECOND: u64 = 2 + 8;

/// And one of the first session, which no end keeps.
const OF_FIRST: u64 = 8;

/// The first end submits a block of two segments, all red.
fn submit(alloc: Global, world: &mut LinkWorld) -> Result<(), Fail>
    requires { world.old.spent ≡ false }
    ensures { OnOk result (world.new.spent ≡ false) }
{
    let block = block(alloc, 2_048)?;
    match world.submit(End::First, block.as_slice(), block.len() as u64) {
        Ok(_) => Ok(()),
        Err(_) => Err(Fail::new("a block isn't sent")),
    }
}

/// Something happens.
fn happens(alloc: Global, world: &mut LinkWorld, step: Step) -> Result<(), Fail>
    requires { world.old.spent ≡ false }
    ensures { OnOk result (world.new.spent ≡ false) }
{
    match step {
        Step::Submit => submit(alloc, world),
        Step::Deliver(k) => {
            deliver(world, k)?;
            Ok(())
        }
        Step::Clock(now) if now < MOMENTS => {
            world.clock(now)?;
            Ok(())
        }
        Step::Clock(_) => Err(Fail::new("a step is too late")),
    }
}

/// How many events a drain with these picks has after all that happens before it.
fn events_after(alloc: Global, world: &mut LinkWorld, picks: &[Pick]) -> Result<u64, Fail>
    requires { world.old.spent ≡ false }
{
    for &step in BEFORE {
        happens(alloc, world, step)?;
    }
    match world.drain_by(picks) {
        Ok(drained) => Ok(drained.events),
        Err(_) => Err(Fail::new("the link isn't drained")),
    }
}

/// How many events a drain with these picks has.
fn events_by(alloc: Global, picks: &[Pick]) -> Result<u64, Fail> {
    let mut world = link(alloc, 1_024, 2)?;
    events_after(alloc, &mut world, picks)
}

#[test]
fn an_old_segment_of_each_kind_costs_three_events_at_most(rt: HostRuntime) -> Result<(), Fail> {
    is_so(events_by(rt.alloc(), &[])? == ALONE, "alone")?;
    for &(kind, k, wanted) in KINDS {
        let events = events_by(rt.alloc(), &[Pick::Old { k }])?;
        is_so(
            events == wanted && events <= ALONE + 3 && events <= COST + 3,
            kind,
        )?;
    }
    Ok(())
}

/// A pick of the old segment of each kind.
fn all_kinds(alloc: Global) -> Result<Vec<Pick>, AllocError> {
    let mut picks = Vec::new(alloc);
    for &(_, k, _) in KINDS {
        picks.push(Pick::Old { k })?;
    }
    Ok(picks)
}

#[test]
fn old_segments_of_all_kinds_keep_both_bounds(rt: HostRuntime) -> Result<(), Fail> {
    let picks = all_kinds(rt.alloc())?;
    let events = events_by(rt.alloc(), &picks)?;
    is_so(events == 13, "the events")?;
    is_so(events <= COST + 3 * 8, "by the events of each")?;
    is_so(
        events <= COST + 4 * OF_SECOND + 4 * OF_FIRST,
        "by the segments",
    )
}
