//! The outbox of a face and its time, reading by reading: when each datagram goes, and which moment
//! the face has.

use contact_plan::{Plan, Window};
use endpoint::Octets;
use outbox::{FaceTime, Outbox, Reading, Schedule};
use std::alloc::{AllocError, Global};
use std::test::Fail;

/// Moments are below this one.
const MOMENTS: u64 = 1 << 62;

/// A reading of the wall clock and of the monotonic one; the sizes of the datagrams that are put
/// then; the face's moment; and the sizes of the datagrams that go.
type Row = (u64, u64, &'static [usize], u64, &'static [usize]);

/// How many octets may wait where a row doesn't ask.
const LIMIT: u64 = 536_870_912;

/// A datagram of so many octets.
fn datagram(alloc: Global, size: usize) -> Result<Octets, AllocError> {
    let mut octets = Vec::new(alloc);
    for _ in 0..size {
        octets.push(0)?;
    }
    Ok(Octets::from_vec(octets))
}

/// A schedule of these windows, and this rate in all of them.
fn schedule(alloc: Global, windows: &[Window], rate: Option<u64>) -> Result<Schedule, Fail> {
    match Plan::new(alloc, windows) {
        Ok(plan) => Ok(Schedule::new(plan, Vec::new(alloc), rate)),
        Err(_) => Err(Fail::new("a row's windows are no plan")),
    }
}

/// Whether exactly datagrams of these sizes go.
fn go(outbox: &mut Outbox, sizes: &[usize]) -> bool {
    for size in sizes {
        match outbox.next() {
            Some(datagram) => {
                if datagram.len() != *size {
                    return false;
                }
            }
            None => return false,
        }
    }
    outbox.next().is_none()
}

/// Whether a face does at a reading what its row says.
fn does(alloc: Global, outbox: &mut Outbox, time: &mut FaceTime, row: Row) -> Result<bool, Fail> {
    let (wall, monotonic, puts, wanted, goes) = row;
    if wall >= MOMENTS {
        return Err(Fail::new("a row is too late"));
    }
    let reading = Reading { wall, monotonic };
    let moment = time.read(outbox, reading);
    outbox.read(reading);
    for size in puts {
        outbox.put(datagram(alloc, *size)?)?;
    }
    Ok(go(outbox, goes) && moment == wanted)
}

/// Whether a face does what its rows say.
fn all_do(alloc: Global, schedule: Schedule, rows: &[Row]) -> Result<bool, Fail> {
    let mut outbox = Outbox::new(alloc, schedule, LIMIT);
    let mut time = FaceTime::new();
    for row in rows {
        if !does(alloc, &mut outbox, &mut time, *row)? {
            return Ok(false);
        }
    }
    Ok(true)
}

/// 15 seconds, a gap, and 10 minutes.
const WINDOWS: &[Window] = &[
    Window {
        from: 1_000_000,
        to: 1_015_000,
    },
    Window {
        from: 1_200_000,
        to: 1_800_000,
    },
];

/// 1,000 octets a second: the first datagram goes at once, the second when all but what 10
/// milliseconds carry is paid off; the face's time stands still until it is gone.
const PACED: &[Row] = &[
    (1_010_000, 1_010_000, &[1_032, 1_027], 1_010_000, &[1_032]),
    (1_011_021, 1_011_021, &[], 1_010_000, &[]),
    (1_011_022, 1_011_022, &[], 1_010_000, &[1_027]),
    (1_011_023, 1_011_023, &[], 1_010_001, &[]),
];

#[test]
fn a_rate_sets_the_pace(rt: HostRuntime) -> Result<(), Fail> {
    let schedule = Schedule::always(rt.alloc(), Some(1_000));
    assert!(rt; all_do(rt.alloc(), schedule, PACED)?);
    Ok(())
}

/// The face's time stands still in the gap: ten seconds after the first reading, in contact time, a
/// timer is due that is set then.
const OPEN_THEN: &[Row] = &[
    (1_010_000, 1_010_000, &[50], 1_010_000, &[50]),
    (1_100_000, 1_100_000, &[], 1_015_000, &[]),
    (1_200_000, 1_200_000, &[], 1_015_000, &[]),
    (1_204_999, 1_204_999, &[], 1_019_999, &[]),
    (1_205_000, 1_205_000, &[50], 1_020_000, &[50]),
];

#[test]
fn time_stands_still_in_a_gap(rt: HostRuntime) -> Result<(), Fail> {
    let schedule = schedule(rt.alloc(), WINDOWS, None)?;
    assert!(rt; all_do(rt.alloc(), schedule, OPEN_THEN)?);
    Ok(())
}

/// What is put in a gap goes when the next window begins, and the face's time goes on from there.
const CLOSED_THEN: &[Row] = &[
    (1_020_000, 1_020_000, &[50], 1_020_000, &[]),
    (1_200_000, 1_200_000, &[], 1_020_000, &[50]),
    (1_210_000, 1_210_000, &[50], 1_030_000, &[50]),
];

#[test]
fn datagrams_wait_for_a_window(rt: HostRuntime) -> Result<(), Fail> {
    let schedule = schedule(rt.alloc(), WINDOWS, None)?;
    assert!(rt; all_do(rt.alloc(), schedule, CLOSED_THEN)?);
    Ok(())
}

/// The wall clock is set a day ahead and back: neither the pace nor the face's time sees it.
const SET_AHEAD_AND_BACK: &[Row] = &[
    (1_010_000, 500, &[1_032, 1_027], 1_010_000, &[1_032]),
    (87_410_000, 501, &[], 1_010_000, &[]),
    (1_010_002, 1_521, &[], 1_010_000, &[]),
    (1_010_003, 1_522, &[], 1_010_000, &[1_027]),
    (1, 1_523, &[], 1_010_001, &[]),
];

#[test]
fn a_clock_that_is_set_keeps_the_pace(rt: HostRuntime) -> Result<(), Fail> {
    let schedule = Schedule::always(rt.alloc(), Some(1_000));
    assert!(rt; all_do(rt.alloc(), schedule, SET_AHEAD_AND_BACK)?);
    Ok(())
}

/// It is set from one window into the next, and back: the contacts that were skipped count for the
/// one millisecond that passed, and those that come again for nothing at that reading.
const SET_OVER_A_GAP: &[Row] = &[
    (1_010_000, 0, &[], 1_010_000, &[]),
    (1_210_000, 1, &[], 1_010_001, &[]),
    (1_205_000, 2, &[], 1_010_001, &[]),
    (1_205_002, 4, &[], 1_010_003, &[]),
];

#[test]
fn a_clock_that_is_set_skips_no_time(rt: HostRuntime) -> Result<(), Fail> {
    let schedule = schedule(rt.alloc(), WINDOWS, None)?;
    assert!(rt; all_do(rt.alloc(), schedule, SET_OVER_A_GAP)?);
    Ok(())
}

/// The datagrams of two blocks of 65,584 and 4,514 octets, which are the pieces of a bundle with a
/// payload of 70,000, in segments of 1,024 octets: how many there are of each size, in order. What a
/// segment has beside its data grows with the number of its offset: the last of the first block has 48
/// octets of it, and that of the second 418.
const OF_TWO_BLOCKS: &[(usize, usize)] = &[
    (1, 1_032),
    (15, 1_033),
    (48, 1_034),
    (1, 59),
    (1, 1_032),
    (3, 1_033),
    (1, 429),
];

/// Puts so many datagrams of each of these sizes.
fn put_all(alloc: Global, outbox: &mut Outbox, sizes: &[(usize, usize)]) -> Result<(), Fail> {
    for (count, size) in sizes {
        for _ in 0..*count {
            outbox.put(datagram(alloc, *size)?)?;
        }
    }
    Ok(())
}

#[test]
fn what_passes_the_limit_is_dropped(rt: HostRuntime) -> Result<(), Fail> {
    let schedule = schedule(rt.alloc(), WINDOWS, None)?;
    let mut outbox = Outbox::new(rt.alloc(), schedule, 65_507);
    put_all(rt.alloc(), &mut outbox, OF_TWO_BLOCKS)?;
    assert!(rt; outbox.len() == 64 && outbox.octets() == 65_184 && outbox.dropped() == 6);
    Ok(())
}

#[test]
fn a_long_queue_costs_each_datagram_the_same(rt: HostRuntime) -> Result<(), Fail> {
    let schedule = Schedule::always(rt.alloc(), None);
    let mut outbox = Outbox::new(rt.alloc(), schedule, LIMIT);
    outbox.read(Reading {
        wall: 0,
        monotonic: 0,
    });
    put_all(rt.alloc(), &mut outbox, &[(100_000, 1)])?;
    for _ in 0..1_000_000 {
        put_all(rt.alloc(), &mut outbox, &[(1, 1)])?;
        assert!(rt; outbox.next().is_some());
    }
    assert!(rt; outbox.len() == 100_000);
    Ok(())
}
