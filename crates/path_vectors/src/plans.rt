//! What a plan tells.

use crate::lines::is_so;
use contact_plan::{Plan, PlanFault, Window};
use std::alloc::{AllocError, Global};
use std::test::Fail;

/// A plan of the windows from and to these moments.
pub(crate) fn plan_of(alloc: Global, rows: &[(u64, u64)]) -> Result<Plan, PlanFault> {
    let mut windows = Vec::new(alloc);
    for &(from, to) in rows {
        let window = Window { from, to };
        if windows.push(window).is_err() {
            return Err(PlanFault::Memory);
        }
    }
    Plan::new(alloc, &windows)
}

/// So many windows of one millisecond, each ten after the one before.
fn short_windows(alloc: Global, count: u64) -> Result<Vec<Window>, AllocError> {
    let mut windows = Vec::new(alloc);
    for i in 0..count {
        let from = i.saturating_mul(10);
        windows.push(Window {
            from,
            to: from.saturating_add(1),
        })?;
    }
    Ok(windows)
}

/// Two windows, with a gap between them.
const ROWS: &[(u64, u64)] = &[(0, 5_000), (100_000, 200_000)];

/// A moment, whether the link is open then, and how many moments before it were open.
const MOMENTS: &[(u64, bool, u64)] = &[
    (0, true, 0),
    (4_999, true, 4_999),
    (5_000, false, 5_000),
    (70_000, false, 5_000),
    (99_999, false, 5_000),
    (100_000, true, 5_000),
    (105_000, true, 10_000),
    (199_999, true, 104_999),
    (200_000, false, 105_000),
    (18_446_744_073_709_551_615, false, 105_000),
];

/// A contact time, and its open moment.
const CONTACTS: &[(u64, Option<u64>)] = &[
    (0, Some(0)),
    (4_999, Some(4_999)),
    (5_000, Some(100_000)),
    (10_000, Some(105_000)),
    (104_999, Some(199_999)),
    (105_000, None),
    (18_446_744_073_709_551_615, None),
];

/// Whether a plan tells this of each moment.
fn tells_moments(plan: &Plan, rows: &[(u64, bool, u64)]) -> Result<(), Fail> {
    for &(now, open, elapsed) in rows {
        if plan.is_open(now) != open || plan.elapsed(now) != elapsed {
            return Err(Fail::new(format_args!("moment {now}")));
        }
    }
    Ok(())
}

/// Whether a plan tells this of each contact time.
fn tells_contacts(plan: &Plan, rows: &[(u64, Option<u64>)]) -> Result<(), Fail> {
    for &(contact, moment) in rows {
        if plan.moment(contact) != moment {
            return Err(Fail::new(format_args!("contact time {contact}")));
        }
    }
    Ok(())
}

#[test]
fn a_plan_tells_moments_and_contact_times(rt: HostRuntime) -> Result<(), Fail> {
    let Ok(plan) = plan_of(rt.alloc(), ROWS) else {
        return Err(Fail::new("the windows are refused"));
    };
    tells_moments(&plan, MOMENTS)?;
    tells_contacts(&plan, CONTACTS)
}

/// Windows that are no plan, and why.
const REFUSED: &[(&[(u64, u64)], PlanFault)] = &[
    (&[(5, 5)], PlanFault::Order { index: 0 }),
    (&[(6, 5)], PlanFault::Order { index: 0 }),
    (&[(0, 5), (4, 6)], PlanFault::Order { index: 1 }),
    (
        &[(0, 5), (5, 6), (7, 4_611_686_018_427_387_905)],
        PlanFault::Order { index: 2 },
    ),
];

/// Why windows are no plan, where they are none.
fn fault_of(alloc: Global, rows: &[(u64, u64)]) -> Option<PlanFault> {
    plan_of(alloc, rows).err()
}

#[test]
fn windows_out_of_order_are_refused(rt: HostRuntime) -> Result<(), Fail> {
    for &(rows, fault) in REFUSED {
        assert!(rt; fault_of(rt.alloc(), rows) == Some(fault), "{fault:?}");
    }
    Ok(())
}

/// The number of windows that a plan has at most are added to it, and tell their moments; a further
/// one is refused.
fn fills(plan: &mut Plan, windows: &[Window]) -> Result<(), Fail> {
    for window in windows {
        is_so(plan.add(*window).is_ok(), "a window is refused")?;
    }
    is_so(plan.moment(4_095) == Some(40_950), "a contact time")?;
    is_so(plan.elapsed(40_950) == 4_095, "a moment")?;
    let late = Window {
        from: 50_000,
        to: 50_001,
    };
    is_so(
        matches!(plan.add(late), Err(PlanFault::TooMany)),
        "a further one is added",
    )
}

/// Whether a plan of so many windows is refused, as one of too many.
fn are_too_many(alloc: Global, count: u64) -> Result<bool, AllocError> {
    let many = short_windows(alloc, count)?;
    Ok(matches!(Plan::new(alloc, &many), Err(PlanFault::TooMany)))
}

#[test]
fn a_plan_has_4096_windows_at_most(rt: HostRuntime) -> Result<(), Fail> {
    let windows = short_windows(rt.alloc(), 4_096)?;
    let mut plan = Plan::empty(rt.alloc());
    fills(&mut plan, &windows)?;
    is_so(are_too_many(rt.alloc(), 4_097)?, "4,097 windows are a plan")
}
