//! When the link of a face is open, and how many octets a second it takes.

ghost use Rattle.std.specs.Prelude.{◌≡◌, [], Some};
ghost use Rattle.contact_plan.specs.Windows.{next_from};
ghost use Rattle.outbox.specs.FaceTime.{open_time};
ghost use Rattle.outbox.specs.Schedule.{contact_at, contact_in, rate_of};

use crate::reading::Reading;
use contact_plan::Plan;
use std::alloc::Global;
use std::marker::Model;

/// The contacts of a face's link, and the rates in them.
///
/// A contract sees a schedule as a record of its windows, their own rates and the rate of all
/// others. A rate is in octets a second.
#[derive(Debug, Drop)]
pub struct Schedule {
    plan: Plan,
    rates: Vec<Option<u64>>,
    rate: Option<u64>,
}

impl Model for Schedule {
    ghost use Rattle.outbox.specs.Schedule.{ScheduleValue};

    ghost Value = { ScheduleValue };

    ghost view = { λ s. record { windows = s.plan; rates = s.rates.items; rate = s.rate } };
}

impl Schedule {
    /// A link that is always open. It takes no memory.
    pub fn always(alloc: Global, rate: Option<u64>) -> Schedule
        ensures { result ≡ record { windows = []; rates = []; rate = rate } }
    {
        Schedule {
            plan: Plan::empty(alloc),
            rates: Vec::new(alloc),
            rate,
        }
    }

    /// A link that is open in the windows of a plan; one without windows is always open. `rates`
    /// has for each of them, in order, its own rate where it has one; `rate` is that of all others.
    /// It takes no memory.
    pub fn new(plan: Plan, rates: Vec<Option<u64>>, rate: Option<u64>) -> Schedule
        ensures { result ≡ record { windows = plan; rates = rates.items; rate = rate } }
    {
        Schedule { plan, rates, rate }
    }

    /// The index of the contact that a moment lies in, 0 where there are none; `None` while the
    /// link is closed. It takes no memory.
    pub fn contact(&self, moment: u64) -> Option<usize>
        ensures { result ≡ contact_at self.now moment }
    {
        contact_in(&self.plan, moment)
    }

    /// The rate in a contact: its own, else the face's. It takes no memory.
    pub fn rate(&self, contact: Option<usize>) -> Option<u64>
        ensures { result ≡ rate_of self.now contact }
    {
        match contact {
            Some(index) => self.rate_in(index),
            None => None,
        }
    }

    /// The rate in the contact of an index.
    fn rate_in(&self, index: usize) -> Option<u64>
        ensures { result ≡ rate_of self.now (Some index) }
    {
        match self.rates.get(index) {
            Some(Some(own)) => Some(*own),
            _ => self.rate,
        }
    }

    /// The next moment after this one at which a contact begins. It takes no memory.
    pub fn next(&self, moment: u64) -> Option<u64>
        ensures { result ≡ next_from (self.now).windows moment }
    {
        self.plan.next(moment)
    }

    /// For how many milliseconds the link was open between two readings.
    pub(crate) fn open_time(&self, before: Reading, now: Reading) -> u64
        ensures { result ≡ open_time (self.now).windows before now }
    {
        open_time(&self.plan, before, now)
    }
}

/// The contact that a moment lies in.
fn contact_in(plan: &Plan, moment: u64) -> Option<usize>
    ensures { result ≡ contact_in plan.now moment }
{
    if plan.is_empty() {
        Some(0)
    } else {
        plan.at(moment)
    }
}

/// The milliseconds between two readings, those of the contacts alone where there are some.
fn open_time(plan: &Plan, before: Reading, now: Reading) -> u64
    ensures { result ≡ open_time plan.now before now }
{
    let passed = now.monotonic.saturating_sub(before.monotonic);
    if plan.is_empty() {
        passed
    } else {
        let open = plan
            .elapsed(now.wall)
            .saturating_sub(plan.elapsed(before.wall));
        passed.min(open)
    }
}
