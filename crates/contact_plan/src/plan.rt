//! A plan of contact windows.

ghost use Rattle.std.specs.Prelude.{◌≡◌, ◌≤◌, ◌<◌, ◌++◌, ◌∷◌, IfOk, OnOk, OnErr, None, MatchOption, []};
ghost use Rattle.std.specs.Prelude.{length, IsTrue, ◌↔◌};
ghost use Rattle.contact_plan.specs.Fault.{Extends, Plans, plan_fault};
ghost use Rattle.contact_plan.specs.Windows.{IsMoment, IsPlan, elapsed, index_at, is_open};
ghost use Rattle.contact_plan.specs.Windows.{next_from, total};

use crate::fault::PlanFault;
use crate::judging::{WINDOWS_MOST, fault_of, may_follow};
use crate::kept::{self, Kept};
use crate::window::Window;
use std::alloc::{AllocError, Global};
use std::marker::Model;

/// The windows in which a link is open, in order.
///
/// A contract sees a plan as the list of its windows.
#[derive(Debug, Drop)]
pub struct Plan {
    kept: Vec<Kept>,
}

impl Model for Plan {
    ghost use Rattle.std.specs.Prelude.{List};
    ghost use Rattle.contact_plan.specs.declared.window.Window.{Window};
    ghost use Rattle.contact_plan.specs.Kept.{windows_of, IsKept};

    ghost Value = { List Window };

    ghost view = { λ plan. windows_of plan.kept.items };

    ghost invariant = { λ plan. IsKept plan.kept.items };
}

impl Plan {
    /// A plan of no window: the link is never open. It takes no memory.
    pub fn empty(alloc: Global) -> Plan
        ensures { result ≡ [] }
    {
        Plan {
            kept: Vec::new(alloc),
        }
    }

    /// A plan of these windows: 4,096 at most, each of which has a moment, ends at 2^62 at the
    /// latest, and begins at or after the end of the one before it.
    pub fn new(alloc: Global, windows: &[Window]) -> Result<Plan, PlanFault>
        ensures does { Plans windows.now result }
        ensures plan { IfOk result IsPlan }
    {
        if let Some(fault) = fault_of(windows) {
            return Err(fault);
        }
        let plan = Plan::of(alloc, windows)?;
        Ok(plan)
    }

    /// A plan of windows that have no fault.
    fn of(alloc: Global, windows: &[Window]) -> Result<Plan, AllocError>
        requires { plan_fault windows.now ≡ None }
        ensures made { IfOk result (λ plan. (plan ≡ windows.now) × IsPlan plan) }
        ensures wants { OnErr result (0 < length windows.now) }
    {
        let mut plan = Plan::empty(alloc);
        'windows: for window in windows {
            if let Err(_) = plan.add(*window) {
                return Err(AllocError);
            }
        }
        Ok(plan)
    }

    /// A window is put at the end of the plan.
    ///
    /// A refusal leaves the plan as it was.
    pub fn add(&mut self, window: Window) -> Result<(), PlanFault>
        ensures does { Extends self.old self.new window result }
        ensures plan { IsPlan self.new }
    {
        if let Some(fault) = self.fault_with(window) {
            return Err(fault);
        }
        self.put(window)?;
        Ok(())
    }

    /// Why the plan with this window at its end is none.
    fn fault_with(&self, window: Window) -> Option<PlanFault>
        ensures fault { result ≡ plan_fault (self.now ++ window ∷ []) }
        ensures plan { IsPlan self.now }
    {
        let index = self.kept.len();
        if index >= WINDOWS_MOST {
            return Some(PlanFault::TooMany);
        }
        let (end, _) = kept::last(&self.kept);
        if !may_follow(end, window) {
            return Some(PlanFault::Order { index });
        }
        None
    }

    /// A window that has no fault is put at the end of the plan.
    fn put(&mut self, window: Window) -> Result<(), AllocError>
        requires { plan_fault (self.old ++ window ∷ []) ≡ None }
        ensures done { OnOk result (self.new ≡ self.old ++ window ∷ []) }
        ensures plan { OnOk result (IsPlan self.new) }
        ensures err { OnErr result (self.new ≡ self.old) }
    {
        let (_, contact) = kept::last(&self.kept);
        self.kept.push(kept::after(contact, window))?;
        Ok(())
    }

    /// Whether the plan has no window: the link is never open.
    pub fn is_empty(&self) -> bool
        ensures { IsTrue result ↔ (self.now ≡ []) }
    {
        self.kept.is_empty()
    }

    /// Whether the link is open at a moment. It takes no memory.
    pub fn is_open(&self, now: u64) -> bool
        ensures open { result ≡ is_open self.now now }
        ensures plan { IsPlan self.now }
    {
        kept::is_open(&self.kept, now)
    }

    /// The index of the window that a moment lies in, from 0. It takes no memory.
    pub fn at(&self, now: u64) -> Option<usize>
        ensures at { result ≡ index_at self.now now }
        ensures plan { IsPlan self.now }
    {
        kept::at(&self.kept, now)
    }

    /// The first moment after this one at which a window begins. It takes no memory.
    pub fn next(&self, now: u64) -> Option<u64>
        ensures next { result ≡ next_from self.now now }
        ensures plan { IsPlan self.now }
    {
        kept::next(&self.kept, now)
    }

    /// The contact time at a moment: at how many moments before it the link was open. It takes no
    /// memory.
    pub fn elapsed(&self, now: u64) -> u64
        ensures elapsed { result ≡ elapsed self.now now }
        ensures plan { IsPlan self.now }
    {
        kept::elapsed(&self.kept, now)
    }

    /// The one moment at which the link is open and the contact time is this one. There is none from
    /// the sum of the windows' lengths on. It takes no memory.
    pub fn moment(&self, elapsed: u64) -> Option<u64>
        ensures moment { MatchOption result (total self.now ≤ elapsed)
            (λ moment. IsMoment self.now elapsed moment) }
        ensures plan { IsPlan self.now }
    {
        kept::moment(&self.kept, elapsed)
    }
}
