//! A drain: all that is sent from now on is delivered, and the clock moves from window to window
//! where nothing is left to deliver.

ghost use Rattle.std.specs.Prelude.{◌≡◌, ◌<◌, ◌≤◌, ◌^◌, ◌+◌, false, true, length, Some, IfOk, OnOk, OnErr};
ghost use Rattle.ltp_world.specs.Clean.{deadline_in};
ghost use Rattle.ltp_world.specs.RedParts.{DrainHandsUpFronts};
ghost use Rattle.ltp_world.specs.Shows.{AreBounded};
ghost use Rattle.ltp_world.specs.Work.{left_of};
ghost use Rattle.contact_plan.specs.Windows.{IsMoment, is_open};
ghost use Rattle.window_world.specs.Drain.{Completes, Drains, untimed};
ghost use Rattle.window_world.specs.Leads.{LeadsOn};
ghost use Rattle.window_world.specs.Values.{RunsOnContact};

use crate::effects::{At, WindowDrained};
use crate::world::WindowWorld;
use ltp_world::WorldEffects;
use std::alloc::AllocError;

impl WindowWorld {
    /// The link stops losing. Every datagram that is sent from now on comes to its end, once and in
    /// the order of sending; where none is on its way, the clock is set to the moment of the least
    /// deadline; and the drain ends where no timer runs either, or where the plan has no moment for
    /// the next event. Datagrams that were sent before are lost.
    ///
    /// It returns from every world.
    pub fn drain(&mut self) -> Result<WindowDrained, AllocError>
        requires whole { self.old.spent ≡ false }
        ensures does { IfOk result (Drains self.old self.new) }
        // What is handed up is the front of a submitted block, once.
        ensures fronts { IfOk result (λ drained.
            DrainHandsUpFronts self.old.link (untimed drained.effects)) }
        // A hopeful world that has room completes its sessions, however long the gaps are.
        ensures completes { IfOk result (Completes self.old) }
        ensures contact { RunsOnContact self.new }
        ensures bounds { AreBounded self.old.link.engines
            → OnOk result (AreBounded self.new.link.engines) }
        ensures err { OnErr result (self.new.spent ≡ true) }
    {
        let mut steps = Vec::new(self.alloc);
        let mut from = self.link.sent();
        'ticking: loop {
            self.deliver_from(from, &mut steps)?;
            from = self.link.sent();
            let Some(deadline) = self.link.next_deadline() else {
                return Ok(WindowDrained::of(steps, false));
            };
            let Some(moment) = self.plan.moment(deadline) else {
                return Ok(WindowDrained::of(steps, true));
            };
            self.tick_to(deadline, moment, &mut steps)?;
        }
    }

    /// The datagrams from number `from` on come to their ends, and those that are sent meanwhile.
    fn deliver_from(&mut self, from: usize, steps: &mut Vec<At>) -> Result<(), AllocError>
        requires whole { self.old.spent ≡ false }
        requires there { from ≤ length self.old.link.sent }
        requires open { from < length self.old.link.sent
            → is_open self.old.plan self.old.moment ≡ true }
        requires contact { RunsOnContact self.old }
        ensures done { OnOk result (LeadsOn self.old self.new from (length self.new.link.sent)
            steps.old.items steps.new.items) }
        ensures clock { OnOk result (self.new.link.moment ≡ self.old.link.moment) }
        ensures contact { RunsOnContact self.new }
        ensures bounds { AreBounded self.old.link.engines
            → OnOk result (AreBounded self.new.link.engines) }
        ensures err { OnErr result (self.new.spent ≡ true) }
    {
        let mut k = from;
        'delivering: while k < self.link.sent() {
            self.deliver_step(k, steps)?;
            k += 1;
        }
        Ok(())
    }

    /// Datagram `k` comes to its end, where the link is open.
    fn deliver_step(&mut self, k: usize, steps: &mut Vec<At>) -> Result<(), AllocError>
        requires whole { self.old.spent ≡ false }
        requires there { k < length self.old.link.sent }
        requires open { is_open self.old.plan self.old.moment ≡ true }
        ensures done { OnOk result (LeadsOn self.old self.new k (k + 1)
            steps.old.items steps.new.items) }
        ensures open { OnOk result (is_open self.new.plan self.new.moment ≡ true) }
        ensures clock { OnOk result (self.new.link.moment ≡ self.old.link.moment) }
        // Less is left to deliver.
        ensures falls { OnOk result (left_of self.new.link (k + 1) < left_of self.old.link k) }
        ensures there { OnOk result (k < length self.new.link.sent) }
        ensures contact { RunsOnContact self.new }
        ensures bounds { AreBounded self.old.link.engines
            → OnOk result (AreBounded self.new.link.engines) }
        ensures err { OnErr result (self.new.spent ≡ true) }
    {
        self.broken = true;
        let Ok(told) = self.link.deliver(k) else {
            return Err(AllocError);
        };
        let effects = WorldEffects::one(self.alloc, told)?;
        steps.push(At {
            now: self.moment,
            effects,
        })?;
        self.broken = false;
        Ok(())
    }

    /// The clock is set to the moment of the least deadline, where nothing is left to deliver.
    fn tick_to(&mut self, deadline: u64, moment: u64, steps: &mut Vec<At>) -> Result<(), AllocError>
        requires whole { self.old.spent ≡ false }
        requires due { deadline_in self.old.link ≡ Some deadline }
        requires later { self.old.link.moment < deadline }
        requires moment { IsMoment self.old.plan deadline moment }
        ensures done { OnOk result (LeadsOn self.old self.new (length self.old.link.sent)
            (length self.old.link.sent) steps.old.items steps.new.items) }
        ensures open { OnOk result (is_open self.new.plan self.new.moment ≡ true) }
        ensures clock { OnOk result ((self.new.link.moment ≡ deadline) × (deadline < 2 ^ 62)) }
        ensures there { OnOk result (length self.old.link.sent ≤ length self.new.link.sent) }
        ensures contact { RunsOnContact self.new }
        ensures bounds { AreBounded self.old.link.engines
            → OnOk result (AreBounded self.new.link.engines) }
        ensures err { OnErr result (self.new.spent ≡ true) }
    {
        self.broken = true;
        let effects = self.link.clock(deadline)?;
        steps.push(At {
            now: moment,
            effects,
        })?;
        self.moment = moment;
        self.broken = false;
        Ok(())
    }
}
