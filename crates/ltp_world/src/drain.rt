//! A drain: all that is sent from now on is delivered, and the clock moves where nothing is left to
//! deliver.

ghost use Rattle.std.specs.Prelude.{◌≡◌, ◌<◌, ◌≤◌, ◌^◌, ◌+◌, false, true, length, Some, IfSome, IfOk, OnOk, OnErr};
ghost use Rattle.ltp_session.specs.Engine.{earlier};
ghost use Rattle.ltp_world.specs.Shows.{AreBounded};
ghost use Rattle.ltp_world.specs.Drain.{Drains, Completes};
ghost use Rattle.ltp_session.specs.World.{clock, deliver};
ghost use Rattle.ltp_world.specs.Clean.{DrainsOn, LeadsOn, TakesEvent, deadline_in};
ghost use Rattle.ltp_world.specs.RedParts.{DrainHandsUpFronts};
ghost use Rattle.ltp_world.specs.Work.{left_of};

use crate::effects::{Drained, WorldEffects, WorldSteps};
use crate::refused::DrainRefused;
use crate::world::LinkWorld;
use ltp_session::NO_MOMENT;
use std::alloc::AllocError;

impl LinkWorld {
    /// The link stops losing. Every datagram that is sent from now on comes to its end, once and in
    /// the order of sending; where none is on its way, the clock is set to the least deadline; and
    /// the drain ends where no timer runs either. Datagrams that were sent before are lost.
    ///
    /// It returns from every world. After `TooLate` the world stands after the events made so far,
    /// whose effects aren't handed back.
    pub fn drain(&mut self) -> Result<Drained, DrainRefused>
        requires whole { self.old.spent ≡ false }
        ensures does { Drains self.old self.new result }
        // What is handed up is the front of a submitted block, once.
        ensures fronts { IfOk result (λ drained. DrainHandsUpFronts self.old drained.effects) }
        // A hopeful world that has room completes its sessions.
        ensures completes { IfOk result (Completes self.old) }
        // Both engines keep their bounds, unless memory runs out.
        ensures bounds { AreBounded self.old.engines → self.new.spent ≡ false
            → AreBounded self.new.engines }
    {
        let mut steps = Vec::new(self.alloc);
        let from = self.sent();
        match self.drain_from(from, &mut steps) {
            Ok(()) => Ok(drained(steps)),
            Err(refused) => Err(refused),
        }
    }

    /// The datagrams from number `from` on come to their ends, and the clock is set where none is
    /// left, until no timer runs either.
    pub(crate) fn drain_from(
        &mut self,
        from: usize,
        steps: &mut Vec<WorldEffects>,
    ) -> Result<(), DrainRefused>
        requires whole { self.old.spent ≡ false }
        requires there { from ≤ length self.old.sent }
        ensures does { DrainsOn self.old self.new from steps.old.items steps.new.items result }
        ensures bounds { AreBounded self.old.engines → self.new.spent ≡ false
            → AreBounded self.new.engines }
    {
        let mut from = from;
        'ticking: loop {
            self.deliver_from(from, steps)?;
            from = self.sent();
            let Some(deadline) = self.next_deadline() else {
                break;
            };
            if deadline >= NO_MOMENT {
                return Err(DrainRefused::TooLate);
            }
            self.tick_to(deadline, steps)?;
        }
        Ok(())
    }

    /// The datagrams from number `from` on come to their ends, and those that are sent meanwhile.
    fn deliver_from(&mut self, from: usize, steps: &mut Vec<WorldEffects>) -> Result<(), AllocError>
        requires whole { self.old.spent ≡ false }
        requires there { from ≤ length self.old.sent }
        ensures done { OnOk result (LeadsOn self.old self.new from (length self.new.sent)
            steps.old.items steps.new.items) }
        ensures clock { OnOk result (self.new.moment ≡ self.old.moment) }
        ensures bounds { AreBounded self.old.engines → OnOk result (AreBounded self.new.engines) }
        ensures err { OnErr result (self.new.spent ≡ true) }
    {
        let mut k = from;
        'delivering: while k < self.sent() {
            self.deliver_step(k, steps)?;
            k += 1;
        }
        Ok(())
    }

    /// Datagram `k` comes to its end.
    pub(crate) fn deliver_step(
        &mut self,
        k: usize,
        steps: &mut Vec<WorldEffects>,
    ) -> Result<(), AllocError>
        requires whole { self.old.spent ≡ false }
        requires there { k < length self.old.sent }
        ensures done { OnOk result (LeadsOn self.old self.new k (k + 1)
            steps.old.items steps.new.items) }
        ensures clock { OnOk result (self.new.moment ≡ self.old.moment) }
        ensures takes { OnOk result (TakesEvent self.old self.new (deliver k)
            steps.old.items steps.new.items) }
        // Less is left to deliver.
        ensures falls { OnOk result (left_of self.new (k + 1) < left_of self.old k) }
        ensures there { OnOk result (k < length self.new.sent) }
        ensures grows { OnOk result (length self.old.sent ≤ length self.new.sent) }
        ensures bounds { AreBounded self.old.engines → OnOk result (AreBounded self.new.engines) }
        ensures err { OnErr result (self.new.spent ≡ true) }
    {
        let alloc = self.alloc;
        let told = self.deliver_at(k)?;
        self.broken = true;
        steps.push(WorldEffects::one(alloc, told)?)?;
        self.broken = false;
        Ok(())
    }

    /// The clock is set to the least deadline, where nothing is left to deliver.
    pub(crate) fn tick_to(
        &mut self,
        deadline: u64,
        steps: &mut Vec<WorldEffects>,
    ) -> Result<(), AllocError>
        requires whole { self.old.spent ≡ false }
        requires moment { deadline < 2 ^ 62 }
        requires due { deadline_in self.old ≡ Some deadline }
        requires later { self.old.moment < deadline }
        ensures done { OnOk result (LeadsOn self.old self.new (length self.old.sent)
            (length self.old.sent) steps.old.items steps.new.items) }
        ensures takes { OnOk result (TakesEvent self.old self.new (clock deadline)
            steps.old.items steps.new.items) }
        ensures clock { OnOk result (self.new.moment ≡ deadline) }
        ensures there { OnOk result (length self.old.sent ≤ length self.new.sent) }
        ensures bounds { AreBounded self.old.engines → OnOk result (AreBounded self.new.engines) }
        ensures err { OnErr result (self.new.spent ≡ true) }
    {
        let _ = &self.broken;
        let told = self.clock(deadline)?;
        self.broken = true;
        steps.push(told)?;
        self.broken = false;
        Ok(())
    }

    /// The least deadline of all sessions, which is after the clock. It takes no memory.
    pub fn next_deadline(&self) -> Option<u64>
        requires whole { self.now.spent ≡ false }
        ensures least { result ≡ deadline_in self.now }
        ensures ahead { IfSome result (λ deadline. self.now.moment < deadline) }
    {
        earlier_of(self.first.next_deadline(), self.second.next_deadline())
    }
}

/// What a drain did, by its steps.
pub(crate) fn drained(steps: Vec<WorldEffects>) -> Drained
    ensures effects { result.effects ≡ steps.items }
    ensures events { result.events ≡ length steps.items }
{
    let effects = WorldSteps::from_vec(steps);
    let events = effects.len() as u64;
    Drained { events, effects }
}

/// The earlier of two moments, where there are any.
fn earlier_of(first: Option<u64>, second: Option<u64>) -> Option<u64>
    ensures { result ≡ earlier first second }
{
    match (first, second) {
        (None, _) => second,
        (_, None) => first,
        (Some(one), Some(other)) => Some(one.min(other)),
    }
}
