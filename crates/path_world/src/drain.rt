//! A drain: all that is sent from now on is delivered, and the clock moves where nothing is left to
//! deliver.

ghost use Rattle.std.specs.Prelude.{◌≡◌, ◌<◌, ◌≤◌, ◌^◌, ◌+◌, false, true, length, Some, IfOk, OnOk, OnErr};
ghost use Rattle.path_world.specs.Values.{path_deadline};
ghost use Rattle.path_world.specs.Shows.{AreBounded};
ghost use Rattle.path_world.specs.Drain.{Drains, Completes, DrainsAsSent};
ghost use Rattle.path_world.specs.Clean.{LeadsOn};
ghost use Rattle.path_world.specs.Work.{left_of};

use crate::drained::{PathDrained, PathSteps};
use crate::world::PathWorld;
use ltp_session::NO_MOMENT;
use ltp_world::DrainRefused;
use path_laws::PathEffects;
use path_laws::laws::received_as_sent;
use std::alloc::AllocError;

impl PathWorld {
    /// The path stops losing. Every datagram that is sent from now on, on either link, comes to the
    /// place across its link, once and in the order of sending; where none is on its way, the clock
    /// is set to the least deadline; and the drain ends where no timer runs either. Datagrams that
    /// were sent before are lost.
    ///
    /// It returns from every world. After `TooLate` the world stands after the events made so far,
    /// whose effects aren't handed back. No memory is wanted where there
    /// is no event to do.
    pub fn drain(&mut self) -> Result<PathDrained, DrainRefused>
        requires whole { self.old.spent ≡ false }
        ensures does { Drains self.old self.new result }
        // What is handed up was sent, whole and once.
        ensures as_sent { IfOk result (DrainsAsSent self.old) }
        // A hopeful path that has room completes its sessions.
        ensures completes { IfOk result (Completes self.old) }
        // All are within their bounds, whatever came.
        ensures bounds { self.new.spent ≡ false → AreBounded self.new }
    {
        let mut steps = Vec::new(self.parts.alloc);
        'ticking: loop {
            let Some(deadline) = self.next_deadline() else {
                break;
            };
            if deadline >= NO_MOMENT {
                return Err(DrainRefused::TooLate);
            }
            let from = self.sent();
            self.tick_to(deadline, &mut steps)?;
            self.deliver_from(from, &mut steps)?;
        }
        received_as_sent();
        let effects = PathSteps::from_vec(steps);
        let events = effects.len() as u64;
        Ok(PathDrained { events, effects })
    }

    /// The datagrams from number `from` on come to the places across their links, and those that
    /// are sent meanwhile.
    fn deliver_from(&mut self, from: usize, steps: &mut Vec<PathEffects>) -> Result<(), AllocError>
        requires whole { self.old.spent ≡ false }
        requires there { from ≤ length self.old.sent }
        ensures done { OnOk result (LeadsOn self.old self.new from (length self.new.sent)
            steps.old.items steps.new.items) }
        ensures clock { OnOk result (self.new.moment ≡ self.old.moment) }
        ensures bounds { AreBounded self.old → OnOk result (AreBounded self.new) }
        ensures err { OnErr result (self.new.spent ≡ true) }
    {
        let mut k = from;
        'delivering: while k < self.sent() {
            self.deliver_step(k, steps)?;
            k += 1;
        }
        Ok(())
    }

    /// Datagram `k` comes to the place across its link.
    fn deliver_step(&mut self, k: usize, steps: &mut Vec<PathEffects>) -> Result<(), AllocError>
        requires whole { self.old.spent ≡ false }
        requires there { k < length self.old.sent }
        ensures done { OnOk result (LeadsOn self.old self.new k (k + 1)
            steps.old.items steps.new.items) }
        ensures clock { OnOk result (self.new.moment ≡ self.old.moment) }
        // Less is left to deliver.
        ensures falls { OnOk result (left_of self.new (k + 1) < left_of self.old k) }
        ensures there { OnOk result (k < length self.new.sent) }
        ensures bounds { OnOk result (AreBounded self.new) }
        ensures err { OnErr result (self.new.spent ≡ true) }
    {
        let _ = &self.spent;
        // Datagram `k` was sent, so that only want of memory refuses it.
        let Ok(effects) = self.deliver(k) else {
            return Err(AllocError);
        };
        self.spent = true;
        steps.push(effects)?;
        self.spent = false;
        Ok(())
    }

    /// The clock is set to the least deadline, where nothing is left to deliver.
    fn tick_to(&mut self, deadline: u64, steps: &mut Vec<PathEffects>) -> Result<(), AllocError>
        requires whole { self.old.spent ≡ false }
        requires moment { deadline < 2 ^ 62 }
        requires due { path_deadline self.old ≡ Some deadline }
        requires later { self.old.moment < deadline }
        ensures done { OnOk result (LeadsOn self.old self.new (length self.old.sent)
            (length self.old.sent) steps.old.items steps.new.items) }
        ensures clock { OnOk result (self.new.moment ≡ deadline) }
        ensures there { OnOk result (length self.old.sent ≤ length self.new.sent) }
        ensures bounds { OnOk result (AreBounded self.new) }
        ensures err { OnErr result (self.new.spent ≡ true) }
    {
        let _ = &self.spent;
        let effects = self.clock(deadline)?;
        self.spent = true;
        steps.push(effects)?;
        self.spent = false;
        Ok(())
    }
}
