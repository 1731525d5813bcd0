//! A drain in which the two directions cross as picks say.

ghost use Rattle.std.specs.Prelude.{◌≡◌, ◌<◌, ◌≤◌, ◌^◌, ◌+◌, false, true, length, drop, Some, IfOk, OnOk, OnErr};
ghost use Rattle.std.specs.Prelude.{not};
ghost use Rattle.ltp_world.specs.Shows.{AreBounded};
ghost use Rattle.ltp_world.specs.Picks.{CompletesBy, CompletesWithCopies, DrainsBy};
ghost use Rattle.ltp_world.specs.Marks.{AreWithin, PicksAs, PicksOne, RestTo, SetsClock};
ghost use Rattle.ltp_world.specs.Marks.{is_new_in, least_mark, mark_of, next_place, pick_of, with_mark};
ghost use Rattle.ltp_world.specs.Work.{left_of};
ghost use Rattle.ltp_world.specs.declared.picks.Pick.TheVariants.{Old};
ghost use Rattle.ltp_world.specs.RedParts.{DrainHandsUpFronts};

use crate::drain::drained;
use crate::effects::{Drained, WorldEffects};
use crate::ends::End;
use crate::refused::DrainRefused;
use crate::world::LinkWorld;
use ltp_session::NO_MOMENT;
use std::alloc::AllocError;

/// What happens next in a drain.
#[derive(Clone, Copy, Debug, PartialEq, Eq)]
pub enum Pick {
    /// The oldest new datagram of the first end is delivered. Where neither end has one, the clock is
    /// set to the least deadline; where the second end alone has one, nothing happens.
    First,
    /// The same of the second end.
    Second,
    /// Datagram `k` of all that were ever sent comes once more, where it was sent before the drain
    /// or was delivered in it; else nothing happens.
    Old {
        /// The datagram's place, from 0.
        k: usize,
    },
}

/// Of each end's datagrams those before its mark aren't new: they are delivered, or were sent before
/// the drain.
#[derive(Clone, Copy, Debug)]
pub(crate) struct Marks {
    pub(crate) first: usize,
    pub(crate) second: usize,
}

impl Marks {
    /// The mark of an end.
    fn of(self, end: End) -> usize
        ensures { result ≡ mark_of self end }
    {
        match end {
            End::First => self.first,
            End::Second => self.second,
        }
    }

    /// The marks, with another one of an end.
    fn with(self, end: End, at: usize) -> Marks
        ensures { result ≡ with_mark self end at }
    {
        match end {
            End::First => Marks {
                first: at,
                second: self.second,
            },
            End::Second => Marks {
                first: self.first,
                second: at,
            },
        }
    }
}

impl LinkWorld {
    /// The link stops losing, as in [`LinkWorld::drain`], but what is delivered next is what the
    /// picks say, so that new datagrams of the two directions cross in any way, and old ones come
    /// once more. A pick that does nothing counts no event. After the last pick the drain goes on by
    /// itself, from the oldest new datagram of both ends.
    ///
    /// It returns from every world. After `TooLate` the world stands after the events made so far,
    /// whose effects aren't handed back.
    pub fn drain_by(&mut self, picks: &[Pick]) -> Result<Drained, DrainRefused>
        requires whole { self.old.spent ≡ false }
        ensures does { DrainsBy self.old self.new picks.now result }
        // What is handed up is the front of a submitted block, once.
        ensures fronts { IfOk result (λ drained. DrainHandsUpFronts self.old drained.effects) }
        // A hopeful world that has room completes its sessions, in whatever way new datagrams cross.
        ensures completes { IfOk result (CompletesBy self.old picks.now) }
        // It does so too where old datagrams come once more; each costs three events at most.
        ensures copies { IfOk result (CompletesWithCopies self.old picks.now) }
        // Both engines keep their bounds, unless memory runs out.
        ensures bounds { AreBounded self.old.engines → self.new.spent ≡ false
            → AreBounded self.new.engines }
    {
        let mut steps = Vec::new(self.alloc);
        let mut marks = Marks {
            first: self.sent(),
            second: self.sent(),
        };
        'picking: for &pick in picks {
            marks = match self.pick(pick, marks, &mut steps) {
                Ok(marks) => marks,
                Err(refused) => return Err(refused),
            };
        }
        self.deliver_new(marks, &mut steps)?;
        let from = self.sent();
        match self.drain_from(from, &mut steps) {
            Ok(()) => Ok(drained(steps)),
            Err(refused) => Err(refused),
        }
    }

    /// What one pick does, and the marks after it.
    fn pick(
        &mut self,
        pick: Pick,
        marks: Marks,
        steps: &mut Vec<WorldEffects>,
    ) -> Result<Marks, DrainRefused>
        requires whole { self.old.spent ≡ false }
        requires there { AreWithin marks self.old }
        ensures does { PicksAs self.old self.new pick marks steps.old.items steps.new.items result }
        ensures there { IfOk result (λ marks. AreWithin marks self.new) }
        ensures bounds { AreBounded self.old.engines → self.new.spent ≡ false
            → AreBounded self.new.engines }
    {
        match pick {
            Pick::First => self.pick_new(End::First, marks, steps),
            Pick::Second => self.pick_new(End::Second, marks, steps),
            Pick::Old { k } => {
                self.pick_old(k, marks, steps)?;
                Ok(marks)
            }
        }
    }

    /// The oldest new datagram of an end is delivered, or the clock is set where nothing is new.
    fn pick_new(
        &mut self,
        end: End,
        marks: Marks,
        steps: &mut Vec<WorldEffects>,
    ) -> Result<Marks, DrainRefused>
        requires whole { self.old.spent ≡ false }
        requires there { AreWithin marks self.old }
        ensures does { PicksAs self.old self.new (pick_of end) marks
            steps.old.items steps.new.items result }
        ensures there { IfOk result (λ marks. AreWithin marks self.new) }
        ensures bounds { AreBounded self.old.engines → self.new.spent ≡ false
            → AreBounded self.new.engines }
    {
        let at = self.next_new(end, marks.of(end));
        if at < self.sent() {
            self.deliver_step(at, steps)?;
            return Ok(marks.with(end, at + 1));
        }
        let peer = end.other();
        let other = self.next_new(peer, marks.of(peer));
        let marks = marks.with(end, at).with(peer, other);
        if other < self.sent() {
            return Ok(marks);
        }
        match self.pick_clock(steps) {
            Ok(()) => Ok(marks),
            Err(refused) => Err(refused),
        }
    }

    /// The clock is set to the least deadline, where nothing is new.
    fn pick_clock(&mut self, steps: &mut Vec<WorldEffects>) -> Result<(), DrainRefused>
        requires whole { self.old.spent ≡ false }
        ensures does { SetsClock self.old self.new steps.old.items steps.new.items result }
        ensures there { OnOk result (length self.old.sent ≤ length self.new.sent) }
        ensures bounds { AreBounded self.old.engines → self.new.spent ≡ false
            → AreBounded self.new.engines }
    {
        let Some(deadline) = self.next_deadline() else {
            return Ok(());
        };
        if deadline >= NO_MOMENT {
            return Err(DrainRefused::TooLate);
        }
        self.tick_to(deadline, steps)?;
        Ok(())
    }

    /// Datagram `k` comes once more, where it isn't new.
    fn pick_old(
        &mut self,
        k: usize,
        marks: Marks,
        steps: &mut Vec<WorldEffects>,
    ) -> Result<(), AllocError>
        requires whole { self.old.spent ≡ false }
        requires there { AreWithin marks self.old }
        ensures does { OnOk result (PicksOne self.old self.new (Old k) marks marks
            steps.old.items steps.new.items) }
        ensures there { OnOk result (AreWithin marks self.new) }
        ensures bounds { AreBounded self.old.engines → OnOk result (AreBounded self.new.engines) }
        ensures err { OnErr result (self.new.spent ≡ true) }
    {
        if self.is_old(k, marks) {
            return self.deliver_step(k, steps);
        }
        Ok(())
    }

    /// Whatever is new is delivered, in the order of sending, and what is sent meanwhile.
    fn deliver_new(&mut self, marks: Marks, steps: &mut Vec<WorldEffects>) -> Result<(), AllocError>
        requires whole { self.old.spent ≡ false }
        requires there { AreWithin marks self.old }
        ensures done { OnOk result (RestTo self.old self.new (least_mark marks)
            (length self.new.sent) marks steps.old.items steps.new.items) }
        ensures grows { OnOk result (length self.old.sent ≤ length self.new.sent) }
        ensures bounds { AreBounded self.old.engines → OnOk result (AreBounded self.new.engines) }
        ensures err { OnErr result (self.new.spent ≡ true) }
    {
        let mut k = marks.first.min(marks.second);
        'delivering: while k < self.sent() {
            self.deliver_if_new(k, marks, steps)?;
            k += 1;
        }
        Ok(())
    }

    /// Datagram `k` is delivered, where it is new.
    fn deliver_if_new(
        &mut self,
        k: usize,
        marks: Marks,
        steps: &mut Vec<WorldEffects>,
    ) -> Result<(), AllocError>
        requires whole { self.old.spent ≡ false }
        requires there { k < length self.old.sent }
        requires marks { AreWithin marks self.old }
        ensures done { OnOk result (RestTo self.old self.new k (k + 1) marks
            steps.old.items steps.new.items) }
        ensures falls { OnOk result (left_of self.new (k + 1) < left_of self.old k) }
        ensures there { OnOk result (k < length self.new.sent) }
        ensures marks { OnOk result (AreWithin marks self.new) }
        ensures grows { OnOk result (length self.old.sent ≤ length self.new.sent) }
        ensures bounds { AreBounded self.old.engines → OnOk result (AreBounded self.new.engines) }
        ensures err { OnErr result (self.new.spent ≡ true) }
    {
        if self.is_old(k, marks) {
            return Ok(());
        }
        self.deliver_step(k, steps)
    }

    /// Whether datagram `k` is there, and before the mark of its end.
    fn is_old(&self, k: usize, marks: Marks) -> bool
        ensures { result ≡ not (is_new_in self.now.sent k marks) }
    {
        k < self.sent() && k < marks.of(self.sent_by(k))
    }

    /// The place of the first datagram of an end from a place on, or where the list ends.
    fn next_new(&self, end: End, from: usize) -> usize
        requires there { from ≤ length self.now.sent }
        ensures first { result ≡ next_place end from (drop from self.now.sent) }
        ensures within { (from ≤ result) × (result ≤ length self.now.sent) }
    {
        let mut k = from;
        'seeking: while k < self.sent() && !self.sent_by(k).is(end) {
            k += 1;
        }
        k
    }
}
