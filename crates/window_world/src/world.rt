//! A link with windows: two engines, everything that was ever sent, and a clock.

ghost use Rattle.std.specs.Prelude.{◌≡◌, ◌<◌, ◌≤◌, ◌^◌, false, true, List, length, IfOk, OnOk, OnErr};
ghost use Rattle.ltp_session.specs.World.{ArePeers, Event, deliver};
ghost use Rattle.ltp_drain.specs.Hopeful.{AreAlike};
ghost use Rattle.ltp_world.specs.RedParts.{HandsUpFronts};
ghost use Rattle.ltp_world.specs.Shows.{AreBounded, IsNew, ShowsRun};
ghost use Rattle.ltp_world.specs.Values.{parties_of};
ghost use Rattle.contact_plan.specs.Windows.{elapsed, is_open};
ghost use Rattle.window_world.specs.Quiet.{both_quiet};
ghost use Rattle.window_world.specs.Steps.{Delivers, Submits, Ticks};
ghost use Rattle.window_world.specs.Values.{RunsOnContact, begins_on, later_of};

use crate::refused::{WindowDeliver, WindowSubmit};
use contact_plan::Plan;
use ltp_engine::{Effects, Engine};
use ltp_world::{End, EndEffects, LinkWorld, WorldEffects};
use std::alloc::{AllocError, Global};
use std::marker::Model;

/// Two engines on a link that is open in the windows of a plan, and a clock.
///
/// After want of memory the value may only be dropped.
#[derive(Debug, Drop)]
pub struct WindowWorld {
    pub(crate) alloc: Global,
    pub(crate) link: LinkWorld,
    pub(crate) plan: Plan,
    pub(crate) moment: u64,
    /// Memory ran out before all that was done was kept.
    pub(crate) broken: bool,
}

impl Model for WindowWorld {
    ghost use Rattle.window_world.specs.Values.{WindowValue};
    ghost use Rattle.window_world.specs.Ties.{made_world, IsSound};

    ghost Value = { WindowValue };

    ghost view = { λ w. made_world w.broken w.link w.plan w.moment };

    ghost invariant = { λ w. IsSound (made_world w.broken w.link w.plan w.moment) };
}

impl WindowWorld {
    /// Two engines at their beginning and a plan, at a moment below 2^62, under the conditions of
    /// [`LinkWorld::new`]. Nothing was sent yet.
    ///
    /// It takes no memory.
    pub fn new(alloc: Global, first: Engine, second: Engine, plan: Plan, now: u64) -> WindowWorld
        requires first { IsNew first }
        requires second { IsNew second }
        requires peers { ArePeers (first.party, second.party) }
        requires alike { AreAlike (first.party, second.party) }
        requires moment { now < 2 ^ 62 }
        ensures whole { result.spent ≡ false }
        ensures parties { parties_of result.link ≡ (first.party, second.party) }
        ensures plan { result.plan ≡ plan }
        ensures moment { result.moment ≡ now }
        // The link stands where one stands at its beginning, once its clock is set to contact time.
        ensures shows { ShowsRun result.link (begins_on plan now) }
        ensures contact { RunsOnContact result }
        ensures bounds { AreBounded result.link.engines }
    {
        let contact = plan.elapsed(now);
        let link = LinkWorld::new(alloc, first, second, contact);
        WindowWorld {
            alloc,
            link,
            plan,
            moment: now,
            broken: false,
        }
    }

    /// The clock. It takes no memory.
    pub fn now(&self) -> u64
        ensures { result ≡ self.now.moment }
    {
        self.moment
    }

    /// The two engines and what was sent, at contact time, moved and not copied.
    pub fn into_link(self) -> LinkWorld
        ensures { result ≡ self.link }
    {
        let WindowWorld { link, .. } = self;
        link
    }

    /// Whether the link is open now. It takes no memory.
    pub fn is_open(&self) -> bool
        ensures { result ≡ is_open self.now.plan self.now.moment }
    {
        self.plan.is_open(self.moment)
    }

    /// How many datagrams were sent. It takes no memory.
    pub fn sent(&self) -> usize
        ensures { result ≡ length self.now.link.sent }
    {
        self.link.sent()
    }

    /// An end submits a block, of which the first `red` octets are its red part, where the link is
    /// open.
    ///
    /// A refusal other than `Memory` leaves the world as it was.
    pub fn submit(&mut self, end: End, block: &[u8], red: u64) -> Result<Effects, WindowSubmit>
        requires whole { self.old.spent ≡ false }
        requires red { red ≤ length block.now }
        ensures does { Submits self.old self.new end block.now red result }
        ensures contact { RunsOnContact self.new }
        ensures bounds { AreBounded self.old.link.engines
            → OnOk result (AreBounded self.new.link.engines) }
    {
        if !self.plan.is_open(self.moment) {
            return Err(WindowSubmit::Closed);
        }
        let effects = self.link.submit(end, block, red)?;
        Ok(effects)
    }

    /// Datagram `k` of all that were ever sent comes to the end that didn't send it, where the link
    /// is open.
    ///
    /// A refusal other than `Memory` leaves the world as it was.
    pub fn deliver(&mut self, k: usize) -> Result<EndEffects, WindowDeliver>
        requires whole { self.old.spent ≡ false }
        ensures does { Delivers self.old self.new k result }
        ensures contact { RunsOnContact self.new }
        ensures bounds { AreBounded self.old.link.engines
            → OnOk result (AreBounded self.new.link.engines) }
        // What is handed up is the front of a submitted block, once.
        ensures fronts { IfOk result (λ told. (events : List Event) → ShowsRun self.old.link events
            → HandsUpFronts self.old.link events (deliver k) told.effects.ups) }
    {
        if !self.plan.is_open(self.moment) {
            return Err(WindowDeliver::Closed);
        }
        let told = self.link.deliver(k)?;
        Ok(told)
    }

    /// The clock is set to a moment below 2^62, and both ends tick at its contact time, the first
    /// one first. A clock that would go back stays.
    pub fn clock(&mut self, now: u64) -> Result<WorldEffects, AllocError>
        requires whole { self.old.spent ≡ false }
        requires moment { now < 2 ^ 62 }
        ensures done { IfOk result (Ticks self.old self.new now) }
        // Where contact time stood still, no timer fires.
        ensures quiet { elapsed self.old.plan now ≡ elapsed self.old.plan self.old.moment
            → IfOk result (λ told. told ≡ both_quiet) }
        ensures contact { RunsOnContact self.new }
        ensures bounds { AreBounded self.old.link.engines
            → OnOk result (AreBounded self.new.link.engines) }
        ensures err { OnErr result (self.new.spent ≡ true) }
    {
        let contact = self.plan.elapsed(now);
        let told = self.link.clock(contact)?;
        self.moment = later_of(self.moment, now);
        Ok(told)
    }
}

/// The later of two moments.
fn later_of(one: u64, other: u64) -> u64
    ensures { result ≡ later_of one other }
{
    if other < one { one } else { other }
}
