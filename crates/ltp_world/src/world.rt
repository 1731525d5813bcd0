//! Two engines, everything that was ever sent, and a clock.

ghost use Rattle.std.specs.Prelude.{◌≡◌, ◌<◌, ◌≤◌, ◌^◌, false, [], ◌∷◌, length, IfOk, OnOk, OnErr};
ghost use Rattle.std.specs.Prelude.{List, true, ◌||◌, Ok, IfSome};
ghost use Rattle.std.specs.List.{slice_get};
ghost use Rattle.ltp_session.specs.World.{ArePeers, Event, clock, deliver};
ghost use Rattle.ltp_drain.specs.Hopeful.{AreAlike};
ghost use Rattle.ltp_world.specs.Ends.{link_end};
ghost use Rattle.ltp_world.specs.Values.{WorldValue, parties_of};
ghost use Rattle.ltp_world.specs.Shows.{IsNew, AreBounded, ShowsRun};
ghost use Rattle.ltp_world.specs.Steps.{Submits, Delivers, Ticks};
ghost use Rattle.ltp_world.specs.RedParts.{HandsUpFronts};
ghost use Rattle.ltp_world.specs.Ties.{SubmitsAt, HearsAt};

use crate::effects::{EndEffects, WorldEffects};
use crate::ends::End;
use crate::refused::DeliverRefused;
use crate::sent::{Sent, keep};
use ltp_engine::{Effects, Engine, SubmitRefused};
use std::alloc::{AllocError, Global};
use std::marker::Model;

/// Two engines on a link, the list of every datagram that was ever sent, and a clock.
///
/// After want of memory the value may only be dropped.
#[derive(Debug, Drop)]
pub struct LinkWorld {
    pub(crate) alloc: Global,
    pub(crate) first: Engine,
    pub(crate) second: Engine,
    sent: Vec<Sent>,
    moment: u64,
    /// Memory ran out before all that was done was kept.
    pub(crate) broken: bool,
}

impl Model for LinkWorld {
    ghost use Rattle.ltp_world.specs.Values.{WorldValue};
    ghost use Rattle.ltp_world.specs.Ties.{made_world, IsSound};

    ghost Value = { WorldValue };

    ghost view = { λ w. made_world w.broken (w.first, w.second) w.sent.items w.moment };

    ghost invariant = { λ w.
        IsSound (made_world w.broken (w.first, w.second) w.sent.items w.moment) };
}

impl LinkWorld {
    /// Two engines at their beginning, at a moment below 2^62. Each one's own number is the
    /// other's peer number, and both take blocks of the same greatest length, cut segments of two
    /// octets at least and wait for answers. Nothing was sent yet.
    ///
    /// It takes no memory.
    pub fn new(alloc: Global, first: Engine, second: Engine, now: u64) -> LinkWorld
        requires first { IsNew first }
        requires second { IsNew second }
        requires peers { ArePeers (first.party, second.party) }
        requires alike { AreAlike (first.party, second.party) }
        requires moment { now < 2 ^ 62 }
        ensures whole { result.spent ≡ false }
        ensures parties { parties_of result ≡ (first.party, second.party) }
        // It stands where a link stands at its beginning, once its clock is set.
        ensures shows { ShowsRun result (clock now ∷ []) }
        // Each engine is within its bounds, as it is made.
        ensures bounds { AreBounded result.engines }
    {
        LinkWorld {
            alloc,
            first,
            second,
            sent: Vec::new(alloc),
            moment: now,
            broken: false,
        }
    }

    /// The clock. It takes no memory.
    pub fn now(&self) -> u64
        ensures { result ≡ self.now.moment }
    {
        self.moment
    }

    /// How many datagrams were sent. It takes no memory.
    pub fn sent(&self) -> usize
        ensures { result ≡ length self.now.sent }
    {
        self.sent.len()
    }

    /// The end that sent datagram `k`.
    pub(crate) fn sent_by(&self, k: usize) -> End
        requires there { k < length self.now.sent }
        ensures { IfSome (slice_get self.now.sent k) (λ sent. result ≡ sent.from) }
    {
        self.sent[k].from
    }

    /// An end submits a block, of which the first `red` octets are its red part.
    ///
    /// A refusal other than `Memory` leaves the world as it was.
    pub fn submit(&mut self, end: End, block: &[u8], red: u64) -> Result<Effects, SubmitRefused>
        requires whole { self.old.spent ≡ false }
        requires red { red ≤ length block.now }
        ensures does { Submits self.old self.new end block.now red result }
        // Both engines keep their bounds.
        ensures bounds { AreBounded self.old.engines → OnOk result (AreBounded self.new.engines) }
    {
        let now = self.moment;
        let effects = submit_at(&mut self.first, &mut self.second, end, block, red, now)?;
        self.broken = true;
        keep(self.alloc, &mut self.sent, end, effects.out.as_slice())?;
        self.broken = false;
        Ok(effects)
    }

    /// Datagram `k` of all that were ever sent comes to the end that didn't send it, as often as
    /// this is called.
    ///
    /// A datagram that there isn't leaves the world as it was.
    pub fn deliver(&mut self, k: usize) -> Result<EndEffects, DeliverRefused>
        requires whole { self.old.spent ≡ false }
        ensures does { Delivers self.old self.new k result }
        // Both engines keep their bounds.
        ensures bounds { AreBounded self.old.engines → OnOk result (AreBounded self.new.engines) }
        // What is handed up is the front of a submitted block, once.
        ensures fronts { IfOk result (λ told. (events : List Event) → ShowsRun self.old events
            → HandsUpFronts self.old events (deliver k) told.effects.ups) }
    {
        if k >= self.sent.len() {
            return Err(DeliverRefused::NoSuchDatagram);
        }
        let told = self.deliver_at(k)?;
        Ok(told)
    }

    /// Datagram `k`, which was sent, comes to the end that didn't send it.
    pub(crate) fn deliver_at(&mut self, k: usize) -> Result<EndEffects, AllocError>
        requires whole { self.old.spent ≡ false }
        requires there { k < length self.old.sent }
        ensures done { IfOk result (λ told. Delivers self.old self.new k (Ok told)) }
        ensures bounds { AreBounded self.old.engines → OnOk result (AreBounded self.new.engines) }
        ensures err { OnErr result (self.new.spent ≡ true) }
    {
        let now = self.moment;
        let sent = &self.sent[k];
        let from = sent.from;
        let end = from.other();
        let datagram = sent.datagram.as_slice();
        let effects = hear_at(&mut self.first, &mut self.second, end, datagram, now)?;
        self.broken = true;
        keep(self.alloc, &mut self.sent, end, effects.out.as_slice())?;
        self.broken = false;
        Ok(EndEffects { end, effects })
    }

    /// The clock is set to a moment below 2^62, and both ends tick, the first one first. A clock
    /// that would go back stays, and both do nothing.
    pub fn clock(&mut self, now: u64) -> Result<WorldEffects, AllocError>
        requires whole { self.old.spent ≡ false }
        requires moment { now < 2 ^ 62 }
        ensures done { IfOk result (Ticks self.old self.new now) }
        // Both engines keep their bounds.
        ensures bounds { AreBounded self.old.engines → OnOk result (AreBounded self.new.engines) }
        ensures err { OnErr result (self.new.spent ≡ true) }
    {
        self.broken = true;
        if now < self.moment {
            let told = WorldEffects::idle(self.alloc)?;
            self.broken = false;
            return Ok(told);
        }
        let first = self.first.tick(now)?;
        let second = self.second.tick(now)?;
        keep(self.alloc, &mut self.sent, End::First, first.out.as_slice())?;
        keep(
            self.alloc,
            &mut self.sent,
            End::Second,
            second.out.as_slice(),
        )?;
        let told = WorldEffects::of(self.alloc, first, second)?;
        self.moment = now;
        self.broken = false;
        Ok(told)
    }
}

/// An end's engine is told to send a block.
fn submit_at(
    first: &mut Engine,
    second: &mut Engine,
    end: End,
    block: &[u8],
    red: u64,
    now: u64,
) -> Result<Effects, SubmitRefused>
    requires first { first.old.spent ≡ false }
    requires second { second.old.spent ≡ false }
    requires red { red ≤ length block.now }
    requires moment { now < 2 ^ 62 }
    ensures does { SubmitsAt end (first.old, second.old) (first.new, second.new) block.now red now
        result }
    ensures bounds { AreBounded (first.old, second.old)
        → OnOk result (AreBounded (first.new, second.new)) }
{
    match end {
        End::First => first.submit(block, red, now),
        End::Second => second.submit(block, red, now),
    }
}

/// A datagram comes to an end's engine.
fn hear_at(
    first: &mut Engine,
    second: &mut Engine,
    end: End,
    datagram: &[u8],
    now: u64,
) -> Result<Effects, AllocError>
    requires first { first.old.spent ≡ false }
    requires second { second.old.spent ≡ false }
    requires moment { now < 2 ^ 62 }
    ensures done { IfOk result (HearsAt end (first.old, second.old) (first.new, second.new)
        datagram.now now) }
    ensures bounds { AreBounded (first.old, second.old)
        → OnOk result (AreBounded (first.new, second.new)) }
    ensures err { OnErr result ((first.new.spent || second.new.spent) ≡ true) }
{
    match end {
        End::First => first.arrive(datagram, now),
        End::Second => second.arrive(datagram, now),
    }
}
