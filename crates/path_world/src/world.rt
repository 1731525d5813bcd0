//! A whole path, everything that was ever sent on it, and a clock.

ghost use Rattle.std.specs.Prelude.{◌≡◌, ◌<◌, ◌^◌, false, true, [], length, IfSome, IfOk, OnErr};
ghost use Rattle.ltp_segment.specs.PolicyViews.{policy_value};
ghost use Rattle.ltp_engine.specs.Steps.{is_due_at};
ghost use Rattle.gateway_core.specs.Config.{IsGateConfig};
ghost use Rattle.path_laws.specs.Path.{path_setup, delivers};
ghost use Rattle.path_world.specs.Values.{setup_of, octets_in, path_deadline};
ghost use Rattle.path_world.specs.Shows.{ShowsRun, AreBounded};
ghost use Rattle.path_world.specs.Steps.{Sends, Delivers, Ticks};
ghost use Rattle.path_world.specs.HandedUp.{AsSent};
ghost use Rattle.path_world.specs.Ties.{wants_memory};

use crate::parts::Parts;
use crate::telling::nothing;
use gateway_core::GateConfig;
use ltp_engine::SubmitRefused;
use ltp_world::DeliverRefused;
use path_laws::laws::received_as_sent;
use path_laws::{PathEffects, PathEnd};
use std::alloc::{AllocError, Global};
use std::marker::Model;

/// An old node, the gate and a new node, the list of every datagram that was ever sent, and a clock.
///
/// After want of memory the value may only be dropped.
#[derive(Debug, Drop)]
pub struct PathWorld {
    pub(crate) parts: Parts,
    pub(crate) spent: bool,
}

impl Model for PathWorld {
    ghost use Rattle.std.specs.Prelude.{◌≡◌, false};
    ghost use Rattle.path_world.specs.Values.{PathValue};
    ghost use Rattle.path_world.specs.Ties.{value_of, IsWhole};

    ghost Value = { PathValue };

    ghost view = { λ w. value_of w.spent w.parts };

    ghost invariant = { λ w. w.spent ≡ false → IsWhole w.parts };
}

impl PathWorld {
    /// A path at its beginning, at a moment below 2^62. The old node is engine 1, whose peer is the
    /// old face, engine 2; the new face is engine 3, whose peer is the new node, engine 4. All have
    /// the gate's policy, and their first sessions the number 1. Nothing was sent yet.
    ///
    /// It takes no memory.
    pub fn new(alloc: Global, config: GateConfig, now: u64) -> PathWorld
        requires config { IsGateConfig config.gate config.cut }
        requires moment { now < 2 ^ 62 }
        ensures whole { result.spent ≡ false }
        ensures setup { setup_of result
            ≡ path_setup config.gate (policy_value config.policy) config.cut }
        // It stands where a path stands at its beginning.
        ensures shows { ShowsRun result now [] }
        // Engines, gate and joiners are within their bounds.
        ensures bounds { AreBounded result }
    {
        PathWorld {
            parts: Parts::new(alloc, config, now),
            spent: false,
        }
    }

    /// The clock. It takes no memory.
    pub fn now(&self) -> u64
        ensures { result ≡ self.now.moment }
    {
        let _ = self.spent;
        self.parts.moment
    }

    /// How many datagrams were sent. It takes no memory.
    pub fn sent(&self) -> usize
        ensures { result ≡ length self.now.sent }
    {
        let _ = self.spent;
        self.parts.sent.len()
    }

    /// How many octets all datagrams have that were sent. It takes no memory.
    pub fn octets(&self) -> u64
        ensures { result ≡ octets_in self.now.sent }
    {
        let _ = self.spent;
        self.parts.sent.octets()
    }

    /// When a timer is due next, at any place, which is after the clock. It takes no memory.
    pub fn next_deadline(&self) -> Option<u64>
        requires whole { self.now.spent ≡ false }
        ensures least { result ≡ path_deadline self.now }
        ensures ahead { IfSome result (λ deadline. self.now.moment < deadline) }
    {
        let _ = self.spent;
        self.parts.next_deadline()
    }

    /// An end sends the octets of a bundle, as one block that is all red. What they are isn't looked
    /// at.
    ///
    /// A refusal other than `Memory` leaves the world as it was.
    pub fn send(&mut self, end: PathEnd, bundle: &[u8]) -> Result<PathEffects, SubmitRefused>
        requires whole { self.old.spent ≡ false }
        ensures does { Sends self.old self.new end bundle.now result }
        // All are within their bounds, whatever came.
        ensures bounds { self.new.spent ≡ false → AreBounded self.new }
    {
        let result = self.parts.send(end, bundle);
        self.spent = wants_memory(&result);
        result
    }

    /// Datagram `k` of all that were ever sent comes to the place across its link, as often as this
    /// is called.
    ///
    /// A datagram that there isn't leaves the world as it was.
    pub fn deliver(&mut self, k: usize) -> Result<PathEffects, DeliverRefused>
        requires whole { self.old.spent ≡ false }
        ensures does { Delivers self.old self.new k result }
        // What is handed up was sent, whole and once.
        ensures as_sent { IfOk result (λ effects. AsSent self.old (delivers k) effects.ups) }
        // All are within their bounds, whatever came.
        ensures bounds { self.new.spent ≡ false → AreBounded self.new }
    {
        if k >= self.parts.sent.len() {
            return Err(DeliverRefused::NoSuchDatagram);
        }
        self.spent = true;
        let effects = self.parts.deliver(k)?;
        received_as_sent();
        self.spent = false;
        Ok(effects)
    }

    /// The clock is set to a moment below 2^62: the old node ticks, the gate's old face and its new
    /// face, and the new node. A clock that would go back stays, and nothing ticks; and where no timer
    /// is due nothing else is done, and no memory is wanted.
    pub fn clock(&mut self, now: u64) -> Result<PathEffects, AllocError>
        requires whole { self.old.spent ≡ false }
        requires moment { now < 2 ^ 62 }
        ensures done { IfOk result (Ticks self.old self.new now) }
        // All are within their bounds, whatever came.
        ensures bounds { self.new.spent ≡ false → AreBounded self.new }
        ensures wanted { OnErr result (is_due_at now (path_deadline self.old) ≡ true) }
        ensures err { OnErr result (self.new.spent ≡ true) }
    {
        if now < self.parts.moment {
            return Ok(nothing(self.parts.alloc));
        }
        if !self.parts.is_due(now) {
            return Ok(self.parts.go_on(now));
        }
        self.spent = true;
        let effects = self.parts.clock(now)?;
        self.spent = false;
        Ok(effects)
    }
}

/// Whether a send was refused for want of memory.
fn wants_memory(answer: &Result<PathEffects, SubmitRefused>) -> bool
    ensures { result ≡ wants_memory answer.now }
{
    match answer {
        Err(SubmitRefused::Memory) => true,
        _ => false,
    }
}
