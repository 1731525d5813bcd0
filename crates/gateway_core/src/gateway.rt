//! The gateway.

ghost use Rattle.std.specs.Prelude.{◌≡◌, ◌<◌, ◌^◌, false, true, IfOk, OnOk, OnErr};
ghost use Rattle.ltp_segment.specs.PolicyViews.{policy_value};
ghost use Rattle.ltp_segment.specs.Reading.{segment_of};
ghost use Rattle.ltp_engine.specs.Steps.{is_due_at};
ghost use Rattle.gateway_core.specs.Gate.{starts_gate, hears_at, arrives_at, ticks_gate};
ghost use Rattle.gateway_core.specs.Config.{IsGateConfig};
ghost use Rattle.gateway_core.specs.Values.{setup_of, new_gateway, gate_deadline};
ghost use Rattle.gateway_core.specs.Shows.{ShowsGate, IsGateBounded};
ghost use Rattle.gateway_core.specs.Quiet.{IsNeverQuietAt};
ghost use Rattle.gateway_core.specs.Steps.{GateSteps};

use crate::config::GateConfig;
use crate::effects::GateEffects;
use crate::parts::Parts;
use gate_cases::Face;
use std::alloc::{AllocError, Global};
use std::marker::Model;

/// A gateway between two links: an engine at each of its faces, and a counter of its reports.
///
/// After want of memory the value may only be dropped.
#[derive(Debug, Drop)]
pub struct Gateway {
    parts: Parts,
    spent: bool,
}

impl Model for Gateway {
    ghost use Rattle.std.specs.Prelude.{◌≡◌, false};
    ghost use Rattle.gateway_core.specs.Values.{GatewayValue};
    ghost use Rattle.gateway_core.specs.Ties.{value_of, IsWhole};

    ghost Value = { GatewayValue };

    ghost view = { λ g. value_of g.spent g.parts };

    ghost invariant = { λ g. g.spent ≡ false → IsWhole g.parts };
}

impl Gateway {
    /// A gateway at its beginning. Its old face is engine 2, whose peer is the old node, engine 1; its
    /// new face is engine 3, whose peer is the new node, engine 4. The first sessions have the number
    /// 1. It takes no memory.
    pub fn new(alloc: Global, config: GateConfig) -> Gateway
        requires { IsGateConfig config.gate config.cut }
        ensures value { result
            ≡ new_gateway config.gate (policy_value config.policy) config.cut }
        // It stands for the gate of the definition that begins.
        ensures shows { ShowsGate result (starts_gate (setup_of result)) }
        ensures bounds { IsGateBounded result }
    {
        Gateway {
            parts: Parts::new(alloc, config),
            spent: false,
        }
    }

    /// When a timer of either face is due next, in ms. It takes no memory.
    pub fn next_deadline(&self) -> Option<u64>
        requires { self.now.spent ≡ false }
        ensures { result ≡ gate_deadline self.now }
    {
        let _ = self.spent;
        self.parts.next_deadline()
    }

    /// A datagram comes at a face, at a moment below 2^62 in ms. What its engine does is done; and a
    /// block that this hands up is judged, and goes on in pieces at the other face, or not. A report
    /// that is asked for goes back at this face.
    pub fn arrive(
        &mut self,
        face: Face,
        datagram: &[u8],
        now: u64,
    ) -> Result<GateEffects, AllocError>
        requires whole { self.old.spent ≡ false }
        requires moment { now < 2 ^ 62 }
        ensures done { IfOk result (GateSteps self.old self.new
            (arrives_at (setup_of self.old) face (segment_of datagram.now) now)) }
        ensures bounds { OnOk result (IsGateBounded self.new) }
        // Whoever sends it, a datagram that the face's engine only notes wants no memory, and
        // neither does a piece that brings nothing new and isn't answered.
        ensures wanted { OnErr result (IsNeverQuietAt self.old face
            (λ g. hears_at (setup_of self.old) face g (segment_of datagram.now) now)) }
        ensures err { OnErr result (self.new.spent ≡ true) }
    {
        self.spent = true;
        let effects = self.parts.arrive(face, datagram, now)?;
        self.spent = false;
        Ok(effects)
    }

    /// Time has passed, up to a moment below 2^62 in ms: the old face's sessions tick, then the new
    /// face's. Where no timer is due nothing is done, and no memory is wanted.
    pub fn tick(&mut self, now: u64) -> Result<GateEffects, AllocError>
        requires whole { self.old.spent ≡ false }
        requires moment { now < 2 ^ 62 }
        ensures done { IfOk result (GateSteps self.old self.new
            (ticks_gate (setup_of self.old) now)) }
        ensures bounds { OnOk result (IsGateBounded self.new) }
        ensures wanted { OnErr result (is_due_at now (gate_deadline self.old) ≡ true) }
        ensures err { OnErr result (self.new.spent ≡ true) }
    {
        if !self.parts.is_due(now) {
            return Ok(self.parts.nothing());
        }
        self.spent = true;
        let effects = self.parts.tick(now)?;
        self.spent = false;
        Ok(effects)
    }
}
