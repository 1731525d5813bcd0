//! What a path world keeps, and what it does about what happens.

ghost use Rattle.std.specs.Prelude.{◌≡◌, ◌<◌, ◌≤◌, ◌^◌, false, [], Some, length, map, slice_get, IfOk, OnOk};
ghost use Rattle.ltp_engine.specs.Steps.{is_due_at};
ghost use Rattle.ltp_segment.specs.PolicyViews.{policy_value};
ghost use Rattle.ltp_segment.specs.Reading.{segment_of};
ghost use Rattle.gateway_core.specs.Config.{IsGateConfig};
ghost use Rattle.ltp_session.specs.Engine.{earlier};
ghost use Rattle.path_laws.specs.Path.{path_setup, delivers, clock_shows, node_ticks};
ghost use Rattle.path_laws.specs.Places.{at_node, at_gate, node_place};
ghost use Rattle.path_world.specs.declared.sent.Sent.{Sent};
ghost use Rattle.path_world.specs.Values.{path_deadline, numbered};
ghost use Rattle.path_world.specs.Shows.{ShowsRun};

use crate::node::{Done, Node, arrive_at, submit_at, tick_at};
use crate::sent::SentLog;
use crate::telling::{at_gate, at_node, both, nothing};
use fragments::Joiner;
use gate_cases::Face;
use gateway_core::{GateConfig, GateEffects, Gateway};
use ltp_engine::{Engine, SubmitRefused};
use path_laws::{PathEffects, PathEnd, Place};
use std::alloc::{AllocError, Global};

/// The numbers of the path's engines: the old node, the gateway's two faces, the new node.
const OLD_NODE: u64 = 1;

const OLD_FACE: u64 = 2;

const NEW_FACE: u64 = 3;

const NEW_NODE: u64 = 4;

/// The number of an engine's first session.
const FIRST_SESSION: u64 = 1;

/// What a path world keeps.
#[derive(Debug, Drop)]
pub(crate) struct Parts {
    pub alloc: Global,
    old_node: Node,
    gate: Gateway,
    new_node: Node,
    pub sent: SentLog,
    pub moment: u64,
}

impl Parts {
    ghost use Rattle.path_world.specs.Ties.{live, setup_in, IsKept, IsWhole, Does, Did, PartsSend};
    ghost use Rattle.path_world.specs.Ties.{hears_as, gate_ticks, with_sent, sent_from, node_told};
    ghost use Rattle.path_world.specs.Ties.{routed_from, gate_told};

    /// A path at its beginning.
    pub fn new(alloc: Global, config: GateConfig, now: u64) -> Parts
        requires legal { IsGateConfig config.gate config.cut }
        requires moment { now < 2 ^ 62 }
        ensures whole { IsWhole result }
        ensures setup { setup_in result
            ≡ path_setup config.gate (policy_value config.policy) config.cut }
        ensures shows { ShowsRun (live result) now [] }
    {
        let policy = config.policy;
        Parts {
            alloc,
            old_node: Node {
                engine: Engine::new(alloc, OLD_NODE, OLD_FACE, FIRST_SESSION, policy),
                joiner: Joiner::new(alloc),
            },
            gate: Gateway::new(alloc, config),
            new_node: Node {
                engine: Engine::new(alloc, NEW_NODE, NEW_FACE, FIRST_SESSION, policy),
                joiner: Joiner::new(alloc),
            },
            sent: SentLog::new(alloc),
            moment: now,
        }
    }

    /// When a timer is due next, at any place.
    pub fn next_deadline(&self) -> Option<u64>
        requires { IsKept self.now }
        ensures { result ≡ path_deadline (live self.now) }
    {
        let old = self.old_node.engine.next_deadline();
        let gate = self.gate.next_deadline();
        let new = self.new_node.engine.next_deadline();
        earlier_of(earlier_of(old, gate), new)
    }

    /// Whether a timer is due, at any place.
    pub fn is_due(&self, now: u64) -> bool
        requires { IsKept self.now }
        ensures { result ≡ is_due_at now (path_deadline (live self.now)) }
    {
        match self.next_deadline() {
            Some(deadline) => deadline <= now,
            None => false,
        }
    }

    /// The clock goes on, where no timer is due.
    pub fn go_on(&mut self, now: u64) -> PathEffects
        requires whole { IsWhole self.old }
        requires moment { now < 2 ^ 62 }
        requires later { self.old.moment ≤ now }
        requires quiet { is_due_at now (path_deadline (live self.old)) ≡ false }
        ensures { Did self.old self.new (clock_shows now) result }
    {
        self.moment = now;
        nothing(self.alloc)
    }

    /// An end sends a bundle's octets, as one block that is all red.
    pub fn send(&mut self, end: PathEnd, bundle: &[u8]) -> Result<PathEffects, SubmitRefused>
        requires whole { IsWhole self.old }
        ensures { PartsSend self.old self.new end bundle.now result }
    {
        let now = self.moment;
        let effects = submit_at(&mut self.old_node, &mut self.new_node, end, bundle, now)?;
        let joins = Vec::new(self.alloc);
        Ok(self.tell_node(end, Done { effects, joins })?)
    }

    /// Datagram `k`, which was sent, comes to the place across its link.
    pub fn deliver(&mut self, k: usize) -> Result<PathEffects, AllocError>
        requires whole { IsWhole self.old }
        requires there { k < length self.old.sent }
        ensures { IfOk result (Did self.old self.new (delivers k)) }
    {
        match self.sent.get(k).from.across() {
            Place::OldNode => self.hear_node(PathEnd::Old, k),
            Place::OldFace => self.hear_gate(Face::Old, k),
            Place::NewFace => self.hear_gate(Face::New, k),
            Place::NewNode => self.hear_node(PathEnd::New, k),
        }
    }

    /// The clock goes on, and timers are due: the old node ticks, the gate's old face and its new face, and the new
    /// node.
    pub fn clock(&mut self, now: u64) -> Result<PathEffects, AllocError>
        requires whole { IsWhole self.old }
        requires moment { now < 2 ^ 62 }
        requires later { self.old.moment ≤ now }
        ensures { IfOk result (Did self.old self.new (clock_shows now)) }
    {
        self.moment = now;
        let old = self.tick_node(PathEnd::Old)?;
        let gate = self.tick_gate()?;
        let new = self.tick_node(PathEnd::New)?;
        both(old, both(gate, new)?)
    }

    /// Datagram `k` comes to the node of an end.
    fn hear_node(&mut self, end: PathEnd, k: usize) -> Result<PathEffects, AllocError>
        requires kept { IsKept self.old }
        requires there { k < length self.old.sent }
        ensures { IfOk result (λ effects. (d : Sent) → slice_get self.old.sent k ≡ Some d
            → Does self.old self.new (hears_as (setup_in self.old) (at_node end)
            (segment_of d.datagram)) effects) }
    {
        let datagram = self.sent.get(k).datagram.as_slice();
        let (old, new) = (&mut self.old_node, &mut self.new_node);
        let done = arrive_at(self.alloc, old, new, end, datagram, self.moment)?;
        self.tell_node(end, done)
    }

    /// Datagram `k` comes to a face of the gate.
    fn hear_gate(&mut self, face: Face, k: usize) -> Result<PathEffects, AllocError>
        requires kept { IsKept self.old }
        requires there { k < length self.old.sent }
        ensures { IfOk result (λ effects. (d : Sent) → slice_get self.old.sent k ≡ Some d
            → Does self.old self.new (hears_as (setup_in self.old) (at_gate face)
            (segment_of d.datagram)) effects) }
    {
        let datagram = self.sent.get(k).datagram.as_slice();
        let effects = self.gate.arrive(face, datagram, self.moment)?;
        self.tell_gate(effects)
    }

    /// The node of an end ticks.
    fn tick_node(&mut self, end: PathEnd) -> Result<PathEffects, AllocError>
        requires kept { IsKept self.old }
        ensures { IfOk result (Does self.old self.new
            (node_ticks (setup_in self.old) self.old.moment end)) }
    {
        let (old, new) = (&mut self.old_node, &mut self.new_node);
        let done = tick_at(self.alloc, old, new, end, self.moment)?;
        self.tell_node(end, done)
    }

    /// The gate ticks.
    fn tick_gate(&mut self) -> Result<PathEffects, AllocError>
        requires kept { IsKept self.old }
        ensures { IfOk result (Does self.old self.new
            (gate_ticks (setup_in self.old) self.old.moment)) }
    {
        let effects = self.gate.tick(self.moment)?;
        self.tell_gate(effects)
    }

    /// What the node of an end did is told, and what it sent is kept.
    fn tell_node(&mut self, end: PathEnd, done: Done) -> Result<PathEffects, AllocError>
        ensures kept { OnOk result (self.new ≡ with_sent self.old
            (sent_from (node_place end) done.effects.out)) }
        ensures told { IfOk result (λ told. told ≡ node_told (node_place end)
            (numbered (length self.old.sent) (sent_from (node_place end) done.effects.out))
            done.effects.ups done.joins.items done.effects.notes) }
    {
        let Done { effects, joins } = done;
        let place = end.node();
        let sent = self.sent.keep_all(self.alloc, place, effects.out)?;
        at_node(self.alloc, place, sent, effects.ups, joins, effects.notes)
    }

    /// What the gate did is told, and what it sent is kept.
    fn tell_gate(&mut self, effects: GateEffects) -> Result<PathEffects, AllocError>
        ensures kept { OnOk result (self.new ≡ with_sent self.old (map routed_from effects.out)) }
        ensures told { IfOk result (λ told. told ≡ gate_told
            (numbered (length self.old.sent) (map routed_from effects.out))
            effects.ups effects.notes) }
    {
        let GateEffects { out, ups, notes } = effects;
        let sent = self.sent.keep_routed(self.alloc, out)?;
        at_gate(self.alloc, sent, ups, notes)
    }
}

/// The earlier of two moments, where there are any.
fn earlier_of(first: Option<u64>, second: Option<u64>) -> Option<u64>
    ensures { result ≡ earlier first second }
{
    match (first, second) {
        (None, _) => second,
        (_, None) => first,
        (Some(one), Some(other)) => Some(one.min(other)),
    }
}
