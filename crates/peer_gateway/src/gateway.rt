//! The gateway.

ghost use Rattle.std.specs.Prelude.{◌≡◌, ◌<◌, ◌-◌, ◌^◌, min, false, true, length, IfOk, OnErr};
ghost use Rattle.ltp_segment.specs.Reading.{segment_of};
ghost use Rattle.ltp_engine.specs.Sessions.{is_open, is_handed_up};
ghost use Rattle.piece_gathering.specs.Gathered.{octets_waiting};
ghost use Rattle.gateway_core.specs.Gate.{at_face};
ghost use Rattle.peer_gateway.specs.Gate.{starts_peer_gate};
ghost use Rattle.peer_gateway.specs.Going.{gathers};
ghost use Rattle.peer_gateway.specs.Steps.{a_datagram, a_tick, a_kept_piece};
ghost use Rattle.peer_gateway.specs.Views.{AreMoments, IsConfig, moments_of, setup_with};
ghost use Rattle.peer_gateway.specs.Answers.{answer_of};
ghost use Rattle.peer_gateway.specs.Ties.{PeerSteps, starts_effects};

use crate::answer::PeerAnswer;
use crate::config::PeerConfig;
use crate::moments::Moments;
use crate::parts::Parts;
use endpoint::Octets;
use gate_cases::Face;
use std::alloc::{AllocError, Global};
use std::marker::Model;

/// A gateway among other implementations, between two links: a face at each of them, and a counter of its
/// reports. Each event finds so many octets in the outbox of the old face, and of the new one.
///
/// After want of memory the value may only be dropped.
#[derive(Debug, Drop)]
pub struct PeerGateway {
    parts: Parts,
    spent: bool,
}

impl Model for PeerGateway {
    ghost use Rattle.std.specs.Prelude.{◌≡◌, false};
    ghost use Rattle.peer_gateway.specs.Ties.{PeerGatewayValue, IsWhole, setup_in, gate_of};

    ghost Value = { PeerGatewayValue };

    ghost view = { λ g. record { spent = g.spent; setup = setup_in g.parts; gate = gate_of g.parts } };

    ghost invariant = { λ g. g.spent ≡ false → IsWhole g.parts };
}

impl PeerGateway {
    /// A gateway at its beginning, at its moments, with the sessions of each peer that were acknowledged in an
    /// earlier run. They can't be handed up in this one: each is remembered for good, and cancelled once. The
    /// answer has the cancels, and they wait in the outboxes.
    pub fn new(
        alloc: Global,
        config: PeerConfig,
        old_marks: &[u64],
        new_marks: &[u64],
        moments: Moments,
    ) -> Result<(PeerGateway, PeerAnswer), AllocError>
        requires { IsConfig config }
        ensures value { IfOk result (λ r. r.0 ≡ record {
          spent = false;
          setup = setup_with config;
          gate = starts_peer_gate (setup_with config) (moments.old.at, moments.new.at) (old_marks.now, new_marks.now);
        }) }
        ensures cancels { IfOk result (λ r. r.1 ≡ answer_of
            (starts_effects (setup_with config) (old_marks.now, new_marks.now))) }
    {
        let mut answer = PeerAnswer::none(alloc);
        let parts = Parts::new(alloc, config, old_marks, new_marks, moments, &mut answer)?;
        let gateway = PeerGateway {
            parts,
            spent: false,
        };
        Ok((gateway, answer))
    }

    // ---- what it is asked; none of it takes memory

    /// The number of the next session that a face begins; 2^32 where none is left.
    pub fn next_session(&self, face: Face) -> u64
        ensures { result ≡ (at_face self.now.gate.faces face).sessions.engine.next }
    {
        self.parts.face(face).sessions.next_session()
    }

    /// How many sessions are being sent at a face, those that are cancelling counted.
    pub fn sending(&self, face: Face) -> u64
        requires { self.now.spent ≡ false }
        ensures { result ≡ length (at_face self.now.gate.faces face).sessions.engine.senders }
    {
        let _ = self.spent;
        self.parts.whole_face(face).sessions.sending()
    }

    /// How many sessions are being received at a face, those that are cancelling counted.
    pub fn receiving(&self, face: Face) -> u64
        requires { self.now.spent ≡ false }
        ensures { result ≡ length (at_face self.now.gate.faces face).sessions.engine.receivers }
    {
        let _ = self.spent;
        self.parts.whole_face(face).sessions.receiving()
    }

    /// Whether a session that a face began is open: it is kept, and isn't cancelling.
    pub fn is_open(&self, face: Face, session: u64) -> bool
        requires { self.now.spent ≡ false }
        ensures { result ≡ is_open session (at_face self.now.gate.faces face).sessions.engine.senders }
    {
        let _ = self.spent;
        self.parts.whole_face(face).sessions.is_open(session)
    }

    /// Whether a session of a face's peer is kept, and its red part was handed up.
    pub fn is_handed_up(&self, face: Face, session: u64) -> bool
        requires { self.now.spent ≡ false }
        ensures { result ≡ is_handed_up session (at_face self.now.gate.faces face).sessions.engine.receivers }
    {
        let _ = self.spent;
        self.parts.whole_face(face).sessions.is_handed_up(session)
    }

    /// Whether pieces gather at a face; else each has a session of its own.
    pub fn gathers(&self, face: Face) -> bool
        requires { self.now.spent ≡ false }
        ensures { result ≡ gathers (at_face self.now.setup.keys face) }
    {
        let _ = self.spent;
        self.parts.whole_face(face).gathers()
    }

    /// How many pieces wait at a face.
    pub fn waiting(&self, face: Face) -> usize
        ensures { result ≡ length (at_face self.now.gate.faces face).gathering.waiting }
    {
        self.parts.face(face).gathering.len()
    }

    /// How many octets they have, up to the greatest number that 64 bits show. It is a pass over them.
    pub fn gathered(&self, face: Face) -> u64
        ensures { result ≡ min (octets_waiting (at_face self.now.gate.faces face).gathering.waiting) (2 ^ 64 - 1) }
    {
        self.parts.face(face).gathering.octets()
    }

    // ---- events

    /// A datagram comes at a face: what its sessions do; each bundle of the blocks that they hand up goes on
    /// at the other face, or not, and a report that is asked for goes back; and what is ready goes, where a
    /// session ended that was being sent.
    pub fn arrive(
        &mut self,
        face: Face,
        datagram: &[u8],
        moments: Moments,
        outboxes: (u64, u64),
    ) -> Result<PeerAnswer, AllocError>
        requires whole { self.old.spent ≡ false }
        requires moments { AreMoments moments }
        ensures done { IfOk result (PeerSteps self.old self.new
            (a_datagram face (segment_of datagram.now)) (moments_of moments) outboxes) }
        ensures err { OnErr result (self.new.spent ≡ true) }
    {
        self.spent = true;
        let mut answer = PeerAnswer::none(self.parts.alloc);
        self.parts.find_outboxes(outboxes);
        self.parts.arrive(face, datagram, moments, &mut answer)?;
        self.spent = false;
        Ok(answer)
    }

    /// Time has passed: the old face's sessions tick, and what is ready goes there; then the new face's.
    pub fn tick(&mut self, moments: Moments, outboxes: (u64, u64)) -> Result<PeerAnswer, AllocError>
        requires whole { self.old.spent ≡ false }
        requires moments { AreMoments moments }
        ensures done { IfOk result (PeerSteps self.old self.new a_tick (moments_of moments) outboxes) }
        ensures err { OnErr result (self.new.spent ≡ true) }
    {
        self.spent = true;
        let mut answer = PeerAnswer::none(self.parts.alloc);
        self.parts.find_outboxes(outboxes);
        self.parts.tick(moments, &mut answer)?;
        self.spent = false;
        Ok(answer)
    }

    /// A piece that a journal kept from an earlier run is added at a face, by its octets and what its record
    /// says of when it came, where there is room for it. Else nothing is done.
    pub fn add_kept(
        &mut self,
        face: Face,
        octets: Octets,
        came: Option<u64>,
        moments: Moments,
        outboxes: (u64, u64),
    ) -> Result<PeerAnswer, AllocError>
        requires whole { self.old.spent ≡ false }
        requires some { 0 < length octets }
        requires moments { AreMoments moments }
        ensures done { IfOk result (PeerSteps self.old self.new (a_kept_piece face octets came) (moments_of moments) outboxes) }
        ensures err { OnErr result (self.new.spent ≡ true) }
    {
        self.spent = true;
        let mut answer = PeerAnswer::none(self.parts.alloc);
        self.parts.find_outboxes(outboxes);
        self.parts
            .add_kept(face, octets, came, moments, &mut answer)?;
        self.spent = false;
        Ok(answer)
    }
}
