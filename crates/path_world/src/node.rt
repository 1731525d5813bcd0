//! The nodes of the ends: each an engine, and a joiner for what comes in pieces.

ghost use Rattle.std.specs.Prelude.{◌≡◌, ◌<◌, ◌^◌, false, length, IfOk};
ghost use Rattle.ltp_segment.specs.PolicyViews.{policy_value};
ghost use Rattle.ltp_segment.specs.Reading.{segment_of};
ghost use Rattle.ltp_session.specs.Engine.{datagram_step, tick_step};
ghost use Rattle.path_laws.specs.Path.{at_path_end};
ghost use Rattle.path_laws.specs.Places.{face_of};
ghost use Rattle.gate_cases.specs.declared.face.Face.TheVariants as faces;
ghost use Rattle.path_world.specs.Ties.{IsNode, NodeDid, NodeDidAt, NodeSubmits, NodeSubmitsAt};

use crate::joining::join_all;
use fragments::Joiner;
use gate_cases::Face;
use ltp_engine::{Effects, Engine, SubmitRefused};
use path_laws::{EndJoin, PathEnd};
use std::alloc::{AllocError, Global};

/// The node of an end.
#[derive(Debug, Drop)]
pub(crate) struct Node {
    pub engine: Engine,
    pub joiner: Joiner,
}

/// What a node did: its engine, and then its joiner.
#[derive(Debug, Drop)]
pub(crate) struct Done {
    pub effects: Effects,
    pub joins: Vec<EndJoin>,
}

impl Node {
    /// The node is told to send a bundle's octets, as one block that is all red.
    fn submit(&mut self, bundle: &[u8], now: u64) -> Result<Effects, SubmitRefused>
        requires whole { self.old.engine.spent ≡ false }
        requires moment { now < 2 ^ 62 }
        ensures { (face : Face) → IsNode face self.old
            → NodeSubmits face self.old self.new bundle.now now result }
    {
        self.engine.submit(bundle, bundle.len() as u64, now)
    }

    /// A datagram comes to the node of the end at a face's side.
    fn arrive(
        &mut self,
        alloc: Global,
        face: Face,
        datagram: &[u8],
        now: u64,
    ) -> Result<Done, AllocError>
        requires whole { IsNode face self.old }
        requires moment { now < 2 ^ 62 }
        ensures { IfOk result (NodeDid face self.old self.new
            (λ e. datagram_step self.old.engine.party e (segment_of datagram.now) now)) }
    {
        let effects = self.engine.arrive(datagram, now)?;
        let joins = join_all(alloc, face, &mut self.joiner, effects.ups.as_slice())?;
        Ok(Done { effects, joins })
    }

    /// Time has passed at the node of the end at a face's side.
    fn tick(&mut self, alloc: Global, face: Face, now: u64) -> Result<Done, AllocError>
        requires whole { IsNode face self.old }
        requires moment { now < 2 ^ 62 }
        ensures { IfOk result (NodeDid face self.old self.new
            (λ e. tick_step self.old.engine.party e now)) }
    {
        let effects = self.engine.tick(now)?;
        let joins = join_all(alloc, face, &mut self.joiner, effects.ups.as_slice())?;
        Ok(Done { effects, joins })
    }
}

/// The node of an end is told to send a bundle's octets.
pub(crate) fn submit_at(
    old: &mut Node,
    new: &mut Node,
    end: PathEnd,
    bundle: &[u8],
    now: u64,
) -> Result<Effects, SubmitRefused>
    requires old { IsNode faces.Old old.old }
    requires new { IsNode faces.New new.old }
    requires moment { now < 2 ^ 62 }
    ensures { NodeSubmitsAt end (old.old, new.old) (old.new, new.new) bundle.now now result }
{
    match end {
        PathEnd::Old => old.submit(bundle, now),
        PathEnd::New => new.submit(bundle, now),
    }
}

/// A datagram comes to the node of an end.
pub(crate) fn arrive_at(
    alloc: Global,
    old: &mut Node,
    new: &mut Node,
    end: PathEnd,
    datagram: &[u8],
    now: u64,
) -> Result<Done, AllocError>
    requires old { IsNode faces.Old old.old }
    requires new { IsNode faces.New new.old }
    requires moment { now < 2 ^ 62 }
    ensures { IfOk result (NodeDidAt end (old.old, new.old) (old.new, new.new)
        (λ e. datagram_step (at_path_end (old.old, new.old) end).engine.party e
        (segment_of datagram.now) now)) }
{
    match end {
        PathEnd::Old => old.arrive(alloc, Face::Old, datagram, now),
        PathEnd::New => new.arrive(alloc, Face::New, datagram, now),
    }
}

/// Time has passed at the node of an end.
pub(crate) fn tick_at(
    alloc: Global,
    old: &mut Node,
    new: &mut Node,
    end: PathEnd,
    now: u64,
) -> Result<Done, AllocError>
    requires old { IsNode faces.Old old.old }
    requires new { IsNode faces.New new.old }
    requires moment { now < 2 ^ 62 }
    ensures { IfOk result (NodeDidAt end (old.old, new.old) (old.new, new.new)
        (λ e. tick_step (at_path_end (old.old, new.old) end).engine.party e now)) }
{
    match end {
        PathEnd::Old => old.tick(alloc, Face::Old, now),
        PathEnd::New => new.tick(alloc, Face::New, now),
    }
}
