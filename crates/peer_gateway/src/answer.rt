//! What a gateway answers to an event.

ghost use Rattle.std.specs.Prelude.{◌≡◌, ◌∷◌, ◌++◌, [], map, OnOk};
ghost use Rattle.gateway_core.specs.Effects.{datagram_at};
ghost use Rattle.peer_sessions.specs.Sessions.{evictions};
ghost use Rattle.peer_gateway.specs.Gate.{told_engine, told_green};
ghost use Rattle.peer_gateway.specs.Queue.{puts_by, queue_after};
ghost use Rattle.peer_gateway.specs.Steps.{told_at, forgotten_told};

use crate::pushing::{push_datagrams, push_gone, push_greens, push_notes};
use crate::queue::Queue;
use crate::told::{Added, BlockBegun, Outgoing, Remark, RemarkAt};
use gate_cases::Face;
use ltp_engine::{Greens, Notes};
use ltp_segment::Outs;
use piece_gathering::Piece;
use std::alloc::{AllocError, Global};
use std::marker::Model;
use std::mem;

/// What a gateway answers to an event, in the order in which it comes to be.
#[derive(Debug, Drop)]
pub struct PeerAnswer {
    out: Vec<Outgoing>,
    told: Vec<RemarkAt>,
    added: Vec<Added>,
    begun: Vec<BlockBegun>,
}

impl Model for PeerAnswer {
    ghost use Rattle.std.specs.Prelude.{map};
    ghost use Rattle.peer_gateway.specs.Answers.{Answered, routed_seen, put_seen, told_seen, added_seen, begun_seen};

    ghost Value = { Answered };

    ghost view = { λ answer. record {
      out = map routed_seen answer.out.items;
      puts = map put_seen answer.out.items;
      told = map told_seen answer.told.items;
      added = map added_seen answer.added.items;
      begun = map begun_seen answer.begun.items;
    } };
}

impl PeerAnswer {
    ghost use Rattle.peer_gateway.specs.Answers.{nothing_answered, routed_seen, put_seen, told_seen, added_seen, begun_seen, remark_seen};
    ghost use Rattle.peer_gateway.specs.Answers.{with_out, with_told, with_added, with_begun};

    /// Nothing is done. It takes no memory.
    pub(crate) fn none(alloc: Global) -> PeerAnswer
        ensures { result ≡ nothing_answered }
    {
        PeerAnswer {
            out: Vec::new(alloc),
            told: Vec::new(alloc),
            added: Vec::new(alloc),
            begun: Vec::new(alloc),
        }
    }

    /// The datagrams that were made, and of each whether it is put into its face's outbox.
    pub fn out(&self) -> &[Outgoing]
        ensures out { map routed_seen result.now ≡ self.now.out }
        ensures puts { map put_seen result.now ≡ self.now.puts }
    {
        self.out.as_slice()
    }

    /// What is told.
    pub fn told(&self) -> &[RemarkAt]
        ensures { map told_seen result.now ≡ self.now.told }
    {
        self.told.as_slice()
    }

    /// The pieces that were added, which a journal has to know.
    pub fn added(&self) -> &[Added]
        ensures { map added_seen result.now ≡ self.now.added }
    {
        self.added.as_slice()
    }

    /// The sessions that began.
    pub fn begun(&self) -> &[BlockBegun]
        ensures { map begun_seen result.now ≡ self.now.begun }
    {
        self.begun.as_slice()
    }

    // ---- what is taken out of it, so that it is moved and not copied; none of it takes memory

    /// The datagrams that were made, and of each whether it is put into its face's outbox.
    pub fn take_out(&mut self, alloc: Global) -> Vec<Outgoing>
        ensures out { map routed_seen result.items ≡ self.old.out }
        ensures puts { map put_seen result.items ≡ self.old.puts }
        ensures left { self.new ≡ record self.old { out = []; puts = [] } }
    {
        mem::replace(&mut self.out, Vec::new(alloc))
    }

    /// What is told.
    pub fn take_told(&mut self, alloc: Global) -> Vec<RemarkAt>
        ensures taken { map told_seen result.items ≡ self.old.told }
        ensures left { self.new ≡ record self.old { told = [] } }
    {
        mem::replace(&mut self.told, Vec::new(alloc))
    }

    /// The sessions that began.
    pub fn take_begun(&mut self, alloc: Global) -> Vec<BlockBegun>
        ensures taken { map begun_seen result.items ≡ self.old.begun }
        ensures left { self.new ≡ record self.old { begun = [] } }
    {
        mem::replace(&mut self.begun, Vec::new(alloc))
    }

    // ---- what is added to it

    /// Datagrams were made at a face: each is put into its outbox, where it may wait there, or dropped.
    pub(crate) fn send(
        &mut self,
        face: Face,
        queue: &mut Queue,
        out: Outs,
    ) -> Result<(), AllocError>
        ensures answer { OnOk result (self.new ≡ with_out self.old (map (datagram_at face) out)
            (puts_by queue.old out)) }
        ensures queue { OnOk result (queue.new ≡ queue_after queue.old out) }
    {
        push_datagrams(&mut self.out, face, queue, out)
    }

    /// Sessions of a face were closed.
    pub(crate) fn tell_gone(&mut self, face: Face, gone: &[u64]) -> Result<(), AllocError>
        ensures { OnOk result (self.new
            ≡ with_told self.old (map (told_at face) (map told_engine (evictions gone.now)))) }
    {
        push_gone(&mut self.told, face, gone)
    }

    /// Runs of numbers were forgotten at a face, if any were.
    pub(crate) fn tell_forgotten(
        &mut self,
        face: Face,
        forgotten: Option<u64>,
    ) -> Result<(), AllocError>
        ensures { OnOk result (self.new
            ≡ with_told self.old (map (told_at face) (forgotten_told forgotten))) }
    {
        match forgotten {
            None => Ok(()),
            Some(runs) => self.tell(face, Remark::Forgotten { runs }),
        }
    }

    /// A face's engine noted something.
    pub(crate) fn tell_notes(&mut self, face: Face, notes: Notes) -> Result<(), AllocError>
        ensures { OnOk result (self.new
            ≡ with_told self.old (map (told_at face) (map told_engine notes))) }
    {
        push_notes(&mut self.told, face, notes)
    }

    /// Green pieces came at a face.
    pub(crate) fn tell_greens(&mut self, face: Face, greens: Greens) -> Result<(), AllocError>
        ensures { OnOk result (self.new
            ≡ with_told self.old (map (told_at face) (map told_green greens))) }
    {
        push_greens(&mut self.told, face, greens)
    }

    /// Something is told at a face.
    pub(crate) fn tell(&mut self, face: Face, remark: Remark) -> Result<(), AllocError>
        ensures { OnOk result (self.new
            ≡ with_told self.old (record { face = face; told = remark_seen remark } ∷ [])) }
    {
        self.told.push(RemarkAt { face, remark })?;
        Ok(())
    }

    /// A piece is added at a face.
    pub(crate) fn add(
        &mut self,
        face: Face,
        piece: Piece,
        is_report: bool,
    ) -> Result<(), AllocError>
        ensures { OnOk result (self.new
            ≡ with_added self.old (record { face = face; piece = piece; is_report = is_report } ∷ [])) }
    {
        self.added.push(Added {
            face,
            piece,
            is_report,
        })?;
        Ok(())
    }

    /// A session begins.
    pub(crate) fn begin(&mut self, begun: BlockBegun) -> Result<(), AllocError>
        ensures { OnOk result (self.new ≡ with_begun self.old (begun_seen begun ∷ [])) }
    {
        self.begun.push(begun)?;
        Ok(())
    }
}
