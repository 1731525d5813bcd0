//! A face of the gateway: its sessions, and the pieces that wait there.

ghost use Rattle.std.specs.Prelude.{◌≡◌, ◌≢◌, ◌<◌, ◌≤◌, ◌-◌, ◌^◌, min, true, length, IfOk, OnOk};
ghost use Rattle.ltp_segment.specs.Reading.{segment_of};
ghost use Rattle.piece_gathering.specs.Gathered.{ready};
ghost use Rattle.face_room.specs.declared.bounds.TheConstants.{BLOCK_MAX};
ghost use Rattle.peer_sessions.specs.Sessions.{hears, ticks, block_begins};
ghost use Rattle.peer_gateway.specs.Gate.{room_at, kept_inside};
ghost use Rattle.peer_gateway.specs.Going.{is_free, next_count, gathers, told_if};

use crate::answer::PeerAnswer;
use crate::going::block_of;
use crate::queue::Queue;
use crate::told::{BlockBegun, Remark};
use crate::waits::{Waits, needs_in, plus};
use face_room::{Bounds, Load, NUMBERS};
use gate_cases::Face;
use ltp_engine::{Effects, Ups};
use ltp_segment::Outs;
use peer_cases::{FaceRoom, PeerSettings};
use peer_sessions::{PeerSessions, Told};
use piece_gathering::{Gathering, Piece};
use std::alloc::{AllocError, Global};

/// A face of the gateway.
#[derive(Debug, Drop)]
pub(crate) struct FaceParts {
    pub alloc: Global,
    pub face: Face,
    pub settings: PeerSettings,
    pub bounds: Bounds,
    pub sessions: PeerSessions,
    pub gathering: Gathering,
    /// How many octets wait in the face's outbox.
    pub queued: u64,
    /// What the pieces that wait will take.
    pub waits: Waits,
}

/// What the sessions of a face handed up, and whether one ended that was being sent.
#[derive(Debug, Drop)]
pub(crate) struct Heard {
    pub ups: Ups,
    pub has_ended: bool,
}

impl FaceParts {
    ghost use Rattle.peer_gateway.specs.Faces.{keys_at, face_of, setup_at, IsFace, IsSized, FaceDid, FaceHeard};
    ghost use Rattle.peer_gateway.specs.Faces.{face_does, face_waits, face_goes, Puts, Tells, Took, Sent};
    ghost use Rattle.peer_gateway.specs.Answers.{with_told};

    // ---- what a face is asked

    /// What room it has.
    pub fn room(&self) -> Result<FaceRoom, AllocError>
        requires { IsFace self.now }
        ensures { IfOk result (λ room. room ≡ room_at (keys_at self.now) (face_of self.now)) }
    {
        let sent = plus(self.sessions.block_octets(), self.queued)?;
        let kept = plus(sent, self.waits.needs)?;
        Ok(FaceRoom {
            bounds: self.bounds,
            load: Load {
                next_session: self.sessions.next_session(),
                kept,
                waiting: self.waits.waiting,
            },
        })
    }

    /// What it keeps of what it sends, but for its outbox: the octets of the blocks that are being sent, and
    /// what the pieces that wait will need; up to the greatest number that 64 bits show.
    pub fn kept(&self) -> u64
        requires { IsFace self.now }
        ensures { result ≡ min (kept_inside (keys_at self.now) (face_of self.now)) (2 ^ 64 - 1) }
    {
        self.sessions
            .block_octets()
            .saturating_add(self.waits.needs)
    }

    /// Whether a session is free.
    fn is_free(&self) -> bool
        requires { IsFace self.now }
        ensures { result ≡ is_free (keys_at self.now) (face_of self.now) }
    {
        self.sessions.sending() < self.bounds.sessions && self.sessions.next_session() < NUMBERS
    }

    /// How many pieces go next in one block, where those go that are ready at a moment.
    pub fn next_count(&self, until: u64) -> usize
        requires { IsFace self.now }
        ensures { result ≡ next_count (keys_at self.now) until (face_of self.now) }
    {
        if self.is_free() {
            self.gathering.ready(until)
        } else {
            0
        }
    }

    /// Whether pieces gather; else each has a session of its own.
    pub fn gathers(&self) -> bool
        requires { IsFace self.now }
        ensures { result ≡ gathers (keys_at self.now) }
    {
        self.bounds.wanted != 0
    }

    // ---- what its sessions do

    /// A datagram comes.
    pub fn hear(
        &mut self,
        datagram: &[u8],
        now: u64,
        answer: &mut PeerAnswer,
    ) -> Result<Heard, AllocError>
        requires whole { IsFace self.old }
        requires moment { now < 2 ^ 62 }
        ensures { IfOk result (FaceHeard self.old self.new answer.old answer.new
            (hears (keys_at self.old) (face_of self.old).sessions (segment_of datagram.now) now)) }
    {
        let sending = self.sessions.sending();
        let told = self.sessions.arrive(datagram, now)?;
        let ups = self.tell(told, answer)?;
        let has_ended = self.sessions.sending() < sending;
        Ok(Heard { ups, has_ended })
    }

    /// Its sessions tick.
    pub fn tick(&mut self, now: u64, answer: &mut PeerAnswer) -> Result<(), AllocError>
        requires whole { IsFace self.old }
        requires moment { now < 2 ^ 62 }
        ensures { OnOk result (FaceDid self.old self.new answer.old answer.new (face_does (keys_at self.old) self.old.face (face_of self.old)
            (ticks (keys_at self.old) (face_of self.old).sessions now))) }
    {
        let told = self.sessions.tick(now)?;
        self.tell(told, answer)?;
        Ok(())
    }

    /// What its sessions did is told, and their datagrams go out. It answers what they handed up.
    fn tell(&mut self, told: Told, answer: &mut PeerAnswer) -> Result<Ups, AllocError>
        requires whole { IsFace self.old }
        ensures { IfOk result (Tells self.old self.new answer.old answer.new told) }
    {
        let Told {
            gone,
            forgotten,
            effects,
        } = told;
        let Effects {
            out,
            ups,
            greens,
            notes,
        } = effects;
        self.put(out, answer)?;
        answer.tell_gone(self.face, gone.as_slice())?;
        answer.tell_forgotten(self.face, forgotten)?;
        answer.tell_notes(self.face, notes)?;
        answer.tell_greens(self.face, greens)?;
        Ok(ups)
    }

    /// Datagrams were made: each is put into its outbox by what the face keeps now, or dropped.
    pub fn put(&mut self, out: Outs, answer: &mut PeerAnswer) -> Result<(), AllocError>
        requires whole { IsFace self.old }
        ensures { OnOk result (Puts self.old self.new answer.old answer.new out) }
    {
        let mut queue = Queue {
            bounds: self.bounds,
            kept: self.kept(),
            queued: self.queued,
        };
        answer.send(self.face, &mut queue, out)?;
        self.queued = queue.queued;
        Ok(())
    }

    // ---- pieces

    /// A piece waits after the others.
    pub fn wait(
        &mut self,
        piece: Piece,
        is_report: bool,
        answer: &mut PeerAnswer,
    ) -> Result<(), AllocError>
        requires whole { IsFace self.old }
        requires size { piece.size ≤ BLOCK_MAX }
        requires sized { IsSized self.old.settings self.old.face piece }
        ensures { OnOk result (FaceDid self.old self.new answer.old answer.new
            (face_waits self.old.face piece is_report (face_of self.old))) }
    {
        let kept = Piece {
            octets: piece.octets.copy(self.alloc)?,
            size: piece.size,
            came: piece.came,
            added: piece.added,
            is_dated: piece.is_dated,
        };
        self.waits = self.waits.with(self.bounds, piece.size)?;
        self.gathering.add(piece)?;
        answer.add(self.face, kept, is_report)
    }

    /// The pieces that are ready at a moment go, as one block.
    pub fn go(
        &mut self,
        now: u64,
        leaves: u64,
        until: u64,
        answer: &mut PeerAnswer,
    ) -> Result<(), AllocError>
        requires whole { IsFace self.old }
        requires next { next_count (keys_at self.old) until (face_of self.old) ≢ 0 }
        requires moment { now < 2 ^ 62 }
        ensures { OnOk result (FaceDid self.old self.new answer.old answer.new
            (face_goes (setup_at self.old) (record { at = now; leaves = leaves }) until (face_of self.old))) }
    {
        let session = self.sessions.next_session();
        let taken = self.take(until)?;
        let pieces = taken.len();
        let block = block_of(self.alloc, self.settings, self.face, taken, leaves)?;
        self.send(block.as_slice(), now, answer)?;
        self.tell_begun(pieces, block.len(), session, answer)?;
        let face = self.face;
        answer.begin(BlockBegun {
            face,
            session,
            block,
            pieces,
        })
    }

    /// The pieces that are ready at a moment.
    fn take(&mut self, until: u64) -> Result<Vec<Piece>, AllocError>
        requires whole { IsFace self.old }
        requires some { 0 < ready self.old.gathering until }
        ensures { IfOk result (λ pieces. Took self.old self.new until pieces.items) }
    {
        let pieces = self.gathering.take(self.alloc, until)?;
        let needs = needs_in(self.bounds.segment, pieces.as_slice())?;
        self.waits = self.waits.after(needs, self.gathering.len() > 0);
        Ok(pieces)
    }

    /// A block begins in the next session, and its datagrams go out.
    fn send(&mut self, block: &[u8], now: u64, answer: &mut PeerAnswer) -> Result<(), AllocError>
        requires whole { IsFace self.old }
        requires some { 0 < length block.now }
        requires most { length block.now ≤ BLOCK_MAX }
        requires free { is_free (keys_at self.old) (face_of self.old) ≡ true }
        requires moment { now < 2 ^ 62 }
        ensures { OnOk result (Sent self.old self.new answer.old answer.new
            (block_begins (keys_at self.old) (face_of self.old).sessions.engine block.now now)) }
    {
        let effects = self.sessions.submit(block, now)?;
        let Effects { out, .. } = effects;
        self.put(out, answer)
    }

    /// That a block begins is told where pieces gather.
    fn tell_begun(
        &self,
        pieces: usize,
        octets: usize,
        session: u64,
        answer: &mut PeerAnswer,
    ) -> Result<(), AllocError>
        requires whole { IsFace self.now }
        ensures { OnOk result (answer.new ≡ with_told answer.old
            (told_if (gathers (keys_at self.now)) self.now.face pieces octets session)) }
    {
        if self.gathers() {
            let remark = Remark::Began {
                pieces,
                octets,
                session,
            };
            answer.tell(self.face, remark)
        } else {
            Ok(())
        }
    }
}
