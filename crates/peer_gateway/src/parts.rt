//! What a gateway keeps.

ghost use Rattle.std.specs.Prelude.{◌≡◌, ◌≢◌, ◌<◌, ◌≤◌, ◌^◌, length, map, IfOk, OnOk};
ghost use Rattle.ltp_segment.specs.Reading.{segment_of};
ghost use Rattle.face_room.specs.declared.bounds.TheConstants.{BLOCK_MAX};
ghost use Rattle.gateway_core.specs.Gate.{at_face};
ghost use Rattle.peer_sessions.specs.Sessions.{ticks};
ghost use Rattle.gateway_core.specs.Effects.{routed_of};
ghost use Rattle.peer_gateway.specs.Gate.{starts_peer_gate, starts_out, starts_puts, routed_at};
ghost use Rattle.peer_gateway.specs.Answers.{with_out};
ghost use Rattle.peer_gateway.specs.Going.{next_count, no_time, go, go_all, waits_too, adds, due};
ghost use Rattle.peer_gateway.specs.Steps.{does_at, ticks_face, ticks_peer, kept_piece, adds_kept};

use crate::answer::PeerAnswer;
use crate::config::PeerConfig;
use crate::faces::FaceParts;
use crate::moments::{FaceMoments, Moments};
use crate::staying::{are_octets, stayed_size};
use endpoint::{Endpoint, Octets};
use face_room::has_room;
use gate_cases::Face;
use peer_cases::PeerSettings;
use piece_gathering::Piece;
use std::alloc::{AllocError, Global};

/// The moment at which no piece has waited yet: what is ready then is complete.
const NO_TIME: u64 = 0;

/// A gateway's two faces, how it is set up, and how many reports it made.
#[derive(Debug, Drop)]
pub(crate) struct Parts {
    pub alloc: Global,
    pub settings: PeerSettings,
    pub gate: Endpoint,
    pub cut: u64,
    pub old_face: FaceParts,
    pub new_face: FaceParts,
    pub counter: u64,
}

impl Parts {
    ghost use Rattle.peer_gateway.specs.Faces.{IsFace, IsSized};
    ghost use Rattle.peer_gateway.specs.Views.{AreMoments, IsConfig, moments_of, setup_with};
    ghost use Rattle.peer_gateway.specs.Ties.{IsWhole, Did, IsFound, gate_of, setup_in, face_at};

    /// A gateway at its beginning, at its moments, with the sessions of each peer that were acknowledged in an
    /// earlier run: each is cancelled.
    pub fn new(
        alloc: Global,
        config: PeerConfig,
        old_marks: &[u64],
        new_marks: &[u64],
        moments: Moments,
        answer: &mut PeerAnswer,
    ) -> Result<Parts, AllocError>
        requires { IsConfig config }
        ensures whole { IfOk result IsWhole }
        ensures setup { IfOk result (λ p. setup_in p ≡ setup_with config) }
        ensures gate { IfOk result (λ p. gate_of p ≡ starts_peer_gate (setup_with config)
            (moments.old.at, moments.new.at) (old_marks.now, new_marks.now)) }
        ensures answer { OnOk result (answer.new ≡ with_out (with_out answer.old
            (map routed_of (routed_at Face.Old (starts_out (setup_with config).keys.0 old_marks.now)))
            (starts_puts (setup_with config).keys.0 old_marks.now))
            (map routed_of (routed_at Face.New (starts_out (setup_with config).keys.1 new_marks.now)))
            (starts_puts (setup_with config).keys.1 new_marks.now)) }
    {
        let PeerConfig {
            settings,
            gate,
            cut,
            old,
            new,
        } = config;
        let old_face = FaceParts::new(
            alloc,
            Face::Old,
            settings,
            old,
            old_marks,
            moments.old.at,
            answer,
        )?;
        let new_face = FaceParts::new(
            alloc,
            Face::New,
            settings,
            new,
            new_marks,
            moments.new.at,
            answer,
        )?;
        Ok(Parts {
            alloc,
            settings,
            gate,
            cut,
            old_face,
            new_face,
            counter: 0,
        })
    }

    /// A face, lent.
    pub fn face(&self, face: Face) -> &FaceParts
        ensures { result.now ≡ face_at self.now face }
    {
        match face {
            Face::Old => &self.old_face,
            Face::New => &self.new_face,
        }
    }

    /// A face of a whole gateway, lent.
    pub fn whole_face(&self, face: Face) -> &FaceParts
        requires { IsWhole self.now }
        ensures is { result.now ≡ face_at self.now face }
        ensures whole { IsFace result.now }
    {
        match face {
            Face::Old => &self.old_face,
            Face::New => &self.new_face,
        }
    }

    // ---- pieces

    /// A piece is added at a face, and what is complete goes while a session is free.
    pub fn add(
        &mut self,
        face: Face,
        moments: Moments,
        is_report: bool,
        piece: Piece,
        answer: &mut PeerAnswer,
    ) -> Result<(), AllocError>
        requires whole { IsWhole self.old }
        requires moments { AreMoments moments }
        requires size { piece.size ≤ BLOCK_MAX }
        requires sized { IsSized self.old.settings face piece }
        ensures { OnOk result (Did self.old self.new answer.old answer.new
            (adds (setup_in self.old) face (moments_of moments) is_report piece (gate_of self.old))) }
    {
        self.wait(face, piece, is_report, answer)?;
        self.go_all(face, moments, NO_TIME, answer)
    }

    /// What is ready at a face goes, also what has waited as long as it may, while a session is free.
    pub fn due(
        &mut self,
        face: Face,
        moments: Moments,
        answer: &mut PeerAnswer,
    ) -> Result<(), AllocError>
        requires whole { IsWhole self.old }
        requires moments { AreMoments moments }
        ensures { OnOk result (Did self.old self.new answer.old answer.new
            (due (setup_in self.old) (moments_of moments) face (gate_of self.old))) }
    {
        self.go_all(face, moments, moments.of(face).at, answer)
    }

    /// Blocks go at a face, as long as pieces are ready at a moment and a session is free.
    fn go_all(
        &mut self,
        face: Face,
        moments: Moments,
        until: u64,
        answer: &mut PeerAnswer,
    ) -> Result<(), AllocError>
        requires whole { IsWhole self.old }
        requires moments { AreMoments moments }
        ensures { OnOk result (Did self.old self.new answer.old answer.new
            (go_all (setup_in self.old) face (moments_of moments) until (gate_of self.old))) }
    {
        let waiting = self.face(face).gathering.len();
        'going: for _ in 0..waiting {
            if self.face(face).next_count(until) == 0 {
                return Ok(());
            }
            self.go(face, moments, until, answer)?;
        }
        Ok(())
    }

    /// The pieces that are ready at a face go, as one block.
    fn go(
        &mut self,
        face: Face,
        moments: Moments,
        until: u64,
        answer: &mut PeerAnswer,
    ) -> Result<(), AllocError>
        requires whole { IsWhole self.old }
        requires moments { AreMoments moments }
        requires next { next_count (at_face (setup_in self.old).keys face) until (at_face (gate_of self.old).faces face) ≢ 0 }
        ensures { OnOk result (Did self.old self.new answer.old answer.new
            (go (setup_in self.old) face (moments_of moments) until (gate_of self.old))) }
    {
        match face {
            Face::Old => {
                let FaceMoments { at, leaves } = moments.old;
                self.old_face.go(at, leaves, until, answer)
            }
            Face::New => {
                let FaceMoments { at, leaves } = moments.new;
                self.new_face.go(at, leaves, until, answer)
            }
        }
    }

    /// A piece waits at a face after the others.
    fn wait(
        &mut self,
        face: Face,
        piece: Piece,
        is_report: bool,
        answer: &mut PeerAnswer,
    ) -> Result<(), AllocError>
        requires whole { IsWhole self.old }
        requires size { piece.size ≤ BLOCK_MAX }
        requires sized { IsSized self.old.settings face piece }
        ensures { OnOk result (Did self.old self.new answer.old answer.new
            (waits_too face piece is_report (gate_of self.old))) }
    {
        match face {
            Face::Old => self.old_face.wait(piece, is_report, answer),
            Face::New => self.new_face.wait(piece, is_report, answer),
        }
    }

    // ---- time

    /// Time has passed: the old face first.
    pub fn tick(&mut self, moments: Moments, answer: &mut PeerAnswer) -> Result<(), AllocError>
        requires whole { IsWhole self.old }
        requires moments { AreMoments moments }
        ensures { OnOk result (Did self.old self.new answer.old answer.new
            (ticks_peer (setup_in self.old) (moments_of moments) (gate_of self.old))) }
    {
        self.tick_face(Face::Old, moments, answer)?;
        self.tick_face(Face::New, moments, answer)
    }

    /// A face's sessions tick, and what is ready there goes.
    fn tick_face(
        &mut self,
        face: Face,
        moments: Moments,
        answer: &mut PeerAnswer,
    ) -> Result<(), AllocError>
        requires whole { IsWhole self.old }
        requires moments { AreMoments moments }
        ensures { OnOk result (Did self.old self.new answer.old answer.new
            (ticks_face (setup_in self.old) (moments_of moments) face (gate_of self.old))) }
    {
        self.tick_sessions(face, moments, answer)?;
        self.due(face, moments, answer)
    }

    /// A face's sessions tick.
    fn tick_sessions(
        &mut self,
        face: Face,
        moments: Moments,
        answer: &mut PeerAnswer,
    ) -> Result<(), AllocError>
        requires whole { IsWhole self.old }
        requires moments { AreMoments moments }
        ensures { OnOk result (Did self.old self.new answer.old answer.new (does_at (setup_in self.old) face (gate_of self.old)
            (ticks (at_face (setup_in self.old).keys face) (at_face (gate_of self.old).faces face).sessions ((moments_of moments).at face)))) }
    {
        match face {
            Face::Old => self.old_face.tick(moments.old.at, answer),
            Face::New => self.new_face.tick(moments.new.at, answer),
        }
    }

    // ---- a piece of an earlier run

    /// A piece that a journal kept is added, where there is room for it.
    pub fn add_kept(
        &mut self,
        face: Face,
        octets: Octets,
        came: Option<u64>,
        moments: Moments,
        answer: &mut PeerAnswer,
    ) -> Result<(), AllocError>
        requires whole { IsWhole self.old }
        requires moments { AreMoments moments }
        requires some { 0 < length octets }
        ensures { OnOk result (Did self.old self.new answer.old answer.new (adds_kept (setup_in self.old) face
            (kept_piece (setup_in self.old) face octets came (moments_of moments)) (moments_of moments) (gate_of self.old))) }
    {
        are_octets(octets.as_slice());
        let size = stayed_size(self.alloc, self.settings, face, &octets)?;
        let room = self.face(face).room()?;
        if !has_room(room.bounds, room.load, &[size]) {
            return Ok(());
        }
        let piece = Piece {
            octets,
            size,
            came: came.unwrap_or(moments.wall),
            added: moments.of(face).at,
            is_dated: came.is_some(),
        };
        self.add(face, moments, false, piece, answer)
    }

    // ---- outboxes

    /// So many octets wait in each outbox.
    pub fn find_outboxes(&mut self, octets: (u64, u64))
        requires { IsWhole self.old }
        ensures { IsFound self.old self.new octets }
    {
        self.old_face.queued = octets.0;
        self.new_face.queued = octets.1;
    }
}
