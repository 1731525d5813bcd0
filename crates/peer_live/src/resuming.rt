//! Pieces that wait of earlier runs are added.

ghost use Rattle.std.specs.Prelude.{◌≡◌, None, IfOk, IfSome, OnErr, OnOk, map};
ghost use Rattle.gate_log.specs.Lines.{IsNamed};
ghost use Rattle.gate_log.specs.Subjects.{IsSubject};
ghost use Rattle.peer_gateway.specs.Answers.{added_seen};
ghost use Rattle.peer_gateway.specs.Steps.{next_if};
ghost use Rattle.peer_half.specs.Standing.{Standing};
ghost use Rattle.peer_half.specs.Parts as parts;
ghost use Rattle.peer_parts.specs.Quiet.{NothingKept};
ghost use Rattle.peer_live.specs.Telling.{added_event};

use crate::recording;
use crate::work::Work;
use gate_cases::Face;
use gate_log::{BundleEvent, Event, Subject, subject_of};
use journal_file::Pending;
use peer_gateway::Added;
use std::alloc::AllocError;

impl Work {
    ghost use Rattle.peer_live.specs.Shows.{Does, IsWhole, ShowsWork, added_if, resumes_one, tries_one};

    /// Pieces of earlier runs that wait are added, as long as there is room for them. Memory is wanted only where
    /// one is still to be added.
    pub fn resume(&mut self) -> Result<(), AllocError>
        requires { IsWhole self.old }
        ensures after { OnOk result (Does self.old self.new parts.resumes) }
        ensures wanted { OnErr result ((s : Standing) → ShowsWork self.old s → NothingKept s → ⊥) }
    {
        self.resume_if(Face::Old)?;
        self.resume_if(Face::New)
    }

    /// Those that wait at a face are added, if there are some.
    fn resume_if(&mut self, face: Face) -> Result<(), AllocError>
        requires { IsWhole self.old }
        ensures after { OnOk result (Does self.old self.new (parts.resumes_at face)) }
        ensures wanted { OnErr result (parts.first_waiting face (self.old).journal ≡ None → ⊥) }
    {
        if recording::has_kept(&self.journal, face) {
            self.resume_at(face)
        } else {
            Ok(())
        }
    }

    /// Those that wait at a face are added, one after the other.
    fn resume_at(&mut self, face: Face) -> Result<(), AllocError>
        requires { IsWhole self.old }
        ensures { OnOk result (Does self.old self.new (parts.resumes_at face)) }
    {
        let mut left = recording::pending(&self.journal);
        'resuming: while left > 0 {
            if !self.resume_one(face)? {
                return Ok(());
            }
            left -= 1;
        }
        Ok(())
    }

    /// The first piece that is still to be added at a face is, where there is room for it. Whether one was.
    fn resume_one(&mut self, face: Face) -> Result<bool, AllocError>
        requires { IsWhole self.old }
        ensures went { IfOk result (λ went. (s : Standing)
            → ShowsWork self.old s → went ≡ added_if s (parts.next_resumed face s)) }
        ensures does { OnOk result (Does self.old self.new (resumes_one face)) }
    {
        let Some(pending) = recording::next_kept(self.alloc, &self.journal, face)? else {
            return Ok(false);
        };
        self.try_one(pending)
    }

    /// A piece is to be added. Whether it was.
    fn try_one(&mut self, pending: Pending) -> Result<bool, AllocError>
        requires { IsWhole self.old }
        ensures went { IfOk result (λ went. (s : Standing)
            → ShowsWork self.old s → went ≡ parts.is_added pending s) }
        ensures does { OnOk result (Does self.old self.new (tries_one pending)) }
    {
        let Pending {
            id,
            face,
            came,
            block,
        } = pending;
        if block.len() == 0 {
            return Err(AllocError);
        }
        let session = self.next_if(face)?;
        let event = added_event(face, subject_of(self.alloc, block.as_slice())?, session);
        let octets = self.kept.octets();
        let answer = self.gate.add_kept(face, block, came, self.moments, octets)?;
        let added = is_any(answer.added());
        self.settle(Some(id), answer)?;
        self.kept.say_if(added, &event)?;
        Ok(added)
    }

    /// The session that a piece will have which is added next at a face, where each has one of its own.
    fn next_if(&self, face: Face) -> Result<Option<u64>, AllocError>
        requires { IsWhole self.now }
        ensures { IfOk result (λ next. next
            ≡ next_if ((self.now).gate).setup face ((self.now).gate).gate) }
    {
        if self.gate.gathers(face) {
            return Ok(None);
        }
        let next = self.gate.next_session(face);
        match next.checked_add(self.gate.waiting(face) as u64) {
            Some(session) => Ok(Some(session)),
            None => Err(AllocError),
        }
    }
}

/// Whether a piece was added.
fn is_any(added: &[Added]) -> bool
    ensures { result ≡ parts.any_added (map added_seen added.now) }
{
    !added.is_empty()
}

/// What is told of a piece that is added: the session in which it goes, or that it waits for others.
fn added_event(face: Face, subject: Option<Subject>, session: Option<u64>) -> Event
    requires { IfSome subject IsSubject }
    ensures event { result ≡ added_event face subject session }
    ensures named { IsNamed result }
{
    match session {
        Some(session) => Event::Bundle {
            face,
            session,
            subject,
            what: BundleEvent::Resumed,
        },
        None => Event::Waiting { face, subject },
    }
}
