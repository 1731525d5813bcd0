//! Both faces.

ghost use Rattle.std.specs.Prelude.{◌≡◌, [], true, map, IfOk, OnErr, OnOk};
ghost use Rattle.gateway_core.specs.Gate.{at_face, with_face};
ghost use Rattle.gate_face.specs.Faces.{starts_face};
ghost use Rattle.gate_face.specs.Halves.{losing, taking};
ghost use Rattle.gate_face.specs.Schedules.{HasPlan};
ghost use Rattle.outbox.specs.Outbox.{next_of};
ghost use Rattle.peer_gateway.specs.Answers.{put_seen, routed_seen};
ghost use Rattle.peer_half.specs.Steps.{putting_all, putting_if};

use endpoint::Octets;
use gate_cases::Face;
use gate_config::FaceConfig;
use gate_face::FaceRun;
use peer_gateway::Outgoing;
use std::alloc::{AllocError, Global};
use std::marker::Model;

/// Both faces of a run.
#[derive(Debug, Drop)]
pub(crate) struct Faces {
    pub old_face: FaceRun,
    pub new_face: FaceRun,
}

impl Model for Faces {
    ghost use Rattle.gate_face.specs.Faces.{FaceStanding};

    ghost Value = { FaceStanding × FaceStanding };

    ghost view = { λ f. (f.old_face, f.new_face) };
}

impl Faces {
    ghost use Rattle.peer_live.specs.Telling.{outboxes_of};

    /// Faces at which nothing happened yet.
    pub fn new(alloc: Global, old: &FaceConfig, new: &FaceConfig) -> Result<Faces, AllocError>
        requires old { HasPlan old.now }
        requires new { HasPlan new.now }
        ensures { IfOk result (λ faces. faces ≡ (starts_face old.now, starts_face new.now)) }
    {
        let old_face = FaceRun::new(alloc, old)?;
        let new_face = FaceRun::new(alloc, new)?;
        Ok(Faces { old_face, new_face })
    }

    /// A face, lent.
    pub fn at(&self, face: Face) -> &FaceRun
        ensures { result.now ≡ at_face self.now face }
    {
        match face {
            Face::Old => &self.old_face,
            Face::New => &self.new_face,
        }
    }

    /// How many octets wait in the outbox of each face. It walks through nothing.
    pub fn octets(&self) -> (u64, u64)
        ensures { result ≡ outboxes_of self.now }
    {
        let old = self.old_face.outbox().octets();
        let new = self.new_face.outbox().octets();
        (old, new)
    }

    /// Takes out the datagram that goes next at a face, if one may go. It takes no memory.
    pub fn next(&mut self, face: Face) -> Option<Octets>
        ensures next { result ≡ next_of (at_face self.old face).outbox }
        ensures after { self.new ≡ with_face self.old face (taking (at_face self.old face)) }
    {
        match face {
            Face::Old => self.old_face.next(),
            Face::New => self.new_face.next(),
        }
    }

    /// The send of a datagram failed at a face.
    pub fn lose(&mut self, face: Face)
        ensures { self.new ≡ with_face self.old face (losing (at_face self.old face)) }
    {
        match face {
            Face::Old => self.old_face.lose(),
            Face::New => self.new_face.lose(),
        }
    }

    /// Datagrams were made: each is put into the outbox of its face, or dropped, as it says. Memory is wanted
    /// only where there are some.
    #[tactic(auto, unfolding(peer_half::specs::Steps::putting_all))]
    pub fn put_all(&mut self, out: Vec<Outgoing>) -> Result<(), AllocError>
        ensures after { OnOk result (self.new
            ≡ putting_all (map put_seen out.items) (map routed_seen out.items) self.old) }
        ensures wanted { OnErr result (out.items ≡ [] → ⊥) }
    {
        'putting: for outgoing in out {
            let Outgoing {
                face,
                datagram,
                is_put,
            } = outgoing;
            self.put(face, is_put, datagram)?;
        }
        Ok(())
    }

    /// A datagram is put into the outbox of a face, or dropped. Memory is wanted only where it is put.
    fn put(&mut self, face: Face, is_put: bool, datagram: Octets) -> Result<(), AllocError>
        ensures after { OnOk result (self.new ≡ with_face self.old face
            (putting_if is_put datagram (at_face self.old face))) }
        ensures wanted { OnErr result (is_put ≡ true) }
    {
        match face {
            Face::Old => put_if(&mut self.old_face, is_put, datagram),
            Face::New => put_if(&mut self.new_face, is_put, datagram),
        }
    }
}

/// A datagram is put into the outbox of a face; or it is dropped and counted, as one for which the outbox has
/// no room. Memory is wanted only where it is put.
fn put_if(face: &mut FaceRun, is_put: bool, datagram: Octets) -> Result<(), AllocError>
    ensures after { OnOk result (face.new ≡ putting_if is_put datagram face.old) }
    ensures wanted { OnErr result (is_put ≡ true) }
{
    if is_put {
        face.put(datagram)
    } else {
        face.refuse();
        Ok(())
    }
}
