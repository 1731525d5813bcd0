//! What a gateway at work keeps besides its gate.

ghost use Rattle.std.specs.Prelude.{◌≡◌, ◌<◌, ◌^◌, [], None, false, true, IfOk, OnErr, OnOk};
ghost use Rattle.gate_face.specs.Contacts.{told_at};
ghost use Rattle.gate_face.specs.Faces.{starts_face};
ghost use Rattle.gate_face.specs.Halves.{full_event, lost_event, taking};
ghost use Rattle.gate_face.specs.Schedules.{HasPlan};
ghost use Rattle.gate_log.specs.Lines.{IsNamed};
ghost use Rattle.gate_metrics.specs.Counting.{none_counted};
ghost use Rattle.gateway_core.specs.Gate.{at_face};
ghost use Rattle.outbox.specs.Outbox.{next_of};
ghost use Rattle.peer_events.specs.Named.{AllNamed};
ghost use Rattle.peer_half.specs.Moments.{face_moments};
ghost use Rattle.peer_half.specs.Steps.{opens_in};
ghost use Rattle.peer_live.specs.Telling as spec;

use crate::faces::Faces;
use crate::moments::read_face;
use crate::opened::Opened;
use endpoint::Octets;
use gate_cases::Face;
use gate_config::GateFile;
use gate_events::Log;
use gate_log::{Event, LinkEvent};
use gate_metrics::Counted;
use outbox::Reading;
use peer_events::OwnBlocks;
use peer_gateway::{FaceMoments, PeerAnswer, PeerGateway};
use std::alloc::{AllocError, Global};
use std::marker::Model;

/// The faces, the own sessions, and the log.
#[derive(Debug, Drop)]
pub(crate) struct Kept {
    pub faces: Faces,
    pub own: OwnBlocks,
    pub log: Log,
}

impl Model for Kept {
    ghost use Rattle.peer_live.specs.Telling.{KeptValue};

    ghost Value = { KeptValue };

    ghost view = { λ k. record { faces = k.faces; own = k.own; log = k.log } };
}

impl Kept {
    /// Before the first half, at whose reading the wall clock shows this.
    pub fn new(alloc: Global, file: &GateFile, wall: u64) -> Result<Kept, AllocError>
        requires old { HasPlan (file.now).old }
        requires new { HasPlan (file.now).new }
        ensures { IfOk result (λ kept. kept ≡ record {
          faces = (starts_face (file.now).old, starts_face (file.now).new);
          own = [];
          log = record { at = wall; text = []; counters = none_counted };
        }) }
    {
        let faces = Faces::new(alloc, &file.old, &file.new)?;
        let mut log = Log::new(alloc);
        log.start(wall);
        Ok(Kept {
            faces,
            own: OwnBlocks::new(alloc),
            log,
        })
    }

    /// The clocks are read, and what there is to tell of the contacts is said. Answers the moments of
    /// the faces. Memory is wanted only where there is something to tell.
    pub fn read(&mut self, reading: Reading) -> Result<(FaceMoments, FaceMoments), AllocError>
        requires { reading.wall < 2 ^ 62 }
        ensures old { IfOk result (λ m. m.0 ≡ face_moments reading self.old.faces.0) }
        ensures new { IfOk result (λ m. m.1 ≡ face_moments reading self.old.faces.1) }
        ensures small { IfOk result (λ m. ((m.0).at < 2 ^ 62) × ((m.1).at < 2 ^ 62)) }
        ensures after { OnOk result (self.new ≡ spec.reads reading self.old) }
        ensures wanted { OnErr result (told_at (self.old.faces.0).outbox reading ≡ None
            → told_at (self.old.faces.1).outbox reading ≡ None → ⊥) }
    {
        let (old, of_old) = read_face(&mut self.faces.old_face, reading);
        let (new, of_new) = read_face(&mut self.faces.new_face, reading);
        self.log.start(reading.wall);
        self.say_of(Face::Old, of_old)?;
        self.say_of(Face::New, of_new)?;
        Ok((old, new))
    }

    /// Says an event, and counts it.
    pub fn say(&mut self, event: &Event) -> Result<(), AllocError>
        requires { IsNamed event.now }
        ensures { OnOk result (self.new ≡ spec.says event.now self.old) }
    {
        self.log.say(event)
    }

    /// Says an event where a piece was added that it tells of. Memory is wanted only there.
    pub fn say_if(&mut self, added: bool, event: &Event) -> Result<(), AllocError>
        requires { IsNamed event.now }
        ensures after { OnOk result (self.new ≡ spec.says_if added event.now self.old) }
        ensures wanted { OnErr result (added ≡ true) }
    {
        if added { self.say(event) } else { Ok(()) }
    }

    /// Says an event of a face's link, where there is one. Memory is wanted only there.
    fn say_of(&mut self, face: Face, what: Option<LinkEvent>) -> Result<(), AllocError>
        ensures after { OnOk result (self.new ≡ spec.says_of face what self.old) }
        ensures wanted { OnErr result (what ≡ None → ⊥) }
    {
        match what {
            Some(what) => self.say(&Event::Link { face, what }),
            None => Ok(()),
        }
    }

    /// Counts what no line tells.
    pub fn count(&mut self, face: Face, what: Counted)
        ensures { self.new ≡ spec.counts face what self.old }
    {
        self.log.count(face, what);
    }

    /// How many octets wait in the outbox of each face.
    pub fn octets(&self) -> (u64, u64)
        ensures { result ≡ spec.outboxes_of (self.now).faces }
    {
        self.faces.octets()
    }

    /// What a step of the gateway answered: the sessions that it began are counted, what it tells is said,
    /// and each datagram that it made is put or dropped, as it says.
    pub fn tell(
        &mut self,
        alloc: Global,
        answer: PeerAnswer,
        gate: &PeerGateway,
    ) -> Result<(), AllocError>
        requires whole { gate.now.spent ≡ false }
        requires named { AllNamed answer.told }
        ensures { OnOk result (self.new ≡ spec.tells (opens_in (gate.now).gate) answer self.old) }
    {
        let opened = Opened { gate };
        self.own.tell(alloc, answer.told(), answer.begun(), &opened, &mut self.log)?;
        self.put_all(alloc, answer)
    }

    /// Each datagram that the gateway made is put or dropped, as it says. Memory is wanted only where it made some.
    pub fn put_all(&mut self, alloc: Global, answer: PeerAnswer) -> Result<(), AllocError>
        ensures after { OnOk result (self.new ≡ spec.puts answer self.old) }
        ensures wanted { OnErr result (answer.out ≡ [] → ⊥) }
    {
        let mut answer = answer;
        self.faces.put_all(answer.take_out(alloc))
    }

    /// Takes out the datagram that may go next at a face, if one may.
    pub fn next(&mut self, face: Face) -> Option<Octets>
        ensures next { result ≡ next_of (at_face self.old.faces face).outbox }
        ensures after { self.new ≡ spec.does_at face taking self.old }
    {
        self.faces.next(face)
    }

    /// The send of a datagram failed.
    pub fn lose(&mut self, face: Face)
        ensures { self.new ≡ spec.loses face self.old }
    {
        self.faces.lose(face);
        self.log.count(face, Counted::SendFailed);
    }

    /// Says what went wrong at a face in this half. Memory is wanted only where something did.
    pub fn say_troubles(&mut self, face: Face) -> Result<(), AllocError>
        ensures after { OnOk result (self.new ≡ spec.troubles face self.old) }
        ensures wanted { OnErr result (full_event (at_face self.old.faces face) ≡ None
            → lost_event (at_face self.old.faces face) ≡ None → ⊥) }
    {
        let full = self.faces.at(face).full();
        let lost = self.faces.at(face).lost();
        self.say_of(face, full)?;
        self.say_of(face, lost)
    }
}
