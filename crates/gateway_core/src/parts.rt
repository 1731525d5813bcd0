//! What a gateway keeps, and what it does about what comes.

ghost use Rattle.std.specs.Prelude.{◌≡◌, ◌<◌, ◌^◌, [], false, length, IfOk, OnOk, OnErr, Ok};
ghost use Rattle.std.specs.List.{All};
ghost use Rattle.ltp_segment.specs.PolicyViews.{policy_value};
ghost use Rattle.ltp_segment.specs.Reading.{segment_of};
ghost use Rattle.ltp_engine.specs.Steps.{is_due_at};
ghost use Rattle.gate_cases.specs.Promises.{IsBlock, IsAskable, AreAskable};
ghost use Rattle.gate_cases.specs.Faces.{other_of};
ghost use Rattle.gateway_core.specs.Gate.{hears_at, sends_at, in_turn, case_note};
ghost use Rattle.gateway_core.specs.Gate.{reports_at, answers_at, decides_at, passes_at, arrives_at};
ghost use Rattle.gateway_core.specs.Gate.{ticks_gate, starts_gate};
ghost use Rattle.gateway_core.specs.Shows.{ShowsGate};
ghost use Rattle.gateway_core.specs.Effects.{nothing_routed};
ghost use Rattle.gateway_core.specs.Quiet.{IsNeverQuietAt};
ghost use Rattle.gateway_core.specs.Ties.{IsUnrefused};
ghost use Rattle.gateway_core.specs.Config.{IsGateConfig};
ghost use Rattle.gateway_core.specs.Values.{new_gateway, gate_deadline};

use crate::config::GateConfig;
use crate::effects::GateEffects;
use crate::note::GateNote;
use endpoint::{Endpoint, Octets};
use gate_cases::{AskedReport, Face, GateCase, Judged, Room, judge};
use ltp_engine::{Effects, Engine, SubmitRefused, Up};
use std::alloc::{AllocError, Global};

/// The numbers of the path's engines: the old node, the gateway's two faces, the new node.
const OLD_NODE: u64 = 1;

const OLD_FACE: u64 = 2;

const NEW_FACE: u64 = 3;

const NEW_NODE: u64 = 4;

/// The number of an engine's first session.
const FIRST_SESSION: u64 = 1;

/// The most sessions that a face sends at once.
const MOST: usize = 64;

/// No session and no report has this number or a larger one.
const NUMBERS: u64 = 1 << 32;

/// A report isn't made in the first second of the year 2000, in ms: its bundle would have no clock.
const FIRST_MOMENT: u64 = 1000;

/// What a gateway keeps.
#[derive(Debug, Drop)]
pub(crate) struct Parts {
    pub alloc: Global,
    old_face: Engine,
    new_face: Engine,
    /// The gateway's own name.
    gate: Endpoint,
    /// The most octets of payload that a piece has.
    cut: u64,
    /// How many reports were made.
    counter: u64,
}

impl Parts {
    ghost use Rattle.gateway_core.specs.Ties.{IsWhole, Did, DidAt, HasRoom, TakesRoom, SentAt};
    ghost use Rattle.gateway_core.specs.Ties.{live, setup_in, engine_at, up_values, room_in};
    ghost use Rattle.gateway_core.specs.Ties.{cannot_report};

    /// A gateway at its beginning.
    pub fn new(alloc: Global, config: GateConfig) -> Parts
        requires legal { IsGateConfig config.gate config.cut }
        ensures whole { IsWhole result }
        ensures shows { ShowsGate (live result) (starts_gate (setup_in result)) }
        ensures value { live result
            ≡ new_gateway config.gate (policy_value config.policy) config.cut }
    {
        let GateConfig { gate, policy, cut } = config;
        Parts {
            alloc,
            old_face: Engine::new(alloc, OLD_FACE, OLD_NODE, FIRST_SESSION, policy),
            new_face: Engine::new(alloc, NEW_FACE, NEW_NODE, FIRST_SESSION, policy),
            gate,
            cut,
            counter: 0,
        }
    }

    /// A datagram comes at a face, and each block that is handed up goes on, or not.
    pub fn arrive(
        &mut self,
        face: Face,
        datagram: &[u8],
        now: u64,
    ) -> Result<GateEffects, AllocError>
        requires whole { IsWhole self.old }
        requires moment { now < 2 ^ 62 }
        ensures did { IfOk result (Did self.old self.new
            (arrives_at (setup_in self.old) face (segment_of datagram.now) now)) }
        ensures wanted { OnErr result (IsNeverQuietAt (live self.old) face
            (λ g. hears_at (setup_in self.old) face g (segment_of datagram.now) now)) }
    {
        let told = self.hear(face, datagram, now)?;
        let passed = self.pass_all(face, told.ups.as_slice(), now)?;
        let heard = GateEffects::at(self.alloc, face, told)?;
        heard.followed_by(passed)
    }

    /// Time has passed: the old face's sessions tick, then the new face's.
    pub fn tick(&mut self, now: u64) -> Result<GateEffects, AllocError>
        requires whole { IsWhole self.old }
        requires moment { now < 2 ^ 62 }
        ensures { IfOk result (Did self.old self.new (ticks_gate (setup_in self.old) now)) }
    {
        let old = self.old_face.tick(now)?;
        let new = self.new_face.tick(now)?;
        let first = GateEffects::at(self.alloc, Face::Old, old)?;
        let second = GateEffects::at(self.alloc, Face::New, new)?;
        first.followed_by(second)
    }

    /// When a timer of either face is due next.
    pub fn next_deadline(&self) -> Option<u64>
        requires { IsWhole self.now }
        ensures { result ≡ gate_deadline (live self.now) }
    {
        let old = self.old_face.next_deadline();
        let new = self.new_face.next_deadline();
        match (old, new) {
            (None, _) => new,
            (Some(first), None) => Some(first),
            (Some(first), Some(second)) => Some(first.min(second)),
        }
    }

    /// Whether a timer is due.
    pub fn is_due(&self, now: u64) -> bool
        requires { IsWhole self.now }
        ensures { result ≡ is_due_at now (gate_deadline (live self.now)) }
    {
        match self.next_deadline() {
            Some(deadline) => deadline <= now,
            None => false,
        }
    }

    /// The engine of a face is told a datagram.
    fn hear(&mut self, face: Face, datagram: &[u8], now: u64) -> Result<Effects, AllocError>
        requires whole { IsWhole self.old }
        requires moment { now < 2 ^ 62 }
        ensures did { IfOk result (DidAt self.old self.new face
            (λ g. hears_at (setup_in self.old) face g (segment_of datagram.now) now)) }
        ensures wanted { OnErr result (IsNeverQuietAt (live self.old) face
            (λ g. hears_at (setup_in self.old) face g (segment_of datagram.now) now)) }
    {
        match face {
            Face::Old => self.old_face.arrive(datagram, now),
            Face::New => self.new_face.arrive(datagram, now),
        }
    }

    /// Blocks that came whole at a face go on, or not, one after the other. Memory is wanted only
    /// where there are any.
    fn pass_all(&mut self, face: Face, ups: &[Up], now: u64) -> Result<GateEffects, AllocError>
        requires whole { IsWhole self.old }
        requires moment { now < 2 ^ 62 }
        ensures did { IfOk result (Did self.old self.new
            (in_turn (passes_at (setup_in self.old) face now) (up_values ups.now))) }
        ensures wanted { OnErr result (ups.now ≡ [] → ⊥) }
    {
        let mut passed = GateEffects::none(self.alloc);
        'passing: for up in ups {
            let more = self.pass(face, up.session, up.body.as_slice(), now)?;
            passed = passed.followed_by(more)?;
        }
        Ok(passed)
    }

    /// A block came whole at a face: it is judged by the room at the other face.
    fn pass(
        &mut self,
        face: Face,
        session: u64,
        block: &[u8],
        now: u64,
    ) -> Result<GateEffects, AllocError>
        requires whole { IsWhole self.old }
        requires moment { now < 2 ^ 62 }
        ensures { IfOk result (Did self.old self.new
            (passes_at (setup_in self.old) face now (record { session = session; body = block.now }))) }
    {
        let room = self.room(face.other());
        let judged = judge(self.alloc, face, block, now, self.cut, room)?;
        self.decide(face, session, judged, now)
    }

    /// Nothing is done. It takes no memory.
    pub fn nothing(&self) -> GateEffects
        ensures { result ≡ nothing_routed }
    {
        GateEffects::none(self.alloc)
    }

    /// It is decided about a block: the pieces go on at the other face, the case is noted, and then
    /// the report is sent that is asked for.
    fn decide(
        &mut self,
        face: Face,
        session: u64,
        judged: Judged,
        now: u64,
    ) -> Result<GateEffects, AllocError>
        requires whole { IsWhole self.old }
        requires moment { now < 2 ^ 62 }
        requires blocks { All IsBlock judged.pieces }
        requires room { HasRoom (engine_at self.old (other_of face)) (length judged.pieces) }
        requires askable { AreAskable judged.report }
        ensures { IfOk result (Did self.old self.new
            (decides_at (setup_in self.old) face now session judged)) }
    {
        let Judged {
            case,
            pieces,
            report,
        } = judged;
        let sent = self.send_all(face.other(), pieces.as_slice(), now)?;
        let note = case_note(session, pieces.len() as u64, case);
        let noted = GateEffects::noted(self.alloc, face, note);
        let answered = self.answer(face, session, report, now)?;
        let after = noted.followed_by(answered)?;
        sent.followed_by(after)
    }

    /// A report that is asked for is sent, or noted as one that isn't.
    fn answer(
        &mut self,
        face: Face,
        session: u64,
        report: Option<AskedReport>,
        now: u64,
    ) -> Result<GateEffects, AllocError>
        requires whole { IsWhole self.old }
        requires moment { now < 2 ^ 62 }
        requires askable { AreAskable report }
        ensures { IfOk result (Did self.old self.new
            (answers_at (setup_in self.old) face now session report)) }
    {
        let Some(asked) = report else {
            return Ok(GateEffects::none(self.alloc));
        };
        if self.cannot_report(face, now) {
            let note = GateNote::Unreported { session };
            return Ok(GateEffects::noted(self.alloc, face, note));
        }
        self.report(face, session, &asked, now)
    }

    /// A report is sent with the counter's number, and the counter rises.
    fn report(
        &mut self,
        face: Face,
        session: u64,
        asked: &AskedReport,
        now: u64,
    ) -> Result<GateEffects, AllocError>
        requires whole { IsWhole self.old }
        requires moment { now < 2 ^ 62 }
        requires askable { IsAskable asked.now }
        requires can { cannot_report face now (live self.old) ≡ false }
        ensures { IfOk result (Did self.old self.new
            (reports_at (setup_in self.old) face now session asked.now)) }
    {
        let block = asked.spell(self.alloc, &self.gate, self.counter, now)?;
        self.counter += 1;
        let sent = self.send(face, block.as_slice(), now)?;
        let note = GateNote::Reported { session };
        let noted = GateEffects::noted(self.alloc, face, note);
        sent.followed_by(noted)
    }

    /// Whether no report can be sent at a face.
    fn cannot_report(&self, face: Face, now: u64) -> bool
        requires { IsWhole self.now }
        ensures { result ≡ cannot_report face now (live self.now) }
    {
        let room = self.room(face);
        room.sending >= MOST
            || room.next_session >= NUMBERS
            || now < FIRST_MOMENT
            || self.counter >= NUMBERS
    }

    /// What room a face has for sessions that it sends.
    fn room(&self, face: Face) -> Room
        requires { IsWhole self.now }
        ensures { result ≡ room_in (engine_at self.now face) }
    {
        let engine = match face {
            Face::Old => &self.old_face,
            Face::New => &self.new_face,
        };
        Room {
            sending: engine.sending(),
            next_session: engine.next_session(),
        }
    }

    /// Blocks are sent at a face, all red, in their order.
    fn send_all(
        &mut self,
        face: Face,
        blocks: &[Octets],
        now: u64,
    ) -> Result<GateEffects, AllocError>
        requires whole { IsWhole self.old }
        requires moment { now < 2 ^ 62 }
        requires blocks { All IsBlock blocks.now }
        requires room { HasRoom (engine_at self.old face) (length blocks.now) }
        ensures { IfOk result (Did self.old self.new
            (in_turn (sends_at (setup_in self.old) face now) blocks.now)) }
    {
        let mut sent = GateEffects::none(self.alloc);
        'sending: for block in blocks {
            let more = self.send(face, block.as_slice(), now)?;
            sent = sent.followed_by(more)?;
        }
        Ok(sent)
    }

    /// A block is sent at a face, all red.
    fn send(&mut self, face: Face, block: &[u8], now: u64) -> Result<GateEffects, AllocError>
        requires whole { IsWhole self.old }
        requires moment { now < 2 ^ 62 }
        requires block { IsBlock block.now }
        requires room { HasRoom (engine_at self.old face) 1 }
        ensures done { IfOk result (Did self.old self.new
            (sends_at (setup_in self.old) face now block.now)) }
        // It takes the room of one session.
        ensures takes { OnOk result (TakesRoom (engine_at self.old face) (engine_at self.new face)) }
    {
        let told = self.submit(face, block, now)?;
        GateEffects::at(self.alloc, face, told)
    }

    /// The engine of a face is told a block that it can't refuse, all red.
    fn submit(&mut self, face: Face, block: &[u8], now: u64) -> Result<Effects, AllocError>
        requires whole { IsWhole self.old }
        requires moment { now < 2 ^ 62 }
        requires block { IsBlock block.now }
        requires room { HasRoom (engine_at self.old face) 1 }
        ensures done { IfOk result (SentAt self.old self.new face block.now now) }
        ensures takes { OnOk result (TakesRoom (engine_at self.old face) (engine_at self.new face)) }
    {
        let red = block.len() as u64;
        match face {
            Face::Old => told_of(self.old_face.submit(block, red, now)),
            Face::New => told_of(self.new_face.submit(block, red, now)),
        }
    }
}

/// What an engine does about a block that it doesn't refuse.
fn told_of(submitted: Result<Effects, SubmitRefused>) -> Result<Effects, AllocError>
    requires { IsUnrefused submitted }
    ensures { IfOk result (λ told. submitted ≡ Ok told) }
{
    match submitted {
        Ok(told) => Ok(told),
        Err(SubmitRefused::Memory) => Err(AllocError),
        Err(
            SubmitRefused::Empty
            | SubmitRefused::TooLarge
            | SubmitRefused::NumbersSpent
            | SubmitRefused::Busy,
        ) => unreachable!(),
    }
}

/// The note of a case, about the session in which the block came.
fn case_note(session: u64, pieces: u64, case: GateCase) -> GateNote
    ensures { result ≡ case_note session pieces case }
{
    match case {
        GateCase::BadBundle { at, cause } => GateNote::BadBundle { session, at, cause },
        GateCase::Untranslated { cause } => GateNote::Untranslated { session, cause },
        GateCase::Expired => GateNote::Expired { session },
        GateCase::HopLimit => GateNote::HopLimit { session },
        GateCase::Storage => GateNote::Storage { session },
        GateCase::Passed => GateNote::Passed { session, pieces },
    }
}
