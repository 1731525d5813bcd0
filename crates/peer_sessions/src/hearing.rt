//! What a face's sessions do about a datagram, once time has passed.

ghost use Rattle.std.specs.Prelude.{◌≡◌, ◌+◌, ◌<◌, ◌≤◌, ◌^◌, ◌==◌, ◌&&◌, nat_lt, length, Ok, None, IfOk, OnOk, true, false};
ghost use Rattle.ltp_segment.specs.declared.session.Note.TheVariants as notes;
ghost use Rattle.ltp_segment.specs.Reading.{seen};
ghost use Rattle.ltp_segment.specs.Views.{content_value, segment_value};
ghost use Rattle.ltp_engine.specs.Effects.{effects_of, only_noted};
ghost use Rattle.ltp_engine.specs.Sides.{IsFit};
ghost use Rattle.ltp_engine.specs.Sessions.{cells_in, is_receiving};
ghost use Rattle.peer_sessions.specs.Contents.{touches};
ghost use Rattle.peer_sessions.specs.Blocks.{over_of};
ghost use Rattle.session_memory.specs.Numbers.{runs_in};
ghost use Rattle.session_memory.specs.Memory.{touched, forgotten_at};
ghost use Rattle.session_memory.specs.Memory.{is_remembered};
ghost use Rattle.peer_sessions.specs.Sessions.{is_of_peer, met};

use crate::blocks::Event;
use crate::contents::{may_open, red_octets, touches};
use crate::notes::{noted, then_evicted};
use crate::parts::Parts;
use ltp_engine::Effects;
use ltp_segment::{Content, Note, Segment, SegmentFault};
use std::alloc::AllocError;

/// What a face's sessions did about a datagram.
#[derive(Debug, Drop)]
pub(crate) struct Heard {
    /// How many runs were forgotten before their time.
    pub forgotten: Option<u64>,
    /// What the engine did.
    pub effects: Effects,
}

impl Parts {
    ghost use Rattle.peer_sessions.specs.Ties.{state_of, keys_in, IsWhole, AreAfter};
    ghost use Rattle.peer_sessions.specs.Hearing.{Hears, HearsAll, Reaches};

    /// A datagram comes: a segment, or refused.
    pub fn hear(
        &mut self,
        read: Result<Segment<'_>, SegmentFault>,
        now: u64,
    ) -> Result<Heard, AllocError>
        requires whole { IsWhole self.old }
        requires fit { IfOk read (λ segment. IsFit (content_value segment.content)) }
        requires moment { now < 2 ^ 62 }
        ensures { IfOk result (HearsAll self.old self.new (seen read.entry) now) }
    {
        let heard = self.answer(read, now)?;
        let trimmed = self.trim()?;
        let Heard { forgotten, effects } = heard;
        Ok(Heard {
            forgotten,
            effects: then_evicted(effects, trimmed.as_slice())?,
        })
    }

    /// What is done about it before sessions are closed for want of memory.
    fn answer(
        &mut self,
        read: Result<Segment<'_>, SegmentFault>,
        now: u64,
    ) -> Result<Heard, AllocError>
        requires whole { IsWhole self.old }
        requires fit { IfOk read (λ segment. IsFit (content_value segment.content)) }
        requires moment { now < 2 ^ 62 }
        ensures { IfOk result (Hears self.old self.new (seen read.entry) now) }
    {
        match read {
            Ok(segment) => self.hear_segment(segment, now),
            Err(fault) => self.refuse(fault),
        }
    }

    /// A datagram is refused.
    fn refuse(&self, fault: SegmentFault) -> Result<Heard, AllocError>
        ensures forgotten { IfOk result (λ heard. heard.forgotten ≡ None) }
        ensures effects { IfOk result (λ heard. heard.effects
            ≡ only_noted (notes.BadSegment fault.at fault.cause)) }
    {
        let note = Note::BadSegment {
            at: fault.at,
            cause: fault.cause,
        };
        Ok(Heard {
            forgotten: None,
            effects: noted(self.alloc, note)?,
        })
    }

    /// A segment comes.
    fn hear_segment(&mut self, segment: Segment<'_>, now: u64) -> Result<Heard, AllocError>
        requires whole { IsWhole self.old }
        requires fit { IsFit (content_value segment.content) }
        requires moment { now < 2 ^ 62 }
        ensures { IfOk result (Hears self.old self.new (Ok (segment_value segment.entry)) now) }
    {
        if self.meets(&segment) {
            return self.hear_met(segment, now);
        }
        self.reach_as_is(segment, now)
    }

    /// A red piece comes of a session that isn't kept. Where that is over it is only noted; else the session
    /// opens.
    fn hear_met(&mut self, segment: Segment<'_>, now: u64) -> Result<Heard, AllocError>
        requires whole { IsWhole self.old }
        requires fit { IsFit (content_value segment.content) }
        requires moment { now < 2 ^ 62 }
        requires met { met (keys_in self.old) (state_of self.old) (segment_value segment) ≡ true }
        ensures { IfOk result (Hears self.old self.new (Ok (segment_value segment.entry)) now) }
    {
        if self.memory.has(segment.session) {
            let heard = self.touch(segment.session, now)?;
            return Ok(heard);
        }
        self.reach_placed(segment, now)
    }

    /// Whether the peer began a segment's session.
    fn is_of_peer(&self, originator: u64) -> bool
        ensures { result ≡ is_of_peer (keys_in self.now) originator }
    {
        originator == self.keys.peer && originator != self.keys.own
    }

    /// Whether it is a red piece of a session of the peer that isn't kept, and may open it.
    fn meets(&self, segment: &Segment<'_>) -> bool
        requires whole { IsWhole self.now }
        requires fit { IsFit (content_value segment.now.content) }
        ensures { result ≡ met (keys_in self.now) (state_of self.now) (segment_value segment.now) }
    {
        self.is_of_peer(segment.originator)
            && (!self.engine.is_receiving(segment.session) && may_open(&segment.content))
    }

    /// A red piece comes of a session that is over.
    fn touch(&mut self, n: u64, now: u64) -> Result<Heard, AllocError>
        requires whole { IsWhole self.old }
        ensures forgotten { IfOk result (λ heard. heard.forgotten
            ≡ forgotten_at self.old.memory n (length self.old.engine.inbound.receivers)) }
        ensures effects { IfOk result (λ heard. heard.effects ≡ only_noted (notes.Closed n)) }
        ensures after { OnOk result (AreAfter self.old self.new (record (state_of self.old) {
          memory = touched n now (length self.old.engine.inbound.receivers) self.old.memory;
        })) }
    {
        let receiving = self.engine.receiving() as u64;
        let forgotten = self.memory.touch(n, now, receiving)?;
        Ok(Heard {
            forgotten,
            effects: noted(self.alloc, Note::Closed { session: n })?,
        })
    }

    /// A segment comes that opens no session.
    fn reach_as_is(&mut self, segment: Segment<'_>, now: u64) -> Result<Heard, AllocError>
        requires whole { IsWhole self.old }
        requires fit { IsFit (content_value segment.content) }
        requires moment { now < 2 ^ 62 }
        requires none { met (keys_in self.old) (state_of self.old) (segment_value segment) ≡ false }
        ensures { IfOk result (Hears self.old self.new (Ok (segment_value segment.entry)) now) }
    {
        Ok(Heard {
            forgotten: None,
            effects: self.reach(segment, now)?,
        })
    }

    /// A segment comes that opens a session: a place is made for its number.
    fn reach_placed(&mut self, segment: Segment<'_>, now: u64) -> Result<Heard, AllocError>
        requires whole { IsWhole self.old }
        requires fit { IsFit (content_value segment.content) }
        requires moment { now < 2 ^ 62 }
        requires met { met (keys_in self.old) (state_of self.old) (segment_value segment) ≡ true }
        requires new { is_remembered self.old.memory segment.session ≡ false }
        ensures { IfOk result (Hears self.old self.new (Ok (segment_value segment.entry)) now) }
    {
        let receiving = self.engine.receiving() as u64;
        let forgotten = self.memory.make_place(now, receiving);
        Ok(Heard {
            forgotten,
            effects: self.reach(segment, now)?,
        })
    }

    /// A segment goes to the engine. Where it may open a session there is a place for its number.
    fn reach(&mut self, segment: Segment<'_>, now: u64) -> Result<Effects, AllocError>
        requires whole { IsWhole self.old }
        requires fit { IsFit (content_value segment.content) }
        requires moment { now < 2 ^ 62 }
        requires place { met (keys_in self.old) (state_of self.old) (segment_value segment) ≡ true
            → runs_in self.old.memory.newer + length self.old.engine.inbound.receivers
            < self.old.memory.most }
        ensures { IfOk result (Reaches self.old self.new (segment_value segment.entry) now) }
    {
        let n = segment.session;
        let content = segment.content;
        let by_peer = self.is_of_peer(segment.originator);
        let own = segment.originator == self.keys.own;
        let before = self.engine.sending();
        let effects = self.engine.hear(segment, now)?;
        let event = Event::Heard(self.over(n, before));
        self.blocks.follow_if(own, self.alloc, &self.engine, event, &self.keys.policy, now)?;
        self.at_most = self.at_most_with(red_octets(&content));
        let touched = self.is_touched(by_peer, n, &content, effects.notes.as_slice());
        self.moments.touch_if(n, now, touched)?;
        self.settle()?;
        Ok(effects)
    }

    /// The session with this number, where fewer are being sent than before.
    fn over(&self, n: u64, before: usize) -> Option<u64>
        requires { self.now.engine.spent ≡ false }
        ensures { result ≡ over_of (nat_lt (length self.now.engine.senders) before) n }
    {
        if self.engine.sending() < before {
            Some(n)
        } else {
            None
        }
    }

    /// Whether a segment touched its session, once the engine has heard it and noted this.
    fn is_touched(&self, by_peer: bool, n: u64, content: &Content<'_>, notes: &[Note]) -> bool
        requires { self.now.engine.spent ≡ false }
        ensures { result ≡ ((by_peer && is_receiving n self.now.engine.inbound.receivers)
            && touches (content_value content.now) notes.now) }
    {
        by_peer && self.engine.is_receiving(n) && touches(content, notes)
    }

    /// As many octets as there are at most, where so many came.
    fn at_most_with(&self, octets: u64) -> u64
        requires { self.now.engine.spent ≡ false }
        ensures { cells_in self.now.engine.inbound.receivers ≤ self.now.at_most + octets
            → cells_in self.now.engine.inbound.receivers ≤ result }
    {
        match self.at_most.checked_add(octets) {
            Some(sum) => sum,
            None => self.engine.octets(),
        }
    }
}
