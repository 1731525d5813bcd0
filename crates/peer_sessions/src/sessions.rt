//! The sessions of a face.

ghost use Rattle.std.specs.Prelude.{◌≡◌, ◌<◌, ◌≤◌, ◌^◌, false, true, length, IfOk, OnErr};
ghost use Rattle.ltp_segment.specs.declared.session.TheConstants.{BLOCK_MAX};
ghost use Rattle.ltp_segment.specs.Reading.{seen, segment_of};
ghost use Rattle.ltp_segment.specs.Views.{content_value};
ghost use Rattle.ltp_session.specs.Engine.{next_deadline};
ghost use Rattle.ltp_engine.specs.Sessions.{is_open, is_handed_up};
ghost use Rattle.ltp_engine.specs.Sides.{IsFit};
ghost use Rattle.face_room.specs.Faces.{total};
ghost use Rattle.peer_sessions.specs.Sessions.{starts_sessions, hears, ticks, block_begins, blocks_in};
ghost use Rattle.peer_sessions.specs.Views.{face_keys, AreFit};

use crate::keys::Keys;
use crate::parts::Parts;
use ltp_engine::Effects;
use ltp_segment::{Segment, SegmentFault, decode};
use std::alloc::{AllocError, Global};
use std::marker::Model;

/// What a face's sessions do in answer to an event. What is told of it stands in the order in which it came
/// to be: sessions that were closed, then what was forgotten, then the notes of the effects.
#[derive(Debug, Drop)]
pub struct Told {
    /// The receiving sessions that were closed before anything else, since nothing touched them for as long
    /// as a number is remembered; the longest untouched first.
    pub gone: Vec<u64>,
    /// How many runs of numbers were forgotten before their time, where any were.
    pub forgotten: Option<u64>,
    /// What is to be sent, handed up and noted. Sessions that were closed for want of memory are the last
    /// notes.
    pub effects: Effects,
}

/// The sessions of a face.
///
/// After want of memory the value may only be dropped.
#[derive(Debug, Drop)]
pub struct PeerSessions {
    parts: Parts,
    spent: bool,
}

impl Model for PeerSessions {
    ghost use Rattle.std.specs.Prelude.{◌≡◌, false};
    ghost use Rattle.peer_sessions.specs.Views.{PeerSessionsValue};
    ghost use Rattle.peer_sessions.specs.Ties.{keys_in, state_of, IsWhole};

    ghost Value = { PeerSessionsValue };

    ghost view = { λ s. record {
      spent = s.spent;
      keys = keys_in s.parts;
      sessions = state_of s.parts;
    } };

    ghost invariant = { λ s. s.spent ≡ false → IsWhole s.parts };
}

impl PeerSessions {
    ghost use Rattle.peer_sessions.specs.Ties.{Does, Begins};

    /// A face at its beginning, at a moment, with the sessions of the peer that were acknowledged in an
    /// earlier run: those are remembered for good.
    pub fn new(
        alloc: Global,
        keys: Keys,
        marks: &[u64],
        now: u64,
    ) -> Result<PeerSessions, AllocError>
        requires { AreFit keys }
        ensures { IfOk result (λ s. s ≡ record {
          spent = false;
          keys = face_keys keys;
          sessions = starts_sessions (face_keys keys) now marks.now;
        }) }
    {
        Ok(PeerSessions {
            parts: Parts::new(alloc, keys, marks, now)?,
            spent: false,
        })
    }

    // ---- what a face is asked

    /// The number of the next session that the face begins; 2^32 where none is left. It takes no memory.
    pub fn next_session(&self) -> u64
        ensures { result ≡ self.now.sessions.engine.next }
    {
        self.parts.engine.next_session()
    }

    /// How many sessions are being sent, those that are cancelling counted. It takes no memory.
    pub fn sending(&self) -> u64
        requires { self.now.spent ≡ false }
        ensures { result ≡ length self.now.sessions.engine.senders }
    {
        let _ = self.spent;
        self.parts.engine.sending() as u64
    }

    /// How many sessions are being received, those that are cancelling counted. It takes no memory.
    pub fn receiving(&self) -> u64
        requires { self.now.spent ≡ false }
        ensures { result ≡ length self.now.sessions.engine.receivers }
    {
        let _ = self.spent;
        self.parts.engine.receiving() as u64
    }

    /// Whether a session that the face began is open: it is kept, and isn't cancelling. It takes no memory.
    pub fn is_open(&self, session: u64) -> bool
        requires { self.now.spent ≡ false }
        ensures { result ≡ is_open session self.now.sessions.engine.senders }
    {
        let _ = self.spent;
        self.parts.engine.is_open(session)
    }

    /// Whether a session of the peer is kept, and its red part was handed up. It takes no memory.
    pub fn is_handed_up(&self, session: u64) -> bool
        requires { self.now.spent ≡ false }
        ensures { result ≡ is_handed_up session self.now.sessions.engine.receivers }
    {
        let _ = self.spent;
        self.parts.engine.is_handed_up(session)
    }

    /// How many octets the blocks have that are being sent. It takes no memory.
    pub fn block_octets(&self) -> u64
        requires { self.now.spent ≡ false }
        ensures { result ≡ total (blocks_in self.now.sessions.engine.senders) }
    {
        let _ = self.spent;
        self.parts.block_octets()
    }

    /// The least deadline of all sessions. It takes no memory.
    pub fn next_deadline(&self) -> Option<u64>
        requires { self.now.spent ≡ false }
        ensures { result ≡ next_deadline self.now.sessions.engine }
    {
        let _ = self.spent;
        self.parts.engine.next_deadline()
    }

    // ---- what happens at a face

    /// A datagram comes: what [`PeerSessions::hear`] does about what is read of it.
    pub fn arrive(&mut self, datagram: &[u8], now: u64) -> Result<Told, AllocError>
        requires whole { self.old.spent ≡ false }
        requires moment { now < 2 ^ 62 }
        ensures done { IfOk result (Does self.old self.new
            (hears self.old.keys self.old.sessions (segment_of datagram.now) now)) }
        ensures err { OnErr result (self.new.spent ≡ true) }
    {
        self.hear(decode(datagram), now)
    }

    /// A datagram comes that [`ltp_segment::decode`] read, or refused. Time has passed: stale sessions are
    /// closed. Then its session does what it does, where it isn't one that is over; and where all receiving
    /// sessions together have too many octets, those that are longest untouched are closed.
    pub fn hear(
        &mut self,
        read: Result<Segment<'_>, SegmentFault>,
        now: u64,
    ) -> Result<Told, AllocError>
        requires whole { self.old.spent ≡ false }
        requires fit { IfOk read (λ segment. IsFit (content_value segment.content)) }
        requires moment { now < 2 ^ 62 }
        ensures done { IfOk result (Does self.old self.new
            (hears self.old.keys self.old.sessions (seen read.entry) now)) }
        ensures err { OnErr result (self.new.spent ≡ true) }
    {
        self.spent = true;
        let gone = self.parts.pass(now)?;
        let heard = self.parts.hear(read, now)?;
        self.spent = false;
        Ok(Told {
            gone,
            forgotten: heard.forgotten,
            effects: heard.effects,
        })
    }

    /// Time has passed: stale sessions are closed, and all others tick.
    pub fn tick(&mut self, now: u64) -> Result<Told, AllocError>
        requires whole { self.old.spent ≡ false }
        requires moment { now < 2 ^ 62 }
        ensures done { IfOk result (Does self.old self.new
            (ticks self.old.keys self.old.sessions now)) }
        ensures err { OnErr result (self.new.spent ≡ true) }
    {
        self.spent = true;
        let gone = self.parts.pass(now)?;
        let effects = self.parts.tick(now)?;
        self.spent = false;
        Ok(Told {
            gone,
            forgotten: None,
            effects,
        })
    }

    /// A block begins in the [next session](PeerSessions::next_session), all of it red, where a session is
    /// [free](PeerSessions::sending).
    pub fn submit(&mut self, block: &[u8], now: u64) -> Result<Effects, AllocError>
        requires whole { self.old.spent ≡ false }
        requires some { 0 < length block.now }
        requires most { length block.now ≤ BLOCK_MAX }
        requires free { length self.old.sessions.engine.senders < self.old.keys.bounds.sessions }
        requires numbers { self.old.sessions.engine.next < 2 ^ 32 }
        requires moment { now < 2 ^ 62 }
        ensures done { IfOk result (Begins self.old self.new
            (block_begins self.old.keys self.old.sessions.engine block.now now)) }
        ensures err { OnErr result (self.new.spent ≡ true) }
    {
        self.spent = true;
        let effects = self.parts.submit(block, now)?;
        self.spent = false;
        Ok(effects)
    }
}
