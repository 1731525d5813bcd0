//! The engine of one end of a link.

ghost use Rattle.std.specs.Prelude.{◌≡◌, ◌≢◌, ◌-◌, ◌<◌, ◌≤◌, ◌^◌, ℕ, false, true, length, Ok, IfOk, OnOk, OnErr};
ghost use Rattle.ltp_segment.specs.PolicyViews.{policy_value};
ghost use Rattle.ltp_segment.specs.Reading.{segment_of};
ghost use Rattle.ltp_segment.specs.Views.{content_value, segment_value};
ghost use Rattle.ltp_session.specs.Engine.{starts, datagram_step, submits, submit_step, tick_step};
ghost use Rattle.ltp_session.specs.Engine.{is_closed, longest_untouched};
ghost use Rattle.ltp_engine.specs.Closed.{is_among};
ghost use Rattle.ltp_engine.specs.Sides.{IsFit};
ghost use Rattle.ltp_engine.specs.Elsewhere.{released, reopened, closed_numbers};
ghost use Rattle.ltp_engine.specs.Sessions.{is_open, is_handed_up, is_receiving, IsTouchOrder, cells_in};
ghost use Rattle.ltp_engine.specs.Shows.{Shows, AreDistinct};
ghost use Rattle.ltp_engine.specs.Bounds.{IsBounded};
ghost use Rattle.ltp_engine.specs.Quiet.{IsNeverQuiet};
ghost use Rattle.ltp_engine.specs.Steps.{begun_by, wide_party, new_engine};
ghost use Rattle.ltp_engine.specs.Steps.{deadline_of, is_due_at, Steps, Submits};

use crate::effects::Effects;
use crate::parts::Parts;
use crate::refused::SubmitRefused;
use ltp_segment::{BLOCK_MAX, Policy, Segment};
use spans::Spans;
use std::alloc::{AllocError, Global};
use std::marker::Model;

/// How many sessions a new engine keeps of each direction at most.
pub const SESSIONS: u32 = 64;
/// How many runs of consecutive closed numbers, receiving sessions counted, a new engine remembers at
/// most.
pub const HISTORY: u32 = 65_536;
/// No session that an engine begins has this number or a larger one.
const NUMBERS: u64 = 1 << 32;

/// All sessions of one end of a link.
///
/// After want of memory the value may only be dropped.
#[derive(Debug, Drop)]
pub struct Engine {
    parts: Parts,
    spent: bool,
}

impl Model for Engine {
    ghost use Rattle.std.specs.Prelude.{◌≡◌, false};
    ghost use Rattle.ltp_engine.specs.Values.{EngineValue};
    ghost use Rattle.ltp_engine.specs.Ties.{value_of, IsWhole};

    ghost Value = { EngineValue };

    ghost view = { λ e. value_of e.spent e.parts };

    ghost invariant = { λ e. e.spent ≡ false → IsWhole e.parts };
}

impl Engine {
    /// An engine at its beginning: its own number and its peer's, the number of its first session,
    /// and how it sends. It keeps [`SESSIONS`] sessions of each direction at most, and remembers
    /// [`HISTORY`] runs of closed numbers. It takes no memory.
    pub fn new(alloc: Global, own: u64, peer: u64, first_session: u64, policy: Policy) -> Engine
        requires apart { own ≢ peer }
        requires first { 1 ≤ first_session }
        requires numbers { first_session < 2 ^ 32 }
        ensures value { result ≡ new_engine own peer first_session (policy_value policy) }
        // It stands for the engine of the definition that begins.
        ensures shows { Shows result (starts result.party) }
        ensures bounds { IsBounded result }
    {
        Engine::wide(alloc, own, peer, first_session, policy, SESSIONS, HISTORY)
    }

    /// An engine at its beginning, with bounds of its own.
    ///
    /// It sends `sessions` sessions at most at once: for a further block it is [`SubmitRefused::Busy`].
    /// It receives as many at once: where another opens, the one that is longest untouched is over,
    /// with a note `Evicted`. So it keeps one at least. Runs of consecutive closed numbers and
    /// receiving sessions together are `history` at most: where they are as many no session opens,
    /// with a note `HistoryFull`; with 0 none ever does. It takes no memory.
    pub fn wide(
        alloc: Global,
        own: u64,
        peer: u64,
        first_session: u64,
        policy: Policy,
        sessions: u32,
        history: u32,
    ) -> Engine
        requires apart { own ≢ peer }
        requires first { 1 ≤ first_session }
        requires numbers { first_session < 2 ^ 32 }
        // One session has to make room for another.
        requires some { 1 ≤ sessions }
        ensures value { result ≡ begun_by (wide_party own peer first_session
            (policy_value policy) sessions history) }
        // It stands for the engine of the definition that begins.
        ensures shows { Shows result (starts result.party) }
        ensures bounds { IsBounded result }
    {
        Engine {
            parts: Parts::new(alloc, own, peer, first_session, policy, sessions, history),
            spent: false,
        }
    }

    /// How many sessions are being sent, those that are cancelling counted. It takes no memory.
    pub fn sending(&self) -> usize
        requires { self.now.spent ≡ false }
        ensures { result ≡ length self.now.senders }
    {
        let _ = self.spent;
        self.parts.sending()
    }

    /// How many sessions are being received, those that are cancelling counted. It takes no memory.
    pub fn receiving(&self) -> usize
        requires { self.now.spent ≡ false }
        ensures { result ≡ length self.now.inbound.receivers }
    {
        let _ = self.spent;
        self.parts.receiving()
    }

    /// Whether a session that the engine began is open: it is kept, and isn't cancelling. Before and
    /// after a call this tells whether the session ended in it. It takes no memory.
    pub fn is_open(&self, session: u64) -> bool
        requires { self.now.spent ≡ false }
        ensures { result ≡ is_open session self.now.senders }
    {
        let _ = self.spent;
        self.parts.is_open(session)
    }

    /// Whether a session that the peer began is kept, and its red part was handed up. Once such a
    /// session is over, and where there was none, it isn't. It takes no memory.
    pub fn is_handed_up(&self, session: u64) -> bool
        requires { self.now.spent ≡ false }
        ensures { result ≡ is_handed_up session self.now.inbound.receivers }
    {
        let _ = self.spent;
        self.parts.is_handed_up(session)
    }

    /// Whether a session that the peer began is kept. It takes no memory.
    pub fn is_receiving(&self, session: u64) -> bool
        requires { self.now.spent ≡ false }
        ensures { result ≡ is_receiving session self.now.inbound.receivers }
    {
        let _ = self.spent;
        self.parts.is_receiving(session)
    }

    /// The receiving session that nothing touched for the longest time, where there is one. It takes
    /// no memory.
    pub fn longest_untouched(&self) -> Option<u64>
        requires { self.now.spent ≡ false }
        ensures first { result ≡ longest_untouched self.now.inbound.touched
            self.now.inbound.receivers }
        // That is the first of the order in which they were touched.
        ensures order { IsTouchOrder self.now.inbound.touched self.now.inbound.receivers }
    {
        let _ = self.spent;
        self.parts.longest_untouched()
    }

    /// How many red octets are kept of all receiving sessions. It takes no memory.
    pub fn octets(&self) -> u64
        requires { self.now.spent ≡ false }
        ensures { result ≡ cells_in self.now.inbound.receivers }
    {
        let _ = self.spent;
        self.parts.octets()
    }

    /// The number of the next session; 2^32 where none is left. It takes no memory.
    pub fn next_session(&self) -> u64
        ensures { result ≡ self.now.next }
    {
        self.parts.next
    }

    /// The closed receiving numbers below 2^64 - 1, which is the limit. It takes no memory.
    pub fn closed(&self) -> &Spans
        ensures are { result.now ≡ self.now.inbound.closed.places }
        ensures limit { self.now.spent ≡ false → length result.now ≡ 2 ^ 64 - 1 }
    {
        self.parts.inbound.closed.places()
    }

    /// The least deadline of all sessions. It takes no memory.
    pub fn next_deadline(&self) -> Option<u64>
        requires { self.now.spent ≡ false }
        ensures { result ≡ deadline_of self.now }
    {
        let _ = self.spent;
        self.parts.next_deadline()
    }

    /// A block comes to be sent, of which the first `red` octets are its red part: a session
    /// begins with the next number. A block without a red part is sent, and its session isn't
    /// kept.
    ///
    /// A refusal other than `Memory` leaves the engine as it was.
    pub fn submit(&mut self, block: &[u8], red: u64, now: u64) -> Result<Effects, SubmitRefused>
        requires whole { self.old.spent ≡ false }
        requires red { red ≤ length block.now }
        requires moment { now < 2 ^ 62 }
        ensures does { Submits self.old self.new (λ e. submit_step self.old.party e
            (submits self.old.party e block.now red now)) result }
        ensures bounds { OnOk result (IsBounded self.new) }
    {
        let next = self.parts.next;
        let sending = self.parts.sending();
        let most = self.parts.sessions as usize;
        if block.is_empty() {
            return Err(SubmitRefused::Empty);
        }
        if block.len() as u64 > BLOCK_MAX {
            return Err(SubmitRefused::TooLarge);
        }
        if next >= NUMBERS {
            return Err(SubmitRefused::NumbersSpent);
        }
        if sending >= most {
            return Err(SubmitRefused::Busy);
        }
        self.spent = true;
        let effects = self.parts.begin(block, red, now)?;
        self.spent = false;
        Ok(effects)
    }

    /// A datagram comes: a segment of a session, or refused with a note.
    pub fn arrive(&mut self, datagram: &[u8], now: u64) -> Result<Effects, AllocError>
        requires whole { self.old.spent ≡ false }
        requires moment { now < 2 ^ 62 }
        ensures done { IfOk result (Steps self.old self.new
            (λ e. datagram_step self.old.party e (segment_of datagram.now) now)) }
        ensures bounds { OnOk result (IsBounded self.new) }
        // Whoever sends it, a datagram that is only noted wants no memory, and neither does a
        // piece that brings nothing new and isn't answered.
        ensures wanted { OnErr result (IsNeverQuiet self.old
            (λ e. datagram_step self.old.party e (segment_of datagram.now) now)) }
        ensures err { OnErr result (self.new.spent ≡ true) }
    {
        self.spent = true;
        let effects = self.parts.arrive(datagram, now)?;
        self.spent = false;
        Ok(effects)
    }

    /// A segment comes that [`ltp_segment::decode`] read: what [`Engine::arrive`] does about its
    /// datagram.
    pub fn hear(&mut self, segment: Segment<'_>, now: u64) -> Result<Effects, AllocError>
        requires whole { self.old.spent ≡ false }
        requires fit { IsFit (content_value segment.content) }
        requires moment { now < 2 ^ 62 }
        ensures done { IfOk result (Steps self.old self.new
            (λ e. datagram_step self.old.party e (Ok (segment_value segment.entry)) now)) }
        ensures bounds { OnOk result (IsBounded self.new) }
        ensures wanted { OnErr result (IsNeverQuiet self.old
            (λ e. datagram_step self.old.party e (Ok (segment_value segment.entry)) now)) }
        ensures err { OnErr result (self.new.spent ≡ true) }
    {
        self.spent = true;
        let effects = self.parts.hear(segment, now)?;
        self.spent = false;
        Ok(effects)
    }

    /// The numbers of the receiving sessions that are over, in ascending order. The engine forgets
    /// them, so that the caller remembers them in its place. Where memory is wanted nothing changes.
    pub fn take_closed(&mut self) -> Result<Vec<u64>, AllocError>
        requires { self.old.spent ≡ false }
        ensures numbers { IfOk result (λ numbers. numbers.items
            ≡ closed_numbers self.old.inbound.closed) }
        // Each number that was closed is one of them, once, and no other.
        ensures each { IfOk result (λ numbers. (n : ℕ) → is_closed n numbers.items
            ≡ is_among self.old.inbound.closed n) }
        ensures once { IfOk result (λ numbers. AreDistinct numbers.items) }
        ensures value { OnOk result (self.new ≡ record self.old {
          inbound = reopened self.old.inbound;
        }) }
        ensures err { OnErr result (self.new ≡ self.old) }
        ensures bounds { IsBounded self.new }
    {
        let _ = self.spent;
        self.parts.take_closed()
    }

    /// A receiving session is over, and the caller remembers its number in the engine's place, which
    /// keeps nothing of it. Where it isn't kept nothing changes. It takes no memory.
    pub fn release(&mut self, session: u64)
        requires { self.old.spent ≡ false }
        ensures value { self.new ≡ record self.old {
          inbound = released session self.old.inbound;
        } }
        ensures bounds { IsBounded self.new }
    {
        let _ = self.spent;
        self.parts.release(session);
    }

    /// Time has passed: the sending sessions tick in ascending order, then the receiving ones.
    /// Where no timer is due nothing is done, and no memory is wanted.
    pub fn tick(&mut self, now: u64) -> Result<Effects, AllocError>
        requires whole { self.old.spent ≡ false }
        requires moment { now < 2 ^ 62 }
        ensures done { IfOk result (Steps self.old self.new
            (λ e. tick_step self.old.party e now)) }
        ensures bounds { OnOk result (IsBounded self.new) }
        ensures wanted { OnErr result (is_due_at now (deadline_of self.old) ≡ true) }
        ensures err { OnErr result (self.new.spent ≡ true) }
    {
        if !self.parts.is_due(now) {
            return Ok(self.parts.nothing());
        }
        self.spent = true;
        let effects = self.parts.tick(now)?;
        self.spent = false;
        Ok(effects)
    }
}
