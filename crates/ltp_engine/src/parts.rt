//! What an engine keeps: both sides, and what never changes.

ghost use Rattle.std.specs.Prelude.{◌≡◌, ℕ, ◌<◌, ◌≤◌, ◌^◌, false, length, Ok, IfOk, OnOk};
ghost use Rattle.std.specs.Prelude.{◌==◌, ◌||◌, true, None, Some, is_some, OnErr, IsSomeAnd};
ghost use Rattle.std.specs.Prelude.{if◌then◌else◌};
ghost use Rattle.ltp_segment.specs.PolicyViews.{policy_value};
ghost use Rattle.ltp_segment.specs.declared.session.Note.TheVariants as notes;
ghost use Rattle.ltp_segment.specs.declared.session.TheConstants.{BLOCK_MAX};
ghost use Rattle.ltp_segment.specs.Reading.{segment_of};
ghost use Rattle.ltp_segment.specs.Views.{content_value, segment_value};
ghost use Rattle.ltp_engine.specs.Sessions.{is_open, is_handed_up, is_receiving, IsTouchOrder, cells_in};
ghost use Rattle.ltp_engine.specs.Elsewhere.{released, reopened, closed_numbers};
ghost use Rattle.ltp_engine.specs.Shows.{AreDistinct};
ghost use Rattle.ltp_engine.specs.Sides.{IsFit};
ghost use Rattle.ltp_engine.specs.Ties.{own_step, peer_step, begun_step};
ghost use Rattle.ltp_engine.specs.Ties.{sent_of, handed_of};
ghost use Rattle.ltp_session.specs.Engine.{datagram_step, tick_step, longest_untouched, is_closed};
ghost use Rattle.ltp_engine.specs.Closed.{is_among};
ghost use Rattle.ltp_engine.specs.Steps.{begun_by, wide_party, deadline_of, is_due_at, Steps};
ghost use Rattle.ltp_engine.specs.Effects.{nothing_done};
ghost use Rattle.ltp_engine.specs.Quiet.{IsNeverQuiet};

use crate::closed::Closed;
use crate::deadlines::earlier;
use crate::effects::Effects;
use crate::inbound::Inbound;
use crate::outbound::{self, Senders};
use crate::sides::{to_receiver, to_sender};
use crate::terms::Terms;
use ltp_segment::{Content, Note, Policy, Segment, SegmentFault, Step, decode};
use ltp_sender::{Begun, Sender};
use std::alloc::{AllocError, Global};
use std::collections::BTreeMap;

/// What an engine keeps.
#[derive(Debug, Drop)]
pub(crate) struct Parts {
    alloc: Global,
    own: u64,
    peer: u64,
    /// The number of the first session.
    first: u64,
    policy: Policy,
    /// How many sessions of a direction are kept at most.
    pub sessions: u32,
    /// How many runs of closed numbers and receiving sessions together are kept at most.
    history: u32,
    /// The number of the next session.
    pub next: u64,
    senders: Senders,
    pub inbound: Inbound,
}

impl Parts {
    ghost use Rattle.ltp_engine.specs.Ties.{party_of, value_of, IsWhole};

    /// An engine at its beginning.
    pub fn new(
        alloc: Global,
        own: u64,
        peer: u64,
        first: u64,
        policy: Policy,
        sessions: u32,
        history: u32,
    ) -> Parts
        requires numbers { first < 2 ^ 32 }
        requires some { 1 ≤ sessions }
        ensures whole { IsWhole result }
        ensures value { value_of false result ≡ begun_by (wide_party own peer first
            (policy_value policy) sessions history) }
    {
        Parts {
            alloc,
            own,
            peer,
            first,
            policy,
            sessions,
            history,
            next: first,
            senders: BTreeMap::new(alloc),
            inbound: Inbound::new(alloc),
        }
    }

    /// How many sessions are being sent.
    pub fn sending(&self) -> usize
        requires { IsWhole self.now }
        ensures { result ≡ length (value_of false self.now).senders }
    {
        self.senders.len()
    }

    /// How many sessions are being received.
    pub fn receiving(&self) -> usize
        requires { IsWhole self.now }
        ensures { result ≡ length (value_of false self.now).inbound.receivers }
    {
        self.inbound.len(&self.peer_terms())
    }

    /// Whether a session that the engine began is open.
    pub fn is_open(&self, n: u64) -> bool
        requires { IsWhole self.now }
        ensures { result ≡ is_open n (value_of false self.now).senders }
    {
        outbound::is_open(&self.senders, self.own_terms(), n)
    }

    /// Whether a session that the peer began is kept, and its red part was handed up.
    pub fn is_handed_up(&self, n: u64) -> bool
        requires { IsWhole self.now }
        ensures { result ≡ is_handed_up n (value_of false self.now).inbound.receivers }
    {
        self.inbound.is_handed_up(&self.peer_terms(), n)
    }

    /// Whether a session that the peer began is kept.
    pub fn is_receiving(&self, n: u64) -> bool
        requires { IsWhole self.now }
        ensures { result ≡ is_receiving n (value_of false self.now).inbound.receivers }
    {
        self.inbound.is_receiving(&self.peer_terms(), n)
    }

    /// The receiving session that nothing touched for the longest time.
    pub fn longest_untouched(&self) -> Option<u64>
        requires { IsWhole self.now }
        ensures first { result ≡ longest_untouched (value_of false self.now).inbound.touched
            (value_of false self.now).inbound.receivers }
        ensures order { IsTouchOrder (value_of false self.now).inbound.touched
            (value_of false self.now).inbound.receivers }
    {
        self.inbound.longest_untouched(&self.peer_terms())
    }

    /// How many red octets are kept of all receiving sessions.
    pub fn octets(&self) -> u64
        requires { IsWhole self.now }
        ensures { result ≡ cells_in (value_of false self.now).inbound.receivers }
    {
        self.inbound.octets(&self.peer_terms())
    }

    /// A receiving session is kept no more, and its number isn't closed by that.
    pub fn release(&mut self, n: u64)
        requires { IsWhole self.old }
        ensures whole { IsWhole self.new }
        ensures value { value_of false self.new ≡ record (value_of false self.old) {
          inbound = released n (value_of false self.old).inbound;
        } }
    {
        let terms = self.peer_terms();
        self.inbound.release(&terms, n);
    }

    /// The closed numbers, in ascending order. No number is closed any more.
    pub fn take_closed(&mut self) -> Result<Vec<u64>, AllocError>
        requires { IsWhole self.old }
        ensures whole { IsWhole self.new }
        ensures numbers { IfOk result (λ numbers. numbers.items
            ≡ closed_numbers (value_of false self.old).inbound.closed) }
        ensures each { IfOk result (λ numbers. (n : ℕ) → is_closed n numbers.items
            ≡ is_among (value_of false self.old).inbound.closed n) }
        ensures once { IfOk result (λ numbers. AreDistinct numbers.items) }
        ensures value { OnOk result (value_of false self.new ≡ record (value_of false self.old) {
          inbound = reopened (value_of false self.old).inbound;
        }) }
        ensures err { OnErr result (value_of false self.new ≡ value_of false self.old) }
    {
        let numbers = self.inbound.closed.numbers(self.alloc)?;
        self.inbound.closed = Closed::new(self.alloc);
        Ok(numbers)
    }

    /// The least deadline of all sessions.
    pub fn next_deadline(&self) -> Option<u64>
        requires { IsWhole self.now }
        ensures { result ≡ deadline_of (value_of false self.now) }
    {
        earlier(
            outbound::next_deadline(&self.senders, self.own_terms()),
            self.inbound.next_deadline(self.peer_terms()),
        )
    }

    /// Whether a timer is due.
    pub fn is_due(&self, now: u64) -> bool
        requires { IsWhole self.now }
        ensures { result ≡ is_due_at now (deadline_of (value_of false self.now)) }
    {
        match self.next_deadline() {
            Some(deadline) => deadline <= now,
            None => false,
        }
    }

    /// Nothing is done. It takes no memory.
    pub fn nothing(&self) -> Effects
        ensures { result ≡ nothing_done }
    {
        Effects::none(self.alloc)
    }

    /// Time has passed: the sending sessions tick in ascending order, then the receiving ones.
    pub fn tick(&mut self, now: u64) -> Result<Effects, AllocError>
        requires whole { IsWhole self.old }
        requires moment { now < 2 ^ 62 }
        ensures whole { OnOk result (IsWhole self.new) }
        ensures done { IfOk result (Steps (value_of false self.old) (value_of false self.new)
            (λ e. tick_step (party_of self.old) e now)) }
    {
        let alloc = self.alloc;
        let own = Terms {
            alloc,
            originator: self.own,
            policy: self.policy,
            sessions: self.sessions,
            history: self.history,
        };
        let peer = Terms {
            originator: self.peer,
            ..own
        };
        let nothing = Effects::none(alloc);
        let sent = outbound::tick(&mut self.senders, own, now, nothing)?;
        let told = self.inbound.tick(peer, now, sent)?;
        Ok(told)
    }

    /// A session begins with the next number, where there is room for it.
    pub fn begin(&mut self, block: &[u8], red: u64, now: u64) -> Result<Effects, AllocError>
        requires whole { IsWhole self.old }
        requires red { red ≤ length block.now }
        requires moment { now < 2 ^ 62 }
        requires most { length block.now ≤ BLOCK_MAX }
        requires room { length (value_of false self.old).senders < self.old.sessions }
        requires numbers { self.old.next < 2 ^ 32 }
        ensures whole { OnOk result (IsWhole self.new) }
        ensures done { IfOk result (Steps (value_of false self.old) (value_of false self.new)
            (λ e. begun_step (party_of self.old) e block.now red now)) }
    {
        let alloc = self.alloc;
        let n = self.next;
        let begun = Sender::begin(alloc, self.own, n, block, red, now, &self.policy)?;
        let Begun { sender, out } = begun;
        outbound::keep(&mut self.senders, n, sender)?;
        self.next = n + 1;
        let step = Step {
            out,
            up: None,
            green: None,
            note: sent_note(n, red),
        };
        let effects = Effects::of(alloc, n, None, step)?;
        Ok(effects)
    }

    /// A datagram comes: a segment of a session, or refused with a note.
    pub fn arrive(&mut self, datagram: &[u8], now: u64) -> Result<Effects, AllocError>
        requires whole { IsWhole self.old }
        requires moment { now < 2 ^ 62 }
        ensures whole { OnOk result (IsWhole self.new) }
        ensures done { IfOk result (Steps (value_of false self.old) (value_of false self.new)
            (λ e. datagram_step (party_of self.old) e (segment_of datagram.now) now)) }
        ensures wanted { OnErr result (IsNeverQuiet (value_of false self.old)
            (λ e. datagram_step (party_of self.old) e (segment_of datagram.now) now)) }
    {
        match decode(datagram) {
            Ok(segment) => {
                let effects = self.hear(segment, now)?;
                Ok(effects)
            }
            Err(fault) => Ok(Effects::noted(self.alloc, bad_segment(fault))),
        }
    }

    /// A segment comes of a session that the engine began, or of none.
    fn hear_own(&mut self, n: u64, content: Content<'_>, now: u64) -> Result<Effects, AllocError>
        requires whole { IsWhole self.old }
        requires fit { IsFit (content_value content) }
        requires moment { now < 2 ^ 62 }
        ensures whole { OnOk result (IsWhole self.new) }
        ensures done { IfOk result (Steps (value_of false self.old) (value_of false self.new)
            (λ e. own_step (party_of self.old) e n (content_value content.entry) now)) }
        ensures wanted { OnErr result (IsNeverQuiet (value_of false self.old)
            (λ e. own_step (party_of self.old) e n (content_value content.entry) now)) }
    {
        let alloc = self.alloc;
        if n < self.first || n >= self.next {
            return Ok(Effects::noted(alloc, Note::Stranger));
        }
        let terms = Terms {
            alloc,
            originator: self.own,
            policy: self.policy,
            sessions: self.sessions,
            history: self.history,
        };
        let told = to_sender(&mut self.senders, terms, n, content, now)?;
        let effects = sent(alloc, n, told)?;
        Ok(effects)
    }

    /// A segment comes of a session that the peer began.
    fn hear_peer(&mut self, n: u64, content: Content<'_>, now: u64) -> Result<Effects, AllocError>
        requires whole { IsWhole self.old }
        requires fit { IsFit (content_value content) }
        requires moment { now < 2 ^ 62 }
        ensures whole { OnOk result (IsWhole self.new) }
        ensures done { IfOk result (Steps (value_of false self.old) (value_of false self.new)
            (λ e. peer_step (party_of self.old) e n (content_value content.entry) now)) }
        ensures wanted { OnErr result (IsNeverQuiet (value_of false self.old)
            (λ e. peer_step (party_of self.old) e n (content_value content.entry) now)) }
    {
        let alloc = self.alloc;
        let terms = Terms {
            alloc,
            originator: self.peer,
            policy: self.policy,
            sessions: self.sessions,
            history: self.history,
        };
        let told = to_receiver(&mut self.inbound, terms, n, content, now)?;
        let effects = handed(alloc, n, told)?;
        Ok(effects)
    }

    /// A segment comes: to a session of either side, or from a stranger.
    pub fn hear(&mut self, segment: Segment<'_>, now: u64) -> Result<Effects, AllocError>
        requires whole { IsWhole self.old }
        requires fit { IsFit (content_value segment.content) }
        requires moment { now < 2 ^ 62 }
        ensures whole { OnOk result (IsWhole self.new) }
        ensures done { IfOk result (Steps (value_of false self.old) (value_of false self.new)
            (λ e. datagram_step (party_of self.old) e (Ok (segment_value segment.entry)) now)) }
        ensures wanted { OnErr result (IsNeverQuiet (value_of false self.old)
            (λ e. datagram_step (party_of self.old) e (Ok (segment_value segment.entry)) now)) }
    {
        let Segment {
            originator,
            session,
            content,
        } = segment;
        if originator == self.own {
            let effects = self.hear_own(session, content, now)?;
            return Ok(effects);
        }
        if originator == self.peer {
            let effects = self.hear_peer(session, content, now)?;
            return Ok(effects);
        }
        Ok(Effects::noted(self.alloc, Note::Stranger))
    }

    /// What all sessions that it began have in common.
    fn own_terms(&self) -> Terms
        ensures { result ≡ record {
          alloc = self.now.alloc;
          originator = self.now.own;
          policy = self.now.policy;
          sessions = self.now.sessions;
          history = self.now.history;
        } }
    {
        Terms {
            alloc: self.alloc,
            originator: self.own,
            policy: self.policy,
            sessions: self.sessions,
            history: self.history,
        }
    }

    /// What all sessions that its peer began have in common.
    fn peer_terms(&self) -> Terms
        ensures { result ≡ record {
          alloc = self.now.alloc;
          originator = self.now.peer;
          policy = self.now.policy;
          sessions = self.now.sessions;
          history = self.now.history;
        } }
    {
        Terms {
            alloc: self.alloc,
            originator: self.peer,
            policy: self.policy,
            sessions: self.sessions,
            history: self.history,
        }
    }
}

/// The effects of a step of a sending session; where there is none, a stranger is noted.
fn sent(alloc: Global, n: u64, told: Option<Step>) -> Result<Effects, AllocError>
    ensures effects { IfOk result (λ effects. effects ≡ sent_of n told) }
    ensures wanted { OnErr result (IsSomeAnd told (λ step.
        (is_some step.up || is_some step.green) ≡ true)) }
{
    match told {
        Some(step) => Effects::of(alloc, n, None, step),
        None => Ok(Effects::noted(alloc, Note::Stranger)),
    }
}

/// The effects of a step of a receiving session; where there is none, a stranger is noted.
fn handed(alloc: Global, n: u64, told: Option<(Option<u64>, Step)>) -> Result<Effects, AllocError>
    ensures effects { IfOk result (λ effects. effects ≡ handed_of n told) }
    ensures wanted { OnErr result (IsSomeAnd told (λ t.
        (is_some t.0 || (is_some t.1.up || is_some t.1.green)) ≡ true)) }
{
    match told {
        Some((gone, step)) => Effects::of(alloc, n, gone, step),
        None => Ok(Effects::noted(alloc, Note::Stranger)),
    }
}

/// The note of a datagram that is refused.
fn bad_segment(fault: SegmentFault) -> Note
    ensures { result ≡ notes.BadSegment fault.at fault.cause }
{
    Note::BadSegment {
        at: fault.at,
        cause: fault.cause,
    }
}

/// A block without a red part is sent at once.
fn sent_note(n: u64, red: u64) -> Option<Note>
    ensures { result ≡ (if red == 0 then Some (notes.Sent n) else None) }
{
    if red == 0 {
        Some(Note::Sent { session: n })
    } else {
        None
    }
}
