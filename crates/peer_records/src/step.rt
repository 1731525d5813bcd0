//! What a step of the gateway did.

ghost use Rattle.std.specs.Prelude.{◌≡◌, ◌^◌, ◌<◌, map, IfSome};
ghost use Rattle.gate_events.specs.Own.{is_of};
ghost use Rattle.gate_records.specs.Happened.{reports_on};
ghost use Rattle.gate_records.specs.Ties.{own_of};
ghost use Rattle.peer_events.specs.Own.{own_seen};
ghost use Rattle.peer_gateway.specs.Answers.{routed_seen, told_seen, added_seen, begun_seen};

use crate::told::{came_whole, is_cancelled_by, may_be_over};
use gate_cases::Face;
use gate_records::GateSessions;
use ltp_segment::{Content, decode};
use peer_events::OwnBlock;
use peer_gateway::{Added, BlockBegun, Outgoing, PeerAnswer, RemarkAt};

/// What a step of a gateway among other implementations did, as far as the journal has to know it.
#[derive(Clone, Copy, Debug)]
pub struct StepDone<'a> {
    /// What the wall clock shows, in ms since 2000.
    pub wall: u64,
    /// The own sessions that were open before it.
    pub own: &'a [OwnBlock],
    /// What it answered: the datagrams that it made, what it tells, the pieces that were added, and the
    /// sessions that it began.
    pub answer: &'a PeerAnswer,
    /// The id of a piece of an earlier run, where it was to add that one.
    pub again: Option<u64>,
}

impl StepDone<'_> {
    ghost use Rattle.gate_records.specs.Happened.{is_over, cancelled};
    ghost use Rattle.gate_records.specs.Ties.{may_be_over};
    ghost use Rattle.peer_records.specs.Happened.{notes_in, ups_in, marking};
    ghost use Rattle.peer_records.specs.Said.{happened_by};

    /// What the wall clock shows.
    pub(crate) fn wall(&self) -> u64
        ensures { result ≡ (self.now).wall }
    {
        self.wall
    }

    /// The datagrams that it made.
    pub(crate) fn out(&self) -> &[Outgoing]
        ensures { map routed_seen result.now ≡ ((self.now).answer.now).out }
    {
        self.answer.out()
    }

    /// What it tells.
    pub(crate) fn told(&self) -> &[RemarkAt]
        ensures { map told_seen result.now ≡ ((self.now).answer.now).told }
    {
        self.answer.told()
    }

    /// The pieces that were added.
    pub(crate) fn added(&self) -> &[Added]
        ensures { map added_seen result.now ≡ ((self.now).answer.now).added }
    {
        self.answer.added()
    }

    /// The sessions that it began.
    pub(crate) fn begun(&self) -> &[BlockBegun]
        ensures { map begun_seen result.now ≡ ((self.now).answer.now).begun }
    {
        self.answer.begun()
    }

    /// Whether any session of the peer can be over with it.
    pub(crate) fn may_be_over(&self) -> bool
        ensures { result ≡ may_be_over
            (ups_in ((self.now).answer.now).told) (notes_in ((self.now).answer.now).told) }
    {
        may_be_over(self.told())
    }

    /// Whether the block of a session of the peer came whole with it, or its sender cancelled it.
    pub(crate) fn is_over<G: GateSessions>(&self, gate: &G, face: Face, session: u64) -> bool
        ensures { result ≡ is_over
            (marking (happened_by self.now (G.opened gate.now) (G.handed_up gate.now))) face session }
    {
        came_whole(self.told(), face, session) || self.is_cancelled(gate, face, session)
    }

    /// Whether the sender of a session cancelled it.
    fn is_cancelled<G: GateSessions>(&self, gate: &G, face: Face, session: u64) -> bool
        ensures { result ≡ cancelled (G.opened gate.now) face session
            (map own_seen (self.now).own.now) (notes_in ((self.now).answer.now).told) }
    {
        let is_open = gate.is_open(face, session);
        let left = own_of(self.own, face, session);
        is_cancelled_by(self.told(), is_open, left, face, session)
    }
}

/// How many own sessions have this number.
fn own_of(own: &[OwnBlock], face: Face, session: u64) -> usize
    ensures { result ≡ own_of face session (map own_seen own.now) }
{
    let mut count = 0;
    'counting: for one in own {
        if is_of(one, face, session) {
            count += 1;
        }
    }
    count
}

/// Whether it is the own session of this number.
fn is_of(own: &OwnBlock, face: Face, session: u64) -> bool
    ensures { result ≡ is_of face session (own_seen own.now) }
{
    own.face == face && own.session == session
}

/// The session of the peer that a datagram reports on, if it is a report.
pub(crate) fn reports_on(datagram: &[u8]) -> Option<u64>
    ensures session { result ≡ reports_on datagram.now }
    ensures small { IfSome result (λ session. session < 2 ^ 64) }
{
    match decode(datagram) {
        Ok(segment) => match segment.content {
            Content::Report { .. } => Some(segment.session),
            _ => None,
        },
        Err(_) => None,
    }
}
