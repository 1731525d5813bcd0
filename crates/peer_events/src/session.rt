//! Events of a link, and of a session.

ghost use Rattle.std.specs.Prelude.{◌≡◌, IfSome};
ghost use Rattle.gate_log.specs.Lines.{IsNamed};
ghost use Rattle.gate_log.specs.Subjects.{IsSubject};
ghost use Rattle.peer_events.specs.Events as spec;
ghost use Rattle.peer_events.specs.Own.{IsNamedOwn};

use crate::own::OwnBlock;
use gate_cases::Face;
use gate_log::{BundleEvent, Event, LinkEvent, SessionEvent, Subject};
use ltp_segment::Green;

pub(crate) fn link_event(face: Face, what: LinkEvent) -> Event
    ensures event { result ≡ Event.Link face what }
    ensures named { IsNamed result }
{
    Event::Link { face, what }
}

pub(crate) fn session_event(face: Face, session: u64, what: SessionEvent) -> Event
    ensures event { result ≡ Event.Session face session what }
    ensures named { IsNamed result }
{
    Event::Session {
        face,
        session,
        what,
    }
}

pub(crate) fn forgotten_event(face: Face, runs: u64) -> Event
    ensures event { result ≡ Event.Link face (LinkEvent.Forgotten runs) }
    ensures named { IsNamed result }
{
    link_event(face, LinkEvent::Forgotten { runs })
}

pub(crate) fn green_event(face: Face, green: &Green) -> Event
    ensures event { result ≡ spec.green_event face green.now }
    ensures named { IsNamed result }
{
    let what = SessionEvent::Green {
        last: green.last,
        octets: green.body.len() as u64,
        offset: green.offset,
    };
    session_event(face, green.session, what)
}

pub(crate) fn began_event(face: Face, session: u64, pieces: usize, octets: usize) -> Event
    ensures event { result ≡ Event.Session face session (SessionEvent.Began pieces octets) }
    ensures named { IsNamed result }
{
    let what = SessionEvent::Began {
        bundles: pieces as u64,
        octets: octets as u64,
    };
    session_event(face, session, what)
}

// ---- a session that was being sent, or came

/// A session was sent: an own one where the note tells of its end.
pub(crate) fn sent_event(face: Face, session: u64, end: Option<OwnBlock>) -> Event
    requires { IfSome end IsNamedOwn }
    ensures event { result ≡ spec.sent_event face session end }
    ensures named { IsNamed result }
{
    let bundles = gathered(&end);
    Event::Bundle {
        face,
        session,
        subject: carried(end),
        what: BundleEvent::Sent { bundles },
    }
}

/// A session failed: an own one where the note tells of its end, else one of the peer's.
pub(crate) fn failed_event(face: Face, session: u64, reason: u8, end: Option<OwnBlock>) -> Event
    requires { IfSome end IsNamedOwn }
    ensures event { result ≡ spec.failed_event face session reason end }
    ensures named { IsNamed result }
{
    match end {
        Some(own) => Event::Bundle {
            face,
            session,
            subject: own.subject,
            what: BundleEvent::Failed {
                bundles: several(own.pieces),
                reason,
            },
        },
        None => session_event(face, session, SessionEvent::Failed { reason }),
    }
}

/// A session was cancelled: an own one where the note tells of its end, else one of the peer's.
pub(crate) fn cancelled_event(face: Face, session: u64, reason: u8, end: Option<OwnBlock>) -> Event
    requires { IfSome end IsNamedOwn }
    ensures event { result ≡ spec.cancelled_event face session reason end }
    ensures named { IsNamed result }
{
    match end {
        Some(own) => Event::Bundle {
            face,
            session,
            subject: own.subject,
            what: BundleEvent::Cancelled {
                bundles: several(own.pieces),
                reason,
            },
        },
        None => session_event(face, session, SessionEvent::Cancelled { reason }),
    }
}

/// The first bundle that an own session carried.
fn carried(own: Option<OwnBlock>) -> Option<Subject>
    requires { IfSome own IsNamedOwn }
    ensures carried { result ≡ spec.carried own }
    ensures named { IfSome result IsSubject }
{
    match own {
        Some(own) => own.subject,
        None => None,
    }
}

/// How many bundles an own session carried, where several were gathered.
fn gathered(own: &Option<OwnBlock>) -> Option<u64>
    ensures { result ≡ spec.gathered own.now }
{
    match own {
        Some(own) => several(own.pieces),
        None => None,
    }
}

/// A number that is said only where it is above 1.
fn several(pieces: usize) -> Option<u64>
    ensures { result ≡ spec.several pieces }
{
    if 1 < pieces {
        Some(pieces as u64)
    } else {
        None
    }
}
