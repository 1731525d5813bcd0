//! Events of a bundle, with its place among those of its block.

ghost use Rattle.std.specs.Prelude.{◌≡◌, ◌<◌, ◌^◌, IfOk, IfSome};
ghost use Rattle.endpoint.specs.Endpoints.{IsEndpoint};
ghost use Rattle.gate_log.specs.Lines.{IsNamed};
ghost use Rattle.gate_log.specs.Subjects.{IsSubject};
ghost use Rattle.peer_events.specs.Events as spec;
ghost use Rattle.peer_events.specs.Named.{HasText, HasTexts};

use block_types::LeftOut;
use bundle_rows::End;
use endpoint::Endpoint;
use gate_cases::{Face, GateCase};
use gate_log::{BundleEvent, Event, SessionEvent, Subject};
use std::alloc::{AllocError, Global};

/// Where a bundle stands, or the end of a row.
#[derive(Clone, Copy, Debug)]
pub(crate) struct Place {
    /// The face at which its block came.
    pub face: Face,
    /// The number of the session that carried that.
    pub session: u64,
    /// Its place in the row, from 1, where it isn't alone in it.
    pub index: Option<usize>,
}

impl Place {
    pub(crate) fn new(face: Face, session: u64, index: Option<usize>) -> Place
        ensures { result ≡ record { face = face; session = session; index = index } }
    {
        Place {
            face,
            session,
            index,
        }
    }
}

/// Something happened to the bundle at a place.
pub(crate) fn bundle_event(
    alloc: Global,
    at: Place,
    about: &Option<Subject>,
    what: BundleEvent,
) -> Result<Event, AllocError>
    requires named { IfSome about.now HasTexts }
    ensures event { IfOk result (λ event. event
        ≡ spec.bundle_event at.face at.index at.session about.now what) }
    ensures named { IfOk result IsNamed }
{
    let subject = copied(alloc, about)?;
    Ok(match at.index {
        None => Event::Bundle {
            face: at.face,
            session: at.session,
            subject,
            what,
        },
        Some(index) => Event::InRow {
            face: at.face,
            session: at.session,
            index: index as u64,
            subject,
            what,
        },
    })
}

/// It was decided about the bundle at a place: so many pieces go on, the first of them in a session.
pub(crate) fn case_event(
    alloc: Global,
    at: Place,
    about: &Option<Subject>,
    case: GateCase,
    pieces: usize,
    first: Option<u64>,
) -> Result<Event, AllocError>
    requires named { IfSome about.now HasTexts }
    ensures event { IfOk result (λ event. event
        ≡ spec.case_event at.face at.index at.session about.now case pieces first) }
    ensures named { IfOk result IsNamed }
{
    match case {
        GateCase::BadBundle { at: from, cause } => Ok(end_event(at, End { at: from, cause })),
        GateCase::Untranslated { cause } => {
            bundle_event(alloc, at, about, BundleEvent::Untranslated { cause })
        }
        GateCase::Expired => bundle_event(alloc, at, about, BundleEvent::Expired),
        GateCase::HopLimit => bundle_event(alloc, at, about, BundleEvent::HopLimit),
        GateCase::Storage => bundle_event(alloc, at, about, BundleEvent::Storage),
        GateCase::Passed => {
            let pieces = pieces as u64;
            bundle_event(alloc, at, about, BundleEvent::Passed { first, pieces })
        }
    }
}

/// The bundle at a place passed without this.
pub(crate) fn left_event(
    alloc: Global,
    at: Place,
    about: &Option<Subject>,
    left: &LeftOut,
) -> Result<Event, AllocError>
    requires named { IfSome about.now HasTexts }
    ensures event { IfOk result (λ event. event
        ≡ Event.LeftOut at.face at.session at.index about.now (left.now).kinds (left.now).residue) }
    ensures named { IfOk result IsNamed }
{
    Ok(Event::LeftOut {
        face: at.face,
        session: at.session,
        index: index_of(at),
        subject: copied(alloc, about)?,
        blocks: left.kinds.copy(alloc)?,
        residue: left.residue,
    })
}

/// The row ends at a place, before its block does.
pub(crate) fn end_event(at: Place, end: End) -> Event
    ensures event { result ≡ spec.end_event at.face at.index at.session end.at end.cause }
    ensures named { IsNamed result }
{
    let what = match at.index {
        None => SessionEvent::BadBundle {
            place: end.at,
            cause: end.cause,
        },
        Some(index) => SessionEvent::BadEnd {
            index: index as u64,
            place: end.at,
            cause: end.cause,
        },
    };
    Event::Session {
        face: at.face,
        session: at.session,
        what,
    }
}

fn index_of(at: Place) -> Option<u64>
    ensures { result ≡ at.index }
{
    match at.index {
        None => None,
        Some(index) => Some(index as u64),
    }
}

// ---- the bundle

/// The same names again, for an event.
fn copied(alloc: Global, about: &Option<Subject>) -> Result<Option<Subject>, AllocError>
    requires { IfSome about.now HasTexts }
    ensures copied { IfOk result (λ subject. subject ≡ about.now) }
    ensures named { IfOk result (λ subject. IfSome subject IsSubject) }
{
    match about {
        None => Ok(None),
        Some(subject) => {
            is_legal(&subject.destination);
            is_legal(&subject.source);
            Ok(Some(subject.copy(alloc)?))
        }
    }
}

/// Says that a name has a text, since its numbers are below 2^64. It does nothing.
fn is_legal(endpoint: &Endpoint)
    requires { HasText endpoint.now }
    ensures { IsEndpoint endpoint.now }
{
    match endpoint {
        Endpoint::Ipn { node, service } => are_numbers(*node, *service),
        Endpoint::Null | Endpoint::Dtn(_) => {}
    }
}

/// Says that numbers are below 2^64.
fn are_numbers(node: u64, service: u64)
    ensures node { node < 2 ^ 64 }
    ensures service { service < 2 ^ 64 }
{}
