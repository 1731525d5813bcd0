//! The face of engine 7, with peer 1, and what its sessions tell, as lines.

ghost use Rattle.std.specs.Prelude.{◌≡◌, ◌<◌, ◌^◌, false, IfOk, OnOk};

use face_room::Bounds;
use ltp_segment::{Content, Green, Note, Outs, Policy, decode};
use peer_sessions::{Keys, PeerSessions, Told};
use std::alloc::{AllocError, Global};
use std::fmt::Write;
use std::test::Fail;

/// The engine at the face, and its peer.
const OWN: u64 = 7;

const PEER: u64 = 1;

/// Moments are below this one.
const MOMENTS: u64 = 1 << 62;

/// What an operator set.
#[derive(Clone, Copy)]
pub(crate) struct Set {
    pub sessions: u64,
    pub memory: u64,
    pub remember: u64,
    pub segment: u32,
    pub limit: u32,
}

/// What holds where nothing is set: 64 sessions, 256 MiB, a million runs, segments of 1,024 octets.
pub(crate) const SET: Set = Set {
    sessions: 64,
    memory: 268_435_456,
    remember: 1_048_576,
    segment: 1024,
    limit: 10,
};

/// The face at moment 0, which remembers numbers for an hour.
pub(crate) fn face(alloc: Global, set: Set) -> Result<PeerSessions, Fail>
    ensures whole { IfOk result (λ face. face.spent ≡ false) }
    ensures sessions { IfOk result (λ face. face.keys.bounds.sessions ≡ set.sessions) }
{
    let Ok(policy) = Policy::new(set.segment, 10_000, set.limit, 10_000) else {
        return Err(Fail::new("there is no such policy"));
    };
    if set.sessions == 0 || set.sessions >= set.remember / 2 || set.remember >= 1 << 32 {
        return Err(Fail::new("there is no such face"));
    }
    let keys = Keys {
        own: OWN,
        peer: PEER,
        first_session: 1,
        policy,
        bounds: Bounds {
            sessions: set.sessions,
            memory: set.memory,
            wanted: 0,
            segment: set.segment as u64,
            outbox: 536_870_912,
        },
        wait_ms: 1_000,
        remember: set.remember,
        remember_ms: 3_600_000,
    };
    Ok(PeerSessions::new(alloc, keys, &[], 0)?)
}

/// A datagram comes at a moment.
pub(crate) fn comes(face: &mut PeerSessions, datagram: &[u8], now: u64) -> Result<Told, Fail>
    requires { face.old.spent ≡ false }
    ensures { OnOk result (face.new.spent ≡ false) }
{
    if now >= MOMENTS {
        return Err(Fail::new("a moment is too late"));
    }
    Ok(face.arrive(datagram, now)?)
}

/// Time has passed.
pub(crate) fn ticks(face: &mut PeerSessions, now: u64) -> Result<Told, Fail>
    requires { face.old.spent ≡ false }
    ensures { OnOk result (face.new.spent ≡ false) }
{
    if now >= MOMENTS {
        return Err(Fail::new("a moment is too late"));
    }
    Ok(face.tick(now)?)
}

/// The octets that a row writes in hex.
pub(crate) fn octets(alloc: Global, text: &str) -> Result<Vec<u8>, Fail> {
    match hex::decode(alloc, text.as_bytes()) {
        Ok(octets) => Ok(octets),
        Err(_) => Err(Fail::new("a row isn't hex")),
    }
}

/// A segment of the peer's session, of this type and with these octets after its header.
pub(crate) fn segment_of(
    alloc: Global,
    kind: u8,
    session: u64,
    rest: &[u8],
) -> Result<Vec<u8>, AllocError> {
    let mut datagram = Vec::new(alloc);
    datagram.push(kind)?;
    datagram.push(PEER as u8)?;
    sdnv::write(session, &mut datagram)?;
    datagram.push(0)?;
    datagram.extend_from_slice(rest)?;
    Ok(datagram)
}

/// Appends the lines of what was closed, forgotten, handed up and noted.
pub(crate) fn write_told(alloc: Global, text: &mut String, told: &Told) -> Result<(), AllocError> {
    for session in told.gone.iter() {
        write!(text, "evicted {session}\n")?;
    }
    if let Some(runs) = told.forgotten {
        write!(text, "forgotten {runs}\n")?;
    }
    for up in told.effects.ups.as_slice() {
        let session = up.session;
        let digits = hex::encode(alloc, up.body.as_slice())?;
        write!(text, "up {session} {digits}\n")?;
    }
    for green in told.effects.greens.as_slice() {
        write_green(alloc, text, green)?;
    }
    for &note in told.effects.notes.as_slice() {
        write_note(text, note)?;
    }
    Ok(())
}

/// Appends the line of green data.
fn write_green(alloc: Global, text: &mut String, green: &Green) -> Result<(), AllocError> {
    let (session, offset, last) = (green.session, green.offset, green.last);
    let digits = hex::encode(alloc, green.body.as_slice())?;
    write!(text, "green {session} {offset} {last} {digits}\n")
}

/// Appends the line of a note.
fn write_note(text: &mut String, note: Note) -> Result<(), AllocError> {
    match note {
        Note::Evicted { session } => write!(text, "evicted {session}\n"),
        Note::Closed { session } => write!(text, "closed {session}\n"),
        Note::Refused { session, service } => write!(text, "refused {session} {service}\n"),
        Note::BadBounds { session } => write!(text, "bad_bounds {session}\n"),
        Note::Failed { session, reason } => write!(text, "failed {session} {reason}\n"),
        Note::Sent { session } => write!(text, "sent {session}\n"),
        other => {
            let name = other.name();
            write!(text, "{name}\n")
        }
    }
}

/// Appends a line for each datagram that is sent: what it says, and of data the places.
pub(crate) fn write_outs(text: &mut String, outs: &Outs) -> Result<(), Fail> {
    for datagram in outs.as_slice() {
        let Ok(segment) = decode(datagram.as_slice()) else {
            return Err(Fail::new("a datagram is no segment"));
        };
        write_out(text, segment.session, segment.content)?;
    }
    Ok(())
}

/// Appends the line of a datagram.
fn write_out(text: &mut String, session: u64, content: Content<'_>) -> Result<(), AllocError> {
    match content {
        Content::Piece { offset, body, .. } => {
            let octets = body.len();
            write!(text, "> {session} red {octets} from {offset}\n")
        }
        Content::Report { serial, .. } => write!(text, "> {session} report {serial}\n"),
        Content::ReportAck { serial } => write!(text, "> {session} ack {serial}\n"),
        Content::SenderCancelAck => write!(text, "> {session} cancel ack\n"),
        Content::ReceiverCancel { reason } => write!(text, "> {session} cancel {reason}\n"),
        _ => write!(text, "> {session}\n"),
    }
}
