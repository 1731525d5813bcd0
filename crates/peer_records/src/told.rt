//! What is told of sessions that end.

ghost use Rattle.std.specs.Prelude.{◌≡◌, map};
ghost use Rattle.std.specs.List.{list_any};
ghost use Rattle.gate_records.specs.Happened.{engine_ends};
ghost use Rattle.gate_records.specs.Ties.{cancels, left_after, cancelled_by, end_cancels, is_cancel};
ghost use Rattle.peer_gateway.specs.Answers.{remark_seen, told_seen};
ghost use Rattle.peer_records.specs.Happened.{notes_in};
ghost use Rattle.peer_records.specs.Told.{ends_told, whole_told, is_whole, told_of, may_end};

use gate_cases::Face;
use journal_file::How;
use ltp_segment::Note;
use peer_gateway::{Remark, RemarkAt};

/// The own session of whose end it may tell, and how it ended then.
pub(crate) fn ends_told(told: &RemarkAt) -> Option<(u64, How)>
    ensures { result ≡ ends_told (remark_seen (told.now).remark) }
{
    match &told.remark {
        Remark::Engine { note } => engine_ends(*note),
        Remark::Forgotten { .. }
        | Remark::Green { .. }
        | Remark::Began { .. }
        | Remark::Bundle { .. }
        | Remark::Case { .. }
        | Remark::Left { .. }
        | Remark::Reported { .. }
        | Remark::Unreported { .. }
        | Remark::End { .. } => None,
    }
}

fn engine_ends(note: Note) -> Option<(u64, How)>
    ensures { result ≡ engine_ends note }
{
    match note {
        Note::Sent { session } => Some((session, How::Sent)),
        Note::Failed { session, .. } => Some((session, How::Failed)),
        Note::Cancelled { session, .. } => Some((session, How::Cancelled)),
        Note::Refused { .. }
        | Note::Evicted { .. }
        | Note::BadBounds { .. }
        | Note::Closed { .. }
        | Note::HistoryFull { .. }
        | Note::Stranger
        | Note::BadSegment { .. } => None,
    }
}

/// The session of the peer whose block it tells to have come whole.
fn whole_told(told: &RemarkAt) -> Option<u64>
    ensures { result ≡ whole_told (remark_seen (told.now).remark) }
{
    match &told.remark {
        Remark::Case { session, .. } | Remark::End { session, .. } => Some(*session),
        Remark::Engine { .. }
        | Remark::Forgotten { .. }
        | Remark::Green { .. }
        | Remark::Began { .. }
        | Remark::Bundle { .. }
        | Remark::Left { .. }
        | Remark::Reported { .. }
        | Remark::Unreported { .. } => None,
    }
}

// ---- whether any session of the peer can be over

/// Whether any session of the peer can be over, where this is told.
pub(crate) fn may_be_over(told: &[RemarkAt]) -> bool
    ensures { result ≡ list_any (λ t. may_end (told_seen t)) told.now }
{
    told.iter().any(|one| may_end(one))
}

/// Whether one can be over by this.
fn may_end(told: &RemarkAt) -> bool
    ensures { result ≡ may_end (told_seen told.now) }
{
    whole_told(told).is_some() || tells_cancel(told)
}

/// Whether it tells that a session was cancelled.
fn tells_cancel(told: &RemarkAt) -> bool
    ensures { result ≡ end_cancels (ends_told (remark_seen (told.now).remark)) }
{
    match ends_told(told) {
        Some((_, how)) => is_cancel(how),
        None => false,
    }
}

fn is_cancel(how: How) -> bool
    ensures { result ≡ is_cancel how }
{
    match how {
        How::Sent | How::Failed => false,
        How::Cancelled => true,
    }
}

// ---- whether the block of a session came whole

/// Whether the block of a session is told to have come whole.
pub(crate) fn came_whole(told: &[RemarkAt], face: Face, session: u64) -> bool
    ensures { result ≡ list_any (λ t. is_whole face session (told_seen t)) told.now }
{
    told.iter().any(|one| is_whole(one, face, session))
}

/// Whether it tells that of this session.
fn is_whole(told: &RemarkAt, face: Face, session: u64) -> bool
    ensures { result ≡ is_whole face session (told_seen told.now) }
{
    match whole_told(told) {
        Some(number) => told.face == face && number == session,
        None => false,
    }
}

// ---- whether a session was cancelled

/// Whether it is told that the sender of this session cancelled it, where so many own sessions have its
/// number.
pub(crate) fn is_cancelled_by(
    told: &[RemarkAt],
    is_open: bool,
    own: usize,
    face: Face,
    session: u64,
) -> bool
    ensures { result ≡ cancelled_by is_open own face session (notes_in (map told_seen told.now)) }
{
    let mut left = own;
    'told: for one in told {
        let end = told_of(one, face, session);
        if cancels(is_open, left, end) {
            return true;
        }
        left = left_after(is_open, left, end);
    }
    false
}

/// How the session of this number ended, where it tells of one's end.
fn told_of(told: &RemarkAt, face: Face, session: u64) -> Option<How>
    ensures { result ≡ told_of face session (told_seen told.now) }
{
    match ends_told(told) {
        Some((number, how)) if told.face == face && number == session => Some(how),
        _ => None,
    }
}

/// Whether an end that is told of is none of an own session.
fn cancels(is_open: bool, left: usize, end: Option<How>) -> bool
    ensures { result ≡ cancels is_open left end }
{
    match end {
        Some(how) => is_cancel(how) && (is_open || left == 0),
        None => false,
    }
}

/// Of how many own sessions nothing told yet.
fn left_after(is_open: bool, left: usize, end: Option<How>) -> usize
    ensures { result ≡ left_after is_open left end }
{
    match end {
        Some(_) if !is_open => left.saturating_sub(1),
        _ => left,
    }
}
