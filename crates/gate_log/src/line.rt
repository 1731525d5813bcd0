//! The line of an event.

ghost use Rattle.std.specs.Prelude.{◌≡◌, ◌++◌, ◌∷◌, [], codes, IfSome, OnOk};
ghost use Rattle.std.specs.String.{string_bytes};
ghost use Rattle.serde_json.specs.Data.{string};
ghost use Rattle.serde_json.specs.Written.{compact_text};
ghost use Rattle.gate_log.specs.Subjects.{IsSubject};
ghost use Rattle.gate_log.specs.Values.{count, or_null, bundle};
ghost use Rattle.gate_log.specs.Lines as spec;
ghost use Rattle.gate_log.specs.Written.{IsPlain, later_text, later_texts, written_line, written_bundle, subject_rest};

use crate::event::{BundleEvent, Event, LinkEvent, SessionEvent};
use crate::member::{
    push_bool, push_cause, push_count, push_count_if, push_count_or_null, push_created, push_face,
    push_fragment, push_kinds, push_moment, push_two, push_until, push_until_or_null, push_version,
    push_word,
};
use crate::name::push_name;
use crate::subject::Subject;
use gate_cases::Face;
use ltp_segment::SegmentCause;
use std::alloc::AllocError;

/// Appends the line of an event that happened at a moment, in milliseconds since the start of the
/// year 2000 in UTC. Where memory runs out, a part of it may stand there.
pub fn write_line(text: &mut String, at: u64, event: &Event) -> Result<(), AllocError>
    requires { spec.IsNamed event.now }
    ensures { OnOk result (string_bytes text.new
        ≡ string_bytes text.old ++ spec.line_of at event.now) }
{
    push_line(text, at, event)
}

fn push_line(text: &mut String, at: u64, event: &Event) -> Result<(), AllocError>
    requires { spec.IsNamed event.now }
    ensures { OnOk result (string_bytes text.new
        ≡ string_bytes text.old ++ written_line at event.now) }
{
    text.push_str("{\"at\":")?;
    push_moment(text, at)?;
    push_event(text, event)?;
    text.push_str("}\n")
}

#[tactic(auto, unfolding(json::specs::Print::escape_byte))]
fn push_event(text: &mut String, event: &Event) -> Result<(), AllocError>
    requires { spec.IsNamed event.now }
    ensures { OnOk result (string_bytes text.new
        ≡ string_bytes text.old ++ later_texts (spec.event_entries event.now)) }
{
    match event {
        Event::Start {
            old,
            new,
            marks,
            pending,
        } => push_start(text, *old, *new, *marks, *pending),
        Event::MetricsFailed => push_word(text, "event", "metrics_failed"),
        Event::Link { face, what } => push_link(text, *face, *what),
        Event::Session {
            face,
            session,
            what,
        } => push_session(text, *face, *session, *what),
        Event::Bundle {
            face,
            session,
            subject,
            what,
        } => {
            push_block(text, *face, *session, None, *what)?;
            push_subject(text, subject)
        }
        Event::InRow {
            face,
            session,
            index,
            subject,
            what,
        } => {
            push_block(text, *face, *session, Some(*index), *what)?;
            push_subject(text, subject)
        }
        Event::LeftOut {
            face,
            session,
            index,
            subject,
            blocks,
            residue,
        } => {
            push_left(text, *face, *session, *index, blocks.as_slice(), *residue)?;
            push_subject(text, subject)
        }
        Event::Waiting { face, subject } => {
            push_called(text, "resumed", *face)?;
            push_subject(text, subject)
        }
    }
}

#[tactic(auto, unfolding(json::specs::Print::escape_byte))]
fn push_start(
    text: &mut String,
    old: u64,
    new: u64,
    marks: u64,
    pending: u64,
) -> Result<(), AllocError>
    ensures { OnOk result (string_bytes text.new ≡ string_bytes text.old
        ++ later_texts (spec.event_entries (Event.Start old new marks pending))) }
{
    push_word(text, "event", "start")?;
    push_two(text, "first_session", old, new)?;
    push_count(text, "marks", marks)?;
    push_count(text, "pending", pending)
}

// ---- a link

#[tactic(auto, unfolding(json::specs::Print::escape_byte))]
fn push_link(text: &mut String, face: Face, what: LinkEvent) -> Result<(), AllocError>
    ensures { OnOk result (string_bytes text.new
        ≡ string_bytes text.old ++ later_texts (spec.link_entries face what)) }
{
    match what {
        LinkEvent::ContactOpened { rate, until } => push_opened(text, face, rate, until),
        LinkEvent::ContactClosed { until } => push_closed(text, face, until),
        LinkEvent::Stranger => push_called(text, "stranger", face),
        LinkEvent::BadSegment { place, cause } => push_bad_segment(text, face, place, cause),
        LinkEvent::PollFailed => push_called(text, "poll_failed", face),
        LinkEvent::SendFailed { datagrams } => push_lost(text, "send_failed", face, datagrams),
        LinkEvent::OutboxFull { datagrams } => push_lost(text, "outbox_full", face, datagrams),
        LinkEvent::Forgotten { runs } => push_forgotten(text, face, runs),
    }
}

#[tactic(auto, unfolding(json::specs::Print::escape_byte))]
fn push_forgotten(text: &mut String, face: Face, runs: u64) -> Result<(), AllocError>
    ensures { OnOk result (string_bytes text.new ≡ string_bytes text.old
        ++ later_texts (spec.link_entries face (LinkEvent.Forgotten runs))) }
{
    push_called(text, "forgotten", face)?;
    push_count(text, "runs", runs)
}

#[tactic(auto, unfolding(json::specs::Print::escape_byte))]
fn push_opened(
    text: &mut String,
    face: Face,
    rate: Option<u64>,
    until: u64,
) -> Result<(), AllocError>
    ensures { OnOk result (string_bytes text.new ≡ string_bytes text.old
        ++ later_texts (spec.link_entries face (LinkEvent.ContactOpened rate until))) }
{
    push_called(text, "contact_opened", face)?;
    push_count_or_null(text, "rate", rate)?;
    push_until(text, until)
}

#[tactic(auto, unfolding(json::specs::Print::escape_byte))]
fn push_closed(text: &mut String, face: Face, until: Option<u64>) -> Result<(), AllocError>
    ensures { OnOk result (string_bytes text.new ≡ string_bytes text.old
        ++ later_texts (spec.link_entries face (LinkEvent.ContactClosed until))) }
{
    push_called(text, "contact_closed", face)?;
    push_until_or_null(text, until)
}

#[tactic(auto, unfolding(json::specs::Print::escape_byte))]
fn push_bad_segment(
    text: &mut String,
    face: Face,
    place: usize,
    cause: SegmentCause,
) -> Result<(), AllocError>
    ensures { OnOk result (string_bytes text.new ≡ string_bytes text.old
        ++ later_texts (spec.link_entries face (LinkEvent.BadSegment place cause))) }
{
    push_cause(text, cause.word())?;
    push_called(text, "bad_segment", face)?;
    push_count(text, "place", place as u64)
}

/// What happened, and at which face.
#[tactic(auto, unfolding(json::specs::Print::escape_byte))]
fn push_called(text: &mut String, event: &'static str, face: Face) -> Result<(), AllocError>
    requires { IsPlain event.now }
    ensures { OnOk result (string_bytes text.new ≡ string_bytes text.old
        ++ later_texts (spec.called event.now ∷ spec.at_face face ∷ [])) }
{
    push_word(text, "event", event)?;
    push_face(text, face)
}

/// How many datagrams were lost.
#[tactic(auto, unfolding(json::specs::Print::escape_byte))]
fn push_lost(
    text: &mut String,
    event: &'static str,
    face: Face,
    datagrams: u64,
) -> Result<(), AllocError>
    requires { IsPlain event.now }
    ensures { OnOk result (string_bytes text.new ≡ string_bytes text.old ++ later_texts
        ((codes "datagrams", count datagrams) ∷ spec.called event.now ∷ spec.at_face face ∷ [])) }
{
    push_count(text, "datagrams", datagrams)?;
    push_called(text, event, face)
}

// ---- a session

#[tactic(auto, unfolding(json::specs::Print::escape_byte))]
fn push_session(
    text: &mut String,
    face: Face,
    session: u64,
    what: SessionEvent,
) -> Result<(), AllocError>
    ensures { OnOk result (string_bytes text.new
        ≡ string_bytes text.old ++ later_texts (spec.session_entries face session what)) }
{
    match what {
        SessionEvent::BadBundle { place, cause } => {
            push_cause(text, cause.word())?;
            push_numbered(text, "bad_bundle", face, "place", place as u64, session)
        }
        SessionEvent::BadEnd {
            index,
            place,
            cause,
        } => {
            push_cause(text, cause.word())?;
            push_end_of_row(text, face, index, place as u64, session)
        }
        SessionEvent::Began { bundles, octets } => {
            push_count(text, "bundles", bundles)?;
            push_numbered(text, "began", face, "octets", octets, session)
        }
        SessionEvent::Green {
            last,
            octets,
            offset,
        } => push_green(text, face, session, last, octets, offset),
        SessionEvent::Failed { reason } => {
            push_ended(text, "failed", face, session, reason, "receiving")
        }
        SessionEvent::Cancelled { reason } => {
            push_ended(text, "cancelled", face, session, reason, "receiving")
        }
        SessionEvent::Refused { service } => {
            push_numbered(text, "refused", face, "service", service, session)
        }
        SessionEvent::Evicted => push_in(text, "evicted", face, session),
        SessionEvent::BadBounds => push_in(text, "bad_bounds", face, session),
        SessionEvent::Closed => push_in(text, "closed", face, session),
        SessionEvent::HistoryFull => push_in(text, "history_full", face, session),
    }
}

/// What is no bundle after those of a block, and where.
#[tactic(auto, unfolding(json::specs::Print::escape_byte))]
fn push_end_of_row(
    text: &mut String,
    face: Face,
    index: u64,
    place: u64,
    session: u64,
) -> Result<(), AllocError>
    ensures { OnOk result (string_bytes text.new ≡ string_bytes text.old ++ later_texts
        (spec.called (codes "bad_bundle") ∷ spec.at_face face ∷ (codes "index", count index)
        ∷ (codes "place", count place) ∷ spec.in_session session ∷ [])) }
{
    push_called(text, "bad_bundle", face)?;
    push_count(text, "index", index)?;
    push_count(text, "place", place)?;
    push_count(text, "session", session)
}

#[tactic(auto, unfolding(json::specs::Print::escape_byte))]
fn push_green(
    text: &mut String,
    face: Face,
    session: u64,
    last: bool,
    octets: u64,
    offset: u64,
) -> Result<(), AllocError>
    ensures { OnOk result (string_bytes text.new ≡ string_bytes text.old ++ later_texts
        (spec.session_entries face session (SessionEvent.Green last octets offset))) }
{
    push_called(text, "green", face)?;
    push_bool(text, "last", last)?;
    push_count(text, "octets", octets)?;
    push_count(text, "offset", offset)?;
    push_count(text, "session", session)
}

/// What happened, at which face and in which session.
#[tactic(auto, unfolding(json::specs::Print::escape_byte))]
fn push_in(
    text: &mut String,
    event: &'static str,
    face: Face,
    session: u64,
) -> Result<(), AllocError>
    requires { IsPlain event.now }
    ensures { OnOk result (string_bytes text.new ≡ string_bytes text.old ++ later_texts
        (spec.called event.now ∷ spec.at_face face ∷ spec.in_session session ∷ [])) }
{
    push_called(text, event, face)?;
    push_count(text, "session", session)
}

/// The same, with a number.
#[tactic(auto, unfolding(json::specs::Print::escape_byte))]
fn push_numbered(
    text: &mut String,
    event: &'static str,
    face: Face,
    key: &'static str,
    number: u64,
    session: u64,
) -> Result<(), AllocError>
    requires event { IsPlain event.now }
    requires key { IsPlain key.now }
    ensures { OnOk result (string_bytes text.new ≡ string_bytes text.old ++ later_texts
        (spec.called event.now ∷ spec.at_face face ∷ (key.now, count number)
        ∷ spec.in_session session ∷ [])) }
{
    push_called(text, event, face)?;
    push_count(text, key, number)?;
    push_count(text, "session", session)
}

/// A session that was ended early, and whose it is.
#[tactic(auto, unfolding(json::specs::Print::escape_byte))]
fn push_ended(
    text: &mut String,
    event: &'static str,
    face: Face,
    session: u64,
    reason: u8,
    side: &'static str,
) -> Result<(), AllocError>
    requires event { IsPlain event.now }
    requires side { IsPlain side.now }
    ensures { OnOk result (string_bytes text.new ≡ string_bytes text.old ++ later_texts
        (spec.called event.now ∷ spec.at_face face ∷ (codes "reason", count reason)
        ∷ spec.in_session session ∷ (codes "side", string side.now) ∷ [])) }
{
    push_numbered(text, event, face, "reason", u64::from(reason), session)?;
    push_word(text, "side", side)
}

// ---- a block

#[tactic(auto, using(crate::proofs::LineLemmas::later_counted), unfolding(json::specs::Print::escape_byte))]
fn push_block(
    text: &mut String,
    face: Face,
    session: u64,
    index: Option<u64>,
    what: BundleEvent,
) -> Result<(), AllocError>
    ensures { OnOk result (string_bytes text.new
        ≡ string_bytes text.old ++ later_texts (spec.block_entries face session index what)) }
{
    match what {
        BundleEvent::Resumed => push_in_row(text, "resumed", face, index, session),
        BundleEvent::Passed { first, pieces } => {
            push_passed(text, face, session, index, first, pieces)
        }
        BundleEvent::Untranslated { cause } => {
            push_cause(text, cause.word())?;
            push_in_row(text, "untranslated", face, index, session)
        }
        BundleEvent::Expired => push_in_row(text, "expired", face, index, session),
        BundleEvent::HopLimit => push_in_row(text, "hop_limit", face, index, session),
        BundleEvent::Storage => push_in_row(text, "storage", face, index, session),
        BundleEvent::Reported { report } => push_reported(text, face, session, index, report),
        BundleEvent::Unreported => push_in_row(text, "unreported", face, index, session),
        BundleEvent::Sent { bundles } => {
            push_count_if(text, "bundles", bundles)?;
            push_in(text, "sent", face, session)
        }
        BundleEvent::Failed { bundles, reason } => {
            push_lost_block(text, "failed", face, session, bundles, reason)
        }
        BundleEvent::Cancelled { bundles, reason } => {
            push_lost_block(text, "cancelled", face, session, bundles, reason)
        }
    }
}

/// What happened to a bundle, at which face, in which session, and at which place of its row.
#[tactic(auto, using(crate::proofs::LineLemmas::later_counted), unfolding(json::specs::Print::escape_byte))]
fn push_in_row(
    text: &mut String,
    event: &'static str,
    face: Face,
    index: Option<u64>,
    session: u64,
) -> Result<(), AllocError>
    requires { IsPlain event.now }
    ensures { OnOk result (string_bytes text.new ≡ string_bytes text.old
        ++ later_texts (spec.row_entries event.now face index session)) }
{
    push_called(text, event, face)?;
    push_count_if(text, "index", index)?;
    push_count(text, "session", session)
}

#[tactic(auto, using(crate::proofs::LineLemmas::later_counted), unfolding(json::specs::Print::escape_byte))]
fn push_passed(
    text: &mut String,
    face: Face,
    session: u64,
    index: Option<u64>,
    first: Option<u64>,
    pieces: u64,
) -> Result<(), AllocError>
    ensures { OnOk result (string_bytes text.new ≡ string_bytes text.old
        ++ later_texts (spec.block_entries face session index (BundleEvent.Passed first pieces))) }
{
    push_called(text, "passed", face)?;
    push_count_if(text, "first", first)?;
    push_count_if(text, "index", index)?;
    push_count(text, "pieces", pieces)?;
    push_count(text, "session", session)
}

#[tactic(auto, using(crate::proofs::LineLemmas::later_counted), unfolding(json::specs::Print::escape_byte))]
fn push_reported(
    text: &mut String,
    face: Face,
    session: u64,
    index: Option<u64>,
    report: Option<u64>,
) -> Result<(), AllocError>
    ensures { OnOk result (string_bytes text.new ≡ string_bytes text.old
        ++ later_texts (spec.block_entries face session index (BundleEvent.Reported report))) }
{
    push_called(text, "reported", face)?;
    push_count_if(text, "index", index)?;
    push_count_if(text, "report", report)?;
    push_count(text, "session", session)
}

/// A block of the gateway's own whose session was ended early.
#[tactic(auto, using(crate::proofs::LineLemmas::later_counted), unfolding(json::specs::Print::escape_byte))]
fn push_lost_block(
    text: &mut String,
    event: &'static str,
    face: Face,
    session: u64,
    bundles: Option<u64>,
    reason: u8,
) -> Result<(), AllocError>
    requires { IsPlain event.now }
    ensures { OnOk result (string_bytes text.new ≡ string_bytes text.old
        ++ later_texts (spec.sent_entries face session bundles event.now reason)) }
{
    push_count_if(text, "bundles", bundles)?;
    push_ended(text, event, face, session, reason, "sending")
}

/// A bundle that passed without a part of it.
#[tactic(auto, using(crate::proofs::LineLemmas::later_counted), unfolding(json::specs::Print::escape_byte))]
fn push_left(
    text: &mut String,
    face: Face,
    session: u64,
    index: Option<u64>,
    blocks: &[u8],
    residue: bool,
) -> Result<(), AllocError>
    ensures { OnOk result (string_bytes text.new ≡ string_bytes text.old
        ++ later_texts (spec.left_entries face session index blocks.now residue)) }
{
    push_kinds(text, blocks)?;
    push_called(text, "left_out", face)?;
    push_count_if(text, "index", index)?;
    push_bool(text, "residue", residue)?;
    push_count(text, "session", session)
}

#[tactic(auto, unfolding(json::specs::Print::escape_byte, crate::specs::Written::later_text))]
fn push_subject(text: &mut String, subject: &Option<Subject>) -> Result<(), AllocError>
    requires { IfSome subject.now IsSubject }
    ensures { OnOk result (string_bytes text.new
        ≡ string_bytes text.old ++ later_text (codes "subject", or_null bundle subject.now)) }
{
    text.push_str(",\"subject\":")?;
    push_bundle_or_null(text, subject)
}

fn push_bundle_or_null(text: &mut String, subject: &Option<Subject>) -> Result<(), AllocError>
    requires { IfSome subject.now IsSubject }
    ensures { OnOk result (string_bytes text.new
        ≡ string_bytes text.old ++ compact_text (or_null bundle subject.now)) }
{
    match subject {
        Some(subject) => push_bundle(text, subject),
        None => text.push_str("null"),
    }
}

fn push_bundle(text: &mut String, subject: &Subject) -> Result<(), AllocError>
    requires { IsSubject subject.now }
    ensures { OnOk result (string_bytes text.new
        ≡ string_bytes text.old ++ compact_text (bundle subject.now)) }
{
    push_object(text, subject)
}

fn push_object(text: &mut String, subject: &Subject) -> Result<(), AllocError>
    requires { IsSubject subject.now }
    ensures { OnOk result (string_bytes text.new
        ≡ string_bytes text.old ++ written_bundle subject.now) }
{
    text.push_str("{\"creation\":")?;
    push_created(text, subject.creation)?;
    push_rest(text, subject)?;
    text.push_str("}")
}

#[tactic(auto, unfolding(json::specs::Print::escape_byte))]
fn push_rest(text: &mut String, subject: &Subject) -> Result<(), AllocError>
    requires { IsSubject subject.now }
    ensures { OnOk result (string_bytes text.new
        ≡ string_bytes text.old ++ later_texts (subject_rest subject.now)) }
{
    push_name(text, "destination", &subject.destination)?;
    push_fragment(text, subject.fragment)?;
    push_count(text, "payload", subject.payload)?;
    push_name(text, "source", &subject.source)?;
    push_version(text, subject.creation)
}
