//! The lines that `world` writes.

ghost use Rattle.std.specs.Prelude.{◌≡◌, ◌<◌, ◌++◌, OnOk, OnErr, length};
ghost use Rattle.std.specs.List.{flat_map};
ghost use Rattle.std.specs.String.{string_bytes};
ghost use Rattle.ltp_session.specs.Engine.{SubmitFault};
ghost use Rattle.ltp_engine.specs.Refused.{refusal_of};
ghost use Rattle.path_laws.specs.Places.{node_place};
ghost use Rattle.world_run.specs.WrittenLines.{site_of, route_of, up_line, join_line, note_line, send_refusal, deliver_refusal, refused_line, refusal_line, after_drain_line, end_line};
ghost use Rattle.world_run.specs.Shows.{sent_at_line, told_text};

use gate_lines::push_gate_note;
use ltp_engine::SubmitRefused;
use path_laws::{
    EndJoin, JoinAt, NoteAt, PathEffects, PathEnd, Place, PlaceJoins, PlaceNotes, PlaceUps, SentAt,
    SentList, UpAt,
};
use replay_script::{Line, LineFault, Route, Site, push_line};
use std::alloc::{AllocError, Global};

/// Writes what an event does: datagrams, blocks that came whole, answers of joiners, and notes.
#[tactic(auto, unfolding(crate::specs::Shows::told_text))]
pub fn write_effects(
    alloc: Global,
    text: &mut String,
    effects: PathEffects,
) -> Result<(), AllocError>
    ensures written { OnOk result (string_bytes text.new ≡ string_bytes text.old ++ told_text effects) }
    // Memory is wanted only where there is something to write.
    ensures memory { OnErr result (0 < length (told_text effects)) }
{
    let PathEffects {
        sent,
        ups,
        joins,
        notes,
    } = effects;
    write_all_sent(alloc, text, sent)?;
    write_ups(alloc, text, ups)?;
    write_joins(alloc, text, joins)?;
    write_notes(alloc, text, notes)
}

/// Writes that a drain ended after so many events.
#[tactic(auto, unfolding(replay_script::specs::Lines::line_text))]
pub fn write_end(alloc: Global, text: &mut String, events: u64) -> Result<(), AllocError>
    ensures { OnOk result (string_bytes text.new ≡ string_bytes text.old ++ end_line events) }
{
    push_line(alloc, &Line::End { events }, text)
}

/// Writes the datagrams that were sent.
fn write_all_sent(alloc: Global, text: &mut String, sent: SentList) -> Result<(), AllocError>
    ensures written { OnOk result (string_bytes text.new ≡ string_bytes text.old ++ flat_map sent_at_line sent) }
    ensures memory { OnErr result (0 < length (flat_map sent_at_line sent)) }
{
    'each: for datagram in sent.into_vec() {
        write_sent(alloc, text, datagram)?;
    }
    Ok(())
}

/// Writes a datagram that was sent.
#[tactic(auto, unfolding(replay_script::specs::Lines::line_text))]
fn write_sent(alloc: Global, text: &mut String, sent: SentAt) -> Result<(), AllocError>
    ensures { OnOk result (string_bytes text.new ≡ string_bytes text.old ++ sent_at_line sent) }
{
    let line = Line::Sent {
        k: sent.k as u64,
        route: route_of(sent.from),
        datagram: sent.datagram,
    };
    push_line(alloc, &line, text)
}

/// Writes the blocks that came whole.
fn write_ups(alloc: Global, text: &mut String, ups: PlaceUps) -> Result<(), AllocError>
    ensures written { OnOk result (string_bytes text.new ≡ string_bytes text.old ++ flat_map up_line ups) }
    ensures memory { OnErr result (0 < length (flat_map up_line ups)) }
{
    'each: for up in ups.into_vec() {
        write_up(alloc, text, up)?;
    }
    Ok(())
}

/// Writes a block that came whole.
#[tactic(auto, unfolding(replay_script::specs::Lines::line_text))]
fn write_up(alloc: Global, text: &mut String, up: UpAt) -> Result<(), AllocError>
    ensures { OnOk result (string_bytes text.new ≡ string_bytes text.old ++ up_line up) }
{
    let UpAt {
        place,
        session,
        body,
    } = up;
    let line = Line::Up {
        site: Some(site_of(place)),
        session,
        body,
    };
    push_line(alloc, &line, text)
}

/// Writes what the ends' joiners answered.
fn write_joins(alloc: Global, text: &mut String, joins: PlaceJoins) -> Result<(), AllocError>
    ensures written { OnOk result (string_bytes text.new ≡ string_bytes text.old ++ flat_map join_line joins) }
    ensures memory { OnErr result (0 < length (flat_map join_line joins)) }
{
    'each: for join in joins.into_vec() {
        write_join(alloc, text, join)?;
    }
    Ok(())
}

/// Writes what an end's joiner answered.
#[tactic(auto, unfolding(replay_script::specs::Lines::line_text))]
fn write_join(alloc: Global, text: &mut String, join: JoinAt) -> Result<(), AllocError>
    ensures { OnOk result (string_bytes text.new ≡ string_bytes text.old ++ join_line join) }
{
    let JoinAt { place, answer } = join;
    let site = site_of(place);
    let word = answer.word();
    let line = match answer {
        EndJoin::Whole { body } => Line::JoinWhole { site, body },
        _ => Line::Join { site, word },
    };
    push_line(alloc, &line, text)
}

/// Writes notes.
fn write_notes(alloc: Global, text: &mut String, notes: PlaceNotes) -> Result<(), AllocError>
    ensures written { OnOk result (string_bytes text.new ≡ string_bytes text.old ++ flat_map note_line notes) }
    ensures memory { OnErr result (0 < length (flat_map note_line notes)) }
{
    'each: for noted in notes.into_vec() {
        write_note(alloc, text, noted)?;
    }
    Ok(())
}

/// Writes a note.
fn write_note(alloc: Global, text: &mut String, noted: NoteAt) -> Result<(), AllocError>
    ensures { OnOk result (string_bytes text.new ≡ string_bytes text.old ++ note_line noted) }
{
    push_gate_note(alloc, text, site_of(noted.place), noted.note)
}

/// Writes that an end's node doesn't send a block.
#[tactic(auto, unfolding(replay_script::specs::Lines::line_text))]
pub fn write_unsent(
    alloc: Global,
    text: &mut String,
    end: PathEnd,
    refused: SubmitRefused,
) -> Result<(), AllocError>
    ensures { (fault : SubmitFault) → refused ≡ refusal_of fault
        → OnOk result (string_bytes text.new ≡ string_bytes text.old ++ send_refusal (node_place end) fault) }
{
    let line = Line::RefusedSend {
        site: Some(site_of(end.node())),
        cause: refused.word(),
    };
    push_line(alloc, &line, text)
}

/// Writes that there is no datagram to deliver.
#[tactic(auto, unfolding(replay_script::specs::Lines::line_text))]
pub fn write_undelivered(alloc: Global, text: &mut String) -> Result<(), AllocError>
    ensures { OnOk result (string_bytes text.new ≡ string_bytes text.old ++ deliver_refusal) }
{
    push_line(alloc, &Line::RefusedDeliver, text)
}

/// Writes that line `number` is refused, for what it says.
pub(crate) fn write_refusal(
    alloc: Global,
    text: &mut String,
    number: u64,
    fault: LineFault,
) -> Result<(), AllocError>
    ensures { OnOk result (string_bytes text.new ≡ string_bytes text.old ++ refusal_line number fault) }
{
    write_refused_line(alloc, text, number, fault.word())
}

/// Writes that line `number` is refused, since it stands after `drain`.
pub(crate) fn write_after_drain(
    alloc: Global,
    text: &mut String,
    number: u64,
) -> Result<(), AllocError>
    ensures { OnOk result (string_bytes text.new ≡ string_bytes text.old ++ after_drain_line number) }
{
    write_refused_line(alloc, text, number, "AfterDrain")
}

/// Writes that line `number` is refused, for this cause.
#[tactic(auto, unfolding(replay_script::specs::Lines::line_text))]
fn write_refused_line(
    alloc: Global,
    text: &mut String,
    number: u64,
    cause: &'static str,
) -> Result<(), AllocError>
    ensures { OnOk result (string_bytes text.new ≡ string_bytes text.old ++ refused_line number cause.now) }
{
    let line = Line::RefusedLine {
        line: number,
        at: None,
        cause,
    };
    push_line(alloc, &line, text)
}

/// How a line names a place.
fn site_of(place: Place) -> Site
    ensures { result ≡ site_of place }
{
    match place {
        Place::OldNode => Site::OldNode,
        Place::OldFace => Site::GateOld,
        Place::NewFace => Site::GateNew,
        Place::NewNode => Site::NewNode,
    }
}

/// Which way a datagram goes that a place sends.
fn route_of(place: Place) -> Route
    ensures { result ≡ route_of place }
{
    match place {
        Place::OldNode => Route::OldGate,
        Place::OldFace => Route::GateOld,
        Place::NewFace => Route::GateNew,
        Place::NewNode => Route::NewGate,
    }
}
