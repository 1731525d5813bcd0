//! The lines that `link` writes.

ghost use Rattle.std.specs.Prelude.{◌≡◌, ◌++◌, ◌+◌, ◌∷◌, ◌<◌, ◌^◌, [], Some, Bool, length, codes, OnOk};
ghost use Rattle.std.specs.List.{flat_map};
ghost use Rattle.std.specs.String.{string_bytes};
ghost use Rattle.link_run.specs.WrittenLines.{at_line, closed_refusal, count_sent, count_steps, count_timed, deliver_refusal, if_moved, last_line, note_lines, out_lines, refusal_line, refused_line, route_of, send_refusal, sent_line, sent_lines, site_of, steps_text, timed_text, told_text, up_line, up_lines};
ghost use Rattle.replay_script.specs.NoteLines.{note_line};

use crate::counting::count_sent;
use endpoint::Octets;
use ltp_engine::Up;
use ltp_segment::Note;
use ltp_world::{End, EndEffects, WorldEffects};
use replay_script::{Line, LineFault, Route, Site, details_of, push_line, push_note};
use std::alloc::{AllocError, Global};
use window_world::At;

/// Writes what ends do at an event, where so many datagrams were sent before it: datagrams, red
/// parts, and notes.
pub(crate) fn write_told(
    alloc: Global,
    text: &mut String,
    before: u64,
    tolds: &[EndEffects],
) -> Result<(), AllocError>
    ensures { before + count_sent tolds.now < 2 ^ 64 → OnOk result (string_bytes text.new
        ≡ string_bytes text.old ++ told_text before tolds.now) }
{
    write_sent(alloc, text, before, tolds)?;
    write_ups(alloc, text, tolds)?;
    write_notes(alloc, text, tolds)
}

/// Writes the datagrams that ends send.
fn write_sent(
    alloc: Global,
    text: &mut String,
    before: u64,
    tolds: &[EndEffects],
) -> Result<(), AllocError>
    ensures { before + count_sent tolds.now < 2 ^ 64 → OnOk result (string_bytes text.new
        ≡ string_bytes text.old ++ sent_lines before tolds.now) }
{
    let mut k = before;
    'each: for told in tolds {
        let out = told.effects.out.as_slice();
        write_out(alloc, text, k, told.end, out)?;
        k = k.saturating_add(out.len() as u64);
    }
    Ok(())
}

/// Writes the datagrams that an end sends.
fn write_out(
    alloc: Global,
    text: &mut String,
    before: u64,
    end: End,
    out: &[Octets],
) -> Result<(), AllocError>
    ensures { before + length out.now < 2 ^ 64 → OnOk result (string_bytes text.new
        ≡ string_bytes text.old ++ out_lines before end out.now) }
{
    let mut k = before;
    'each: for datagram in out {
        write_datagram(alloc, text, k, end, datagram)?;
        k = k.saturating_add(1);
    }
    Ok(())
}

/// Writes a datagram, the `k`-th of all that were sent.
#[tactic(auto, unfolding(replay_script::specs::Lines::line_text))]
fn write_datagram(
    alloc: Global,
    text: &mut String,
    k: u64,
    end: End,
    datagram: &Octets,
) -> Result<(), AllocError>
    ensures { OnOk result (string_bytes text.new
        ≡ string_bytes text.old ++ sent_line k end datagram.now) }
{
    let line = Line::Sent {
        k,
        route: route_of(end),
        datagram: datagram.copy(alloc)?,
    };
    push_line(alloc, &line, text)
}

/// Writes the red parts that ends hand up.
fn write_ups(alloc: Global, text: &mut String, tolds: &[EndEffects]) -> Result<(), AllocError>
    ensures { OnOk result (string_bytes text.new
        ≡ string_bytes text.old ++ flat_map up_lines tolds.now) }
{
    'each: for told in tolds {
        write_ups_of(alloc, text, told)?;
    }
    Ok(())
}

/// Writes the red parts that an end hands up.
fn write_ups_of(alloc: Global, text: &mut String, told: &EndEffects) -> Result<(), AllocError>
    ensures { OnOk result (string_bytes text.new ≡ string_bytes text.old ++ up_lines told.now) }
{
    let end = told.end;
    let ups = told.effects.ups.as_slice();
    'each: for up in ups {
        write_up(alloc, text, end, up)?;
    }
    Ok(())
}

/// Writes a red part that an end hands up.
#[tactic(auto, unfolding(replay_script::specs::Lines::line_text))]
fn write_up(alloc: Global, text: &mut String, end: End, up: &Up) -> Result<(), AllocError>
    ensures { OnOk result (string_bytes text.new ≡ string_bytes text.old ++ up_line end up.now) }
{
    let line = Line::Up {
        site: Some(site_of(end)),
        session: up.session,
        body: up.body.copy(alloc)?,
    };
    push_line(alloc, &line, text)
}

/// Writes the notes of ends.
fn write_notes(alloc: Global, text: &mut String, tolds: &[EndEffects]) -> Result<(), AllocError>
    ensures { OnOk result (string_bytes text.new
        ≡ string_bytes text.old ++ flat_map note_lines tolds.now) }
{
    'each: for told in tolds {
        write_notes_of(alloc, text, told)?;
    }
    Ok(())
}

/// Writes the notes of an end.
fn write_notes_of(alloc: Global, text: &mut String, told: &EndEffects) -> Result<(), AllocError>
    ensures { OnOk result (string_bytes text.new ≡ string_bytes text.old ++ note_lines told.now) }
{
    let end = told.end;
    let notes = told.effects.notes.as_slice();
    'each: for note in notes {
        write_note(alloc, text, end, *note)?;
    }
    Ok(())
}

/// Writes a note of an end.
fn write_note(alloc: Global, text: &mut String, end: End, note: Note) -> Result<(), AllocError>
    ensures { OnOk result (string_bytes text.new
        ≡ string_bytes text.old ++ note_line (Some (site_of end)) note) }
{
    push_note(
        alloc,
        text,
        Some(site_of(end)),
        note.name(),
        details_of(note),
    )
}

/// Writes what ends do at events of a drain, each after its moment where the link has windows and
/// the event moved it.
pub(crate) fn write_timed(
    alloc: Global,
    text: &mut String,
    windows: bool,
    moment: u64,
    before: u64,
    ats: &[At],
) -> Result<(), AllocError>
    ensures { before + count_timed ats.now < 2 ^ 64 → OnOk result (string_bytes text.new
        ≡ string_bytes text.old ++ timed_text windows moment before ats.now) }
{
    let mut shown = moment;
    let mut k = before;
    'each: for at in ats {
        write_moved(alloc, text, windows, shown, at.now)?;
        let tolds = at.effects.as_slice();
        write_told(alloc, text, k, tolds)?;
        shown = at.now;
        k = count_sent(k, tolds);
    }
    Ok(())
}

/// Writes what ends do at events of a drain, one after the other.
pub(crate) fn write_steps(
    alloc: Global,
    text: &mut String,
    before: u64,
    steps: &[WorldEffects],
) -> Result<(), AllocError>
    ensures { before + count_steps steps.now < 2 ^ 64 → OnOk result (string_bytes text.new
        ≡ string_bytes text.old ++ steps_text before steps.now) }
{
    let mut k = before;
    'each: for step in steps {
        let tolds = step.as_slice();
        write_told(alloc, text, k, tolds)?;
        k = count_sent(k, tolds);
    }
    Ok(())
}

/// Writes the moment of an event that moved it, where the link has windows.
#[tactic(auto, unfolding(replay_script::specs::Lines::line_text))]
fn write_moved(
    alloc: Global,
    text: &mut String,
    windows: bool,
    before: u64,
    now: u64,
) -> Result<(), AllocError>
    ensures { OnOk result (string_bytes text.new
        ≡ string_bytes text.old ++ if_moved windows before now) }
{
    if !windows || now == before {
        return Ok(());
    }
    push_line(alloc, &Line::At { now }, text)
}

/// Writes that a drain ended after so many events, or that the plan of the windows ended it.
#[tactic(auto, unfolding(replay_script::specs::Lines::line_text))]
pub(crate) fn write_last(
    alloc: Global,
    text: &mut String,
    plan_ends: bool,
    events: u64,
) -> Result<(), AllocError>
    ensures { OnOk result (string_bytes text.new
        ≡ string_bytes text.old ++ last_line plan_ends events) }
{
    let line = if plan_ends {
        Line::Stop { events }
    } else {
        Line::End { events }
    };
    push_line(alloc, &line, text)
}

/// Writes that an end doesn't send a block.
#[tactic(auto, unfolding(replay_script::specs::Lines::line_text))]
pub(crate) fn write_unsent(
    alloc: Global,
    text: &mut String,
    end: End,
    cause: &'static str,
) -> Result<(), AllocError>
    ensures { OnOk result (string_bytes text.new
        ≡ string_bytes text.old ++ send_refusal end cause.now) }
{
    let line = Line::RefusedSend {
        site: Some(site_of(end)),
        cause,
    };
    push_line(alloc, &line, text)
}

/// Writes that there is no datagram to deliver.
#[tactic(auto, unfolding(replay_script::specs::Lines::line_text))]
pub(crate) fn write_undelivered(alloc: Global, text: &mut String) -> Result<(), AllocError>
    ensures { OnOk result (string_bytes text.new ≡ string_bytes text.old ++ deliver_refusal) }
{
    push_line(alloc, &Line::RefusedDeliver, text)
}

/// Writes that nothing is delivered while the link is closed.
#[tactic(auto, unfolding(replay_script::specs::Lines::line_text))]
pub(crate) fn write_closed(alloc: Global, text: &mut String) -> Result<(), AllocError>
    ensures { OnOk result (string_bytes text.new ≡ string_bytes text.old ++ closed_refusal) }
{
    push_line(alloc, &Line::RefusedClosed, text)
}

/// Writes that line `number` is refused, for what it says.
pub(crate) fn write_refusal(
    alloc: Global,
    text: &mut String,
    number: u64,
    fault: LineFault,
) -> Result<(), AllocError>
    ensures { OnOk result (string_bytes text.new
        ≡ string_bytes text.old ++ refusal_line number fault) }
{
    write_refused_line(alloc, text, number, fault.word())
}

/// Writes that line `number` is refused, for this cause.
#[tactic(auto, unfolding(replay_script::specs::Lines::line_text))]
pub(crate) fn write_refused_line(
    alloc: Global,
    text: &mut String,
    number: u64,
    cause: &'static str,
) -> Result<(), AllocError>
    ensures { OnOk result (string_bytes text.new
        ≡ string_bytes text.old ++ refused_line number cause.now) }
{
    let line = Line::RefusedLine {
        line: number,
        at: None,
        cause,
    };
    push_line(alloc, &line, text)
}

/// How a line names an end.
fn site_of(end: End) -> Site
    ensures { result ≡ site_of end }
{
    match end {
        End::First => Site::First,
        End::Second => Site::Second,
    }
}

/// Which way a datagram goes that an end sends.
fn route_of(end: End) -> Route
    ensures { result ≡ route_of end }
{
    match end {
        End::First => Route::FirstSecond,
        End::Second => Route::SecondFirst,
    }
}
