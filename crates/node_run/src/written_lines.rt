//! The lines that `node` writes.

ghost use Rattle.std.specs.Prelude.{◌≡◌, ◌<◌, ◌++◌, None, OnOk, OnErr, length};
ghost use Rattle.std.specs.List.{flat_map};
ghost use Rattle.std.specs.String.{string_bytes};
ghost use Rattle.ltp_session.specs.Engine.{SubmitFault};
ghost use Rattle.ltp_engine.specs.Refused.{refusal_of};
ghost use Rattle.replay_script.specs.Lines.{line_text};
ghost use Rattle.replay_script.specs.NoteLines.{note_line};
ghost use Rattle.node_run.specs.WrittenLines.{out_line, up_line, green_line, effects_text, block_line, refusal_line};

use endpoint::Octets;
use ltp_engine::{Effects, Greens, Notes, SubmitRefused, Up, Ups};
use ltp_segment::{Green, Note, Outs};
use replay_script::{Line, LineFault, details_of, push_line, push_note};
use std::alloc::{AllocError, Global};

/// Writes what an engine did: what is sent, red parts, pieces of green parts, and notes.
#[tactic(auto, unfolding(crate::specs::WrittenLines::effects_text))]
pub fn write_effects(alloc: Global, text: &mut String, effects: Effects) -> Result<(), AllocError>
    ensures written { OnOk result (string_bytes text.new ≡ string_bytes text.old ++ effects_text effects) }
    // Memory is wanted only where there is something to write.
    ensures memory { OnErr result (0 < length (effects_text effects)) }
{
    let Effects {
        out,
        ups,
        greens,
        notes,
    } = effects;
    write_outs(alloc, text, out)?;
    write_ups(alloc, text, ups)?;
    write_greens(alloc, text, greens)?;
    write_notes(alloc, text, notes)
}

/// Writes the datagrams that are to be sent.
fn write_outs(alloc: Global, text: &mut String, out: Outs) -> Result<(), AllocError>
    ensures written { OnOk result (string_bytes text.new ≡ string_bytes text.old ++ flat_map out_line out) }
    ensures memory { OnErr result (0 < length (flat_map out_line out)) }
{
    'each: for datagram in out.into_vec() {
        write_out(alloc, text, datagram)?;
    }
    Ok(())
}

/// Writes a datagram that is to be sent.
#[tactic(auto, unfolding(replay_script::specs::Lines::line_text))]
fn write_out(alloc: Global, text: &mut String, datagram: Octets) -> Result<(), AllocError>
    ensures { OnOk result (string_bytes text.new ≡ string_bytes text.old ++ out_line datagram) }
{
    push_line(alloc, &Line::Out { datagram }, text)
}

/// Writes the red parts that are handed up.
fn write_ups(alloc: Global, text: &mut String, ups: Ups) -> Result<(), AllocError>
    ensures written { OnOk result (string_bytes text.new ≡ string_bytes text.old ++ flat_map up_line ups) }
    ensures memory { OnErr result (0 < length (flat_map up_line ups)) }
{
    'each: for up in ups.into_vec() {
        write_up(alloc, text, up)?;
    }
    Ok(())
}

/// Writes a red part.
#[tactic(auto, unfolding(replay_script::specs::Lines::line_text))]
fn write_up(alloc: Global, text: &mut String, up: Up) -> Result<(), AllocError>
    ensures { OnOk result (string_bytes text.new ≡ string_bytes text.old ++ up_line up) }
{
    let Up { session, body } = up;
    let line = Line::Up {
        site: None,
        session,
        body,
    };
    push_line(alloc, &line, text)
}

/// Writes the pieces of green parts that are handed up.
fn write_greens(alloc: Global, text: &mut String, greens: Greens) -> Result<(), AllocError>
    ensures written { OnOk result (string_bytes text.new ≡ string_bytes text.old ++ flat_map green_line greens) }
    ensures memory { OnErr result (0 < length (flat_map green_line greens)) }
{
    'each: for green in greens.into_vec() {
        write_green(alloc, text, green)?;
    }
    Ok(())
}

/// Writes a piece of a green part.
#[tactic(auto, unfolding(replay_script::specs::Lines::line_text))]
fn write_green(alloc: Global, text: &mut String, green: Green) -> Result<(), AllocError>
    ensures { OnOk result (string_bytes text.new ≡ string_bytes text.old ++ green_line green) }
{
    let Green {
        session,
        offset,
        last,
        body,
    } = green;
    let line = Line::Green {
        session,
        offset,
        last,
        body,
    };
    push_line(alloc, &line, text)
}

/// Writes notes.
fn write_notes(alloc: Global, text: &mut String, notes: Notes) -> Result<(), AllocError>
    ensures written { OnOk result (string_bytes text.new ≡ string_bytes text.old ++ flat_map (note_line None) notes) }
    ensures memory { OnErr result (0 < length (flat_map (note_line None) notes)) }
{
    'each: for note in notes.as_slice() {
        write_note(alloc, text, *note)?;
    }
    Ok(())
}

/// Writes a note.
fn write_note(alloc: Global, text: &mut String, note: Note) -> Result<(), AllocError>
    ensures { OnOk result (string_bytes text.new ≡ string_bytes text.old ++ note_line None note) }
{
    push_note(alloc, text, None, note.name(), details_of(note))
}

/// Writes that a block isn't sent.
#[tactic(auto, unfolding(replay_script::specs::Lines::line_text))]
pub fn write_block(
    alloc: Global,
    text: &mut String,
    refused: SubmitRefused,
) -> Result<(), AllocError>
    ensures { (fault : SubmitFault) → refused ≡ refusal_of fault
        → OnOk result (string_bytes text.new ≡ string_bytes text.old ++ block_line fault) }
{
    let line = Line::RefusedSend {
        site: None,
        cause: refused.word(),
    };
    push_line(alloc, &line, text)
}

/// Writes that line `number` is refused.
#[tactic(auto, unfolding(replay_script::specs::Lines::line_text))]
pub fn write_refusal(
    alloc: Global,
    text: &mut String,
    number: u64,
    fault: LineFault,
) -> Result<(), AllocError>
    ensures { OnOk result (string_bytes text.new ≡ string_bytes text.old ++ refusal_line number fault) }
{
    let line = Line::RefusedLine {
        line: number,
        at: None,
        cause: fault.word(),
    };
    push_line(alloc, &line, text)
}
