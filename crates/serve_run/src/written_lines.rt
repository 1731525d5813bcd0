//! The lines that `serve` writes about the gate.
ghost use Rattle.std.specs.Prelude.{◌≡◌, ◌++◌, Some, OnOk};
ghost use Rattle.std.specs.List.{flat_map};
ghost use Rattle.std.specs.String.{string_bytes};
ghost use Rattle.serve_run.specs.WrittenLines.{site_of, up_line, face_note_line, step_text};

use gate_cases::Face;
use gate_lines::push_gate_note;
use gateway_core::{FaceNote, FaceUp, FaceUps, GateNotes};
use replay_script::{Line, Site, push_line};
use std::alloc::{AllocError, Global};

/// Writes the lines of a step: red parts that were handed up, and notes.
#[tactic(auto, unfolding(crate::specs::WrittenLines::step_text))]
pub fn write_step(
    alloc: Global,
    text: &mut String,
    ups: FaceUps,
    notes: &GateNotes,
) -> Result<(), AllocError>
    ensures { OnOk result (string_bytes text.new ≡ string_bytes text.old ++ step_text ups notes.now) }
{
    write_ups(alloc, text, ups)?;
    write_notes(alloc, text, notes.as_slice())
}

/// Writes the red parts that were handed up.
fn write_ups(alloc: Global, text: &mut String, ups: FaceUps) -> Result<(), AllocError>
    ensures { OnOk result (string_bytes text.new ≡ string_bytes text.old ++ flat_map up_line ups) }
{
    'each: for up in ups.into_vec() {
        write_up(alloc, text, up)?;
    }
    Ok(())
}

/// Writes a red part.
#[tactic(auto, unfolding(replay_script::specs::Lines::line_text))]
fn write_up(alloc: Global, text: &mut String, up: FaceUp) -> Result<(), AllocError>
    ensures { OnOk result (string_bytes text.new ≡ string_bytes text.old ++ up_line up) }
{
    let FaceUp {
        face,
        session,
        body,
    } = up;
    let line = Line::Up {
        site: Some(site_of(face)),
        session,
        body,
    };
    push_line(alloc, &line, text)
}

/// Writes notes.
fn write_notes(alloc: Global, text: &mut String, notes: &[FaceNote]) -> Result<(), AllocError>
    ensures { OnOk result (string_bytes text.new ≡ string_bytes text.old ++ flat_map face_note_line notes.now) }
{
    'each: for note in notes {
        write_note(alloc, text, *note)?;
    }
    Ok(())
}

/// Writes a note.
fn write_note(alloc: Global, text: &mut String, note: FaceNote) -> Result<(), AllocError>
    ensures { OnOk result (string_bytes text.new ≡ string_bytes text.old ++ face_note_line note) }
{
    push_gate_note(alloc, text, site_of(note.face), note.note)
}

/// Where a line stands that is about a face.
fn site_of(face: Face) -> Site
    ensures { result ≡ site_of face }
{
    match face {
        Face::Old => Site::GateOld,
        Face::New => Site::GateNew,
    }
}
