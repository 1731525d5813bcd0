//! What ends do, as lines.

use crate::lines::{write_numbers, write_octets, write_words};
use endpoint::Octets;
use ltp_engine::Up;
use ltp_segment::Note;
use ltp_world::{End, EndEffects};
use std::alloc::{AllocError, Global};

/// An end's name in a line.
fn name_of(end: End) -> &'static str {
    match end {
        End::First => "first",
        End::Second => "second",
    }
}

/// Appends the lines of what an end sends.
pub(crate) fn write_outs(
    alloc: Global,
    text: &mut String,
    end: &str,
    outs: &[Octets],
) -> Result<(), AllocError> {
    for datagram in outs {
        write_words(text, &[end, " out"])?;
        write_octets(alloc, text, datagram.as_slice())?;
    }
    Ok(())
}

/// Appends the lines of the red parts that an end hands up.
fn write_ups(alloc: Global, text: &mut String, end: &str, ups: &[Up]) -> Result<(), AllocError> {
    for up in ups {
        write_words(text, &[end, " up"])?;
        write_numbers(text, &[up.session])?;
        write_octets(alloc, text, up.body.as_slice())?;
    }
    Ok(())
}

/// Appends the numbers of a note, of those that the rows have.
pub(crate) fn write_note_numbers(text: &mut String, note: Note) -> Result<(), AllocError> {
    match note {
        Note::Failed { session, reason } => write_numbers(text, &[session, u64::from(reason)]),
        Note::Sent { session } => write_numbers(text, &[session]),
        _ => Ok(()),
    }
}

/// Appends the lines of notes.
fn write_notes(text: &mut String, end: &str, notes: &[Note]) -> Result<(), AllocError> {
    for &note in notes {
        write_words(text, &[end, " note "])?;
        write_words(text, &[note.name()])?;
        write_note_numbers(text, note)?;
        write_words(text, &["\n"])?;
    }
    Ok(())
}

/// Appends the lines of what an end does.
pub(crate) fn write_told(
    alloc: Global,
    text: &mut String,
    told: &EndEffects,
) -> Result<(), AllocError> {
    let end = name_of(told.end);
    write_outs(alloc, text, end, told.effects.out.as_slice())?;
    write_ups(alloc, text, end, told.effects.ups.as_slice())?;
    write_notes(text, end, told.effects.notes.as_slice())
}

/// Appends the lines of what the ends do at an event.
pub(crate) fn write_all(
    alloc: Global,
    text: &mut String,
    ends: &[EndEffects],
) -> Result<(), AllocError> {
    for told in ends {
        write_told(alloc, text, told)?;
    }
    Ok(())
}
