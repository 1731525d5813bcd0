//! What the tables of sessions share: policies, and a session's answers as lines.

ghost use Rattle.std.specs.Prelude.{◌≤◌, length};

use crate::lines::{octets, write_numbers, write_octets, write_words};
use endpoint::Octets;
use ltp_segment::{Green, Note, Outs, Policy, Step};
use std::alloc::{AllocError, Global};
use std::test::Fail;

/// A moment; the datagram that comes then, or an empty text where the session's timer is looked
/// at; and the lines of what the session answers and how it stands after that.
pub(crate) type Row = (u64, &'static str, &'static str);

/// A datagram: its front in hex, and a range of a block after it.
pub(crate) type Part = (&'static str, usize, usize);

/// Moments are below this one.
pub(crate) const MOMENTS: u64 = 1 << 62;

/// The policy of these values.
pub(crate) fn policy(segment: u32, timeout: u64, limit: u32, cap: u64) -> Result<Policy, Fail> {
    match Policy::new(segment, timeout, limit, cap) {
        Ok(policy) => Ok(policy),
        Err(_) => Err(Fail::new("a row has no policy")),
    }
}

/// Appends the lines of what a session sends.
pub(crate) fn write_outs(alloc: Global, text: &mut String, outs: &Outs) -> Result<(), AllocError> {
    for datagram in outs.as_slice() {
        write_words(text, &["out"])?;
        write_octets(alloc, text, datagram.as_slice())?;
    }
    Ok(())
}

/// Appends the line of a red part, where one is handed up.
fn write_up(alloc: Global, text: &mut String, up: &Option<Octets>) -> Result<(), AllocError> {
    if let Some(octets) = up {
        write_words(text, &["up"])?;
        write_octets(alloc, text, octets.as_slice())?;
    }
    Ok(())
}

/// Appends the line of a green piece, where one is handed up.
fn write_green(alloc: Global, text: &mut String, green: &Option<Green>) -> Result<(), AllocError> {
    if let Some(piece) = green {
        write_words(text, &["green"])?;
        write_numbers(text, &[piece.session, piece.offset])?;
        write_words(text, &[if piece.last { " true" } else { " false" }])?;
        write_octets(alloc, text, piece.body.as_slice())?;
    }
    Ok(())
}

/// Appends the numbers of a note, of those that the rows have.
fn write_note_numbers(text: &mut String, note: Note) -> Result<(), AllocError> {
    match note {
        Note::Failed { session, reason } | Note::Cancelled { session, reason } => {
            write_numbers(text, &[session, u64::from(reason)])
        }
        Note::Sent { session } | Note::BadBounds { session } => write_numbers(text, &[session]),
        _ => Ok(()),
    }
}

/// Appends the line of a note, where there is one.
fn write_note(text: &mut String, noted: Option<Note>) -> Result<(), AllocError> {
    if let Some(note) = noted {
        write_words(text, &["note ", note.name()])?;
        write_note_numbers(text, note)?;
        write_words(text, &["\n"])?;
    }
    Ok(())
}

/// Appends the lines of an answer.
pub(crate) fn write_step(alloc: Global, text: &mut String, step: &Step) -> Result<(), AllocError> {
    write_outs(alloc, text, &step.out)?;
    write_up(alloc, text, &step.up)?;
    write_green(alloc, text, &step.green)?;
    write_note(text, step.note)
}

/// Appends when a session's timer is due, where one runs, and that the session is over.
pub(crate) fn write_state(
    text: &mut String,
    deadline: Option<u64>,
    over: bool,
) -> Result<(), AllocError> {
    if let Some(moment) = deadline {
        write_words(text, &["due"])?;
        write_numbers(text, &[moment])?;
        write_words(text, &["\n"])?;
    }
    if over {
        write_words(text, &["over\n"])?;
    }
    Ok(())
}

/// The octets of a text in hex, and a range of a block after them.
pub(crate) fn with_part(alloc: Global, segment: Part, block: &[u8]) -> Result<Vec<u8>, Fail> {
    let (head, from, to) = segment;
    let mut datagram = octets(alloc, head)?;
    match block.get(from..to) {
        Some(part) => datagram.extend_from_slice(part)?,
        None => return Err(Fail::new("a row is longer than its block")),
    }
    Ok(datagram)
}

/// Whether these datagrams are sent: of each a front in hex, and a range of a block after it.
pub(crate) fn are(alloc: Global, outs: &Outs, wanted: &[Part], block: &[u8]) -> Result<bool, Fail> {
    if outs.len() != wanted.len() {
        return Ok(false);
    }
    for (datagram, &segment) in outs.as_slice().iter().zip(wanted) {
        if datagram.as_slice() != with_part(alloc, segment, block)?.as_slice() {
            return Ok(false);
        }
    }
    Ok(true)
}
