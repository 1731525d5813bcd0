//! The sessions that earlier runs had claimed in part.

ghost use Rattle.std.specs.Prelude.{◌≡◌, IfOk};
ghost use Rattle.peer_half.specs.Journals.{marked_at, marked_in};

use crate::journal::Journal;
use gate_cases::Face;
use journal_file::Mark;
use std::alloc::{AllocError, Global};

/// Those of a face that are marked, in order; none without a journal.
pub(crate) fn marked_at(
    alloc: Global,
    journal: &Option<Journal>,
    face: Face,
) -> Result<Vec<u64>, AllocError>
    ensures { IfOk result (λ sessions. sessions.items ≡ marked_at face (marked_in journal.now)) }
{
    match journal {
        Some(journal) => sessions_at(alloc, face, journal.keeping.kept().marks.as_slice()),
        None => Ok(Vec::new(alloc)),
    }
}

/// The sessions of a face, of marks in order.
fn sessions_at(alloc: Global, face: Face, marks: &[Mark]) -> Result<Vec<u64>, AllocError>
    ensures { IfOk result (λ sessions. sessions.items ≡ marked_at face marks.now) }
{
    let mut sessions = Vec::new(alloc);
    'marks: for mark in marks {
        if mark.face == face {
            sessions.push(mark.session)?;
        }
    }
    Ok(sessions)
}
