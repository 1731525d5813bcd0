//! What a note of the gateway says after its name, and its line.

ghost use Rattle.std.specs.Prelude.{◌≡◌, ◌++◌, OnOk};
ghost use Rattle.std.specs.String.{string_bytes};
ghost use Rattle.replay_script.specs.NoteLines.{detail_words};
ghost use Rattle.gate_lines.specs.GateLines.{gate_details, gate_note_line};

use gateway_core::GateNote;
use replay_script::{NoteDetails, Site, details_of, push_note};
use std::alloc::{AllocError, Global};

/// What a note says after its name.
fn gate_details_of(note: GateNote) -> NoteDetails
    ensures { detail_words result ≡ gate_details note }
{
    match note {
        GateNote::Engine { note } => details_of(note),
        GateNote::BadBundle { session, at, cause } => NoteDetails {
            first: Some(session),
            second: Some(at as u64),
            word: Some(cause.word()),
        },
        GateNote::Untranslated { session, cause } => NoteDetails {
            first: Some(session),
            second: None,
            word: Some(cause.word()),
        },
        GateNote::Passed { session, pieces } => NoteDetails::numbers(session, pieces),
        GateNote::Expired { session }
        | GateNote::HopLimit { session }
        | GateNote::Storage { session }
        | GateNote::Reported { session }
        | GateNote::Unreported { session } => NoteDetails::session(session),
    }
}

/// Appends the line of a note at a site. After a refusal the text may have a part of it.
pub fn push_gate_note(
    alloc: Global,
    text: &mut String,
    site: Site,
    note: GateNote,
) -> Result<(), AllocError>
    ensures { OnOk result (string_bytes text.new ≡ string_bytes text.old ++ gate_note_line site note) }
{
    push_note(alloc, text, Some(site), note.name(), gate_details_of(note))
}
