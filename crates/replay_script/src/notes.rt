//! What a note says after its name, and its line.

ghost use Rattle.std.specs.Prelude.{◌≡◌, ◌++◌, ◌∷◌, None, Some, OnOk, codes};
ghost use Rattle.std.specs.String.{string_bytes};
ghost use Rattle.replay_script.specs.Lines.{if_site};
ghost use Rattle.replay_script.specs.NoteLines.{line_of, detail_words, note_details};

use crate::line::{Line, Site};
use crate::writing::push_line;
use ltp_segment::Note;
use std::alloc::{AllocError, Global};

/// What a note says after its name: numbers, the second only with the first, and a word.
#[derive(Clone, Copy, Debug)]
pub struct NoteDetails {
    /// The first number.
    pub first: Option<u64>,
    /// The second number, which stands only with the first.
    pub second: Option<u64>,
    /// The word.
    pub word: Option<&'static str>,
}

impl NoteDetails {
    /// A session's number.
    pub fn session(session: u64) -> NoteDetails
        ensures { result ≡ record { first = Some session; second = None; word = None } }
    {
        NoteDetails {
            first: Some(session),
            second: None,
            word: None,
        }
    }

    /// A session's number, and another.
    pub fn numbers(session: u64, second: u64) -> NoteDetails
        ensures { result ≡ record { first = Some session; second = Some second; word = None } }
    {
        NoteDetails {
            first: Some(session),
            second: Some(second),
            word: None,
        }
    }
}

/// What an engine's note says after its name.
pub fn details_of(note: Note) -> NoteDetails
    ensures { detail_words result ≡ note_details note }
{
    match note {
        Note::Sent { session }
        | Note::Evicted { session }
        | Note::BadBounds { session }
        | Note::Closed { session }
        | Note::HistoryFull { session } => NoteDetails::session(session),
        Note::Failed { session, reason } | Note::Cancelled { session, reason } => {
            NoteDetails::numbers(session, u64::from(reason))
        }
        Note::Refused { session, service } => NoteDetails::numbers(session, service),
        Note::Stranger => NoteDetails {
            first: None,
            second: None,
            word: None,
        },
        Note::BadSegment { at, cause } => NoteDetails {
            first: Some(at as u64),
            second: None,
            word: Some(cause.word()),
        },
    }
}

/// Appends the line of a note that has this name and says this, at a site where there are several.
/// After a refusal the text may have a part of it.
#[tactic(auto, unfolding(crate::specs::Lines::line_text))]
pub fn push_note(
    alloc: Global,
    text: &mut String,
    site: Option<Site>,
    name: &'static str,
    details: NoteDetails,
) -> Result<(), AllocError>
    ensures { OnOk result (string_bytes text.new ≡ string_bytes text.old
        ++ line_of (codes "note" ∷ (if_site site ++ name.now ∷ detail_words details))) }
{
    let line = Line::Note {
        site,
        name,
        first: details.first,
        second: details.second,
        word: details.word,
    };
    push_line(alloc, &line, text)
}
