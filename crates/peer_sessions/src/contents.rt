//! What a segment's content is for a receiving session.

ghost use Rattle.std.specs.Prelude.{◌≡◌, ◌+◌, ◌<◌, ◌^◌, ◌||◌, length};
ghost use Rattle.std.specs.List.{list_any};
ghost use Rattle.ltp_segment.specs.Views.{content_value};
ghost use Rattle.ltp_segment.specs.declared.session.TheConstants.{BLOCK_MAX};
ghost use Rattle.ltp_session.specs.Cells.{is_no_part};
ghost use Rattle.ltp_engine.specs.Sides.{IsFit};
ghost use Rattle.peer_sessions.specs.Sessions.{may_open};
ghost use Rattle.peer_sessions.specs.Contents.{red_octets, is_left, touches};

use ltp_segment::{BLOCK_MAX, Content, Note};

/// The client service of bundles.
const BUNDLES: u64 = 1;

/// Whether octets from a place on can be no part of any block.
fn is_no_part(offset: u64, body: &[u8]) -> bool
    requires { offset + length body.now < 2 ^ 64 }
    ensures { result ≡ is_no_part BLOCK_MAX offset body.now }
{
    body.is_empty() || offset + body.len() as u64 > BLOCK_MAX
}

/// Whether it is a red piece for bundles that may be one of a block.
pub(crate) fn may_open(content: &Content<'_>) -> bool
    requires { IsFit (content_value content.now) }
    ensures { result ≡ may_open BLOCK_MAX (content_value content.now) }
{
    match content {
        Content::Piece {
            kind,
            service,
            offset,
            body,
            ..
        } => kind.is_red() && *service == BUNDLES && !is_no_part(*offset, body),
        _ => false,
    }
}

/// How many octets it may add to a red part.
pub(crate) fn red_octets(content: &Content<'_>) -> u64
    ensures { result ≡ red_octets (content_value content.now) }
{
    match content {
        Content::Piece { kind, body, .. } if kind.is_red() => body.len() as u64,
        _ => 0,
    }
}

/// Whether a note says that a piece left its session as it was.
fn is_left(note: &Note) -> bool
    ensures { result ≡ is_left note.now }
{
    match note {
        Note::Refused { .. } | Note::BadBounds { .. } | Note::Closed { .. } => true,
        _ => false,
    }
}

/// Whether it touched its session, where that is kept then, and this was noted.
pub(crate) fn touches(content: &Content<'_>, notes: &[Note]) -> bool
    ensures { result ≡ touches (content_value content.now) notes.now }
{
    match content {
        Content::Piece { .. } => !is_any_left(notes),
        Content::ReportAck { .. } => true,
        _ => false,
    }
}

/// Whether one of the notes says that a piece left its session as it was.
fn is_any_left(notes: &[Note]) -> bool
    ensures { result ≡ list_any is_left notes.now }
{
    'notes: for note in notes {
        if is_left(note) {
            return true;
        }
    }
    false
}
