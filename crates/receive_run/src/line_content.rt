//! What a line says.
ghost use Rattle.std.specs.Prelude.{◌≡◌, Ok};
ghost use Rattle.ltp_segment.specs.Reading.{segment_of};
ghost use Rattle.ltp_segment.specs.Views.{segment_value};
ghost use Rattle.receive_run.specs.LineContent.{segment_content};
ghost use Rattle.receive_run.specs.Views.{content};

use crate::piece::Piece;
use ltp_segment::{Content, Segment, SegmentFault, decode};
use ltp_session::SessionName;

/// The content of a line whose datagram was decoded from hex.
#[derive(Clone, Copy, Debug)]
pub enum LineContent<'a> {
    /// The datagram is no segment.
    NoSegment(SegmentFault),
    /// A segment that is no red piece of service 1.
    Other,
    /// A red piece of service 1.
    Red(Piece<'a>),
}

/// The content of a datagram. No memory is taken.
pub fn content_of(datagram: &[u8]) -> LineContent<'_>
    ensures { content result ≡ segment_content (segment_of datagram.now) }
{
    match decode(datagram) {
        Ok(segment) => piece_in(segment),
        Err(fault) => LineContent::NoSegment(fault),
    }
}

/// The red piece of service 1 that the segment is, if it is one.
fn piece_in(segment: Segment<'_>) -> LineContent<'_>
    ensures { content result ≡ segment_content (Ok (segment_value segment.entry)) }
{
    match segment.content {
        Content::Piece {
            kind,
            service,
            offset,
            checkpoint: _,
            report: _,
            body,
        } if service == 1 && kind.is_red() => LineContent::Red(Piece {
            name: SessionName {
                originator: segment.originator,
                number: segment.session,
            },
            offset,
            ends: kind.ends_red_part(),
            body,
        }),
        _ => LineContent::Other,
    }
}
