//! The content of a piece.

ghost use Rattle.std.specs.Prelude.{◌≡◌, ◌≤◌, length, IfOk};
ghost use Rattle.wire_fields.specs.Reading.{read};
ghost use Rattle.wire_fields.specs.Gives.{Gives, IsOn};
ghost use Rattle.ltp_segment.specs.Ties.{refusal};
ghost use Rattle.ltp_segment.specs.Views.{content_value};
ghost use Rattle.ltp_segment.specs.Pieces.{serials, piece_of};

use crate::fault::SegmentFault;
use crate::fields::{number, octets, serial_at, size_at};
use crate::segment::{Content, PieceKind};

/// A piece of this kind: service, offset, length, serials and octets.
#[tactic(auto, unfolding(crate::specs::Pieces::piece_of))]
pub(crate) fn piece_at(
    text: &[u8],
    at: usize,
    kind: PieceKind,
) -> Result<(Content<'_>, usize), SegmentFault>
    requires { at ≤ length text.now }
    ensures within { IfOk result (λ x. IsOn at text.now x.1) }
    ensures exact { Gives content_value refusal result (read (piece_of kind) text.now at) }
{
    let (service, at) = number(text, at)?;
    let (offset, at) = number(text, at)?;
    let (size, at) = size_at(text, at, offset)?;
    let ((checkpoint, report), at) = serials_at(text, at, kind.is_checkpoint())?;
    let (body, at) = octets(text, at, size)?;
    Ok((
        Content::Piece {
            kind,
            service,
            offset,
            checkpoint,
            report,
            body,
        },
        at,
    ))
}

/// The serial numbers of a checkpoint, which stand in no other piece.
#[tactic(auto, unfolding(crate::specs::Pieces::serials))]
fn serials_at(text: &[u8], at: usize, stand_here: bool) -> Result<((u64, u64), usize), SegmentFault>
    requires { at ≤ length text.now }
    ensures within { IfOk result (λ x. IsOn at text.now x.1) }
    ensures exact { Gives (λ n. n) refusal result (read (serials stand_here) text.now at) }
{
    if !stand_here {
        return Ok(((0, 0), at));
    }
    let (checkpoint, at) = serial_at(text, at)?;
    let (report, at) = number(text, at)?;
    Ok(((checkpoint, report), at))
}
