//! Segments of a block, written as pieces.

ghost use Rattle.std.specs.Prelude.{◌≡◌, ◌+◌, ◌<◌, ◌≤◌, ◌^◌, ◌++◌, ◌∷◌, [], length, map, drop, All, IfOk, OnOk, OnErr, false};
ghost use Rattle.std.specs.Option.{option_map};
ghost use Rattle.ltp_segment.specs.declared.segment.PieceKind.TheVariants as kinds;
ghost use Rattle.ltp_segment.specs.Kinds.{is_checkpoint};
ghost use Rattle.ltp_segment.specs.Values.{a_piece};
ghost use Rattle.ltp_segment.specs.Spelling.{segment_octets};
ghost use Rattle.ltp_session.specs.Sender.{segments_of, last_segment, piece_at, checkpoint_kind, checkpoint_at, red_pieces, green_pieces};
ghost use Rattle.ltp_session.specs.Views.{headed, datagrams_of};
ghost use Rattle.ltp_sender.specs.Segments.{segment_in, IsOn, checkpoint_value, IsCheckpoint, plain_pieces, IsLast, green_kind};

use crate::segments::{Checkpoint, Segment, segment_at};
use endpoint::Octets;
use ltp_segment::{Outs, PieceKind, write_piece};
use ltp_session::SessionName;
use std::alloc::{AllocError, Global};

/// The client service of all blocks.
const SERVICE: u64 = 1;

/// The kind of a checkpoint that stops at a place, in a block of `size` octets.
pub(crate) fn checkpoint_kind(size: usize, red: usize, stop: usize) -> PieceKind
    ensures { result ≡ checkpoint_kind size red stop }
{
    if stop != red {
        PieceKind::RedCheckpoint
    } else if red == size {
        PieceKind::RedEndBlock
    } else {
        PieceKind::RedEnd
    }
}

/// Writes a checkpoint of a red part, in a block of `size` octets.
pub(crate) fn write_checkpoint(
    alloc: Global,
    name: SessionName,
    size: usize,
    part: &[u8],
    checkpoint: Checkpoint,
) -> Result<Octets, AllocError>
    requires { IsCheckpoint (length part.now) checkpoint }
    ensures { IfOk result (λ octets. octets
        ≡ segment_octets (headed name (a_piece (checkpoint_value size part.now checkpoint)))) }
{
    let Segment { from, to } = checkpoint.segment;
    write_piece(
        alloc,
        name.originator,
        name.number,
        checkpoint_kind(size, part.len(), to),
        SERVICE,
        from as u64,
        checkpoint.serial,
        checkpoint.report,
        &part[from..to],
    )
}

/// Writes a segment as a piece that is no checkpoint.
fn write_plain(
    alloc: Global,
    name: SessionName,
    part: &[u8],
    kind: PieceKind,
    segment: Segment,
) -> Result<Octets, AllocError>
    requires on { IsOn (length part.now) segment }
    requires plain { is_checkpoint kind ≡ false }
    ensures { IfOk result (λ octets. octets ≡ segment_octets
        (headed name (a_piece (piece_at kind 0 0 (segment_in part.now segment))))) }
{
    let Segment { from, to } = segment;
    write_piece(
        alloc,
        name.originator,
        name.number,
        kind,
        SERVICE,
        from as u64,
        0,
        0,
        &part[from..to],
    )
}

/// Writes red segments that are no checkpoints.
fn send_firsts(
    alloc: Global,
    out: &mut Outs,
    name: SessionName,
    part: &[u8],
    segments: &[Segment],
) -> Result<(), AllocError>
    requires { All (IsOn (length part.now)) segments.now }
    ensures { OnOk result (out.new ≡ out.old ++ datagrams_of name
        (plain_pieces part.now segments.now)) }
{
    'sending: for segment in segments {
        out.push(write_plain(alloc, name, part, PieceKind::Red, *segment)?)?;
    }
    Ok(())
}

/// Writes segments of a red part, the last of them as a checkpoint, which is answered.
pub(crate) fn send_red(
    alloc: Global,
    out: &mut Outs,
    name: SessionName,
    size: usize,
    part: &[u8],
    segments: &[Segment],
    serial: u64,
    report: u64,
) -> Result<Option<Checkpoint>, AllocError>
    requires on { All (IsOn (length part.now)) segments.now }
    requires first { 0 < serial }
    requires last { serial < 2 ^ 32 }
    ensures out { OnOk result (out.new ≡ out.old ++ datagrams_of name
        (red_pieces (checkpoint_at size (length part.now) serial report)
        (map (segment_in part.now) segments.now))) }
    ensures checkpoint { IfOk result (IsLast part.now segments.now serial report) }
    ensures wanted { OnErr result (0 < length part.now) }
{
    let Some((last, firsts)) = segments.split_last() else {
        return Ok(None);
    };
    send_firsts(alloc, out, name, part, firsts)?;
    let checkpoint = Checkpoint {
        segment: *last,
        serial,
        report,
    };
    out.push(write_checkpoint(alloc, name, size, part, checkpoint)?)?;
    Ok(Some(checkpoint))
}

/// The kind of a green piece that stops at a place, in a block of `size` octets.
fn green_kind(size: usize, stop: usize) -> PieceKind
    ensures { result ≡ green_kind size stop }
{
    if stop == size {
        PieceKind::GreenEndBlock
    } else {
        PieceKind::Green
    }
}

/// Writes the green part of a block.
pub(crate) fn send_green(
    alloc: Global,
    out: &mut Outs,
    name: SessionName,
    block: &[u8],
    red: usize,
    size: usize,
) -> Result<(), AllocError>
    requires red { red ≤ length block.now }
    requires some { 1 ≤ size }
    ensures out { OnOk result (out.new ≡ out.old ++ datagrams_of name
        (green_pieces (segments_of size red (drop red block.now)))) }
    ensures wanted { OnErr result (0 < length block.now) }
{
    let mut from = red;
    'cutting: while from < block.len() {
        let segment = segment_at(from, block.len(), size);
        let kind = green_kind(block.len(), segment.to);
        out.push(write_plain(alloc, name, block, kind, segment)?)?;
        from = segment.to;
    }
    Ok(())
}
