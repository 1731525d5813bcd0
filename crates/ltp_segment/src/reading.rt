//! A datagram taken apart.

ghost use Rattle.std.specs.Prelude.{◌≡◌, ℕ, ◌≤◌, length, Some, IfOk, IfErr};
ghost use Rattle.wire_fields.specs.Reading.{read};
ghost use Rattle.wire_fields.specs.Whole.{read_whole};
ghost use Rattle.wire_fields.specs.Gives.{Gives, GivesWhole, IsOn};
ghost use Rattle.ltp_segment.specs.declared.fault.SegmentCause.{SegmentCause as Causes};
ghost use Rattle.ltp_segment.specs.Values.{SegmentValue};
ghost use Rattle.ltp_segment.specs.Ties.{refusal};
ghost use Rattle.ltp_segment.specs.Reading.{SpellsSegment, RefusesSegment, seen, segment_of};
ghost use Rattle.ltp_segment.specs.Views.{content_value, segment_value};
ghost use Rattle.ltp_segment.specs.Table.{control, extension, extensions, report_ack_fields};
ghost use Rattle.ltp_segment.specs.Table.{sender_cancel_fields, receiver_cancel_fields, content_of};
ghost use Rattle.ltp_segment.specs.Table.{segment};

use crate::fault::{SegmentCause, SegmentFault};
use crate::fields::{number, octet, octets};
use crate::pieces::piece_at;
use crate::reports::report_at;
use crate::segment::{Content, Segment, SegmentType};

/// Reads a datagram, which is one segment (RFC 5326, section 3). No memory is taken.
pub fn decode(datagram: &[u8]) -> Result<Segment<'_>, SegmentFault>
    // What is read is spelled so.
    ensures found { IfOk result (λ s. SpellsSegment (segment_value s) datagram.now) }
    // What is spelled so is read.
    ensures only { (s : SegmentValue) → SpellsSegment s datagram.now → seen result ≡ Ok s }
    // What is refused has this refusal.
    ensures refused { IfErr result (λ fault. RefusesSegment fault.at fault.cause datagram.now) }
    // What has a refusal is refused with it.
    ensures refuses { (at : ℕ) (cause : Causes) → RefusesSegment at cause datagram.now
        → seen result ≡ Err (at, cause) }
    // All of this is one function of the datagram.
    ensures exact { seen result ≡ segment_of datagram.now }
{
    whole_segment(datagram)
}

/// A segment after which nothing stands.
fn whole_segment(text: &[u8]) -> Result<Segment<'_>, SegmentFault>
    ensures { GivesWhole segment_value refusal result
        (read_whole segment SegmentCause.Trailing text.now) }
{
    let (segment, end) = segment_at(text)?;
    if end < text.len() {
        return Err(SegmentCause::Trailing.at(end));
    }
    Ok(segment)
}

/// The fields of a segment, from the control octet to the trailer extensions.
#[tactic(auto, unfolding(crate::specs::Table::segment))]
fn segment_at(text: &[u8]) -> Result<(Segment<'_>, usize), SegmentFault>
    ensures within { IfOk result (λ x. IsOn 0 text.now x.1) }
    ensures exact { Gives segment_value refusal result (read segment text.now 0) }
{
    let (kind, at) = control_at(text)?;
    let (originator, at) = number(text, at)?;
    let (session, at) = number(text, at)?;
    let (counts, at) = octet(text, at, SegmentCause::Number)?;
    let (_, at) = extensions_at(text, at, counts / 16)?;
    let (content, at) = content_at(text, at, kind)?;
    let (_, at) = extensions_at(text, at, counts % 16)?;
    Ok((
        Segment {
            originator,
            session,
            content,
        },
        at,
    ))
}

/// The control octet: version 0 and a type that is in use.
#[tactic(auto, unfolding(crate::specs::Table::control))]
fn control_at(text: &[u8]) -> Result<(SegmentType, usize), SegmentFault>
    ensures within { IfOk result (λ x. IsOn 0 text.now x.1) }
    ensures exact { Gives Some refusal result (read control text.now 0) }
{
    let (control, after) = octet(text, 0, SegmentCause::Version)?;
    if control / 16 != 0 {
        return Err(SegmentCause::Version.at(0));
    }
    match SegmentType::said_by(control) {
        Some(kind) => Ok((kind, after)),
        None => Err(SegmentCause::Kind.at(0)),
    }
}

/// So many extensions, which are passed over.
fn extensions_at(text: &[u8], at: usize, count: u8) -> Result<((), usize), SegmentFault>
    requires { at ≤ length text.now }
    ensures within { IfOk result (λ x. IsOn at text.now x.1) }
    ensures exact { Gives (λ nothing. nothing) refusal result
        (read (extensions count) text.now at) }
{
    let mut after = at;
    'passing: for _ in 0..count {
        let (_, next) = extension_at(text, after)?;
        after = next;
    }
    Ok(((), after))
}

/// An extension: a tag, a length and octets.
#[tactic(auto, unfolding(crate::specs::Table::extension))]
fn extension_at(text: &[u8], at: usize) -> Result<((), usize), SegmentFault>
    requires { at ≤ length text.now }
    ensures within { IfOk result (λ x. IsOn at text.now x.1) }
    ensures exact { Gives (λ nothing. nothing) refusal result (read extension text.now at) }
{
    let (_, at) = octet(text, at, SegmentCause::Number)?;
    let (size, at) = number(text, at)?;
    let (_, at) = octets(text, at, size)?;
    Ok(((), at))
}

/// What follows the header of a segment of this type.
fn content_at(
    text: &[u8],
    at: usize,
    kind: SegmentType,
) -> Result<(Content<'_>, usize), SegmentFault>
    requires { at ≤ length text.now }
    ensures within { IfOk result (λ x. IsOn at text.now x.1) }
    ensures exact { Gives content_value refusal result (read (content_of (Some kind)) text.now at) }
{
    match kind {
        SegmentType::Piece(kind) => piece_at(text, at, kind),
        SegmentType::Report => report_at(text, at),
        SegmentType::ReportAck => report_ack_at(text, at),
        SegmentType::SenderCancel => sender_cancel_at(text, at),
        SegmentType::SenderCancelAck => Ok((Content::SenderCancelAck, at)),
        SegmentType::ReceiverCancel => receiver_cancel_at(text, at),
        SegmentType::ReceiverCancelAck => Ok((Content::ReceiverCancelAck, at)),
    }
}

/// A report acknowledgement: the report's serial number, which may be 0.
#[tactic(auto, unfolding(crate::specs::Table::report_ack_fields))]
fn report_ack_at(text: &[u8], at: usize) -> Result<(Content<'_>, usize), SegmentFault>
    requires { at ≤ length text.now }
    ensures within { IfOk result (λ x. IsOn at text.now x.1) }
    ensures exact { Gives content_value refusal result (read report_ack_fields text.now at) }
{
    let (serial, at) = number(text, at)?;
    Ok((Content::ReportAck { serial }, at))
}

/// The sender's cancel: its reason.
#[tactic(auto, unfolding(crate::specs::Table::sender_cancel_fields))]
fn sender_cancel_at(text: &[u8], at: usize) -> Result<(Content<'_>, usize), SegmentFault>
    requires { at ≤ length text.now }
    ensures within { IfOk result (λ x. IsOn at text.now x.1) }
    ensures exact { Gives content_value refusal result (read sender_cancel_fields text.now at) }
{
    let (reason, at) = octet(text, at, SegmentCause::Number)?;
    Ok((Content::SenderCancel { reason }, at))
}

/// The receiver's cancel: its reason.
#[tactic(auto, unfolding(crate::specs::Table::receiver_cancel_fields))]
fn receiver_cancel_at(text: &[u8], at: usize) -> Result<(Content<'_>, usize), SegmentFault>
    requires { at ≤ length text.now }
    ensures within { IfOk result (λ x. IsOn at text.now x.1) }
    ensures exact { Gives content_value refusal result (read receiver_cancel_fields text.now at) }
{
    let (reason, at) = octet(text, at, SegmentCause::Number)?;
    Ok((Content::ReceiverCancel { reason }, at))
}
