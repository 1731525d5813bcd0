//! Single fields at a place in a datagram: the value and the place after it, or the refusal.

ghost use Rattle.std.specs.Prelude.{◌≡◌, ◌≤◌, length, IfOk};
ghost use Rattle.wire_fields.specs.Refusal.{because};
ghost use Rattle.wire_fields.specs.Reading.{read};
ghost use Rattle.wire_fields.specs.Words.{any_octet, any_octets, any_number};
ghost use Rattle.wire_fields.specs.Gives.{Gives, IsOn};
ghost use Rattle.ltp_segment.specs.Cause.{why};
ghost use Rattle.ltp_segment.specs.Ties.{refusal};
ghost use Rattle.ltp_segment.specs.Pieces.{serial, size_from};

use crate::fault::{SegmentCause, SegmentFault};
use wire_fields::{number_at, octet_at, octets_at};

/// An octet. It is there, or the datagram ends; the cause is only named.
pub(crate) fn octet(
    text: &[u8],
    at: usize,
    cause: SegmentCause,
) -> Result<(u8, usize), SegmentFault>
    requires place { at ≤ length text.now }
    requires cause { why cause ≡ because cause }
    ensures within { IfOk result (λ x. IsOn at text.now x.1) }
    ensures exact { Gives (λ n. n) refusal result (read (any_octet cause) text.now at) }
{
    match octet_at(text, at) {
        Ok(found) => Ok(found),
        Err(miss) => Err(cause.missed(at, miss)),
    }
}

/// So many octets, lent.
pub(crate) fn octets(text: &[u8], at: usize, count: u64) -> Result<(&[u8], usize), SegmentFault>
    requires { at ≤ length text.now }
    ensures within { IfOk result (λ x. IsOn at text.now x.1) }
    ensures exact { Gives (λ lent. lent.now) refusal result
        (read (any_octets count SegmentCause.Number) text.now at) }
{
    match octets_at(text, at, count) {
        Ok(found) => Ok(found),
        Err(miss) => Err(SegmentCause::Number.missed(at, miss)),
    }
}

/// A number.
pub(crate) fn number(text: &[u8], at: usize) -> Result<(u64, usize), SegmentFault>
    requires { at ≤ length text.now }
    ensures within { IfOk result (λ x. IsOn at text.now x.1) }
    ensures exact { Gives (λ n. n) refusal result
        (read (any_number SegmentCause.Number) text.now at) }
{
    match number_at(text, at) {
        Ok(found) => Ok(found),
        Err(miss) => Err(SegmentCause::Number.missed(at, miss)),
    }
}

/// A serial number that isn't 0.
pub(crate) fn serial_at(text: &[u8], at: usize) -> Result<(u64, usize), SegmentFault>
    requires { at ≤ length text.now }
    ensures within { IfOk result (λ x. IsOn at text.now x.1) }
    ensures exact { Gives (λ n. n) refusal result (read serial text.now at) }
{
    let (value, after) = number(text, at)?;
    if value == 0 {
        return Err(SegmentCause::Serial.at(at));
    }
    Ok((value, after))
}

/// The length of a piece that begins at this offset.
pub(crate) fn size_at(text: &[u8], at: usize, offset: u64) -> Result<(u64, usize), SegmentFault>
    requires { at ≤ length text.now }
    ensures within { IfOk result (λ x. IsOn at text.now x.1) }
    ensures exact { Gives (λ n. n) refusal result (read (size_from offset) text.now at) }
{
    let (size, after) = number(text, at)?;
    if offset.checked_add(size).is_none() {
        return Err(SegmentCause::Range.at(at));
    }
    Ok((size, after))
}
