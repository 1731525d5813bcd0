//! One field at a place in a text: its value and the place after it.

ghost use Rattle.std.specs.Prelude.{◌≡◌, ◌+◌, ◌≤◌, length, drop, IfOk};
ghost use Rattle.sdnv.specs.Reading.{read_of};
ghost use Rattle.wire_fields.specs.Kind.{octet, octets, number, head, unsigned_or_text};
ghost use Rattle.wire_fields.specs.Reading.{look_at};
ghost use Rattle.wire_fields.specs.Gives.{Finds, IsOn};

use crate::lead::UnsignedOrText;
use crate::miss::Miss;
use cbor_lite::{CborFault, read_head_of};
use sdnv::SdnvFault;

/// The kind of an unsigned number, the CBOR major type of the same number.
pub const UNSIGNED: u8 = 0;
/// The kind of a byte string.
pub const BYTE_STRING: u8 = 2;
/// The kind of a text string.
pub const TEXT_STRING: u8 = 3;
/// The kind of an array.
pub const ARRAY: u8 = 4;

/// One octet.
#[inline(always)]
pub fn octet_at(text: &[u8], at: usize) -> Result<(u8, usize), Miss>
    requires { at ≤ length text.now }
    ensures within { IfOk result (λ x. IsOn at text.now x.1) }
    ensures exact { result ≡ look_at octet text.now at }
{
    if at < text.len() {
        Ok((text[at], at + 1))
    } else {
        Err(Miss::Truncated)
    }
}

/// So many octets, lent out of the text. None of them is looked at.
#[inline(always)]
pub fn octets_at(text: &[u8], at: usize, count: u64) -> Result<(&[u8], usize), Miss>
    requires { at ≤ length text.now }
    ensures within { IfOk result (λ x. IsOn at text.now x.1) }
    ensures exact { Finds (λ lent. lent.now) result (look_at (octets count) text.now at) }
{
    let (_, rest) = text.split_at(at);
    if (rest.len() as u64) < count {
        return Err(Miss::Truncated);
    }
    let (lent, _) = rest.split_at(count as usize);
    Ok((lent, at + count as usize))
}

/// A number of seven bits an octet (RFC 5050, section 4.1).
#[inline(always)]
pub fn number_at(text: &[u8], at: usize) -> Result<(u64, usize), Miss>
    requires { at ≤ length text.now }
    ensures within { IfOk result (λ x. IsOn at text.now x.1) }
    ensures exact { result ≡ look_at number text.now at }
{
    match number_ahead(text, at) {
        Ok((value, count)) => Ok((value, at + count)),
        Err(SdnvFault::Short) => Err(Miss::Truncated),
        Err(SdnvFault::TooLong | SdnvFault::TooLarge) => Err(Miss::Absent),
    }
}

/// The number at a place, and how many octets spell it. Most have one octet: only others are left to a
/// call.
#[inline(always)]
fn number_ahead(text: &[u8], at: usize) -> Result<(u64, usize), SdnvFault>
    requires { at ≤ length text.now }
    ensures within { IfOk result (λ x. at + x.1 ≤ length text.now) }
    ensures exact { result ≡ read_of (drop at text.now) }
{
    if at < text.len() && text[at] < 128 {
        return Ok((u64::from(text[at]), 1));
    }
    let (_, rest) = text.split_at(at);
    sdnv::read(rest)
}

/// The head of a CBOR item of this kind, 0 to 7, and the number that it says.
#[inline(always)]
pub fn head_at(text: &[u8], at: usize, kind: u8) -> Result<(u64, usize), Miss>
    requires { at ≤ length text.now }
    ensures within { IfOk result (λ x. IsOn at text.now x.1) }
    ensures exact { result ≡ look_at (head kind) text.now at }
{
    let (_, rest) = text.split_at(at);
    match read_head_of(kind, rest) {
        Ok((value, count)) => Ok((value, at + count)),
        Err(CborFault::Short) => Err(Miss::Truncated),
        Err(CborFault::Kind | CborFault::NotShortest) => Err(Miss::Absent),
    }
}

/// The head of a text string where the next octet is of that kind, else that of an unsigned number.
pub fn unsigned_or_text_at(text: &[u8], at: usize) -> Result<(UnsignedOrText, usize), Miss>
    requires { at ≤ length text.now }
    ensures within { IfOk result (λ x. IsOn at text.now x.1) }
    ensures exact { result ≡ look_at unsigned_or_text text.now at }
{
    if at < text.len() && text[at] / 32 == TEXT_STRING {
        let (count, after) = head_at(text, at, TEXT_STRING)?;
        Ok((UnsignedOrText::Text(count), after))
    } else {
        let (value, after) = head_at(text, at, UNSIGNED)?;
        Ok((UnsignedOrText::Unsigned(value), after))
    }
}
