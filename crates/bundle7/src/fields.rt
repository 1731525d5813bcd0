//! Single fields: their values, and the refusals of those that aren't there.

ghost use Rattle.std.specs.Prelude.{◌≡◌, ◌+◌, ◌*◌, ◌<◌, ◌≤◌, ◌==◌, length, slice_index, true, IfOk};
ghost use Rattle.wire_fields.specs.Kind.{head};
ghost use Rattle.wire_fields.specs.Format.{field, such_that};
ghost use Rattle.wire_fields.specs.Refusal.{because};
ghost use Rattle.wire_fields.specs.Reading.{read};
ghost use Rattle.wire_fields.specs.Words.{needs, any_octets, any_unsigned, exact_octet};
ghost use Rattle.wire_fields.specs.Gives.{Gives, IsOn};
ghost use Rattle.bundle7.specs.Calls.{EndsAs};
ghost use Rattle.bundle7.specs.Cause.{why, refused};

use crate::fault::{Cause7, Refused7};
use wire_fields::{UNSIGNED, head_at, octet_at, octets_at};

/// The head of a CBOR item of this major type.
#[inline(always)]
pub(crate) fn item(
    text: &[u8],
    at: usize,
    major: u8,
    cause: Cause7,
) -> Result<(u64, usize), Refused7>
    requires place { at ≤ length text.now }
    requires cause { why cause ≡ because cause }
    ensures within { IfOk result (λ x. IsOn at text.now x.1) }
    ensures exact { Gives (λ n. n) refused result (read (field (head major) cause) text.now at) }
{
    match head_at(text, at, major) {
        Ok(found) => Ok(found),
        Err(miss) => Err(cause.missed(at, miss)),
    }
}

/// An unsigned number.
#[inline(always)]
pub(crate) fn unsigned(text: &[u8], at: usize, cause: Cause7) -> Result<(u64, usize), Refused7>
    requires place { at ≤ length text.now }
    requires cause { why cause ≡ because cause }
    ensures within { IfOk result (λ x. IsOn at text.now x.1) }
    ensures exact { Gives (λ n. n) refused result (read (any_unsigned cause) text.now at) }
{
    item(text, at, UNSIGNED, cause)
}

/// The head of a CBOR item of this major type, which says this number.
#[inline(always)]
pub(crate) fn exactly(
    text: &[u8],
    at: usize,
    major: u8,
    value: u64,
    cause: Cause7,
) -> Result<(u64, usize), Refused7>
    requires place { at ≤ length text.now }
    requires cause { why cause ≡ because cause }
    ensures within { IfOk result (λ x. IsOn at text.now x.1) }
    ensures exact { Gives (λ n. n) refused result
        (read (such_that (field (head major) cause) (λ n. needs (n == value) cause)) text.now at) }
{
    let after = after_exactly(text, at, major, value, cause)?;
    Ok((value, after))
}

/// The place after the same head. One that is spelled in one octet is looked for as that octet.
#[inline(always)]
fn after_exactly(
    text: &[u8],
    at: usize,
    major: u8,
    value: u64,
    cause: Cause7,
) -> Result<usize, Refused7>
    requires place { at ≤ length text.now }
    requires cause { why cause ≡ because cause }
    ensures within { IfOk result (IsOn at text.now) }
    ensures exact { EndsAs refused value result
        (read (such_that (field (head major) cause) (λ n. needs (n == value) cause)) text.now at) }
{
    if is_short(text, at, major, value) {
        return Ok(at + 1);
    }
    let (found, after) = item(text, at, major, cause)?;
    if found != value {
        return Err(cause.at(at));
    }
    Ok(after)
}

/// Whether the octet at a place is a head of this major type that says this number.
#[inline(always)]
fn is_short(text: &[u8], at: usize, major: u8, value: u64) -> bool
    ensures { result ≡ true → (at < length text.now) × (value < 24)
        × (slice_index text.now at ≡ 32 * major + value) }
{
    at < text.len() && value < 24 && u64::from(text[at]) == 32 * u64::from(major) + value
}

/// So many octets, lent out of the text.
#[inline(always)]
pub(crate) fn octets(
    text: &[u8],
    at: usize,
    count: u64,
    cause: Cause7,
) -> Result<(&[u8], usize), Refused7>
    requires place { at ≤ length text.now }
    requires cause { why cause ≡ because cause }
    ensures within { IfOk result (λ x. IsOn at text.now x.1) }
    ensures exact { Gives (λ lent. lent.now) refused result (read (any_octets count cause) text.now at) }
{
    match octets_at(text, at, count) {
        Ok(found) => Ok(found),
        Err(miss) => Err(cause.missed(at, miss)),
    }
}

/// This octet.
#[inline(always)]
pub(crate) fn mark(
    text: &[u8],
    at: usize,
    octet: u8,
    cause: Cause7,
) -> Result<(u8, usize), Refused7>
    requires place { at ≤ length text.now }
    requires cause { why cause ≡ because cause }
    ensures within { IfOk result (λ x. IsOn at text.now x.1) }
    ensures exact { Gives (λ b. b) refused result (read (exact_octet octet cause) text.now at) }
{
    match octet_at(text, at) {
        Ok((found, after)) if found == octet => Ok((found, after)),
        Ok(_) => Err(cause.at(at)),
        Err(miss) => Err(cause.missed(at, miss)),
    }
}
