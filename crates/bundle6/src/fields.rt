//! Single fields: their values and the place after them, or the refusal.

ghost use Rattle.std.specs.Prelude.{◌≡◌, ◌≤◌, length, IfOk};
ghost use Rattle.wire_fields.specs.Refusal.{because};
ghost use Rattle.wire_fields.specs.Reading.{read};
ghost use Rattle.wire_fields.specs.Words.{any_octet, any_octets, any_number};
ghost use Rattle.wire_fields.specs.Gives.{Gives, IsOn};
ghost use Rattle.bundle6.specs.Cause.{why, refused_at};

use crate::fault::{Cause6, Refused6};
use wire_fields::{number_at, octet_at, octets_at};

/// One octet.
#[inline(always)]
pub(crate) fn octet(text: &[u8], at: usize, cause: Cause6) -> Result<(u8, usize), Refused6>
    requires place { at ≤ length text.now }
    requires cause { why cause ≡ because cause }
    ensures within { IfOk result (λ x. IsOn at text.now x.1) }
    ensures exact { Gives (λ octet. octet) refused_at result (read (any_octet cause) text.now at) }
{
    match octet_at(text, at) {
        Ok(found) => Ok(found),
        Err(miss) => Err(cause.missed(at, miss)),
    }
}

/// A number of seven bits an octet.
#[inline(always)]
pub(crate) fn number(text: &[u8], at: usize) -> Result<(u64, usize), Refused6>
    requires { at ≤ length text.now }
    ensures within { IfOk result (λ x. IsOn at text.now x.1) }
    ensures exact { Gives (λ n. n) refused_at result (read (any_number Cause6.Number) text.now at) }
{
    match number_at(text, at) {
        Ok(found) => Ok(found),
        Err(miss) => Err(Cause6::Number.missed(at, miss)),
    }
}

/// So many octets, lent out of the text.
#[inline(always)]
pub(crate) fn octets(text: &[u8], at: usize, count: u64) -> Result<(&[u8], usize), Refused6>
    requires { at ≤ length text.now }
    ensures within { IfOk result (λ x. IsOn at text.now x.1) }
    ensures exact { Gives (λ lent. lent.now) refused_at result
        (read (any_octets count Cause6.Truncated) text.now at) }
{
    match octets_at(text, at, count) {
        Ok(found) => Ok(found),
        Err(miss) => Err(Cause6::Truncated.missed(at, miss)),
    }
}
