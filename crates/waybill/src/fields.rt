//! Single fields: their values and the place after them, or the fault.

ghost use Rattle.std.specs.Prelude.{◌≡◌, ◌≤◌, length, IfOk};
ghost use Rattle.wire_fields.specs.Refusal.{because};
ghost use Rattle.wire_fields.specs.Reading.{read};
ghost use Rattle.wire_fields.specs.Words.{any_octet, any_octets};
ghost use Rattle.wire_fields.specs.Gives.{Gives, IsOn};
ghost use Rattle.waybill.specs.Cause.{why, refusal};
ghost use Rattle.waybill.specs.Table.{number};

use crate::fault::{Cause, Fail};
use wire_fields::{number_at, octet_at, octets_at};

/// One octet.
pub(crate) fn read_octet(text: &[u8], at: usize, cause: Cause) -> Result<(u8, usize), Fail>
    requires place { at ≤ length text.now }
    requires cause { why cause ≡ because cause }
    ensures within { IfOk result (λ x. IsOn at text.now x.1) }
    ensures exact { Gives (λ b. b) refusal result (read (any_octet cause) text.now at) }
{
    match octet_at(text, at) {
        Ok(found) => Ok(found),
        Err(miss) => Err(cause.missed(at, miss)),
    }
}

/// So many octets, lent out of the text.
pub(crate) fn read_octets(
    text: &[u8],
    at: usize,
    count: u64,
    cause: Cause,
) -> Result<(&[u8], usize), Fail>
    requires place { at ≤ length text.now }
    requires cause { why cause ≡ because cause }
    ensures within { IfOk result (λ x. IsOn at text.now x.1) }
    ensures exact { Gives (λ o. o.now) refusal result (read (any_octets count cause) text.now at) }
{
    match octets_at(text, at, count) {
        Ok(found) => Ok(found),
        Err(miss) => Err(cause.missed(at, miss)),
    }
}

/// A number of seven bits an octet.
pub(crate) fn read_number(text: &[u8], at: usize) -> Result<(u64, usize), Fail>
    requires { at ≤ length text.now }
    ensures within { IfOk result (λ x. IsOn at text.now x.1) }
    ensures exact { Gives (λ n. n) refusal result (read number text.now at) }
{
    match number_at(text, at) {
        Ok(found) => Ok(found),
        Err(miss) => Err(Cause::Number.missed(at, miss)),
    }
}
