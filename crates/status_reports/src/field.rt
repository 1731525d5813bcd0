//! Single fields of a report at a place: the value and the place after it.

ghost use Rattle.std.specs.Prelude.{◌≡◌, ◌≤◌, ◌<◌, ◌==◌, length, IfOk};
ghost use Rattle.wire_fields.specs.Kind.{head};
ghost use Rattle.wire_fields.specs.Format.{field, such_that};
ghost use Rattle.wire_fields.specs.Reading.{read};
ghost use Rattle.wire_fields.specs.Words.{needs, any_octet, any_octets, any_number, any_unsigned};
ghost use Rattle.wire_fields.specs.Gives.{Gives, IsOn};
ghost use Rattle.status_reports.specs.Fields.{refusal, number, number_below};

use crate::fault::AdminFault;
use wire_fields::{Miss, UNSIGNED, head_at, number_at, octet_at, octets_at};

/// Where a body isn't as it should be, and whether it ends there.
#[derive(Clone, Copy)]
pub(crate) struct Unfit {
    /// The octets before the field.
    pub(crate) at: usize,
    /// Whether the octets end inside the field, or it isn't there as it should be.
    pub(crate) miss: Miss,
}

/// A field that isn't as it should be.
pub(crate) fn absent(at: usize) -> Unfit
    ensures { result ≡ record { at = at; miss = Miss.Absent } }
{
    Unfit {
        at,
        miss: Miss::Absent,
    }
}

/// One octet.
pub(crate) fn octet(text: &[u8], at: usize) -> Result<(u8, usize), Unfit>
    requires { at ≤ length text.now }
    ensures within { IfOk result (λ x. IsOn at text.now x.1) }
    ensures exact { Gives (λ octet. octet) refusal result
        (read (any_octet AdminFault.BadAdmin) text.now at) }
{
    match octet_at(text, at) {
        Ok(found) => Ok(found),
        Err(miss) => Err(Unfit { at, miss }),
    }
}

/// So many octets, lent.
pub(crate) fn octets(text: &[u8], at: usize, count: u64) -> Result<(&[u8], usize), Unfit>
    requires { at ≤ length text.now }
    ensures within { IfOk result (λ x. IsOn at text.now x.1) }
    ensures exact { Gives (λ lent. lent.now) refusal result
        (read (any_octets count AdminFault.BadAdmin) text.now at) }
{
    match octets_at(text, at, count) {
        Ok(found) => Ok(found),
        Err(miss) => Err(Unfit { at, miss }),
    }
}

/// A number of seven bits an octet, in as few octets as can be or in more.
fn any_number(text: &[u8], at: usize) -> Result<(u64, usize), Unfit>
    requires { at ≤ length text.now }
    ensures within { IfOk result (λ x. IsOn at text.now x.1) }
    ensures exact { Gives (λ n. n) refusal result
        (read (any_number AdminFault.BadAdmin) text.now at) }
{
    match number_at(text, at) {
        Ok(found) => Ok(found),
        Err(miss) => Err(Unfit { at, miss }),
    }
}

/// A number of seven bits an octet, in as few octets as can be.
#[tactic(auto, unfolding(bundle_meaning::specs::Body::shortest))]
pub(crate) fn number(text: &[u8], at: usize) -> Result<(u64, usize), Unfit>
    requires { at ≤ length text.now }
    ensures within { IfOk result (λ x. IsOn at text.now x.1) }
    ensures exact { Gives (λ n. n) refusal result (read number text.now at) }
{
    let (value, behind) = any_number(text, at)?;
    if behind - at != sdnv::len(value) {
        return Err(absent(behind));
    }
    Ok((value, behind))
}

/// Such a number below a limit.
pub(crate) fn number_below(text: &[u8], at: usize, limit: u64) -> Result<(u64, usize), Unfit>
    requires { at ≤ length text.now }
    ensures within { IfOk result (λ x. IsOn at text.now x.1) }
    ensures exact { Gives (λ n. n) refusal result (read (number_below limit) text.now at) }
{
    let (value, behind) = number(text, at)?;
    if value >= limit {
        return Err(absent(at));
    }
    Ok((value, behind))
}

/// The head of a CBOR item of this major type.
pub(crate) fn item(text: &[u8], at: usize, major: u8) -> Result<(u64, usize), Unfit>
    requires { at ≤ length text.now }
    ensures within { IfOk result (λ x. IsOn at text.now x.1) }
    ensures exact { Gives (λ n. n) refusal result
        (read (field (head major) AdminFault.BadAdmin) text.now at) }
{
    match head_at(text, at, major) {
        Ok(found) => Ok(found),
        Err(miss) => Err(Unfit { at, miss }),
    }
}

/// An unsigned number.
pub(crate) fn unsigned(text: &[u8], at: usize) -> Result<(u64, usize), Unfit>
    requires { at ≤ length text.now }
    ensures within { IfOk result (λ x. IsOn at text.now x.1) }
    ensures exact { Gives (λ n. n) refusal result
        (read (any_unsigned AdminFault.BadAdmin) text.now at) }
{
    item(text, at, UNSIGNED)
}

/// The head of a CBOR item of this major type, which says this number.
pub(crate) fn exactly(text: &[u8], at: usize, major: u8, value: u64) -> Result<(u64, usize), Unfit>
    requires { at ≤ length text.now }
    ensures within { IfOk result (λ x. IsOn at text.now x.1) }
    ensures exact { Gives (λ n. n) refusal result (read (such_that
        (field (head major) AdminFault.BadAdmin)
        (λ n. needs (n == value) AdminFault.BadAdmin)) text.now at) }
{
    let (found, after) = item(text, at, major)?;
    if found != value {
        return Err(absent(at));
    }
    Ok((found, after))
}
