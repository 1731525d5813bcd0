//! Single fields of a private body at a place: the value and the place after it.

ghost use Rattle.std.specs.Prelude.{◌≡◌, ◌≤◌, ◌<◌, length, IfOk};
ghost use Rattle.wire_fields.specs.Reading.{read};
ghost use Rattle.wire_fields.specs.Words.{any_octets, any_number};
ghost use Rattle.wire_fields.specs.Gives.{Gives, IsOn};
ghost use Rattle.bundle_meaning.specs.Body.{refusal, the_mark, shortest, below, flags_within, flags_without, name_of, is_name, name_text, name, all_left};

use crate::bits;
use crate::fault::BlockFault;
use endpoint::{ipn_named, is_ssp};
use wire_fields::{Miss, number_at, octets_at};

/// The octets with which each private body begins.
pub(crate) const MARK: [u8; 4] = [0x42, 0x36, 0x37, 0x47];

/// Where a body isn't as it should be, and whether it ends there.
#[derive(Clone, Copy)]
pub(crate) struct Unfit {
    /// The octets before the field.
    pub(crate) at: usize,
    /// Whether the octets end inside the field, or it isn't there as it should be.
    pub(crate) miss: Miss,
}

/// So many octets, lent.
pub(crate) fn octets(text: &[u8], at: usize, count: u64) -> Result<(&[u8], usize), Unfit>
    requires { at ≤ length text.now }
    ensures within { IfOk result (λ x. IsOn at text.now x.1) }
    ensures exact { Gives (λ lent. lent.now) refusal result
        (read (any_octets count BlockFault.Bad) text.now at) }
{
    match octets_at(text, at, count) {
        Ok(found) => Ok(found),
        Err(miss) => Err(Unfit { at, miss }),
    }
}

/// A number, in as few octets as can be or in more.
fn number(text: &[u8], at: usize) -> Result<(u64, usize), Unfit>
    requires { at ≤ length text.now }
    ensures within { IfOk result (λ x. IsOn at text.now x.1) }
    ensures exact { Gives (λ n. n) refusal result (read (any_number BlockFault.Bad) text.now at) }
{
    match number_at(text, at) {
        Ok(found) => Ok(found),
        Err(miss) => Err(Unfit { at, miss }),
    }
}

/// The mark.
pub(crate) fn mark(text: &[u8], at: usize) -> Result<(&[u8], usize), Unfit>
    requires { at ≤ length text.now }
    ensures within { IfOk result (λ x. IsOn at text.now x.1) }
    ensures exact { Gives (λ lent. lent.now) refusal result (read the_mark text.now at) }
{
    let (found, behind) = octets(text, at, 4)?;
    if found != MARK.as_slice() {
        return Err(Unfit {
            at,
            miss: Miss::Absent,
        });
    }
    Ok((found, behind))
}

/// A number in as few octets as can be.
#[tactic(auto, unfolding(crate::specs::Body::shortest))]
pub(crate) fn shortest(text: &[u8], at: usize) -> Result<(u64, usize), Unfit>
    requires { at ≤ length text.now }
    ensures within { IfOk result (λ x. IsOn at text.now x.1) }
    ensures exact { Gives (λ n. n) refusal result (read shortest text.now at) }
{
    let (value, behind) = number(text, at)?;
    if behind - at != sdnv::len(value) {
        return Err(Unfit {
            at: behind,
            miss: Miss::Absent,
        });
    }
    Ok((value, behind))
}

/// A number below a limit.
pub(crate) fn below(text: &[u8], at: usize, limit: u64) -> Result<(u64, usize), Unfit>
    requires { at ≤ length text.now }
    ensures within { IfOk result (λ x. IsOn at text.now x.1) }
    ensures small { IfOk result (λ x. x.0 < limit) }
    ensures exact { Gives (λ n. n) refusal result (read (below limit) text.now at) }
{
    let (value, behind) = shortest(text, at)?;
    if value >= limit {
        return Err(Unfit {
            at,
            miss: Miss::Absent,
        });
    }
    Ok((value, behind))
}

/// Flags, none of which but those of the mask is set.
pub(crate) fn flags_within(text: &[u8], at: usize, mask: u64) -> Result<(u64, usize), Unfit>
    requires { at ≤ length text.now }
    ensures within { IfOk result (λ x. IsOn at text.now x.1) }
    ensures exact { Gives (λ n. n) refusal result (read (flags_within mask) text.now at) }
{
    let (flags, behind) = shortest(text, at)?;
    if !bits::is_within(flags, mask) {
        return Err(Unfit {
            at,
            miss: Miss::Absent,
        });
    }
    Ok((flags, behind))
}

/// Flags, none of which is one of the mask.
pub(crate) fn flags_without(text: &[u8], at: usize, mask: u64) -> Result<(u64, usize), Unfit>
    requires { at ≤ length text.now }
    ensures within { IfOk result (λ x. IsOn at text.now x.1) }
    ensures exact { Gives (λ n. n) refusal result (read (flags_without mask) text.now at) }
{
    let (flags, behind) = shortest(text, at)?;
    if !bits::is_without(flags, mask) {
        return Err(Unfit {
            at,
            miss: Miss::Absent,
        });
    }
    Ok((flags, behind))
}

/// Whether a text is an endpoint's. No memory is taken.
#[tactic(auto, unfolding(endpoint::specs::Reading::read_text))]
fn is_name(text: &[u8]) -> bool
    ensures { result ≡ is_name text.now }
{
    if let Some(ssp) = text.strip_prefix(b"dtn:".as_slice()) {
        return ssp == b"none".as_slice() || is_ssp(ssp);
    }
    if let Some(ssp) = text.strip_prefix(b"ipn:".as_slice()) {
        return ipn_named(ssp).is_some();
    }
    false
}

/// The text of an endpoint, lent.
fn name_text(text: &[u8], at: usize, size: u64) -> Result<(&[u8], usize), Unfit>
    requires { at ≤ length text.now }
    ensures within { IfOk result (λ x. IsOn at text.now x.1) }
    ensures exact { Gives (λ lent. lent.now) refusal result (read (name_text size) text.now at) }
{
    let (found, behind) = octets(text, at, size)?;
    if !is_name(found) {
        return Err(Unfit {
            at,
            miss: Miss::Absent,
        });
    }
    Ok((found, behind))
}

/// An endpoint: the length of its text, and the text, which is lent.
#[tactic(auto, unfolding(crate::specs::Body::name))]
pub(crate) fn name(text: &[u8], at: usize) -> Result<(&[u8], usize), Unfit>
    requires { at ≤ length text.now }
    ensures within { IfOk result (λ x. IsOn at text.now x.1) }
    ensures exact { Gives (λ lent. name_of lent.now) refusal result (read name text.now at) }
{
    let (size, behind) = shortest(text, at)?;
    name_text(text, behind, size)
}

/// All octets that are left, lent.
#[tactic(auto, unfolding(crate::specs::Body::all_left))]
pub(crate) fn all_left(text: &[u8], at: usize) -> Result<(&[u8], usize), Unfit>
    requires { at ≤ length text.now }
    ensures within { IfOk result (λ x. IsOn at text.now x.1) }
    ensures exact { Gives (λ lent. lent.now) refusal result (read (all_left (length text.now)) text.now at) }
{
    octets(text, at, (text.len() - at) as u64)
}
