//! The content of a report.

ghost use Rattle.std.specs.Prelude.{◌≡◌, ◌+◌, ◌≤◌, length, IfOk};
ghost use Rattle.wire_fields.specs.Reading.{read};
ghost use Rattle.wire_fields.specs.Gives.{Gives, IsOn};
ghost use Rattle.ltp_segment.specs.Ties.{refusal};
ghost use Rattle.ltp_segment.specs.Claims.{claims_left};
ghost use Rattle.ltp_segment.specs.Views.{content_value};
ghost use Rattle.ltp_segment.specs.Reports.{lower_below, is_claim, claim_size, claim_after};
ghost use Rattle.ltp_segment.specs.Reports.{claims_of, report_fields};

use crate::claims::Claims;
use crate::fault::{SegmentCause, SegmentFault};
use crate::fields::{number, serial_at};
use crate::segment::{Claim, Content};

/// A report: serials, bounds and claims.
#[tactic(auto, unfolding(crate::specs::Reports::report_fields))]
pub(crate) fn report_at(text: &[u8], at: usize) -> Result<(Content<'_>, usize), SegmentFault>
    requires { at ≤ length text.now }
    ensures within { IfOk result (λ x. IsOn at text.now x.1) }
    ensures exact { Gives content_value refusal result (read report_fields text.now at) }
{
    let (serial, at) = serial_at(text, at)?;
    let (checkpoint, at) = number(text, at)?;
    let (upper, at) = number(text, at)?;
    let (lower, at) = lower_at(text, at, upper)?;
    let (count, at) = number(text, at)?;
    let (claims, at) = claims_at(text, at, count, upper - lower)?;
    Ok((
        Content::Report {
            serial,
            checkpoint,
            upper,
            lower,
            claims,
        },
        at,
    ))
}

/// The lower bound, which is below the upper one.
fn lower_at(text: &[u8], at: usize, upper: u64) -> Result<(u64, usize), SegmentFault>
    requires { at ≤ length text.now }
    ensures within { IfOk result (λ x. IsOn at text.now x.1) }
    ensures below { IfOk result (λ x. x.0 ≤ upper) }
    ensures exact { Gives (λ n. n) refusal result (read (lower_below upper) text.now at) }
{
    let (lower, after) = number(text, at)?;
    if lower >= upper {
        return Err(SegmentCause::Bounds.at(at));
    }
    Ok((lower, after))
}

/// So many claims within so many octets. Each is looked at, and none is kept.
fn claims_at(
    text: &[u8],
    at: usize,
    count: u64,
    most: u64,
) -> Result<(Claims<'_>, usize), SegmentFault>
    requires { at ≤ length text.now }
    ensures within { IfOk result (λ x. IsOn at text.now x.1) }
    ensures exact { Gives claims_left refusal result (read (claims_of count most) text.now at) }
{
    let mut after = at;
    let mut end = 0;
    'passing: for _ in 0..count {
        let (claim, next) = claim_at(text, after, most, end)?;
        after = next;
        end = claim.offset + claim.length;
    }
    let (_, first) = text.split_at(at);
    Ok((Claims::new(first, count), after))
}

/// A claim after others that end there.
#[tactic(auto, unfolding(crate::specs::Reports::claim_after))]
fn claim_at(text: &[u8], at: usize, most: u64, end: u64) -> Result<(Claim, usize), SegmentFault>
    requires { at ≤ length text.now }
    ensures within { IfOk result (λ x. IsOn at text.now x.1) }
    ensures most { IfOk result (λ x. x.0.offset + x.0.length ≤ most) }
    ensures exact { Gives (λ claim. claim) refusal result
        (read (claim_after most end) text.now at) }
{
    let (offset, at) = number(text, at)?;
    let (length, at) = claim_size_at(text, at, most, end, offset)?;
    Ok((Claim { offset, length }, at))
}

/// The length of a claim: it isn't empty, begins at the end of those before it or later, and ends
/// within the bounds.
fn claim_size_at(
    text: &[u8],
    at: usize,
    most: u64,
    end: u64,
    offset: u64,
) -> Result<(u64, usize), SegmentFault>
    requires { at ≤ length text.now }
    ensures within { IfOk result (λ x. IsOn at text.now x.1) }
    ensures most { IfOk result (λ x. offset + x.0 ≤ most) }
    ensures exact { Gives (λ n. n) refusal result (read (claim_size most end offset) text.now at) }
{
    let (size, after) = number(text, at)?;
    if !is_claim(most, end, offset, size) {
        return Err(SegmentCause::Claim.at(at));
    }
    Ok((size, after))
}

fn is_claim(most: u64, end: u64, offset: u64, size: u64) -> bool
    ensures { result ≡ is_claim most end offset size }
{
    match offset.checked_add(size) {
        Some(stop) => size != 0 && end <= offset && stop <= most,
        None => false,
    }
}
