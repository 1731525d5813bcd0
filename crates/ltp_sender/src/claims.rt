//! The claims of a report, added to what was claimed before.

ghost use Rattle.std.specs.Prelude.{◌≡◌, ◌+◌, ◌-◌, ◌≤◌, length, OnOk};
ghost use Rattle.ltp_segment.specs.Claims.{claims_left};
ghost use Rattle.ltp_segment.specs.Legal.{AreClaims};
ghost use Rattle.ltp_session.specs.Claims.{with_claims};

use ltp_segment::Claims;
use spans::Spans;
use std::alloc::AllocError;

/// Covers the octets of some claims, which count from the lower bound of their report.
pub(crate) fn add_claims(
    claimed: &mut Spans,
    lower: u64,
    upper: u64,
    claims: Claims<'_>,
) -> Result<(), AllocError>
    requires bounds { lower ≤ upper }
    requires within { upper ≤ length claimed.old }
    requires legal { AreClaims (upper - lower) 0 (claims_left claims) }
    ensures { OnOk result (claimed.new ≡ with_claims lower (claims_left claims.entry) claimed.old) }
{
    'adding: for claim in claims {
        let from = lower + claim.offset;
        claimed.cover(from, from + claim.length)?;
    }
    Ok(())
}
