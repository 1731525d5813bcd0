//! The claims of a report, one after the other.

ghost use Rattle.std.specs.Prelude.{◌≡◌};
ghost use Rattle.std.specs.Iterator.{YieldsFirst, item_count};
ghost use Rattle.ltp_segment.specs.Claims.{claims_left, front_number, front_claim};
ghost use Rattle.ltp_segment.specs.Ties.{lent};

use crate::segment::Claim;

/// The claims of a report in their order, read out of its datagram. No memory is taken.
#[derive(Clone, Copy, Debug)]
pub struct Claims<'a> {
    /// The datagram from the next claim on.
    rest: &'a [u8],
    /// How many claims are left.
    count: u64,
}

impl<'a> Claims<'a> {
    /// So many claims at the front of these octets.
    pub(crate) fn new(rest: &'a [u8], count: u64) -> Claims<'a>
        ensures rest { result.rest.now ≡ rest.now }
        ensures count { result.count ≡ count }
    {
        Claims { rest, count }
    }
}

impl<'a> Iterator for Claims<'a> {
    type Item = Claim;

    ghost next_gives = { YieldsFirst claims_left };

    ghost remaining = { item_count claims_left };

    fn next(&mut self) -> Option<Claim> {
        if self.count == 0 {
            return None;
        }
        let (claim, rest) = first_claim(self.rest)?;
        self.rest = rest;
        self.count -= 1;
        Some(claim)
    }
}

/// The claim at the front, and the octets after it.
#[tactic(auto, unfolding(crate::specs::Claims::front_claim))]
fn first_claim(text: &[u8]) -> Option<(Claim, &[u8])>
    ensures { lent result ≡ front_claim text.now }
{
    let (offset, after) = first_number(text)?;
    let (length, rest) = first_number(after)?;
    Some((Claim { offset, length }, rest))
}

/// The number at the front, and the octets after it.
#[tactic(auto, unfolding(crate::specs::Claims::front_number))]
fn first_number(text: &[u8]) -> Option<(u64, &[u8])>
    ensures { lent result ≡ front_number text.now }
{
    match sdnv::read(text) {
        Ok((number, octets)) => Some((number, &text[octets..])),
        Err(_) => None,
    }
}
