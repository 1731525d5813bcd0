//! A block of version 7 where it lies.

ghost use Rattle.std.specs.Prelude.{◌≡◌, ◌≤◌, length, take, drop, Ok, IfOk, IfSome};
ghost use Rattle.wire_fields.specs.Reading.{read};
ghost use Rattle.wire_fields.specs.Gives.{Gives};
ghost use Rattle.bundle7.specs.Cause.{refused};
ghost use Rattle.bundle7.specs.Table.{body_field};
ghost use Rattle.bundle_judges.specs.Sum7.{with_octets, check_octets};
ghost use Rattle.bundle_judges.specs.Here7.{HasCheck, HasBlock};

use crate::sum7::{Sum, absent, missed};
use bundle7::{
    Cause7, Front, Lead, MOST_EXTENSIONS, Refused7, Seen, front_judged, is_body, is_single,
};
use endpoint::Fragment;
use wire_fields::octets_at;

/// The block at the front of some octets, where it is there as a whole and is as it should be, and how many
/// octets it has. Where it isn't there up to its end, none of it is summed.
#[inline(always)]
pub(crate) fn block_here(rest: &[u8], part: Option<Fragment>, seen: &Seen) -> Option<(Lead, usize)>
    requires { length seen.now.kinds ≤ 64 }
    ensures { IfSome result (λ x. HasBlock part seen.now rest.now x.0 x.1) }
{
    let left = MOST_EXTENSIONS - seen.count();
    let Ok((front, from)) = front_judged(rest, 0, part, left, seen) else {
        return None;
    };
    let lead = front.lead;
    let Ok((_, size)) = item_of(&rest[from..], front) else {
        return None;
    };
    let to = from + size;
    if rest.len() - to < check_size(lead.crc) {
        return None;
    }
    match check_here(Sum::new(lead.crc), rest, to) {
        Some(more) => Some((lead, to + more)),
        None => None,
    }
}

/// How many octets the check has that stands at a place, where it is as it should be. The octets before it
/// are summed at once with its head, from the sum of none.
#[inline(always)]
fn check_here(none: Sum, rest: &[u8], to: usize) -> Option<usize>
    requires { to ≤ length rest.now }
    ensures { IfSome result (HasCheck (with_octets none (take to rest.now)) (drop to rest.now)) }
{
    let tail = &rest[to..];
    match none.head(tail) {
        Ok((_, head)) => match octets_here(none.with(&rest[..to + head]), &tail[head..]) {
            Some(octets) => Some(head + octets),
            None => None,
        },
        Err(_) => None,
    }
}

/// The same after its head.
#[inline(always)]
fn octets_here(sum: Sum, tail: &[u8]) -> Option<usize>
    ensures { IfSome result (λ more. (read (check_octets sum) tail.now 0 ≡ Ok (tt, more)) × (more ≤ length tail.now)) }
{
    match sum.octets(tail) {
        Ok((_, octets)) => Some(octets),
        Err(_) => None,
    }
}

/// How many octets a check of this type has, with its head.
#[inline(always)]
fn check_size(crc: u8) -> usize
    ensures { result ≤ 5 }
{
    match crc {
        0 => 0,
        1 => 3,
        _ => 5,
    }
}

/// A body of one item at the front of some octets.
#[inline(always)]
pub(crate) fn item_of(text: &[u8], front: Front) -> Result<(&[u8], usize), Refused7>
    ensures within { IfOk result (λ x. x.1 ≤ length text.now) }
    ensures exact { Gives (λ lent. lent.now) refused result
        (read (body_field front.lead.kind front.size) text.now 0) }
{
    match octets_at(text, 0, front.size) {
        Ok((body, end)) => {
            if is_single(front.lead.kind) && !is_body(front.lead.kind, body) {
                return Err(absent(Cause7::ExtensionBody));
            }
            Ok((body, end))
        }
        Err(miss) => Err(missed(miss, Cause7::Body)),
    }
}
