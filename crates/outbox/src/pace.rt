//! The pace: what was sent ahead of the rate, and what time takes off.
//!
//! A debt has 128 bits, which no sum or product here passes. A rate and a time are below 2^64, so
//! their product is below 2^128. A debt that lets a datagram go is at most 10 times the rate, so
//! with 1,000 for each octet of the datagram it is below 2^75.

ghost use Rattle.std.specs.Prelude.{◌≡◌, true, if◌then◌else◌};
ghost use Rattle.outbox.specs.Outbox.{is_paced, is_same, owed_octets, paid_off, since};

use crate::reading::Reading;

/// A datagram goes where at most so many milliseconds of the rate were sent ahead.
const SLACK: u128 = 10;

/// What an octet adds to the debt: as many milliseconds a rate of one octet a second takes for it.
const OF_AN_OCTET: u128 = 1000;

/// The milliseconds of the monotonic clock since the reading before.
pub(crate) fn since(before: Option<Reading>, now: Reading) -> u64
    ensures { result ≡ since before now }
{
    match before {
        Some(before) => now.monotonic.saturating_sub(before.monotonic),
        None => 0,
    }
}

/// Whether two readings lie in one contact.
fn is_same(before: Option<usize>, after: Option<usize>) -> bool
    ensures { result ≡ is_same before after }
{
    match (before, after) {
        (Some(before), Some(after)) => before == after,
        _ => false,
    }
}

/// What is left of a debt after so many milliseconds at a rate.
fn paid_off(rate: Option<u64>, debt: u128, time: u64) -> u128
    ensures { result ≡ paid_off rate debt time }
{
    match rate {
        Some(rate) => debt.saturating_sub(u128::from(rate) * u128::from(time)),
        None => 0,
    }
}

/// What is left of a debt at a reading, by the contact of the reading before and this one's.
pub(crate) fn debt_at(
    before: Option<usize>,
    contact: Option<usize>,
    rate: Option<u64>,
    debt: u128,
    time: u64,
) -> u128
    ensures { result ≡ (if is_same before contact then paid_off rate debt time else 0) }
{
    if is_same(before, contact) {
        paid_off(rate, debt, time)
    } else {
        0
    }
}

/// Whether the pace lets a datagram go.
pub(crate) fn is_paced(rate: Option<u64>, debt: u128) -> bool
    ensures { result ≡ is_paced rate debt }
{
    match rate {
        Some(rate) => debt <= SLACK * u128::from(rate),
        None => true,
    }
}

/// A debt with what a datagram of so many octets adds.
pub(crate) fn owed(rate: Option<u64>, debt: u128, octets: usize) -> u128
    requires { is_paced rate debt ≡ true }
    ensures { result ≡ owed_octets rate debt octets }
{
    match rate {
        Some(_) => debt + OF_AN_OCTET * octets as u128,
        None => debt,
    }
}
