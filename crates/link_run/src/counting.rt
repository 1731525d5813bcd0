//! How many datagrams and octets ends sent. A count stays at 2^64 - 1 where it would pass that.

ghost use Rattle.std.specs.Prelude.{◌≡◌, ◌+◌};
ghost use Rattle.link_run.specs.Shows.{capped};
ghost use Rattle.link_run.specs.WrittenLines.{count_sent, count_steps, count_timed, octets_of};
ghost use Rattle.link_run.specs.WrittenLines.{octets_sent, octets_steps, octets_timed};

use endpoint::Octets;
use ltp_world::{EndEffects, WorldEffects};
use window_world::At;

/// These octets and those of some datagrams.
fn add_datagrams(octets: u64, datagrams: &[Octets]) -> u64
    ensures { result ≡ capped (octets + octets_of datagrams.now) }
{
    let mut sum = octets;
    'each: for datagram in datagrams {
        sum = sum.saturating_add(datagram.as_slice().len() as u64);
    }
    sum
}

/// These octets and those that ends sent at an event.
pub(crate) fn add_sent(octets: u64, tolds: &[EndEffects]) -> u64
    ensures { result ≡ capped (octets + octets_sent tolds.now) }
{
    let mut sum = octets;
    'each: for told in tolds {
        sum = add_datagrams(sum, told.effects.out.as_slice());
    }
    sum
}

/// So many datagrams, and those that ends sent at an event.
pub(crate) fn count_sent(count: u64, tolds: &[EndEffects]) -> u64
    ensures { result ≡ capped (count + count_sent tolds.now) }
{
    let mut sum = count;
    'each: for told in tolds {
        sum = sum.saturating_add(told.effects.out.as_slice().len() as u64);
    }
    sum
}

/// So many datagrams, and those that ends sent at events.
pub(crate) fn count_timed(count: u64, ats: &[At]) -> u64
    ensures { result ≡ capped (count + count_timed ats.now) }
{
    let mut sum = count;
    'each: for at in ats {
        sum = count_sent(sum, at.effects.as_slice());
    }
    sum
}

/// These octets and those that ends sent at events.
pub(crate) fn add_timed(octets: u64, ats: &[At]) -> u64
    ensures { result ≡ capped (octets + octets_timed ats.now) }
{
    let mut sum = octets;
    'each: for at in ats {
        sum = add_sent(sum, at.effects.as_slice());
    }
    sum
}

/// So many datagrams, and those that ends sent at one event after the other.
pub(crate) fn count_steps(count: u64, steps: &[WorldEffects]) -> u64
    ensures { result ≡ capped (count + count_steps steps.now) }
{
    let mut sum = count;
    'each: for step in steps {
        sum = count_sent(sum, step.as_slice());
    }
    sum
}

/// These octets and those that ends sent at one event after the other.
pub(crate) fn add_steps(octets: u64, steps: &[WorldEffects]) -> u64
    ensures { result ≡ capped (octets + octets_steps steps.now) }
{
    let mut sum = octets;
    'each: for step in steps {
        sum = add_sent(sum, step.as_slice());
    }
    sum
}
