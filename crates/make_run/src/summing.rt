//! What is summed and counted of a transcript.

ghost use Rattle.std.specs.Prelude.{◌≡◌};
ghost use Rattle.make_run.specs.Making.{sum_after, is_at_end, count_at_ends};

use path_laws::{Place, UpAt};

/// The sum is of so many bits.
const SUMS: u64 = 1 << 32;

/// The sum with these octets, where those before them have this one.
#[tactic(auto, unfolding(crate::specs::Making::sum_after))]
pub(crate) fn sum_after(before: u32, octets: &[u8]) -> u32
    ensures { result ≡ sum_after before octets.now }
{
    let mut sum = u64::from(before);
    'each: for octet in octets {
        sum = (31 * sum + u64::from(*octet)) % SUMS;
    }
    sum as u32
}

/// Whether a place is an end of the path.
fn is_at_end(place: Place) -> bool
    ensures { result ≡ is_at_end place }
{
    match place {
        Place::OldNode | Place::NewNode => true,
        Place::OldFace | Place::NewFace => false,
    }
}

/// How many of some blocks came whole at the ends.
pub(crate) fn count_at_ends(ups: &[UpAt]) -> usize
    ensures { result ≡ count_at_ends ups.now }
{
    ups.iter().filter(|up| is_at_end(up.place)).count()
}
