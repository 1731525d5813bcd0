//! What stands at the front of octets that are there whole.
ghost use Rattle.bundle_runs.specs.Front.{front6};
ghost use Rattle.bundle_runs.specs.Given.{Finds, IsVersion};

use crate::front::Cause;
use bundle6::{Cause6, Refused6, judge6};

/// The octet that a bundle of version 6 begins with: its version.
pub const SIX: u8 = 0x06;

/// The octet that a bundle of version 7 begins with: it opens an array without a length.
pub const SEVEN: u8 = 0x9F;

/// What octets gave.
#[derive(Debug, Drop)]
pub enum Given<T: Drop> {
    /// A bundle, of which this is wanted, and how many of the octets it takes.
    Whole(T, usize),
    /// No end: a bundle begins, and goes on after the octets.
    Part,
    /// No bundle: the place of the first field that isn't there as it should be, counted from where
    /// the bundle began, and the cause.
    Refused(usize, Cause),
}

/// The version of the bundle of version 6 at the front of octets. It takes no memory.
pub fn judged6(octets: &[u8]) -> Given<u8>
    ensures { Finds IsVersion (front6 octets.now) 0 result }
{
    match judge6(octets) {
        Ok(size) => Given::Whole(6, size),
        Err(Refused6 { at, cause }) => match cause {
            Cause6::Truncated => Given::Part,
            _ => Given::Refused(at, Cause::Six(cause)),
        },
    }
}
