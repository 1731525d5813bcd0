//! Blocks of several bundles: what stands in a block that was handed up, bundle after bundle.
//!
//! Some senders put several bundles into one block, one after the other (own rule: RFC 5326 leaves a
//! block's content to its client). A block is a row of bundles of its face's version, and perhaps an end:
//! the place where no bundle goes on, and why. [`next_at`] says what stands at a place, and [`count`] how
//! many bundles there are, and how the row ends. Neither takes memory.
//!
//! Each bundle of a row is read as it would be in a block of its own ([`each_alone`]), and a row is the only
//! one that its octets spell ([`row_is_spelled`]). A block of one bundle, or of none, is what
//! [`gate_cases`] finds in it ([`reads_as_one`]).
#![tactic(auto)]

mod counting;
mod laws;
mod next;

pub use counting::{Counted, count};
pub use laws::{each_alone, reads_as_one, row_is_spelled};
pub use next::{End, Next, next_at};
