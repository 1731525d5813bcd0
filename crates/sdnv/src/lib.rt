//! Self-delimiting numeric values, the numbers of RFC 5050 (section 4.1) and of LTP (RFC 5326).
//!
//! A number is written in groups of seven bits, the greatest first, an octet for each. Every octet
//! but the last has its high bit set. A text of 1 to 10 octets can spell a number below 2^64, and
//! may begin with groups of zeros.
//!
//! `read` takes a number from the front of a text, whatever follows it. `write` appends the
//! shortest text that spells a number, and `len` says how long that is.
#![tactic(auto)]

mod fault;
mod reading;
mod writing;

pub use fault::SdnvFault;
pub use reading::read;
pub use writing::{len, spells_shortest, write};

/// The most octets that can spell a number.
const MOST: usize = 10;
