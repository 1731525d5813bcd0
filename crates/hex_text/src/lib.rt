//! Octets in text: whether a text is hex, its octets, and octets as hex in lower case.
//!
//! Whether a text is hex is asked first, and takes no memory; its octets then want nothing but memory.
//! What is written is appended to a text, without a buffer beside it.
#![tactic(auto)]

mod reading;
mod writing;

pub use reading::{is_hex, octets_of};
pub use writing::write_hex;
