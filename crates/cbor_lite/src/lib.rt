//! The part of CBOR that bundles of version 7 are written in (RFC 8949 as RFC 9171 uses it):
//! unsigned numbers, byte strings, text strings, heads of arrays, booleans and the break octet.
//!
//! Each item has one spelling, since a head is accepted only in its shortest form. A reader takes
//! the octets from an item's first one on, lends text and byte strings out of them, and answers the
//! item and how many octets it has; it takes no memory. More octets may follow the item. A writer
//! appends an item's spelling, or leaves what was written as it was where memory runs out.
//!
//! Left out are negative numbers, tags, floats, maps, and strings and arrays without a length, but
//! for the one break octet that ends a bundle.
#![tactic(auto)]

mod fault;
mod head;
mod reading;
mod writing;

pub use fault::CborFault;
pub use head::{Head, read_head, read_head_of};
pub use reading::{read_array, read_bool, read_break, read_bytes, read_text, read_uint};
pub use writing::{write_array, write_bool, write_bytes, write_head, write_text, write_uint};
