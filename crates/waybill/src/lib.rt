//! A waybill, a small format of our own that shows how a decoder stands on `wire_fields`. It belongs
//! to no standard, and only tests call it.
//!
//! Its table is `specs/Table.antt`: 15 fields, some of which stand there only where an earlier one
//! says so, a choice by the next octet, a length that is held against the octets passed, a sum over
//! all octets before it, items with conditions on the earlier ones, and a count that is read first
//! and used at the end. [`decode`] takes a waybill from the front of a text and [`decode_whole`] a
//! text that is one; both say all that a decoder can say. [`exactly_one`] is the law of tables at
//! this one, which [`Bills`] names.
#![tactic(auto)]

mod fault;
mod fields;
mod laws;
mod reading;
mod waybill;

pub use fault::{Cause, Fail};
pub use laws::{Bills, exactly_one};
pub use reading::{decode, decode_whole};
pub use waybill::{Front, Item, Part, Waybill};
