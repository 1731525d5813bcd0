//! Which sessions of a peer are over, remembered for a time.
//!
//! A receiver must tell a session that is over from a new one, since what comes late for the former would
//! open the latter (RFC 5326, section 6). A peer that gives its sessions numbers without end, and in any
//! order, would fill a record of them all. [`SessionMemory`] has two lists instead: a number goes into the
//! newer one, and after a time, at a [turn](SessionMemory::pass), the newer list becomes the older one. A
//! number whose segments still come is [touched](SessionMemory::touch), and goes into the newer list again.
//! So a number is kept for that time after its last touch ([`kept_for_a_time`]).
//!
//! Either list has at most so many runs of consecutive numbers: where there is no place for another, the
//! memory [makes one](SessionMemory::make_place) by a turn before its time, and says how many runs it
//! forgot. Some numbers may be [marked](SessionMemory::mark), and are kept for good.
//!
//! Moments are those of one clock, in milliseconds. A number from 0 to 2^64 - 1 is one of a session.
#![tactic(auto)]

mod laws;
mod memory;
mod numbers;

pub use laws::{
    adds_one_run, forgets_by_the_second_turn, kept_for_a_time, numbers_have, runs_stay_within,
    touched_anew,
};
pub use memory::SessionMemory;
