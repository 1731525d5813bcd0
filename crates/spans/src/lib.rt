//! Covered ranges of places (octets of a block or a payload, numbers of sessions) below a limit.
//!
//! [`Spans`] starts with no place covered; [`Spans::cover`] covers a range and answers how many
//! of its places were new. A contract sees a `Spans` as the list of truth values, one for each
//! place below the limit, and [`Spans::run`], [`Spans::count`], [`Spans::covers`] and
//! [`Spans::is_whole`] are computed from that list.
//!
//! What is kept are the maximal covered ranges alone, sorted, in sorted chunks of bounded
//! length, so that memory and time go with the number of ranges and never with their lengths or
//! the limit. A search is two binary searches. A new range moves at most one chunk's ranges and
//! asks for memory before it changes anything; a range that overlaps or touches a kept one asks
//! for none. These costs are measured by bench/spans.py and not proved.
#![tactic(auto)]

mod chunk;
mod covered;
mod growth;
pub mod laws;
mod merge;
mod pieces;
mod range;
mod reading;
mod runs;

pub use covered::Spans;
pub use range::Run;
pub use runs::Runs;
