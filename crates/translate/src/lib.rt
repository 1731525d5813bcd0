//! Bundles of version 6 and 7, translated into each other (RFC 5050, RFC 9171).
//!
//! [`to_new`] and [`to_old`] make a bundle of the other version, and [`norm6`] and [`norm7`] the normal
//! form of one. Each is a view of what was read: [`from6`] and [`from7`] read the record that a bundle
//! stands for, and [`view6`] and [`view7`] are the bundles that stand for a record. Why a bundle doesn't
//! read is told without its record by [`refusal6`] and [`refusal7`].
//!
//! What the other version can't say is carried in blocks of the gateway's own, so that a bundle that went
//! there and back is its normal form ([`there_and_back`]), and says the same ([`says_the_same`]). A legal
//! bundle that isn't refused reads as a sound record ([`reads_soundly6`], [`reads_soundly7`]).
//!
//! Of administrative bundles those with a status report are translated, report and all; custody
//! transfer is refused, and so are other administrative records (RFC 5050, section 6.1; RFC 9171,
//! section 6.1).
#![tactic(auto)]

mod fitting;
mod laws;
mod private;
mod reading6;
mod reading7;
mod refused;
mod report6;
mod report7;
mod translation;
mod writing6;
mod writing7;

pub use laws::{
    late_is_refused, no_more_blocks, plain_is_normal, reads_soundly6, reads_soundly7,
    says_the_same, there_and_back, view_is_normal, view6_is_legal, view6_reads, view7_is_legal,
    view7_reads,
};
pub use reading6::{from6, refusal6};
pub use reading7::{from7, refusal7};
pub use refused::{Refused, ViewRefused};
pub use translation::{norm6, norm7, sized, sized6, to_new, to_old};
pub use writing6::{fits6, view6};
pub use writing7::{fits7, needs_residue7, view7};
