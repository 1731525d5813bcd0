//! The metrics of the running gateway: what is counted at its faces, and how things stand there, as a
//! text that a scraper reads.
//!
//! [`Counters`] begin at 0 in each run; [`Counters::count`] adds what happened at a face, and none ever
//! falls: one that reaches 2^64 - 1 stays there. [`Gauges`] say how things stand at one moment.
//! [`write_metrics`] appends the text: each family with its help, its type and its samples, the old
//! face before the new one, in Prometheus' text format. [`write_peer_metrics`] adds what a gateway among
//! other implementations tells besides; no program calls it yet.
#![tactic(auto)]

mod counters;
mod gauges;
mod laws;
mod text;

pub use counters::{BlockCounters, Counted, Counters, EndCounters, Ended, FaceCounters};
pub use gauges::{FaceGauges, Gauges, LinkGauge};
pub use laws::{counters_grow, has_no_sample_twice, names_say_their_types};
pub use text::{write_metrics, write_peer_metrics};
