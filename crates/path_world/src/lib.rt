//! A whole path as a value: an old node, the gate and a new node, with a link between each two.
//!
//! The old node speaks version 6 (RFC 5050), the new one version 7 (RFC 9171), and each link the
//! Licklider Transmission Protocol (RFC 5326). A [`PathWorld`] has the engines of both nodes, the
//! gateway, a joiner at each end, the list of every datagram that was ever sent, and a clock. It is
//! told what happens: an end sends a bundle, a datagram of the list comes to the place across its
//! link, any number of times, or the clock goes on. A datagram that is never delivered is lost.
//! [`PathWorld::drain`] goes on where the path stops losing.
//!
//! Each call is one event of the path that `path_laws` defines, whose datagrams are decoded
//! segments: `ShowsRun` says after which events a value stands. So what `path_laws` says of every
//! run holds of every world.
#![tactic(auto)]

mod drain;
mod drained;
mod fragment;
mod joining;
mod node;
mod parts;
mod sent;
mod telling;
mod world;

pub use drained::{PathDrained, PathSteps};
pub use sent::Sent;
pub use world::PathWorld;
