//! Two engines on a link that may lose, repeat and reorder what they send (RFC 5326).
//!
//! A [`LinkWorld`] has both engines, the list of every datagram that was ever sent, and a clock. It
//! is told what happens: an end submits a block, a datagram of the list comes to the end that
//! didn't send it, any number of times, or the clock goes on. A datagram that is never delivered is
//! lost. Each call is one event of the link that `ltp_session` defines, whose datagrams are decoded
//! segments: `ShowsRun` says after which events a value stands. So what `ltp_laws` says of every
//! run holds of every world.
//!
//! Nothing is delivered unasked, and no deadline is looked at before the clock is set, but in a
//! drain: then the link stops losing, and goes on by itself until nothing is left to do.
#![tactic(auto)]

mod drain;
mod effects;
mod ends;
mod picks;
mod refused;
mod sent;
mod world;

pub use effects::{Drained, EndEffects, WorldEffects, WorldSteps};
pub use ends::End;
pub use picks::Pick;
pub use refused::{DeliverRefused, DrainRefused};
pub use sent::Sent;
pub use world::LinkWorld;
