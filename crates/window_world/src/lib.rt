//! A link that is open only in planned windows, and suspends its timers outside them (link cues of
//! RFC 5326).
//!
//! A [`WindowWorld`] is a link world whose clock is contact time: the number of moments at which the
//! link has been open. Each call is the link world's call at that time, so all that holds of links
//! holds here; and nothing is submitted or delivered while the link is closed. In a drain each event
//! happens at the one open moment that has its contact time. A drain goes on from window to window
//! until nothing is left to do, or until the plan has no moment for what comes next.
//!
//! So a link that is closed for however long spends no retransmission: contact time stands still
//! there, and no timer is due that wasn't due before. What a drain costs is what it costs on a link
//! that is always open.
#![tactic(auto)]

mod drain;
mod effects;
pub mod laws;
mod refused;
mod world;

pub use effects::{At, Timed, WindowDrained};
pub use refused::{WindowDeliver, WindowSubmit};
pub use world::WindowWorld;
