//! The contact windows of a link: when it is open, and how long it has been open.
//!
//! A [`Plan`] is a list of [`Window`]s in order. *Contact time* is the number of moments that the
//! link has been open: it goes with the clock while a window is open, and stands still between
//! windows. Timers that run on it are suspended while the peer is out of reach, as link cues have
//! it (RFC 5326). [`Plan::elapsed`] tells the contact time at a moment, and [`Plan::moment`] the
//! one open moment at a contact time.
//!
//! A moment is a whole number of milliseconds; a window has the moments from its beginning to
//! before its end. All readers find a window by binary search and take no memory. Nothing here
//! knows a session or a gateway.
#![tactic(auto)]

mod fault;
mod judging;
mod kept;
pub mod laws;
mod plan;
mod window;

pub use fault::PlanFault;
pub use plan::Plan;
pub use window::Window;
