//! The age of a bundle that waits at a gateway (RFC 9171, section 4.4.2).
//!
//! A bundle whose source has no clock carries its age, which each node raises by the time for which the
//! bundle stayed there. [`raised`] does that for a record, whichever version it came in and goes out in: in
//! version 6 the age is carried in a wrap of the gateway's own. [`has_age`] says whether there is one.
//!
//! A view of a raised record reads as that record, and in version 7 it is the view with its age raised
//! ([`raised_in_views`]); stays add up, and no time changes nothing ([`stays_add_up`]).
#![tactic(auto)]

mod laws;
mod raising;

pub use laws::{raised_in_views, stays_add_up};
pub use raising::{has_age, raised};
