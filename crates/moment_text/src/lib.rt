//! Moments as texts: milliseconds since the start of the year 2000 in UTC, as DTN time counts them
//! (RFC 9171, section 4.2.6).
//!
//! [`spell`] writes a moment as `YYYY-MM-DDTHH:MM:SS.mmmZ`, without memory, and [`moment_of`] has
//! the moment of a TOML date-time with seconds and offset. The calendar is `jiff_core`'s; leap
//! seconds are left out, as DTN time and the system's clock have none.
#![tactic(auto)]

mod laws;
mod reading;
mod writing;

pub use laws::shows_the_calendar;
pub use reading::moment_of;
pub use writing::{TEXT_LENGTH, spell};
