//! The configuration of the gateway that an operator runs: a TOML file of one table for the gateway
//! and one for each of its faces.
//!
//! [`read`] gives what a file means, with its defaults filled in, or the first reason to refuse it;
//! [`Refusal::text`] says the reason, with the place in the file and what is wanted there. [`show`]
//! writes what a file means as a file that says all of it.
//!
//! The keys stand in one place (`keys.rt`). Nothing here opens a file, looks up an address or knows
//! a session.
#![tactic(auto)]

mod building;
mod fault;
mod file;
mod judging;
mod keys;
mod lines;
mod output;
mod reading;
mod showing;
mod values;

pub use fault::{ConfigFault, Refusal, Wanted, Within};
pub use file::{
    Accept, Age, BlocksConfig, Contact, Contacts, FaceConfig, ForeignBlocks, GateFile,
    GatewayConfig,
};
pub use keys::{Key, Kind, Section};
pub use reading::{MOST_OCTETS, has_one_meaning, read};
pub use showing::show;
