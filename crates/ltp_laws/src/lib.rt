//! Laws over every run of two engines on a link of the Licklider Transmission Protocol (RFC 5326).
//!
//! The definitions of `ltp_session` say what a session, an engine and a link do; this crate says
//! what follows for a whole run. A run is any list of submits, deliveries and clocks: anything
//! that was ever sent may be delivered, in any order and any number of times, or never. Each law
//! is the contract of a function that does nothing.
//!
//! `specs/View` says what a session is on a link, and each later file of `specs/` one kind of fact
//! about it. They hold one another: each needs those before it. `docs/link-laws.md` has them in
//! plain sentences. Nothing here tells how long a session takes or that it ends.
#![tactic(auto)]

pub mod laws;
