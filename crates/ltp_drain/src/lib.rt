//! Laws over a drain of one link of the Licklider Transmission Protocol (RFC 5326): a link that
//! stops losing completes its sessions, and in so many events.
//!
//! A drain is a list of clean events (`specs/Clean`): what is sent from its beginning on is
//! delivered, once and in order, and the clock moves to the next deadline where nothing is left to
//! deliver. `specs/Hopeful` says when that completes all sessions and what it costs, `Completion`
//! what it promises, and `Effects` how that shows. `Draining` and `Ranks` say the same step by
//! step, for segments of both ends that cross in any way and blocks that are submitted meanwhile.
//!
//! Each law is the contract of a function that does nothing. They stand on the facts of
//! `ltp_laws`, which hold after every run. Nothing here tells how long a drain takes in seconds,
//! nor what becomes of a link outside these premises. [`examples`] computes short drains.
#![tactic(auto)]

pub mod examples;
pub mod laws;
