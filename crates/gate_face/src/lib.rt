//! A face of the gateway that an operator runs: what waits to be sent there, the face's own time, and
//! what there is to tell of its link.
//!
//! A [`FaceRun`] begins as its part of the configuration says. In each half of a run it is told what
//! the clocks show ([`FaceRun::read`]), and is given what is to be sent ([`FaceRun::put`]); then it is
//! asked what goes ([`FaceRun::next`]), and told which sends failed ([`FaceRun::lose`]). Its events
//! are those of the log: a contact began or the link is closed, datagrams were dropped, sends failed.
//!
//! No link, no engine and no log is known here.
#![tactic(auto)]

mod face;
mod schedules;

pub use face::FaceRun;
