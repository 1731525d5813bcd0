//! What a face of a gateway has to send: when each datagram goes, and how the face's own time
//! passes meanwhile.
//!
//! An [`Outbox`] keeps the datagrams that wait, in order, up to a limit of octets. It is told each
//! [`Reading`] of the clocks ([`Outbox::read`]), is given datagrams ([`Outbox::put`]), and is asked
//! for the next one ([`Outbox::next`]) until it has none that may go now. One goes only while the
//! link is open by the face's [`Schedule`], and at a pace. A [`FaceTime`] is the face's moment: it
//! stands still while the link is closed, and while datagrams wait.
//!
//! A reading has two clocks. The wall clock, which may be set either way, says which contact a
//! moment lies in. The monotonic clock, which never falls, says how much time has passed, for the
//! pace and for the face's moment.
//!
//! Nothing here knows a link or an engine. What holds over every run is in [`laws`].
#![tactic(auto)]

mod face_time;
pub mod laws;
mod outbox;
mod pace;
mod reading;
mod schedule;

pub use face_time::FaceTime;
pub use outbox::Outbox;
pub use reading::Reading;
pub use schedule::Schedule;
