//! What holds of the sessions over a whole run of the gateway among other implementations.
//!
//! `specs/Events` says what happens at each face of the gateway: the datagrams that came there, its
//! ticks, and the blocks that began there, each at the face's moment. The sessions of the face are
//! what these make of sessions at their beginning, so all that holds of one face's events
//! ([`peer_once`]) holds of each face of a gateway: when a red part comes twice is said of a face
//! of a run in `specs/Once`, and that marked sessions stay closed in `specs/Closed`. `specs/Own`
//! and `specs/Open` are about the sessions that the gateway itself began: their numbers, how they
//! end, and that those that are open are the ones that a run keeps as its own. There is no code
//! here.
#![tactic(auto)]

pub mod laws;
