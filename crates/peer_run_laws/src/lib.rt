//! Laws over whole runs of the gateway among other implementations, as `peer_half` defines them, whatever
//! comes to their halves.
//!
//! `peer_half`'s `specs/Runs` says what happens to the gate of a run: in each half the clocks are read, pieces of
//! earlier runs are added while there is room, time passes, and then the datagrams come that were polled, all at the
//! moments of the half's reading. So what holds of a gateway's events holds of a run (`specs/Gate`). `specs/Faces` says
//! what is put into the outbox of a face, what goes out of it and when, and how the face's time goes; `specs/Ticks`,
//! that what is due goes in the half in which it is due. There is no code here.
#![tactic(auto)]

pub mod laws;
