//! What holds of the journal over a whole run of the gateway among other implementations: with
//! whatever comes to its halves, and for as long as it goes on. The run is the one that `peer_half`
//! defines.
//!
//! At each datagram that goes out, what the run knows is in the journal. So each session number
//! that was given is reserved there; each piece that was added is pending there until the session
//! of its block ended, also a piece of an earlier run, which is added again once; and a session of
//! the peer that was claimed in part is marked there ([`laws`]). What holds of one step or of one
//! half alone, `peer_records` and `peer_half` say.
//!
//! There is no code here: each law is the contract of a function that only cites laws of what
//! stands below.
#![tactic(auto)]

pub mod laws;
