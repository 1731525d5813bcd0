//! When a red part can be handed up twice by a face that remembers numbers only for a time.
//!
//! An engine that keeps every closed number hands up no session twice (`ltp_engine`). A face among other
//! implementations ([`peer_sessions`]) remembers a number for a time (own rule). So a peer that uses a number
//! again after that time is heard, and one that goes on sending for an old session may be heard twice. The
//! laws of this crate say when: a red part is handed up again only where its session opened anew; that is
//! never within the time, unless runs of numbers were forgotten early, which the face tells. They are over
//! every run of datagrams, ticks and blocks, whoever the peer is.
#![tactic(auto)]

pub mod laws;
