//! The sockets of a running gateway.
//!
//! A face takes datagrams from its peer's host, from any port there or from one alone ([`takes`], which is
//! proved), and sends to the peer. What a socket does no clause can see; [`SocketOutside`] is the outside
//! of a run that is over sockets, and tells of its writes and of its journal's faults alone.
#![tactic(auto)]

mod accepting;
mod outside;
mod sockets;

pub use accepting::takes;
pub use outside::SocketOutside;
pub use sockets::{Side, Sockets};
