//! How a gateway is set up.

use endpoint::Endpoint;
use peer_cases::PeerSettings;
use peer_sessions::Keys;

/// How a gateway is set up. [`PeerGateway::new`](crate::PeerGateway::new) wants `IsConfig` of it.
#[derive(Debug, Drop)]
pub struct PeerConfig {
    /// What is done with bundles.
    pub settings: PeerSettings,
    /// The gateway's own name, from which its reports come.
    pub gate: Endpoint,
    /// The most octets of payload that a piece has: a longer payload is cut.
    pub cut: u64,
    /// Who is at the old face, and what it may keep.
    pub old: Keys,
    /// Who is at the new face, and what it may keep.
    pub new: Keys,
}
