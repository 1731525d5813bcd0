//! How a gateway is set up.

use endpoint::Endpoint;
use ltp_segment::Policy;

/// How a gateway is set up. [`Gateway::new`](crate::Gateway::new) wants `IsGateConfig` of it.
#[derive(Debug, Drop)]
pub struct GateConfig {
    /// The gateway's own name, from which its reports come: a legal endpoint other than the null one.
    pub gate: Endpoint,
    /// How both of its engines send.
    pub policy: Policy,
    /// The most octets of payload that a piece has, 1 to 4,000,000: a longer payload is cut.
    pub cut: u64,
}
