//! From where a face takes datagrams.

ghost use Rattle.std.specs.Prelude.{◌≡◌, ◌↔◌, true};
ghost use Rattle.gate_sockets.specs.Takes as spec;

use gate_config::Accept;
use std::net::SocketAddr;

/// Whether a face with this peer takes what comes from there: from the peer's host, and where
/// [`Accept::Port`] is said from its port alone. An IPv6 address within ::ffff:0:0/96 is that of IPv4.
pub fn takes(accept: Accept, peer: &SocketAddr, from: &SocketAddr) -> bool
    ensures { (result ≡ true) ↔ spec.Takes accept peer.now from.now }
{
    let same = host_of(peer) == host_of(from);
    match accept {
        Accept::Address => same,
        Accept::Port => same && peer.port() == from.port(),
    }
}

fn host_of(address: &SocketAddr) -> [u16; 8]
    ensures { result ≡ spec.host_of address.now }
{
    match address {
        SocketAddr::V4(address) => address.ip().to_ipv6_mapped().segments(),
        SocketAddr::V6(address) => address.ip().segments(),
    }
}
