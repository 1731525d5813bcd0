//! The sockets of `serve`, and of `gate`.

use edge_traits::{Pause, UdpLink};
use endpoint::Octets;
use gate_config::{Accept, FaceConfig, GateFile};
use gate_sockets::Side;
use gateway_run::Word;
use std::io;
use std::net::{Net, SocketAddr, UdpSocket};
use std::time::Clock as Timer;

/// An address that can't be used, and why. Each is an IP address or a host's name, and a port, as
/// `127.0.0.1:1113`, `[::1]:1113` or `localhost:1113`.
#[derive(Drop)]
pub struct Unusable<'w> {
    /// Which of the four it is, by its name where it was given.
    pub name: &'static str,
    /// The address.
    pub address: &'w str,
    /// Why.
    pub cause: Cause,
}

/// Why an address can't be used.
#[derive(Drop)]
pub enum Cause {
    /// The system says why.
    System(io::Error),
    /// Its port is 0, at which nobody can send to it.
    NoPort,
    /// A peer's address is one of the gateway's own.
    Own,
}

/// The addresses of a link, as the system has them.
#[derive(Clone, Copy, Drop)]
pub struct Ends {
    /// The gateway's own.
    pub own: SocketAddr,
    /// Its peer's.
    pub peer: SocketAddr,
}

/// A link, and its addresses.
#[derive(Drop)]
pub struct Bound<'a, T: Drop> {
    /// The link.
    pub link: UdpLink<'a, T>,
    /// Its addresses.
    pub ends: Ends,
}

/// The links of `serve`, by its words: the addresses of the old link's own end and of its peer, and
/// then of the new link's.
pub fn links_over<'a, 'w, R: Net, T: Timer + Drop>(
    net: &R,
    addresses: [&'w Word; 4],
    pause: &'a Pause<T>,
) -> Result<(Bound<'a, T>, Bound<'a, T>), Unusable<'w>> {
    let [old_bind, old_peer, new_bind, new_peer] = addresses.map(Word::text);
    let old = [("OLD_BIND", old_bind), ("OLD_PEER", old_peer)];
    let new = [("NEW_BIND", new_bind), ("NEW_PEER", new_peer)];
    links_between(net, old, new, pause)
}

/// The sockets of `gate`, by its file: that of the old face and that of the new one.
pub fn sides_in<'f, R: Net>(net: &R, file: &'f GateFile) -> Result<(Side, Side), Unusable<'f>> {
    let (old, old_ends) = side_of(net, ["old.bind", "old.peer"], &file.old)?;
    let (new, new_ends) = side_of(net, ["new.bind", "new.peer"], &file.new)?;
    are_apart(
        [&old_ends, &new_ends],
        [
            ("old.peer", text_in(&file.old.peer)),
            ("new.peer", text_in(&file.new.peer)),
        ],
    )?;
    Ok((old, new))
}

/// The socket of a face, whose keys have these names. From any port it hears only where it has no peer of
/// its own; so then it is bound again, without one.
fn side_of<'f, R: Net>(
    net: &R,
    names: [&'static str; 2],
    config: &'f FaceConfig,
) -> Result<(Side, Ends), Unusable<'f>> {
    let [bind_name, peer_name] = names;
    let (bind, peer) = (text_in(&config.bind), text_in(&config.peer));
    let (socket, ends) = socket_with_peer(net, [(bind_name, bind), (peer_name, peer)])?;
    let socket = match config.accept {
        Accept::Port => socket,
        Accept::Address => {
            drop(socket);
            socket_at(net, bind_name, bind)?
        }
    };
    match Side::new(socket, ends.peer, config.accept) {
        Ok(side) => Ok((side, ends)),
        Err(error) => Err(refused_by_system(bind_name, bind, error)),
    }
}

/// A value of a file as a text. It is UTF-8, since the file is.
pub fn text_in(octets: &Octets) -> &str {
    match std::str::from_utf8(octets.as_slice()) {
        Ok(text) => text,
        Err(_) => "",
    }
}

/// The links to the old node and to the new one: binds both sockets, and gives each its peer's
/// address. Of each link the addresses are that of its own end and that of its peer, each with its
/// name where it was given.
fn links_between<'a, 'w, R: Net, T: Timer + Drop>(
    net: &R,
    old_ends: [(&'static str, &'w str); 2],
    new_ends: [(&'static str, &'w str); 2],
    pause: &'a Pause<T>,
) -> Result<(Bound<'a, T>, Bound<'a, T>), Unusable<'w>> {
    let [_, (old_name, old_peer)] = old_ends;
    let [_, (new_name, new_peer)] = new_ends;
    let old = link_over(net, old_ends, pause)?;
    let new = link_over(net, new_ends, pause)?;
    are_apart(
        [&old.ends, &new.ends],
        [(old_name, old_peer), (new_name, new_peer)],
    )?;
    Ok((old, new))
}

/// Refuses a peer of one link that is the gateway's own end of the other.
fn are_apart<'w>(
    ends: [&Ends; 2],
    peers: [(&'static str, &'w str); 2],
) -> Result<(), Unusable<'w>> {
    let [(old_name, old_peer), (new_name, new_peer)] = peers;
    if ends[0].peer == ends[1].own {
        return Err(own(old_name, old_peer));
    }
    if ends[1].peer == ends[0].own {
        return Err(own(new_name, new_peer));
    }
    Ok(())
}

/// A link over a socket that is bound to an address, to a peer at another.
fn link_over<'a, 'w, R: Net, T: Timer + Drop>(
    net: &R,
    addresses: [(&'static str, &'w str); 2],
    pause: &'a Pause<T>,
) -> Result<Bound<'a, T>, Unusable<'w>> {
    let (socket, ends) = socket_with_peer(net, addresses)?;
    let [_, (peer_name, peer)] = addresses;
    match UdpLink::new(socket, peer, pause) {
        Ok(link) => Ok(Bound { link, ends }),
        Err(error) => Err(refused_by_system(peer_name, peer, error)),
    }
}

/// A socket that is bound to an address, and has its peer at another.
fn socket_with_peer<'w, R: Net>(
    net: &R,
    addresses: [(&'static str, &'w str); 2],
) -> Result<(UdpSocket, Ends), Unusable<'w>> {
    let [(bind_name, bind), (peer_name, peer)] = addresses;
    let socket = socket_at(net, bind_name, bind)?;
    has_port(peer_name, peer)?;
    let ends = match joined(&socket, peer) {
        Ok(ends) => ends,
        Err(error) => return Err(refused_by_system(peer_name, peer, error)),
    };
    if ends.own == ends.peer {
        return Err(own(peer_name, peer));
    }
    Ok((socket, ends))
}

/// A socket at this address.
fn socket_at<'w, R: Net>(
    net: &R,
    name: &'static str,
    address: &'w str,
) -> Result<UdpSocket, Unusable<'w>> {
    has_port(name, address)?;
    match UdpSocket::bind(net, address) {
        Ok(socket) => Ok(socket),
        Err(error) => Err(refused_by_system(name, address, error)),
    }
}

/// The addresses of a socket with this peer.
fn joined(socket: &UdpSocket, peer: &str) -> io::Result<Ends> {
    socket.connect(peer)?;
    let own = socket.local_addr()?;
    let peer = socket.peer_addr()?;
    Ok(Ends { own, peer })
}

/// Refuses port 0, with however many zeros.
fn has_port<'w>(name: &'static str, address: &'w str) -> Result<(), Unusable<'w>> {
    if address.ends_with('0') && address.trim_end_matches('0').ends_with(':') {
        return Err(Unusable {
            name,
            address,
            cause: Cause::NoPort,
        });
    }
    Ok(())
}

/// An address that the system refuses.
fn refused_by_system<'w>(name: &'static str, address: &'w str, error: io::Error) -> Unusable<'w> {
    Unusable {
        name,
        address,
        cause: Cause::System(error),
    }
}

/// A peer's address that is one of the gateway's own.
fn own<'w>(name: &'static str, address: &'w str) -> Unusable<'w> {
    Unusable {
        name,
        address,
        cause: Cause::Own,
    }
}
