//! Links over UDP sockets of the system.
ghost use Rattle.std.specs.Prelude.{◌≡◌, None, IfOk};

use crate::failing::Failed;
use crate::link::Link;
use std::cell::Cell;
use std::io::{self, ErrorKind};
use std::net::{ToSocketAddrs, UdpSocket};
use std::thread;
use std::time::{Clock as Timer, Duration};

/// How many microseconds a pause asks for: short of a millisecond, which the system may pass by a
/// little.
const PAUSE: u64 = 900;

/// How often a datagram is tried for which the system has no room.
const MOST_TRIES: u32 = 10;

/// How many datagrams are dropped that came before the socket had its peer.
const MOST_STRAY: u32 = 65_536;

/// The pause that links share, so that a program that polls them in turn doesn't use up a processor
/// while no datagram comes. As long as one comes on either link no poll pauses, so a busy link isn't
/// held up by a quiet one.
#[derive(Drop)]
pub struct Pause<T: Drop> {
    timer: T,
    came: Cell<bool>,
}

impl<T: Timer + Drop> Pause<T> {
    /// A pause by this timer.
    pub fn new(timer: T) -> Pause<T> {
        Pause {
            timer,
            came: Cell::new(false),
        }
    }

    /// Pauses.
    fn rest(&self) {
        thread::sleep(&self.timer, Duration::from_micros(PAUSE));
    }

    /// Pauses, unless a datagram came since this was last called.
    fn unless_one_came(&self) {
        if !self.came.replace(false) {
            self.rest();
        }
    }
}

/// A link over std's UDP socket with one peer. It tells no content, and counts a fault at each poll
/// and each send that failed. No clause can see what a socket does, so the rest is only tested.
#[derive(Drop)]
pub struct UdpLink<'a, T: Drop> {
    socket: UdpSocket,
    pause: &'a Pause<T>,
    faults: u64,
}

impl<'a, T: Timer + Drop> UdpLink<'a, T> {
    /// A link over this socket with this peer, and no fault yet. From here on the system drops each
    /// datagram that comes from another address; those that came before are dropped here.
    pub fn new<A: ToSocketAddrs>(
        socket: UdpSocket,
        peer: A,
        pause: &'a Pause<T>,
    ) -> io::Result<UdpLink<'a, T>>
        ensures faults { IfOk result (λ l. ⟦<UdpLink<'a, T> as Link>⟧.faults l ≡ 0) }
    {
        socket.connect(peer)?;
        socket.set_nonblocking(true)?;
        drop_stray(&socket);
        Ok(UdpLink {
            socket,
            pause,
            faults: 0,
        })
    }
}

impl<'a, T: Timer + Drop> Link for UdpLink<'a, T> {
    ghost coming = { λ _. None };

    ghost gone = { λ _. None };

    ghost failing = { λ _. None };

    ghost faults = { λ l. l.faults };

    /// Takes a datagram of the peer's that is there. Where none is, it answers None, after a pause of
    /// up to a millisecond. It fails where the system says so, as where an earlier datagram reached a
    /// host with nobody at the peer's port.
    fn poll(&mut self, buf: &mut [u8]) -> Result<Option<usize>, Failed> {
        match self.socket.recv(buf) {
            Ok(n) => {
                self.pause.came.set(true);
                Ok(Some(n))
            }
            Err(e) if e.kind() == ErrorKind::WouldBlock => {
                self.pause.unless_one_came();
                Ok(None)
            }
            Err(_) => {
                self.faults = self.faults.saturating_add(1);
                Err(Failed)
            }
        }
    }

    /// Sends a datagram to the peer. Where the system has no room for it, it is tried again after a
    /// pause, ten times in all.
    fn send(&mut self, datagram: &[u8]) -> Result<(), Failed> {
        match send_again(&self.socket, self.pause, datagram) {
            Ok(()) => Ok(()),
            Err(Failed) => {
                self.faults = self.faults.saturating_add(1);
                Err(Failed)
            }
        }
    }
}

/// Drops what came to a socket before it had its peer.
fn drop_stray(socket: &UdpSocket) {
    'dropping: for _ in 0..MOST_STRAY {
        if socket.recv(&mut []).is_err() {
            return;
        }
    }
}

/// Sends, again after a pause where the system had no room for the datagram.
fn send_again<T: Timer + Drop>(
    socket: &UdpSocket,
    pause: &Pause<T>,
    datagram: &[u8],
) -> Result<(), Failed> {
    'again: for _ in 0..MOST_TRIES {
        match socket.send(datagram) {
            Ok(_) => return Ok(()),
            Err(e) if e.kind() == ErrorKind::WouldBlock => pause.rest(),
            Err(_) => return Err(Failed),
        }
    }
    Err(Failed)
}
