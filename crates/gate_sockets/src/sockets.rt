//! The sockets of both faces.

ghost use Rattle.std.specs.Prelude.{◌≡◌, ◌+◌, ◌-◌, ◌^◌, min, false, Ok, None};
ghost use Rattle.edge_traits.specs.Datagrams.{PollsAtMost};

use crate::accepting::takes;
use edge_traits::Failed;
use gate_cases::Face;
use gate_config::Accept;
use mio::net::UdpSocket;
use mio::{Events, Interest, Poll, Token};
use std::alloc::Global;
use std::io::{self, ErrorKind};
use std::net::{self, Net, SocketAddr};
use std::thread;
use std::time::{Clock as Timer, Duration};

/// The most datagrams from elsewhere that one poll drops.
const MOST_FOREIGN: u32 = 256;

/// How often a datagram is tried for which the system has no room.
const MOST_TRIES: u32 = 10;

/// How long is waited where nothing comes, in milliseconds.
const WAIT: u64 = 1;

/// How long is waited for room in the system, in microseconds.
const ROOM: u64 = 900;

/// The socket of a face, and from where it takes datagrams.
#[derive(Drop)]
pub struct Side {
    socket: UdpSocket,
    peer: SocketAddr,
    accept: Accept,
    /// Nothing was there when the socket was polled last.
    idle: bool,
    /// How many datagrams from elsewhere were dropped since that was last asked.
    foreign: u64,
}

impl Side {
    /// The face of this socket, whose datagrams go to the peer.
    pub fn new(socket: net::UdpSocket, peer: SocketAddr, accept: Accept) -> io::Result<Side> {
        socket.set_nonblocking(true)?;
        Ok(Side {
            socket: UdpSocket::from_std(socket),
            peer,
            accept,
            idle: false,
            foreign: 0,
        })
    }

    /// The next datagram that the face takes. At most 256 from elsewhere are dropped before it, and counted.
    fn next(&mut self, buf: &mut [u8]) -> Result<Option<usize>, Failed>
        ensures bound { PollsAtMost result buf.new }
        // Where none is taken though more may be there, so many were dropped.
        ensures dropped { result ≡ Ok None → self.new.idle ≡ false
            → self.new.foreign ≡ min (self.old.foreign + 256) (2 ^ 64 - 1) }
    {
        self.idle = false;
        'foreign: for _ in 0..MOST_FOREIGN {
            match self.socket.recv_from(buf) {
                Ok((length, from)) => {
                    if takes(self.accept, &self.peer, &from) {
                        return Ok(Some(length));
                    }
                    self.foreign = self.foreign.saturating_add(1);
                }
                Err(error) if error.kind() == ErrorKind::WouldBlock => {
                    self.idle = true;
                    return Ok(None);
                }
                Err(_) => return Err(Failed),
            }
        }
        Ok(None)
    }

    /// How many datagrams from elsewhere were dropped since this was last asked.
    fn take_foreign(&mut self) -> u64
        ensures answer { result ≡ self.old.foreign }
        ensures none { self.new.foreign ≡ 0 }
    {
        let foreign = self.foreign;
        self.foreign = 0;
        foreign
    }

    /// Sends a datagram to the peer. Where the system has no room for it, it is tried again after a pause,
    /// ten times in all.
    fn send<T: Timer>(&self, timer: &T, datagram: &[u8]) -> Result<(), Failed> {
        'again: for _ in 0..MOST_TRIES {
            match self.socket.send_to(datagram, self.peer) {
                Ok(_) => return Ok(()),
                Err(error) if error.kind() == ErrorKind::WouldBlock => {
                    thread::sleep(timer, Duration::from_micros(ROOM));
                }
                Err(_) => return Err(Failed),
            }
        }
        Err(Failed)
    }
}

/// The sockets of both faces. Where nothing is there at either, and nothing came since a poll last found
/// nothing, a poll waits until something comes, at most a millisecond. So what came is answered first.
#[derive(Drop)]
pub struct Sockets<T: Drop> {
    old: Side,
    new: Side,
    poll: Poll,
    events: Events<Global>,
    timer: T,
    /// A datagram came since a poll last found nothing.
    came: bool,
}

impl<T: Timer + Drop> Sockets<T> {
    /// The sockets of the old face and of the new one. It fails where the system can't watch them, or has
    /// no memory.
    pub fn new(
        alloc: Global,
        net: &impl Net,
        mut old: Side,
        mut new: Side,
        timer: T,
    ) -> io::Result<Sockets<T>> {
        let poll = Poll::new(net)?;
        poll.registry()
            .register(&mut old.socket, Token(0), Interest::READABLE)?;
        poll.registry()
            .register(&mut new.socket, Token(1), Interest::READABLE)?;
        let events = Events::with_capacity(alloc, 2)?;
        Ok(Sockets {
            old,
            new,
            poll,
            events,
            timer,
            came: false,
        })
    }

    /// The next datagram at a face.
    pub(crate) fn next(&mut self, face: Face, buf: &mut [u8]) -> Result<Option<usize>, Failed>
        ensures { PollsAtMost result buf.new }
    {
        let next = match face {
            Face::Old => self.old.next(buf),
            Face::New => self.new.next(buf),
        };
        if let Ok(Some(_)) = next {
            self.came = true;
            return next;
        }
        if self.old.idle && self.new.idle && !self.came {
            self.wait();
        }
        self.came = false;
        next
    }

    /// How many datagrams from elsewhere were dropped at a face since this was last asked.
    pub(crate) fn take_foreign(&mut self, face: Face) -> u64 {
        match face {
            Face::Old => self.old.take_foreign(),
            Face::New => self.new.take_foreign(),
        }
    }

    /// Waits until something comes, at most a millisecond.
    fn wait(&mut self) {
        let _ = self
            .poll
            .poll(&mut self.events, Some(Duration::from_millis(WAIT)));
    }

    /// Sends a datagram to a face's peer.
    pub(crate) fn send(&mut self, face: Face, datagram: &[u8]) -> Result<(), Failed> {
        match face {
            Face::Old => self.old.send(&self.timer, datagram),
            Face::New => self.new.send(&self.timer, datagram),
        }
    }
}
