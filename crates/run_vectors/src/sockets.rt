//! The link over a UDP socket of the system, on this machine, and the clock over the system's.

use edge_traits::{Clock, Failed, LONGEST_DATAGRAM, Link, Pause, SystemClock, UdpLink};
use std::alloc::{AllocError, Global};
use std::cell::Cell;
use std::io;
use std::net::UdpSocket;
use std::test::Fail;
use std::time::{Clock as Timer, Duration};

/// Any port of this machine.
const ANY: &str = "127.0.0.1:0";

/// Whether a poll answers so, with this datagram in front.
fn polls<L: Link>(
    alloc: Global,
    link: &mut L,
    wanted: Result<Option<usize>, Failed>,
    datagram: &[u8],
) -> Result<bool, AllocError> {
    let mut buffer = vec![in alloc; 0u8; LONGEST_DATAGRAM]?;
    let answer = link.poll(&mut buffer);
    Ok(answer == wanted && buffer.starts_with(datagram))
}

#[test]
fn a_link_hears_its_peer_alone(rt: HostRuntime) -> Result<(), Fail> {
    let alloc = rt.alloc();
    let pause = Pause::new(&rt);
    let (peer, stranger) = (UdpSocket::bind(&rt, ANY)?, UdpSocket::bind(&rt, ANY)?);
    let socket = UdpSocket::bind(&rt, ANY)?;
    let here = socket.local_addr()?;
    stranger.send_to(b"early", here)?;
    let mut link = UdpLink::new(socket, peer.local_addr()?, &pause)?;
    assert!(rt; polls(alloc, &mut link, Ok(None), b"")?);
    stranger.send_to(b"late", here)?;
    for datagram in [b"one".as_slice(), b"", b"three"] {
        peer.send_to(datagram, here)?;
    }
    stranger.send_to(b"later", here)?;
    assert!(rt; polls(alloc, &mut link, Ok(Some(3)), b"one")?);
    assert!(rt; polls(alloc, &mut link, Ok(Some(0)), b"")?);
    assert!(rt; polls(alloc, &mut link, Ok(Some(5)), b"three")?);
    assert!(rt; polls(alloc, &mut link, Ok(None), b"")?);
    Ok(())
}

#[test]
fn a_link_sends_to_its_peer(rt: HostRuntime) -> Result<(), Fail> {
    let pause = Pause::new(&rt);
    let peer = UdpSocket::bind(&rt, ANY)?;
    let socket = UdpSocket::bind(&rt, ANY)?;
    let here = socket.local_addr()?;
    let mut link = UdpLink::new(socket, peer.local_addr()?, &pause)?;
    let longest = vec![in rt.alloc(); 7u8; LONGEST_DATAGRAM]?;
    let mut buffer = vec![in rt.alloc(); 0u8; LONGEST_DATAGRAM + 1]?;
    assert!(rt; link.send(b"") == Ok(()) && link.send(&longest) == Ok(()));
    assert!(rt; peer.recv_from(&mut buffer)? == (0, here));
    assert!(rt; peer.recv_from(&mut buffer)? == (LONGEST_DATAGRAM, here));
    assert!(rt; buffer.starts_with(&longest));
    Ok(())
}

#[test]
fn a_call_that_the_system_refuses_fails(rt: HostRuntime) -> Result<(), Fail> {
    let pause = Pause::new(&rt);
    let peer = UdpSocket::bind(&rt, ANY)?;
    let mut link = UdpLink::new(UdpSocket::bind(&rt, ANY)?, peer.local_addr()?, &pause)?;
    let too_long = vec![in rt.alloc(); 7u8; LONGEST_DATAGRAM + 1]?;
    assert!(rt; link.send(&too_long) == Err(Failed));
    drop(peer);
    // The system learns only from this datagram that nobody is at the port any more.
    assert!(rt; link.send(b"abc") == Ok(()));
    assert!(rt; polls(rt.alloc(), &mut link, Err(Failed), b"")?);
    assert!(rt; polls(rt.alloc(), &mut link, Ok(None), b"")?);
    Ok(())
}

/// A timer of std's that only keeps for how long it was to sleep in all, and can't be read.
#[derive(Drop)]
struct Sleeper {
    slept: Cell<Duration>,
}

impl Timer for Sleeper {
    fn monotonic(&self) -> io::Result<Duration> {
        Err(io::ErrorKind::Unsupported.into())
    }

    fn since_1970(&self) -> io::Result<Duration> {
        self.monotonic()
    }

    fn sleep(&self, duration: Duration) {
        self.slept.set(self.slept.get().saturating_add(duration));
    }
}

#[test]
fn a_poll_pauses_up_to_a_millisecond_unless_a_datagram_came(rt: HostRuntime) -> Result<(), Fail> {
    let sleeper = Sleeper {
        slept: Cell::new(Duration::ZERO),
    };
    let pause = Pause::new(&sleeper);
    let peer = UdpSocket::bind(&rt, ANY)?;
    let socket = UdpSocket::bind(&rt, ANY)?;
    peer.connect(socket.local_addr()?)?;
    let mut busy = UdpLink::new(socket, peer.local_addr()?, &pause)?;
    let mut quiet = UdpLink::new(UdpSocket::bind(&rt, ANY)?, peer.local_addr()?, &pause)?;
    // Whether a datagram comes on the one link before the other, quiet one is polled, and how many
    // polls paused by then.
    for (comes, pauses) in [(false, 1), (false, 2), (true, 2), (true, 2), (false, 3)] {
        if comes {
            peer.send(b"abc")?;
            assert!(rt; polls(rt.alloc(), &mut busy, Ok(Some(3)), b"abc")?);
        }
        assert!(rt; polls(rt.alloc(), &mut quiet, Ok(None), b"")?);
        let slept = sleeper.slept.get().as_micros();
        assert!(rt; 500 * pauses < slept, "{pauses}");
        assert!(rt; slept <= 1000 * pauses, "{pauses}");
    }
    Ok(())
}

/// A clock of std's that shows these times, in nanoseconds since 1970, and then can't be read.
#[derive(Drop)]
struct Shows<'a> {
    times: &'a [u64],
    at: Cell<usize>,
}

impl Timer for Shows<'_> {
    fn monotonic(&self) -> io::Result<Duration> {
        self.since_1970()
    }

    fn since_1970(&self) -> io::Result<Duration> {
        let at = self.at.get();
        let Some(&time) = self.times.get(at) else {
            return Err(io::ErrorKind::InvalidData.into());
        };
        self.at.set(at.wrapping_add(1));
        Ok(Duration::from_nanos(time))
    }
}

#[test]
fn a_clock_counts_milliseconds_from_the_year_2000(rt: HostRuntime) {
    let mut clock = SystemClock::new(Shows {
        times: &[
            0,
            946_684_799_999_999_999,
            946_684_800_000_999_999,
            946_684_800_001_000_000,
            1_764_269_392_123_456_789,
            1_764_269_392_122_999_999,
        ],
        at: Cell::new(0),
    });
    for wanted in [
        0,
        0,
        0,
        1,
        817_584_592_123,
        817_584_592_123,
        817_584_592_123,
    ] {
        assert!(rt; clock.now() == wanted, "{wanted}");
    }
}

#[test]
fn the_clock_of_the_system_is_read(rt: HostRuntime) {
    let mut clock = SystemClock::new(&rt);
    let first = clock.now();
    // The first of January 2026.
    assert!(rt; first >= 820_540_800_000);
    assert!(rt; clock.now() >= first);
}
