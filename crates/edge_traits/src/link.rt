//! A link of datagrams, such as a UDP socket with one peer.
ghost use Rattle.std.specs.Prelude.{◌≡◌, ℕ, ◌+◌, ◌-◌, ◌≤◌, ◌<◌, ◌^◌, List, [], ◌∷◌, ◌++◌, Bool, Option, None, Some, map, drop, take, length, min, All, is_err, IfOk, IfSome, OnOk, OnErr};
ghost use Rattle.edge_traits.specs.Content.{joined};
ghost use Rattle.edge_traits.specs.Faults.{count_after, FailsAsTold, fails_next};
ghost use Rattle.edge_traits.specs.Datagrams.{Polls, PollsAtMost, SendGains};
ghost use Rattle.edge_traits.specs.InMemory.{MemLinkNow, with_coming, after_poll, after_send};

use crate::failing::{Failed, Failing};
use crate::gone::Gone;
use std::alloc::{AllocError, Global};
use std::marker::Model;

/// The most octets that a UDP datagram carries.
pub const LONGEST_DATAGRAM: usize = 65507;

/// A link of datagrams with one peer. Nothing says that what is sent arrives.
pub trait Link {
    // The datagrams that polls will give from here on, where they are told.
    ghost coming: { Self → Option (List (List ℕ)) };

    // The datagrams sent so far, where they are told.
    ghost gone: { Self → Option (List (List ℕ)) };

    // Which of the calls to come are to fail, polls and sendings in one list, where it is told.
    ghost failing: { Self → Option (List Bool) };

    // How many faults there were, up to the greatest number that 64 bits show.
    ghost faults: { Self → ℕ };

    /// Takes the next datagram into the front of `buf` and answers its length, or None where no
    /// datagram is there. It doesn't wait.
    fn poll(&mut self, buf: &mut [u8]) -> Result<Option<usize>, Failed>
        requires { LONGEST_DATAGRAM ≤ length buf.old }
        ensures bound { PollsAtMost result buf.new }
        ensures datagram { Polls (coming self.old) (coming self.new) result buf.new }
        ensures gone { gone self.new ≡ gone self.old }
        ensures count { faults self.new ≡ count_after (faults self.old) result }
        ensures told { FailsAsTold (failing self.old) (failing self.new) result };

    /// Sends a datagram. `Failed` sends nothing.
    fn send(&mut self, datagram: &[u8]) -> Result<(), Failed>
        ensures datagram { SendGains (gone self.old) (gone self.new) result datagram.now }
        ensures coming { coming self.new ≡ coming self.old }
        ensures count { faults self.new ≡ count_after (faults self.old) result }
        ensures told { FailsAsTold (failing self.old) (failing self.new) result };
}

/// A link in memory: the datagrams that come are put into it, and those that go are kept as far
/// as there is room.
#[derive(Drop)]
pub struct MemLink {
    coming: Vec<Vec<u8>>,
    at: usize,
    gone: Gone,
    failing: Failing,
    faults: u64,
    alloc: Global,
}

impl Model for MemLink {
    ghost Value = { MemLinkNow };

    ghost view = { λ l. record {
      coming = map (λ d. d.items) (drop l.at l.coming.items);
      room = l.gone.room;
      gone = l.gone.gone;
      failing = l.failing;
      faults = l.faults;
    } };

    ghost invariant = { λ l. (l.at ≤ length l.coming.items)
        × All (λ d. length d.items ≤ 65507) l.coming.items };
}

impl MemLink {
    /// A link to which no datagram comes yet, with room for so many octets sent in so many
    /// datagrams, whose call i fails if and only if place i of `failing` is true.
    pub fn new(alloc: Global, room: usize, failing: &[bool]) -> Result<MemLink, AllocError>
        ensures coming { IfOk result (λ l. ⟦<MemLink as Link>⟧.coming l ≡ Some []) }
        ensures room { IfOk result (λ l. l.room ≡ room) }
        ensures gone { IfOk result (λ l. ⟦<MemLink as Link>⟧.gone l ≡ Some []) }
        ensures failing { IfOk result (λ l. ⟦<MemLink as Link>⟧.failing l ≡ Some failing.now) }
        ensures faults { IfOk result (λ l. ⟦<MemLink as Link>⟧.faults l ≡ 0) }
    {
        let gone = Gone::new(alloc, room)?;
        let failing = Failing::new(alloc, failing)?;
        Ok(MemLink {
            coming: Vec::new(alloc),
            at: 0,
            gone,
            failing,
            faults: 0,
            alloc,
        })
    }

    /// The octets of the datagrams that were sent and kept, end to end; where it tells what is gone
    /// these are all of them.
    pub fn octets(&self) -> &[u8]
        ensures { IfSome self.now.gone (λ gone. result.now ≡ joined gone) }
    {
        self.gone.octets()
    }

    /// How many octets each datagram has that was sent and kept.
    pub fn lengths(&self) -> &[usize]
        ensures { IfSome self.now.gone (λ gone. result.now ≡ map length gone) }
    {
        self.gone.lengths()
    }

    /// Puts a datagram after those that are to come.
    pub fn put(&mut self, datagram: &[u8]) -> Result<(), AllocError>
        requires { length datagram.now ≤ LONGEST_DATAGRAM }
        ensures ok { OnOk result (self.new ≡ with_coming self.old datagram.now) }
        ensures err { OnErr result (self.new ≡ self.old) }
    {
        let datagram = Vec::from_slice(self.alloc, datagram)?;
        self.coming.push(datagram)?;
        Ok(())
    }
}

impl Link for MemLink {
    ghost coming = { λ l. Some l.coming };

    ghost gone = { λ l. l.gone };

    ghost failing = { λ l. Some l.failing };

    ghost faults = { λ l. l.faults };

    /// Takes the first datagram to come, or none where this call is to fail.
    fn poll(&mut self, buf: &mut [u8]) -> Result<Option<usize>, Failed>
        requires { LONGEST_DATAGRAM ≤ length buf.old }
        ensures answer { is_err result ≡ fails_next self.old.failing }
        ensures bound { PollsAtMost result buf.new }
        ensures datagram { Polls (Some self.old.coming) (Some self.new.coming) result buf.new }
        ensures now { self.new ≡ after_poll self.old }
    {
        if self.failing.fails() {
            self.faults = self.faults.saturating_add(1);
            return Err(Failed);
        }
        if self.at == self.coming.len() {
            return Ok(None);
        }
        let n = copy_whole(&self.coming[self.at], buf);
        self.at += 1;
        Ok(Some(n))
    }

    /// Keeps the datagram as far as there is room, or nothing where this call is to fail.
    fn send(&mut self, datagram: &[u8]) -> Result<(), Failed>
        ensures answer { is_err result ≡ fails_next self.old.failing }
        ensures now { self.new ≡ after_send self.old datagram.now }
    {
        if self.failing.fails() {
            self.faults = self.faults.saturating_add(1);
            return Err(Failed);
        }
        self.gone.keep(datagram);
        Ok(())
    }
}

/// Copies a datagram into the front of `buf`, and answers its length.
fn copy_whole(datagram: &[u8], buf: &mut [u8]) -> usize
    requires { length datagram.now ≤ length buf.old }
    ensures count { result ≡ length datagram.now }
    ensures front { take result buf.new ≡ datagram.now }
{
    let n = datagram.len();
    buf[..n].copy_from_slice(datagram);
    n
}
