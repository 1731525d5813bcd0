//! A face's link in memory.

ghost use Rattle.std.specs.Prelude.{◌≡◌, ◌≤◌, [], None, Some, length, take, is_err, IfOk, IfSome, OnOk, OnErr};
ghost use Rattle.edge_traits.specs.Datagrams.{PollsAtMost};
ghost use Rattle.edge_traits.specs.Faults.{fails_next};
ghost use Rattle.gate_edges.specs.Ahead.{polled_of, link_past_poll, link_past_count, link_past_send};
ghost use Rattle.gate_edges.specs.InMemory.{with_given};
ghost use Rattle.gate_edges.specs.Made.{polled_in};

use crate::failing::Failing;
use edge_traits::{Failed, LONGEST_DATAGRAM};
use endpoint::Octets;
use std::alloc::{AllocError, Global};
use std::marker::Model;

/// A face's link in memory: what its polls are to give is put into it. A contract sees what is to come.
#[derive(Drop)]
pub struct MemFace {
    alloc: Global,
    /// What each poll gives: a datagram or none, after so many from elsewhere.
    gives: Vec<(u64, Option<Octets>)>,
    at: usize,
    /// How many from elsewhere were dropped since that was last asked.
    dropped: u64,
    failing: Failing,
}

impl Model for MemFace {
    ghost use Rattle.std.specs.Prelude.{◌≤◌, All, IfSome, drop, length};
    ghost use Rattle.gate_edges.specs.Ahead.{LinkAhead};

    ghost Value = { LinkAhead };

    ghost view = { λ f. record {
      gives = drop f.at f.gives.items;
      dropped = f.dropped;
      failing = f.failing;
    } };

    ghost invariant = { λ f. (f.at ≤ length f.gives.items)
        × All (λ given. IfSome given.1 (λ datagram. length datagram ≤ 65507)) f.gives.items };
}

impl MemFace {
    /// A link to which nothing comes yet, whose call i, poll or send, fails if and only if place i of
    /// `failing` is true.
    pub fn new(alloc: Global, failing: &[bool]) -> Result<MemFace, AllocError>
        ensures { IfOk result (λ f. f ≡ record { gives = []; dropped = 0; failing = failing.now }) }
    {
        let failing = Failing::new(alloc, failing)?;
        Ok(MemFace {
            alloc,
            gives: Vec::new(alloc),
            at: 0,
            dropped: 0,
            failing,
        })
    }

    /// Puts a datagram after what is to come.
    pub fn put(&mut self, datagram: &[u8]) -> Result<(), AllocError>
        requires { length datagram.now ≤ LONGEST_DATAGRAM }
        ensures ok { OnOk result (self.new ≡ with_given (0, Some datagram.now) self.old) }
        ensures err { OnErr result (self.new ≡ self.old) }
    {
        self.put_after(0, datagram)
    }

    /// Puts a datagram after what is to come, which a poll takes after it dropped so many from elsewhere.
    pub fn put_after(&mut self, foreign: u64, datagram: &[u8]) -> Result<(), AllocError>
        requires { length datagram.now ≤ LONGEST_DATAGRAM }
        ensures ok { OnOk result (self.new ≡ with_given (foreign, Some datagram.now) self.old) }
        ensures err { OnErr result (self.new ≡ self.old) }
    {
        let datagram = Octets::from_slice(self.alloc, datagram)?;
        self.gives.push((foreign, Some(datagram)))?;
        Ok(())
    }

    /// Puts after what is to come that at one poll nothing is there: a half's polls end with it.
    pub fn put_none(&mut self) -> Result<(), AllocError>
        ensures ok { OnOk result (self.new ≡ with_given (0, None) self.old) }
        ensures err { OnErr result (self.new ≡ self.old) }
    {
        self.put_foreign(0)
    }

    /// Puts after what is to come that one poll drops so many datagrams from elsewhere, and nothing else is
    /// there.
    pub fn put_foreign(&mut self, foreign: u64) -> Result<(), AllocError>
        ensures ok { OnOk result (self.new ≡ with_given (foreign, None) self.old) }
        ensures err { OnErr result (self.new ≡ self.old) }
    {
        self.gives.push((foreign, None))?;
        Ok(())
    }

    /// Takes the next datagram, or none where this call is to fail.
    pub fn poll(&mut self, buf: &mut [u8]) -> Result<Option<usize>, Failed>
        requires { LONGEST_DATAGRAM ≤ length buf.old }
        ensures bound { PollsAtMost result buf.new }
        ensures polled { polled_in buf.new result ≡ polled_of self.old }
        ensures later { self.new ≡ link_past_poll self.old }
    {
        if self.failing.fails() {
            return Err(Failed);
        }
        if self.at == self.gives.len() {
            return Ok(None);
        }
        let (foreign, datagram) = &self.gives[self.at];
        self.dropped = self.dropped.saturating_add(*foreign);
        let came = copy_given(datagram, buf);
        self.at += 1;
        Ok(came)
    }

    /// How many datagrams from elsewhere were dropped since this was last asked.
    pub fn take_foreign(&mut self) -> u64
        ensures answer { result ≡ (self.old).dropped }
        ensures later { self.new ≡ link_past_count self.old }
    {
        let dropped = self.dropped;
        self.dropped = 0;
        dropped
    }

    /// Whether this send is to fail.
    pub fn send(&mut self) -> Result<(), Failed>
        ensures answer { is_err result ≡ fails_next self.old.failing }
        ensures later { self.new ≡ link_past_send self.old }
    {
        if self.failing.fails() {
            return Err(Failed);
        }
        Ok(())
    }
}

/// Copies the datagram, if there is one, into the front of `buf`, and answers its length.
fn copy_given(given: &Option<Octets>, buf: &mut [u8]) -> Option<usize>
    requires { IfSome given.now (λ datagram. length datagram ≤ length buf.old) }
    ensures none { given.now ≡ None → result ≡ None }
    ensures some { IfSome given.now (λ datagram. (result ≡ Some (length datagram))
        × (take (length datagram) buf.new ≡ datagram)) }
{
    match given {
        Some(datagram) => {
            let octets = datagram.as_slice();
            let n = octets.len();
            buf[..n].copy_from_slice(octets);
            Some(n)
        }
        None => None,
    }
}
