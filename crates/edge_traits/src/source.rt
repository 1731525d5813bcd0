//! Where octets come from.
ghost use Rattle.std.specs.Prelude.{◌≡◌, ℕ, ◌-◌, ◌^◌, List, [], Bool, Option, None, Some, Ok, drop, take, length, min, is_err, IfOk};
ghost use Rattle.std.specs.Io.{ReadsAtMost};
ghost use Rattle.std.specs.Io.KnownBytes.{ReadConsumes};
ghost use Rattle.edge_traits.specs.Faults.{count_after, FailsAsTold, fails_next};
ghost use Rattle.edge_traits.specs.InMemory.{MemSourceNow, after_read};

use crate::failing::{Failed, Failing};
use std::alloc::{AllocError, Global};
use std::io::{ErrorKind, Read};
use std::marker::Model;

/// Where octets come from: a file, a pipe, or memory.
pub trait Source {
    // The octets that reads will give from here on, where they are told.
    ghost left: { Self → Option (List ℕ) };

    // How many faults there were, up to the greatest number that 64 bits show.
    ghost faults: { Self → ℕ };

    // Which of the calls to come are to fail, where it is told.
    ghost failing: { Self → Option (List Bool) };

    /// Reads the next octets into the front of `buf`, and answers how many. 0 for a buffer that
    /// isn't empty is the end of the input. `Failed` takes no octet.
    fn read(&mut self, buf: &mut [u8]) -> Result<usize, Failed>
        ensures bound { ReadsAtMost result buf.new }
        ensures octets { ReadConsumes (left self.old) (left self.new) result buf.new }
        ensures count { faults self.new ≡ count_after (faults self.old) result }
        ensures told { FailsAsTold (failing self.old) (failing self.new) result };
}

/// Octets in memory, with a list of the reads that are to fail.
#[derive(Drop)]
pub struct MemSource {
    octets: Vec<u8>,
    at: usize,
    failing: Failing,
    faults: u64,
}

impl Model for MemSource {
    ghost Value = { MemSourceNow };

    ghost view = { λ s. record {
      left = drop s.at s.octets.items;
      failing = s.failing;
      faults = s.faults;
    } };
}

impl MemSource {
    /// A source of these octets, whose read i fails if and only if place i of `failing` is true.
    pub fn new(alloc: Global, octets: &[u8], failing: &[bool]) -> Result<MemSource, AllocError>
        ensures left { IfOk result (λ s. ⟦<MemSource as Source>⟧.left s ≡ Some octets.now) }
        ensures failing { IfOk result (λ s. ⟦<MemSource as Source>⟧.failing s ≡ Some failing.now) }
        ensures faults { IfOk result (λ s. ⟦<MemSource as Source>⟧.faults s ≡ 0) }
    {
        let octets = Vec::from_slice(alloc, octets)?;
        let failing = Failing::new(alloc, failing)?;
        Ok(MemSource {
            octets,
            at: 0,
            failing,
            faults: 0,
        })
    }
}

impl Source for MemSource {
    ghost left = { λ s. Some s.left };

    ghost faults = { λ s. s.faults };

    ghost failing = { λ s. Some s.failing };

    /// Fills the buffer as far as its octets reach, or takes none where this read is to fail.
    fn read(&mut self, buf: &mut [u8]) -> Result<usize, Failed>
        ensures answer { is_err result ≡ fails_next self.old.failing }
        ensures fills { IfOk result (λ n. n ≡ min (length buf.new) (length self.old.left)) }
        ensures octets { IfOk result (λ n. take n buf.new ≡ take n self.old.left) }
        ensures now { self.new ≡ after_read self.old (length buf.new) }
    {
        if self.failing.fails() {
            self.faults = self.faults.saturating_add(1);
            return Err(Failed);
        }
        let n = copy_front(&self.octets, self.at, buf);
        self.at += n;
        Ok(n)
    }
}

/// Octets in memory whose reads never fail, seen as those that are left.
#[derive(Drop)]
pub struct SureSource {
    octets: Vec<u8>,
    at: usize,
}

impl Model for SureSource {
    ghost Value = { List ℕ };

    ghost view = { λ s. drop s.at s.octets.items };
}

impl SureSource {
    /// A source of these octets.
    pub fn new(alloc: Global, octets: &[u8]) -> Result<SureSource, AllocError>
        ensures { IfOk result (λ s. ⟦<SureSource as Source>⟧.left s ≡ Some octets.now) }
    {
        let octets = Vec::from_slice(alloc, octets)?;
        Ok(SureSource { octets, at: 0 })
    }
}

impl Source for SureSource {
    ghost left = { λ s. Some s };

    ghost faults = { λ _. 0 };

    ghost failing = { λ _. Some [] };

    /// Fills the buffer as far as its octets reach.
    fn read(&mut self, buf: &mut [u8]) -> Result<usize, Failed>
        ensures fills { result ≡ Ok (min (length buf.new) (length self.old)) }
        ensures octets { IfOk result (λ n. take n buf.new ≡ take n self.old) }
        ensures now { self.new ≡ drop (length buf.new) self.old }
    {
        let n = copy_front(&self.octets, self.at, buf);
        self.at += n;
        Ok(n)
    }
}

/// How many calls in a row may be interrupted by a signal before the last of them counts as failed.
pub const MOST_AGAIN: u32 = 1000;

/// A source over std's reader. It tells the octets that its reader tells. A read that was only
/// interrupted by a signal is made again, up to `MOST_AGAIN` calls in all, and one that fails
/// otherwise isn't: no clause can see how often the reader is called, so that is only tested. A read
/// counts one fault, where it failed for good.
#[derive(Drop)]
pub struct Reading<R: Drop> {
    reader: R,
    faults: u64,
}

impl<R: Read + Drop> Reading<R> {
    /// A source over this reader, with no fault yet.
    pub fn new(reader: R) -> Reading<R>
        ensures left { ⟦<Reading<R> as Source>⟧.left result ≡ R.remaining reader }
        ensures faults { ⟦<Reading<R> as Source>⟧.faults result ≡ 0 }
    {
        Reading { reader, faults: 0 }
    }
}

impl<R: Read + Drop> Source for Reading<R> {
    ghost left = { λ s. R.remaining s.reader };

    ghost faults = { λ s. s.faults };

    ghost failing = { λ _. None };

    fn read(&mut self, buf: &mut [u8]) -> Result<usize, Failed> {
        match read_again(&mut self.reader, buf) {
            Ok(n) => Ok(n),
            Err(Failed) => {
                self.faults = self.faults.saturating_add(1);
                Err(Failed)
            }
        }
    }
}

/// Reads, again where that was only interrupted.
fn read_again<R: Read>(reader: &mut R, buf: &mut [u8]) -> Result<usize, Failed>
    ensures bound { ReadsAtMost result buf.new }
    ensures octets { ReadConsumes (R.remaining reader.old) (R.remaining reader.new) result buf.new }
{
    'again: for _ in 0..MOST_AGAIN {
        match reader.read(buf) {
            Ok(n) => return Ok(n),
            Err(e) if e.kind() == ErrorKind::Interrupted => {}
            Err(_) => return Err(Failed),
        }
    }
    Err(Failed)
}

/// Copies the octets from `at` on into the front of `buf`, as far as both reach, and answers
/// how many.
fn copy_front(octets: &[u8], at: usize, buf: &mut [u8]) -> usize
    ensures count { result ≡ min (length octets.now - at) (length buf.new) }
    ensures front { take result buf.new ≡ take result (drop at octets.now) }
{
    let from = at.min(octets.len());
    let rest = &octets[from..];
    let n = rest.len().min(buf.len());
    buf[..n].copy_from_slice(&rest[..n]);
    n
}
