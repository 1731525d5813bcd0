//! Octets in the order in which they came, and the places that they are for.

ghost use Rattle.std.specs.Prelude.{◌≡◌, ◌+◌, ◌^◌, ◌<◌, ◌≤◌, ◌++◌, [], length, take, drop};
ghost use Rattle.std.specs.Prelude.{replicate, IfOk};
ghost use Rattle.cells.specs.Cells.{filled, reach_of, stop_of};
ghost use Rattle.cells.specs.Laid.{size_of, laid, StandsAfter};

use std::alloc::{AllocError, Global};
use std::marker::Model;

/// A range of places, for which octets came.
#[derive(Clone, Copy, Debug)]
pub(crate) struct Held {
    /// The first place.
    pub offset: u32,
    /// How many places there are.
    pub size: u32,
}

/// Octets that came for places, in the order in which they came. The first octet for a place
/// stands.
#[derive(Debug, Drop)]
pub(crate) struct Log {
    /// The octets of all ranges, one range after the other.
    octets: Vec<u8>,
    /// The ranges.
    ranges: Vec<Held>,
    /// The place after the last octet.
    reach: u64,
}

impl Model for Log {
    ghost use Rattle.std.specs.Prelude.{List, ℕ, Option, []};

    ghost Value = { List (Option ℕ) };

    ghost use Rattle.cells.specs.Laid.{laid, IsLog};

    ghost view = { λ log. laid [] log.ranges.items log.octets.items };

    ghost invariant = { λ log. IsLog log.ranges.items log.octets.items log.reach };
}

impl Log {
    /// No octets yet. It takes no memory.
    pub fn new(alloc: Global) -> Log
        ensures { result ≡ [] }
    {
        Log {
            octets: Vec::new(alloc),
            ranges: Vec::new(alloc),
            reach: 0,
        }
    }

    /// The place after the last octet.
    pub fn reach(&self) -> u64
        ensures { result ≡ reach_of self.now }
    {
        self.reach
    }

    /// The octets, and these from a place on.
    pub fn with(self, offset: u64, body: &[u8]) -> Result<Log, AllocError>
        requires { stop_of offset body.now < 2 ^ 32 }
        ensures { IfOk result (λ log. log ≡ filled self offset body.now) }
    {
        let Log {
            mut octets,
            mut ranges,
            reach,
        } = self;
        octets.extend_from_slice(body)?;
        ranges.push(Held {
            offset: offset as u32,
            size: body.len() as u32,
        })?;
        Ok(Log {
            octets,
            ranges,
            reach: reach.max(offset + body.len() as u64),
        })
    }

    /// The octets up to the reach in the order of their places, and 0 for a place that has none.
    pub fn in_order(&self, alloc: Global) -> Result<Vec<u8>, AllocError>
        ensures size { IfOk result (λ body. length body.items ≡ reach_of self.now) }
        ensures places { IfOk result (λ body. StandsAfter [] body.items self.now) }
    {
        let mut body = vec![in alloc; 0u8; self.reach as usize]?;
        lay_all(&mut body, &self.ranges, &self.octets);
        Ok(body)
    }
}

/// Lays the octets of some ranges into a buffer. What came first is laid last, and stands.
fn lay_all(buffer: &mut [u8], ranges: &[Held], octets: &[u8])
    requires size { size_of ranges.now ≡ length octets.now }
    requires reach { length buffer.old ≡ length (laid [] ranges.now octets.now) }
    requires empty { buffer.old ≡ replicate (length buffer.old) 0 }
    ensures size { length buffer.new ≡ length buffer.old }
    ensures places { StandsAfter [] buffer.new (laid [] ranges.now octets.now) }
{
    let mut left = octets;
    let mut at = ranges.len();
    'laying: while at > 0 {
        at -= 1;
        let held = ranges[at];
        let (earlier, own) = left.split_at(left.len() - held.size as usize);
        lay(buffer, held.offset as usize, own);
        left = earlier;
    }
}

/// Lays octets over those of the buffer, from a place on.
fn lay(buffer: &mut [u8], offset: usize, octets: &[u8])
    requires { offset + length octets.now ≤ length buffer.old }
    ensures { buffer.new ≡ take offset buffer.old
        ++ (octets.now ++ drop (offset + length octets.now) buffer.old) }
{
    let stop = offset + octets.len();
    buffer[offset..stop].copy_from_slice(octets);
}
