//! The outside of a run as one thing.
ghost use Rattle.std.specs.Prelude.{◌≡◌, ◌≤◌, ◌<◌, ◌^◌, List, ℕ, length};
ghost use Rattle.edge_traits.specs.Datagrams.{PollsAtMost};
ghost use Rattle.edge_traits.specs.Outcome.{SinkTells};
ghost use Rattle.serve_run.specs.Tells.{OutsideTells};
ghost use Rattle.serve_run.specs.Edges.{ClockRead, LinkPolled, DatagramSent, TextWritten};

use edge_traits::{Failed, LONGEST_DATAGRAM};
use gate_cases::Face;

/// A clock, the links of two faces, and where lines are written. What is done there is one list, so that
/// a contract sees in which order it was done.
pub trait Edges {
    // What links and clock tell, and what was done so far, in the order done, where that is told.
    ghost outside: { Self → OutsideTells };

    // What the sink tells.
    ghost sink: { Self → SinkTells };

    // The names of what it has borrowed. No call exchanges these.
    ghost lent: { Self → List ℕ };

    /// The present moment in milliseconds since the start of the year 2000 UTC, below 2^62.
    fn now(&mut self) -> u64
        ensures small { result < 2 ^ 62 }
        ensures read { ClockRead result (outside self.old) (outside self.new) }
        ensures sink { sink self.new ≡ sink self.old }
        ensures lent { lent self.new ≡ lent self.old };

    /// Takes the next datagram on the link of a face into the front of `buf` and answers its length, or
    /// None where no datagram is there. It doesn't wait.
    fn poll(&mut self, face: Face, buf: &mut [u8]) -> Result<Option<usize>, Failed>
        requires { LONGEST_DATAGRAM ≤ length buf.old }
        ensures bound { PollsAtMost result buf.new }
        ensures polled { LinkPolled face result buf.new (outside self.old) (outside self.new) }
        ensures sink { sink self.new ≡ sink self.old }
        ensures lent { lent self.new ≡ lent self.old };

    /// Sends a datagram on the link of a face. `Failed` sends nothing: it is lost.
    fn send(&mut self, face: Face, datagram: &[u8]) -> Result<(), Failed>
        ensures sent { DatagramSent face result datagram.now (outside self.old) (outside self.new) }
        ensures sink { sink self.new ≡ sink self.old }
        ensures lent { lent self.new ≡ lent self.old };

    /// Writes a text to its end. Where a write fails, a front of the text was written, and no write
    /// follows it.
    fn write(&mut self, text: &[u8]) -> Result<(), Failed>
        ensures wrote { TextWritten text.now result (outside self.old) (outside self.new) (sink self.old) (sink self.new) }
        ensures lent { lent self.new ≡ lent self.old };
}
