//! All that the gateway sees and does outside, as one thing.

ghost use Rattle.std.specs.Prelude.{◌≡◌, ◌<◌, ◌≤◌, ◌^◌, List, [], ◌∷◌, map, Option, length, is_err, IfOk};
ghost use Rattle.edge_traits.specs.Content.{Gains};
ghost use Rattle.edge_traits.specs.Datagrams.{PollsAtMost};
ghost use Rattle.edge_traits.specs.Faults.{Calls, Went};
ghost use Rattle.gate_edges.specs.Ahead.{Ahead, polled_at, past_poll, dropped_at, past_count};
ghost use Rattle.gate_edges.specs.Ahead.{reading_next, past_reading};
ghost use Rattle.gate_edges.specs.Ahead.{send_fails, past_send, show_fails, past_show};
ghost use Rattle.gate_edges.specs.Made.{Made, AsTold, Writes, Shows, Commits, Installs, Stored, polled_in, tried};
ghost use Rattle.journal_file.specs.Length.{entries_length, gate_of};
ghost use Rattle.journal_file.specs.Ties.{kept_of, record_of};

use edge_traits::{Failed, LONGEST_DATAGRAM};
use gate_cases::Face;
use journal_file::{Kept, Record};
use outbox::Reading;
use store_traits::StoreFault;

/// Two clocks, the links of two faces, where lines are written, where the metrics are put, and a journal.
/// What is made there is one list, so that a contract sees in which order it was made.
pub trait Outside {
    // What its calls will give from here on, but for its writes and its journal, where that is told.
    ghost ahead: { Self → Option Ahead };

    // What was made so far, in the order made, where that is told.
    ghost made: { Self → Option (List Made) };

    // Its writes: how many failed, up to the greatest number that 64 bits show; and which of those to
    // come are to fail, where that is told.
    ghost writes: { Self → Calls };

    // Its journal: how many calls on it failed at the store, up to the greatest number that 64 bits show;
    // and which of those to come are to fail, where that is told.
    ghost stores: { Self → Calls };

    /// What both clocks show now: the wall clock less than 2^62.
    fn read(&mut self) -> Reading
        ensures small { result.wall < 2 ^ 62 }
        ensures ahead { AsTold (ahead self.old) (ahead self.new) result reading_next past_reading }
        ensures made { made self.new ≡ made self.old }
        ensures writes { writes self.new ≡ writes self.old }
        ensures stores { stores self.new ≡ stores self.old };

    /// Takes the next datagram of a face's peer into the front of `buf` and answers its length, or None
    /// where none is there. What comes from elsewhere is dropped and counted.
    fn poll(&mut self, face: Face, buf: &mut [u8]) -> Result<Option<usize>, Failed>
        requires { LONGEST_DATAGRAM ≤ length buf.old }
        ensures bound { PollsAtMost result buf.new }
        ensures ahead { AsTold (ahead self.old) (ahead self.new) (polled_in buf.new result)
            (polled_at face) (past_poll face) }
        ensures made { made self.new ≡ made self.old }
        ensures writes { writes self.new ≡ writes self.old }
        ensures stores { stores self.new ≡ stores self.old };

    /// How many datagrams from elsewhere the polls of a face dropped since this was last asked, up to the
    /// greatest number that 64 bits show.
    fn take_foreign(&mut self, face: Face) -> u64
        ensures ahead { AsTold (ahead self.old) (ahead self.new) result
            (dropped_at face) (past_count face) }
        ensures made { made self.new ≡ made self.old }
        ensures writes { writes self.new ≡ writes self.old }
        ensures stores { stores self.new ≡ stores self.old };

    /// Sends a datagram at a face. `Failed` sends nothing: it is lost.
    fn send(&mut self, face: Face, datagram: &[u8]) -> Result<(), Failed>
        ensures ahead { AsTold (ahead self.old) (ahead self.new) (is_err result)
            (send_fails face) (past_send face) }
        ensures made { Gains (made self.old) (made self.new)
            (tried face (is_err result) datagram.now ∷ []) }
        ensures writes { writes self.new ≡ writes self.old }
        ensures stores { stores self.new ≡ stores self.old };

    /// Writes a text to its end. Where a write fails, a front of the text was written, and no write
    /// follows it.
    fn write(&mut self, text: &[u8]) -> Result<(), Failed>
        ensures ahead { ahead self.new ≡ ahead self.old }
        ensures made { Writes (made self.old) (made self.new) result text.now }
        ensures writes { Went result (writes self.old) (writes self.new) }
        ensures stores { stores self.new ≡ stores self.old };

    /// Puts a text in the place of the one before. `Failed` leaves that as it was.
    fn show(&mut self, text: &[u8]) -> Result<(), Failed>
        ensures ahead { AsTold (ahead self.old) (ahead self.new) (is_err result)
            show_fails past_show }
        ensures made { Shows (made self.old) (made self.new) result text.now }
        ensures writes { writes self.new ≡ writes self.old }
        ensures stores { stores self.new ≡ stores self.old };

    /// Commits records to the journal, and answers how far its gate moved on. `Failed` leaves all of the
    /// records there or none. Where there is no journal the answer is as if all went well.
    fn commit(&mut self, records: &[Record]) -> Result<usize, StoreFault>
        ensures length { IfOk result (λ n. n ≡ entries_length (map record_of records.now)) }
        ensures ahead { ahead self.new ≡ ahead self.old }
        ensures made { Commits (made self.old) (made self.new) result (map record_of records.now) }
        ensures writes { writes self.new ≡ writes self.old }
        ensures stores { Stored result (stores self.old) (stores self.new) };

    /// Makes the journal's file anew of what is kept, and answers the place of its gate. `Failed` leaves
    /// the file as it was or the new one. Where there is no journal the answer is as if all went well.
    fn install(&mut self, kept: &Kept) -> Result<usize, StoreFault>
        ensures place { IfOk result (λ n. n ≡ gate_of (kept_of kept.now)) }
        ensures ahead { ahead self.new ≡ ahead self.old }
        ensures made { Installs (made self.old) (made self.new) result (kept_of kept.now) }
        ensures writes { writes self.new ≡ writes self.old }
        ensures stores { Stored result (stores self.old) (stores self.new) };
}
