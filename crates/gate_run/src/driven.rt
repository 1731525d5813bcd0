//! A gateway at work that is driven through halves.

ghost use Rattle.std.specs.Prelude.{◌≡◌, ◌≤◌, ◌<◌, ◌^◌, ℕ, Bool, Some, length, OnOk, IfOk};
ghost use Rattle.gate_edges.specs.Ahead.{polled_at, reading_next, past_reading};
ghost use Rattle.gate_run.specs.Comes.{most_polls};
ghost use Rattle.gate_run.specs.Course.{Point};
ghost use Rattle.gate_run.specs.Stages.{IsAt, Goes, StopsWriting, StopsStoring, is_given, past_counted, past_polled};
ghost use Rattle.gate_run.specs.Stages.{polls_within, hears_over, makes_anew_over, sends_and_tells};
ghost use Rattle.gate_run.specs.Stages.{answers_over, half_over, turn_over, turns_over};

use crate::sending::send_both;
use crate::stop::Stop;
use crate::storing::{commit, make_anew};
use crate::telling::tell;
use edge_traits::{Failed, LONGEST_DATAGRAM};
use gate_cases::Face;
use gate_edges::Outside;
use outbox::Reading;
use peer_parts::HalfParts;
use std::alloc::{AllocError, Global};

/// How often a half polls at most.
const MOST_POLLS: usize = 256;

/// A gateway at work, the buffer of its polls, and the text of its metrics.
#[derive(Drop)]
pub struct Driven<T: Drop> {
    parts: T,
    buffer: Vec<u8>,
    text: String,
    ghost room: { 65507 ≤ length buffer.items },
}

impl<T: HalfParts + Drop> Driven<T> {
    /// A gateway that is driven. The buffer of its polls is taken here, once.
    pub fn new(alloc: Global, parts: T) -> Result<Driven<T>, AllocError>
        ensures { IfOk result (λ d. d.parts ≡ parts) }
    {
        let buffer = vec![in alloc; 0u8; LONGEST_DATAGRAM]?;
        Ok(Driven {
            parts,
            buffer,
            text: String::new(alloc),
        })
    }

    /// Before the first turn the journal's file is made anew of what is kept, where a journal is kept.
    pub fn begin<O: Outside>(&mut self, outside: &mut O) -> Result<(), Stop>
        ensures goes { (p : Point) → IsAt (T.Shows self.old.parts) (O.ahead outside.old) p
            → Goes (T.Shows self.new.parts) (makes_anew_over p) result (O.ahead outside.new)
            (O.made outside.old) (O.made outside.new) }
        ensures writes { StopsWriting result (O.writes outside.old) (O.writes outside.new) }
        ensures stores { StopsStoring result (O.stores outside.old) (O.stores outside.new) }
    {
        make_anew(&mut self.parts, outside)
    }

    /// Polls a face's link once, and takes what came. Whether a datagram came.
    fn poll<O: Outside>(&mut self, face: Face, outside: &mut O) -> Result<bool, AllocError>
        ensures at { (p : Point) → IsAt (T.Shows self.old.parts) (O.ahead outside.old) p
            → OnOk result (IsAt (T.Shows self.new.parts) (O.ahead outside.new) (past_polled face p)) }
        ensures came { (p : Point) → IsAt (T.Shows self.old.parts) (O.ahead outside.old) p
            → IfOk result (λ came. came ≡ is_given (polled_at face p.ahead)) }
        ensures made { O.made outside.new ≡ O.made outside.old }
        ensures writes { O.writes outside.new ≡ O.writes outside.old }
        ensures stores { O.stores outside.new ≡ O.stores outside.old }
    {
        match outside.poll(face, &mut self.buffer) {
            Ok(Some(n)) => {
                self.parts.arrive(face, &self.buffer[..n])?;
                Ok(true)
            }
            Ok(None) => Ok(false),
            Err(Failed) => {
                self.parts.poll_failed(face)?;
                Ok(false)
            }
        }
    }

    /// Polls a face's link until a poll gives nothing or fails, and takes each datagram that came.
    fn polls<O: Outside>(&mut self, face: Face, outside: &mut O) -> Result<(), AllocError>
        ensures at { (p : Point) → IsAt (T.Shows self.old.parts) (O.ahead outside.old) p
            → OnOk result (IsAt (T.Shows self.new.parts) (O.ahead outside.new)
            (polls_within most_polls face p)) }
        ensures made { O.made outside.new ≡ O.made outside.old }
        ensures writes { O.writes outside.new ≡ O.writes outside.old }
        ensures stores { O.stores outside.new ≡ O.stores outside.old }
    {
        let mut left = MOST_POLLS;
        'polling: while left > 0 {
            if !self.poll(face, outside)? {
                return Ok(());
            }
            left -= 1;
        }
        Ok(())
    }

    /// Counts the datagrams from elsewhere that the polls of a face dropped.
    fn count_foreign<O: Outside>(&mut self, face: Face, outside: &mut O)
        ensures at { (p : Point) → IsAt (T.Shows self.old.parts) (O.ahead outside.old) p
            → IsAt (T.Shows self.new.parts) (O.ahead outside.new) (past_counted face p) }
        ensures made { O.made outside.new ≡ O.made outside.old }
        ensures writes { O.writes outside.new ≡ O.writes outside.old }
        ensures stores { O.stores outside.new ≡ O.stores outside.old }
    {
        let datagrams = outside.take_foreign(face);
        self.parts.foreign(face, datagrams);
    }

    /// What is done before anything is made outside, once the clocks were read: pieces of earlier runs
    /// are added, time passes, what comes at the half's face is taken, and what comes from elsewhere is
    /// counted.
    fn hear<O: Outside>(
        &mut self,
        face: Face,
        reading: Reading,
        outside: &mut O,
    ) -> Result<(), AllocError>
        requires { reading.wall < 2 ^ 62 }
        ensures at { (p : Point) → T.Shows self.old.parts p.standing → reading ≡ reading_next p.ahead
            → O.ahead outside.old ≡ Some (past_reading p.ahead)
            → OnOk result (IsAt (T.Shows self.new.parts) (O.ahead outside.new) (hears_over face p)) }
        ensures made { O.made outside.new ≡ O.made outside.old }
        ensures writes { O.writes outside.new ≡ O.writes outside.old }
        ensures stores { O.stores outside.new ≡ O.stores outside.old }
    {
        self.parts.read(reading)?;
        self.parts.resume()?;
        self.parts.tick()?;
        self.polls(face, outside)?;
        self.count_foreign(face, outside);
        Ok(())
    }

    /// What is done after that: the records are committed, and then both faces send and the half is
    /// told of.
    fn answer<O: Outside>(&mut self, board: bool, outside: &mut O) -> Result<(), Stop>
        ensures goes { (p : Point) → IsAt (T.Shows self.old.parts) (O.ahead outside.old) p
            → Goes (T.Shows self.new.parts) (answers_over board p) result (O.ahead outside.new)
            (O.made outside.old) (O.made outside.new) }
        ensures writes { StopsWriting result (O.writes outside.old) (O.writes outside.new) }
        ensures stores { StopsStoring result (O.stores outside.old) (O.stores outside.new) }
    {
        commit(&mut self.parts, outside)?;
        self.send_and_tell(board, outside)
    }

    /// Both faces send, and the half is told of.
    fn send_and_tell<O: Outside>(&mut self, board: bool, outside: &mut O) -> Result<(), Stop>
        ensures goes { (p : Point) → IsAt (T.Shows self.old.parts) (O.ahead outside.old) p
            → Goes (T.Shows self.new.parts) (sends_and_tells board p) result (O.ahead outside.new)
            (O.made outside.old) (O.made outside.new) }
        ensures writes { StopsWriting result (O.writes outside.old) (O.writes outside.new) }
        ensures stores { StopsStoring result (O.stores outside.old) (O.stores outside.new) }
    {
        send_both(&mut self.parts, outside);
        tell(board, &mut self.parts, &mut self.text, outside)
    }

    /// Makes a face's half, at whose beginning the clocks showed this.
    fn half_at<O: Outside>(
        &mut self,
        board: bool,
        face: Face,
        reading: Reading,
        outside: &mut O,
    ) -> Result<(), Stop>
        requires { reading.wall < 2 ^ 62 }
        ensures goes { (p : Point) → T.Shows self.old.parts p.standing → reading ≡ reading_next p.ahead
            → O.ahead outside.old ≡ Some (past_reading p.ahead)
            → Goes (T.Shows self.new.parts) (half_over board face p) result (O.ahead outside.new)
            (O.made outside.old) (O.made outside.new) }
        ensures writes { StopsWriting result (O.writes outside.old) (O.writes outside.new) }
        ensures stores { StopsStoring result (O.stores outside.old) (O.stores outside.new) }
    {
        self.hear(face, reading, outside)?;
        self.answer(board, outside)
    }

    /// Makes a face's half.
    fn half<O: Outside>(&mut self, board: bool, face: Face, outside: &mut O) -> Result<(), Stop>
        ensures goes { (p : Point) → IsAt (T.Shows self.old.parts) (O.ahead outside.old) p
            → Goes (T.Shows self.new.parts) (half_over board face p) result (O.ahead outside.new)
            (O.made outside.old) (O.made outside.new) }
        ensures writes { StopsWriting result (O.writes outside.old) (O.writes outside.new) }
        ensures stores { StopsStoring result (O.stores outside.old) (O.stores outside.new) }
    {
        let reading = outside.read();
        self.half_at(board, face, reading, outside)
    }

    /// Makes a turn, at whose beginning the clocks showed this: a half of the old face, and one of the
    /// new face.
    pub fn turn_at<O: Outside>(
        &mut self,
        board: bool,
        reading: Reading,
        outside: &mut O,
    ) -> Result<(), Stop>
        requires { reading.wall < 2 ^ 62 }
        ensures goes { (p : Point) → T.Shows self.old.parts p.standing → reading ≡ reading_next p.ahead
            → O.ahead outside.old ≡ Some (past_reading p.ahead)
            → Goes (T.Shows self.new.parts) (turn_over board p) result (O.ahead outside.new)
            (O.made outside.old) (O.made outside.new) }
        ensures writes { StopsWriting result (O.writes outside.old) (O.writes outside.new) }
        ensures stores { StopsStoring result (O.stores outside.old) (O.stores outside.new) }
    {
        self.half_at(board, Face::Old, reading, outside)?;
        self.half(board, Face::New, outside)
    }

    /// Makes a turn.
    fn turn<O: Outside>(&mut self, board: bool, outside: &mut O) -> Result<(), Stop>
        ensures goes { (p : Point) → IsAt (T.Shows self.old.parts) (O.ahead outside.old) p
            → Goes (T.Shows self.new.parts) (turn_over board p) result (O.ahead outside.new)
            (O.made outside.old) (O.made outside.new) }
        ensures writes { StopsWriting result (O.writes outside.old) (O.writes outside.new) }
        ensures stores { StopsStoring result (O.stores outside.old) (O.stores outside.new) }
    {
        let reading = outside.read();
        self.turn_at(board, reading, outside)
    }

    /// Makes so many turns.
    pub fn turns<O: Outside>(
        &mut self,
        board: bool,
        turns: u64,
        outside: &mut O,
    ) -> Result<(), Stop>
        ensures goes { (p : Point) → IsAt (T.Shows self.old.parts) (O.ahead outside.old) p
            → Goes (T.Shows self.new.parts) (turns_over board turns p) result (O.ahead outside.new)
            (O.made outside.old) (O.made outside.new) }
        ensures writes { StopsWriting result (O.writes outside.old) (O.writes outside.new) }
        ensures stores { StopsStoring result (O.stores outside.old) (O.stores outside.new) }
    {
        let mut left = turns;
        'turning: while left > 0 {
            self.turn(board, outside)?;
            left -= 1;
        }
        Ok(())
    }
}
