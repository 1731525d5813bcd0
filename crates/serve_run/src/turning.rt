//! A run in turns.
ghost use Rattle.std.specs.Prelude.{◌≡◌, ◌≤◌, ◌<◌, ◌^◌, Option, length, IfOk, IfSome};
ghost use Rattle.serve_run.specs.Outside.{Polled};
ghost use Rattle.serve_run.specs.Turns.{does, polls, answers, half, turn, turns};
ghost use Rattle.serve_run.specs.Tells.{Goes, PolledAs, RanTurns};

use crate::edges::Edges;
use crate::sending::{perform, write_poll_failed};
use crate::stop::Stop;
use crate::turn_step::TurnStep;
use edge_traits::{Failed, LONGEST_DATAGRAM, Status};
use gate_cases::Face;
use std::alloc::{AllocError, Global};

/// What is driven in turns, and the buffer of its polls.
#[derive(Drop)]
pub struct Driven<T: Drop> {
    alloc: Global,
    step: T,
    buffer: Vec<u8>,
    ghost room: { 65507 ≤ length buffer.items },
}

impl<T: TurnStep + Drop> Driven<T> {
    /// Time passes, up to this moment.
    fn pass<E: Edges>(&mut self, now: u64, edges: &mut E) -> Result<(), Stop>
        requires { now < 2 ^ 62 }
        ensures goes { (state : T.State) → T.Shows self.old.step state
            → Goes (λ x y. T.Shows self.new.step (T.rules.tick now state).state) (does (T.rules.tick now state).effects)
            (E.outside edges.old) (E.outside edges.new) (E.sink edges.old) (E.sink edges.new) result }
        ensures lent { E.lent edges.new ≡ E.lent edges.old }
    {
        match self.step.tick(now) {
            Ok(effects) => perform(self.alloc, effects, edges),
            Err(AllocError) => Err(Stop::NoMemory),
        }
    }

    /// Polls the link of the face, and notes that it failed where it did.
    fn poll<E: Edges>(&mut self, face: Face, edges: &mut E) -> Result<Option<usize>, Stop>
        ensures kept { self.new.step ≡ self.old.step }
        ensures bound { IfOk result (λ came. IfSome came (λ n. n ≤ length self.new.buffer.items)) }
        ensures goes { Goes (PolledAs self.new.buffer.items) (polls face)
            (E.outside edges.old) (E.outside edges.new) (E.sink edges.old) (E.sink edges.new) result }
        ensures lent { E.lent edges.new ≡ E.lent edges.old }
    {
        match edges.poll(face, &mut self.buffer) {
            Ok(came) => Ok(came),
            Err(Failed) => match write_poll_failed(edges, face) {
                Ok(()) => Ok(None),
                Err(Failed) => Err(Stop::Fault),
            },
        }
    }

    /// Takes the datagram that came at the face, if one did.
    fn take<E: Edges>(
        &mut self,
        face: Face,
        now: u64,
        came: Option<usize>,
        edges: &mut E,
    ) -> Result<(), Stop>
        requires small { now < 2 ^ 62 }
        requires bound { IfSome came (λ n. n ≤ length self.old.buffer.items) }
        ensures goes { (state : T.State) (polled : Polled) → T.Shows self.old.step state
            → PolledAs self.old.buffer.items came polled
            → Goes (λ x. T.Shows self.new.step) (answers T.rules face now polled state)
            (E.outside edges.old) (E.outside edges.new) (E.sink edges.old) (E.sink edges.new) result }
        ensures lent { E.lent edges.new ≡ E.lent edges.old }
    {
        let Some(n) = came else {
            return Ok(());
        };
        match self.step.arrive(face, &self.buffer[..n], now) {
            Ok(effects) => perform(self.alloc, effects, edges),
            Err(AllocError) => Err(Stop::NoMemory),
        }
    }

    /// Makes the half of a turn that is the face's.
    fn half<E: Edges>(&mut self, face: Face, edges: &mut E) -> Result<(), Stop>
        ensures goes { (state : T.State) → T.Shows self.old.step state
            → Goes (λ x. T.Shows self.new.step) (half T.rules face state)
            (E.outside edges.old) (E.outside edges.new) (E.sink edges.old) (E.sink edges.new) result }
        ensures lent { E.lent edges.new ≡ E.lent edges.old }
    {
        let now = edges.now();
        self.pass(now, edges)?;
        let came = self.poll(face, edges)?;
        self.take(face, now, came, edges)
    }

    /// Makes a turn: the old link's half, and the new link's.
    fn turn<E: Edges>(&mut self, edges: &mut E) -> Result<(), Stop>
        ensures goes { (state : T.State) → T.Shows self.old.step state
            → Goes (λ x. T.Shows self.new.step) (turn T.rules state)
            (E.outside edges.old) (E.outside edges.new) (E.sink edges.old) (E.sink edges.new) result }
        ensures lent { E.lent edges.new ≡ E.lent edges.old }
    {
        self.half(Face::Old, edges)?;
        self.half(Face::New, edges)
    }
}

/// Makes turns, as many as are told, unless memory runs out or a write fails. The buffer of the polls
/// is taken once, at the start. What a step says is written with the step.
pub fn drive_turns<T: TurnStep + Drop, E: Edges>(
    alloc: Global,
    step: T,
    count: u64,
    edges: &mut E,
) -> Status
    ensures goes { (state : T.State) → T.Shows step state → RanTurns (turns T.rules count state) result
        (E.outside edges.old) (E.outside edges.new) (E.sink edges.old) (E.sink edges.new) }
    ensures lent { E.lent edges.new ≡ E.lent edges.old }
{
    let Ok(buffer) = vec![in alloc; 0u8; LONGEST_DATAGRAM] else {
        return Status::Memory;
    };
    let mut driven = Driven {
        alloc,
        step,
        buffer,
    };
    let mut left = count;
    'turning: while left > 0 {
        match driven.turn(edges) {
            Ok(()) => left -= 1,
            Err(stop) => return stop.status(),
        }
    }
    Status::Done
}
