//! Bundles of either version, end to end, as they come.
ghost use Rattle.std.specs.Prelude.{◌≡◌, ◌+◌, ◌<◌, ◌≤◌, ◌++◌, None, Some, [], false, true, length, slice_index, IfOk, OnOk, OnErr};
ghost use Rattle.std.specs.String.{string_bytes};
ghost use Rattle.edge_traits.specs.Outcome.{IsAnswer};
ghost use Rattle.command_frame.specs.PartTask.{FeedsPart, LeavesDue, TellsPart, LeavesFewer};
ghost use Rattle.command_frame.specs.Task.{Finishes};
ghost use Rattle.bundle_runs.specs.Answering.{settles_from, status_by};
ghost use Rattle.bundle_runs.specs.Front.{word_of};
ghost use Rattle.bundle_runs.specs.WrittenLines.{refused_line};
ghost use Rattle.bundle_runs.specs.Given.{IsRead};
ghost use Rattle.bundle_runs.specs.Taking.{kept_by, keeps_going, settling_of, passed, with_refused, with_unfinished, waiting, BeginsWith, IsOn, IsSound, Took};
ghost use Rattle.bundle_runs.specs.Telling.{StandsReading, ReadsStep, TellsDue};

use crate::commands::command::Command;
use crate::front::{Bundle, Cause};
use crate::given::Given;
use crate::saying::say;
use crate::unfinished::Unfinished;
use crate::written_lines::{write_refused, write_turned_down};
use command_frame::{PartTask, Taken};
use edge_traits::{MOST_INPUT, Status};
use fragment_lines::{BundleJoiner, Telling};
use std::alloc::{AllocError, Global};
use std::marker::Model;

/// A command on bundles that is told the octets of its input as they come. It keeps the octets of
/// at most one unfinished bundle, and for `join` those of fragments. Of a bundle that has ended it keeps
/// what is still to be told: for `cut` its record and the octets of one piece, and else the octets that are
/// written in hex.
#[derive(Drop)]
pub struct BundleReader {
    reading: Reading,
    alloc: Global,
}

impl Model for BundleReader {
    ghost use Rattle.bundle_runs.specs.declared.bundle_reader.Reading.{Reading};
    ghost use Rattle.bundle_runs.specs.Taking.{IsSound};

    ghost Value = { Reading };

    ghost view = { λ r. r.reading };

    ghost invariant = { λ r. IsSound r.reading.standing };
}

/// Where the reading stands, and what is due.
#[derive(Drop)]
pub struct Reading {
    standing: Standing,
    /// What is still to be told of the bundle before it.
    due: Telling,
}

/// Where the reading stands.
#[derive(Drop)]
pub struct Standing {
    command: Command,
    /// Whether the command refused a bundle, after which the run went on.
    any_refused: bool,
    /// The fragments that came, where the command is `join`.
    joiner: BundleJoiner,
    /// Which bundle of the input is the next to end, from 1.
    number: u64,
    /// The place of its first octet in the input.
    at: usize,
    /// How many octets of it came.
    taken: usize,
    /// Its reader, where it has begun.
    unfinished: Option<Unfinished>,
}

/// How the reading goes on.
#[derive(Clone, Copy, Debug, PartialEq, Eq, Drop)]
pub(crate) enum Next {
    /// After so many octets of those that are left.
    After(usize),
    /// Not at all: the run ends with a refusal.
    End,
}

impl BundleReader {
    /// Nothing came yet. It takes no memory.
    pub fn new(alloc: Global, command: Command) -> BundleReader
        ensures stands { ⟦<BundleReader as PartTask>⟧.Stands result [] (settles_from command false [] 1 0) }
        ensures none_due { ⟦<BundleReader as PartTask>⟧.parts result ≡ 0 }
        ensures fresh { ⟦<BundleReader as PartTask>⟧.Began result → ⊥ }
    {
        BundleReader {
            reading: Reading::new(alloc, command),
            alloc,
        }
    }
}

impl PartTask for BundleReader {
    ghost Stands = { StandsReading };

    ghost Began = { λ r. 0 < length (kept_by r.standing.unfinished) };

    ghost parts = { λ r. length r.due };

    fn take(&mut self, piece: &[u8], text: &mut String) -> Result<Taken, AllocError> {
        // No place past this has a number: the driver feeds no more.
        let standing = &self.reading.standing;
        if piece.len() > MOST_INPUT - (standing.at + standing.taken) {
            return Err(AllocError);
        }
        let taken = self.reading.take(self.alloc, piece, text);
        match taken {
            Ok(Taken::All | Taken::Due(_)) => {}
            // The run has ended: nothing is kept any more.
            _ => self.reading = Reading::new(self.alloc, self.reading.standing.command),
        }
        taken
    }

    fn tell(&mut self, text: &mut String) -> Result<bool, AllocError> {
        self.reading.tell(text)
    }

    fn end(&mut self, text: &mut String) -> Result<Status, AllocError> {
        self.reading.standing.finish(text)
    }
}

impl Reading {
    /// No octet came, and nothing is due.
    fn new(alloc: Global, command: Command) -> Reading
        ensures sound { IsSound result.standing }
        ensures stands { StandsReading result [] (settles_from command false [] 1 0) }
        ensures none_due { result.due ≡ [] }
        ensures fresh { result.standing.unfinished ≡ None }
    {
        Reading {
            standing: Standing::new(alloc, command),
            due: Telling::nothing(),
        }
    }

    /// Takes the next octets, up to the end of a bundle of which not all is told at once: `Refused` where
    /// they settle the run's end.
    fn take(&mut self, alloc: Global, piece: &[u8], text: &mut String) -> Result<Taken, AllocError>
        requires sound { IsSound self.old.standing }
        requires none_due { self.old.due ≡ [] }
        requires room { self.old.standing.at + self.old.standing.taken + length piece.now ≤ 67108864 }
        ensures sound { IfOk result (λ taken. IsOn taken → IsSound self.new.standing) }
        ensures leaves { IfOk result (LeavesDue piece.now (length self.new.due)) }
        ensures fed { IfOk result (FeedsPart (StandsReading self.new) (settling_of self.old.standing)
            piece.now (string_bytes text.old) (string_bytes text.new)) }
    {
        let mut left = piece;
        'bundles: while !left.is_empty() {
            match self.step(alloc, left, text)? {
                Next::After(used) => left = &left[used..],
                Next::End => return Ok(Taken::Ends(Status::Refused)),
            }
            if !self.due.is_over() {
                return Ok(Taken::Due(piece.len() - left.len()));
            }
        }
        Ok(Taken::All)
    }

    /// Takes octets of one bundle, and tells the first part of what the command says of it where they end
    /// it.
    fn step(&mut self, alloc: Global, left: &[u8], text: &mut String) -> Result<Next, AllocError>
        requires sound { IsSound self.old.standing }
        requires none_due { self.old.due ≡ [] }
        requires some { 0 < length left.now }
        requires room { self.old.standing.at + self.old.standing.taken + length left.now ≤ 67108864 }
        ensures { IfOk result (ReadsStep self.old.standing left.now (string_bytes text.old)
            self.new.standing self.new.due (string_bytes text.new)) }
    {
        let next = self.standing.step(alloc, left, text, &mut self.due)?;
        begin(&mut self.due, text)?;
        Ok(next)
    }

    /// Tells the next part of what is due: whether more of it is.
    fn tell(&mut self, text: &mut String) -> Result<bool, AllocError>
        requires { 0 < length self.old.due }
        ensures same { self.new.standing ≡ self.old.standing }
        ensures told { IfOk result (λ more. TellsDue self.old.due self.new.due (string_bytes text.old) (string_bytes text.new)) }
        ensures leaves { IfOk result (LeavesFewer (length self.old.due) (length self.new.due)) }
    {
        self.due.tell(text)?;
        Ok(!self.due.is_over())
    }
}

/// Makes this what is due.
fn owe(due: &mut Telling, telling: Telling)
    ensures { due.new ≡ telling }
{
    *due = telling;
}

/// Tells the first part of what is due, where there is any.
fn begin(due: &mut Telling, text: &mut String) -> Result<(), AllocError>
    ensures { OnOk result (TellsDue due.old due.new (string_bytes text.old) (string_bytes text.new)) }
{
    if due.is_over() {
        Ok(())
    } else {
        due.tell(text)
    }
}

impl Standing {
    /// No octet came.
    fn new(alloc: Global, command: Command) -> Standing
        ensures sound { IsSound result }
        ensures is { result ≡ record {
          command = command;
          any_refused = false;
          joiner = record { joins = []; spent = false };
          number = 1;
          at = 0;
          taken = 0;
          unfinished = None;
        } }
    {
        Standing {
            command,
            any_refused: false,
            joiner: BundleJoiner::new(alloc),
            number: 1,
            at: 0,
            taken: 0,
            unfinished: None,
        }
    }

    /// The input ended.
    fn finish(&mut self, text: &mut String) -> Result<Status, AllocError>
        requires sound { IsSound self.old }
        ensures sound { IsSound self.new }
        ensures finished { IfOk result (Finishes (settling_of self.old)
            (string_bytes text.old) (string_bytes text.new)) }
        ensures status { IfOk result IsAnswer }
        ensures memory { OnErr result (0 < length (kept_by self.old.unfinished)) }
    {
        self.taken = 0;
        match self.unfinished.take() {
            None => Ok(self.status()),
            Some(mut unfinished) => match unfinished.finish() {
                None => Ok(self.status()),
                Some(at) => {
                    write_refused(text, self.number, self.at + at, "Truncated")?;
                    Ok(Status::Refused)
                }
            },
        }
    }

    /// How the run ends where no octet is left.
    fn status(&self) -> Status
        ensures is { result ≡ status_by self.now.any_refused }
        ensures answer { IsAnswer result }
    {
        if self.any_refused {
            Status::Refused
        } else {
            Status::Done
        }
    }

    /// Takes octets of one bundle, and answers it where they end it: with text, and with what is still to
    /// be told. The bundle's octets are let go first.
    fn step(
        &mut self,
        alloc: Global,
        left: &[u8],
        text: &mut String,
        due: &mut Telling,
    ) -> Result<Next, AllocError>
        requires sound { IsSound self.old }
        requires none_due { due.old ≡ [] }
        requires some { 0 < length left.now }
        requires room { self.old.at + self.old.taken + length left.now ≤ 67108864 }
        ensures { IfOk result (ReadsStep self.old left.now (string_bytes text.old) self.new due.new (string_bytes text.new)) }
    {
        match self.decoded(alloc, left)? {
            Given::Whole(bundle, used) => {
                let size = self.taken + used;
                self.let_go();
                match say(alloc, self.command, &mut self.joiner, bundle, size, text)? {
                    Ok(telling) => {
                        owe(due, telling);
                        Ok(self.pass(used))
                    }
                    Err(cause) => {
                        write_turned_down(text, self.number, cause.word())?;
                        Ok(self.turn_down(used))
                    }
                }
            }
            Given::Part => Ok(self.wait(left.len())),
            Given::Refused(at, cause) => self.refuse(at, cause, text),
        }
    }

    /// Takes octets of one bundle, which has begun or begins with them. They are judged as they come, and
    /// the bundle is built once it is whole: so a block is summed once.
    fn decoded(&mut self, alloc: Global, left: &[u8]) -> Result<Given<Bundle>, AllocError>
        requires sound { IsSound self.old }
        requires some { 0 < length left.now }
        requires room { self.old.at + self.old.taken + length left.now ≤ 67108864 }
        ensures { IfOk result (Took IsRead self.old left.now self.new) }
    {
        match &mut self.unfinished {
            Some(unfinished) => unfinished.feed(left),
            None => self.begin(alloc, left),
        }
    }

    /// The same, where none has begun: its reader is kept where they don't end it.
    fn begin(&mut self, alloc: Global, left: &[u8]) -> Result<Given<Bundle>, AllocError>
        requires none { self.old.unfinished ≡ None }
        requires some { 0 < length left.now }
        requires few { length left.now ≤ 67108864 }
        ensures { IfOk result (Took IsRead self.old left.now self.new) }
    {
        match Unfinished::of(alloc, left[0]) {
            Some(unfinished) => self.begin_with(unfinished, left),
            None => Ok(Given::Refused(0, Cause::Version)),
        }
    }

    /// The same with a reader that has taken nothing.
    fn begin_with(
        &mut self,
        mut unfinished: Unfinished,
        left: &[u8],
    ) -> Result<Given<Bundle>, AllocError>
        requires none { self.old.unfinished ≡ None }
        requires some { 0 < length left.now }
        requires few { length left.now ≤ 67108864 }
        requires fresh { BeginsWith (slice_index left.now 0) (Some unfinished) }
        ensures { IfOk result (Took IsRead self.old left.now self.new) }
    {
        let given = unfinished.feed(left)?;
        match given {
            Given::Part => {
                self.unfinished = Some(unfinished);
                Ok(Given::Part)
            }
            given => Ok(given),
        }
    }

    /// Lets go of the reader of a bundle that has ended, and of the octets that it kept.
    fn let_go(&mut self)
        ensures { self.new ≡ with_unfinished self.old None }
    {
        // To write none is to clear the room for a reader, so it isn't done for each bundle.
        if self.unfinished.is_some() {
            self.unfinished = None;
        }
    }

    /// The bundle has ended after so many octets more.
    fn pass(&mut self, used: usize) -> Next
        requires few { self.old.at + (self.old.taken + used) ≤ 67108864 }
        requires counted { self.old.number ≤ 67108864 }
        ensures next { result ≡ Next.After used }
        ensures is { self.new ≡ passed self.old used }
    {
        self.number += 1;
        self.at += self.taken + used;
        self.taken = 0;
        self.let_go();
        Next::After(used)
    }

    /// It is valid, has ended after so many octets more, and the command refuses it.
    fn turn_down(&mut self, used: usize) -> Next
        requires few { self.old.at + (self.old.taken + used) ≤ 67108864 }
        requires counted { self.old.number ≤ 67108864 }
        ensures ends { keeps_going self.old.command ≡ false → result ≡ Next.End }
        ensures next { keeps_going self.old.command ≡ true → result ≡ Next.After used }
        ensures is { keeps_going self.old.command ≡ true → self.new ≡ passed (with_refused self.old true) used }
    {
        if !self.command.keeps_going() {
            return Next::End;
        }
        self.any_refused = true;
        self.pass(used)
    }

    /// So many octets more don't end it.
    fn wait(&mut self, more: usize) -> Next
        requires few { self.old.taken + more ≤ 67108864 }
        ensures next { result ≡ Next.After more }
        ensures is { self.new ≡ waiting self.old more }
    {
        self.taken += more;
        Next::After(more)
    }

    /// It is no bundle, by the field at this place.
    fn refuse(&self, at: usize, cause: Cause, text: &mut String) -> Result<Next, AllocError>
        requires few { self.now.at + at ≤ 67108864 }
        ensures next { IfOk result (λ next. next ≡ Next.End) }
        ensures line { OnOk result (string_bytes text.new
            ≡ string_bytes text.old ++ refused_line self.now.number (self.now.at + at) (word_of cause)) }
    {
        write_refused(text, self.number, self.at + at, cause.word())?;
        Ok(Next::End)
    }
}
