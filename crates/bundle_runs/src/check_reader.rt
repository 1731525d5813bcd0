//! `check`, which wants no bundle and keeps none, as the octets of its input come.
ghost use Rattle.std.specs.Prelude.{◌≡◌, ◌+◌, ◌<◌, ◌≤◌, ◌++◌, None, Some, [], false, length, slice_index, IfOk, OnOk, OnErr, IsSomeAnd};
ghost use Rattle.std.specs.String.{string_bytes};
ghost use Rattle.edge_traits.specs.Outcome.{IsAnswer};
ghost use Rattle.command_frame.specs.Task.{Feeds, Finishes};
ghost use Rattle.bundle_runs.specs.declared.commands.command.Command.TheVariants.{Check};
ghost use Rattle.bundle_runs.specs.declared.bundle_reader.Standing.{Standing};
ghost use Rattle.bundle_runs.specs.Answering.{settles_from};
ghost use Rattle.bundle_runs.specs.declared.unfinished.Unfinished.{Unfinished};
ghost use Rattle.bundle_runs.specs.Front.{front6};
ghost use Rattle.bundle_runs.specs.Taking.{settling_of, IsCut, HasBegunWith};
ghost use Rattle.bundle_runs.specs.Checking.{StandsFor, IsNew, Shadows, IsShadowed, StandsChecking, with_judges, JudgedOn, ChecksOn};

use crate::begun::{Begun, begin6, judge7};
use crate::bundle_reader::Next;
use crate::front::Cause;
use crate::given::{Given, SEVEN, SIX, judged6};
use crate::written_lines::{write_check, write_refused};
use bundle_judges::Judge7;
use command_frame::Task;
use edge_traits::{MOST_INPUT, Status};
use std::alloc::{AllocError, Global};
use std::marker::Model;
use std::mem;

/// The command `check` on the octets of its input as they come. Of a bundle that has begun it keeps what
/// a judge keeps: of the octets those of the primary block, and a few of another field.
///
/// A bundle of version 6 that lies in a piece as a whole is judged there without a judge, and the heads
/// of one that doesn't are read twice. One of version 7 is judged by one judge from its first octet on,
/// so that a block is summed once.
#[derive(Drop)]
pub struct CheckReader {
    standing: Checking,
    alloc: Global,
}

impl Model for CheckReader {
    ghost use Rattle.bundle_runs.specs.declared.check_reader.Checking.{Checking};
    ghost use Rattle.bundle_runs.specs.Checking.{IsShadowed};

    ghost Value = { Checking };

    ghost view = { λ r. r.standing };

    ghost invariant = { λ r. IsShadowed r.standing };
}

/// Where the reading stands.
#[derive(Drop)]
pub struct Checking {
    /// Which bundle of the input is the next to end, from 1.
    number: u64,
    /// The place of its first octet in the input.
    at: usize,
    /// How many octets of it came.
    taken: usize,
    /// Its judge, where it has begun.
    begun: Option<Begun>,
    /// A judge of version 7 that has taken nothing.
    seven: Judge7,
}

impl CheckReader {
    /// Nothing came yet. It takes no memory.
    pub fn new(alloc: Global) -> CheckReader
        ensures stands { ⟦<CheckReader as Task>⟧.Stands result (settles_from Check false [] 1 0) }
        ensures fresh { ⟦<CheckReader as Task>⟧.Began result → ⊥ }
    {
        CheckReader {
            standing: Checking::new(alloc),
            alloc,
        }
    }
}

impl Task for CheckReader {
    ghost Stands = { StandsChecking };

    ghost Began = { λ s. s.begun ≡ None → ⊥ };

    fn feed(&mut self, piece: &[u8], text: &mut String) -> Result<Option<Status>, AllocError> {
        // No place past this has a number: the driver feeds no more.
        if piece.len() > MOST_INPUT - (self.standing.at + self.standing.taken) {
            return Err(AllocError);
        }
        let ends = self.standing.feed(self.alloc, piece, text);
        match ends {
            Ok(None) => {}
            // The run has ended: nothing is kept any more.
            _ => self.standing.reset(self.alloc),
        }
        ends
    }

    fn finish(&mut self, text: &mut String) -> Result<Status, AllocError> {
        self.standing.finish(text)
    }
}

// A judge has much room, and only a bundle that a piece's end cuts needs one made, moved or dropped. What
// does that is in functions that aren't put in line: else the room is cleared for every bundle.
impl Checking {
    /// No octet came.
    fn new(alloc: Global) -> Checking
        ensures is { result ≡ record { number = 1; at = 0; taken = 0; begun = None; seven = result.seven } }
        ensures seven { IsNew result.seven }
    {
        Checking {
            number: 1,
            at: 0,
            taken: 0,
            begun: None,
            seven: Judge7::new(alloc),
        }
    }

    /// Forgets all that came.
    #[cold]
    #[inline(never)]
    fn reset(&mut self, alloc: Global)
        ensures is { self.new ≡ record { number = 1; at = 0; taken = 0; begun = None; seven = self.new.seven } }
        ensures seven { IsNew self.new.seven }
    {
        *self = Checking::new(alloc);
    }

    /// Takes the next octets: `Refused` where they settle the run's end.
    fn feed(
        &mut self,
        alloc: Global,
        piece: &[u8],
        text: &mut String,
    ) -> Result<Option<Status>, AllocError>
        requires shadowed { IsShadowed self.old }
        requires room { self.old.at + self.old.taken + length piece.now ≤ 67108864 }
        ensures shadowed { IfOk result (λ ends. ends ≡ None → IsShadowed self.new) }
        ensures fed { (old : Standing) → Shadows self.old old
            → IfOk result (Feeds (StandsChecking self.new) (settling_of old)
            piece.now (string_bytes text.old) (string_bytes text.new)) }
    {
        let mut left = piece;
        'bundles: while !left.is_empty() {
            match self.check(alloc, left, text)? {
                Next::After(used) => left = &left[used..],
                Next::End => return Ok(Some(Status::Refused)),
            }
        }
        Ok(None)
    }

    /// Takes octets of one bundle, and writes its line where they end it.
    fn check(&mut self, alloc: Global, left: &[u8], text: &mut String) -> Result<Next, AllocError>
        requires shadowed { IsShadowed self.old }
        requires some { 0 < length left.now }
        requires room { self.old.at + self.old.taken + length left.now ≤ 67108864 }
        ensures { (old : Standing) → Shadows self.old old → IfOk result
            (ChecksOn old left.now (string_bytes text.old) self.new (string_bytes text.new)) }
    {
        match self.judged(alloc, left)? {
            Given::Whole(version, used) => {
                write_check(text, version, self.taken + used)?;
                self.number += 1;
                self.at += self.taken + used;
                self.taken = 0;
                if self.begun.is_some() {
                    self.let_go();
                }
                Ok(Next::After(used))
            }
            Given::Part => {
                self.taken += left.len();
                Ok(Next::After(left.len()))
            }
            Given::Refused(at, cause) => {
                write_refused(text, self.number, self.at + at, cause.word())?;
                Ok(Next::End)
            }
        }
    }

    /// Takes octets of one bundle, which has begun or begins with them.
    fn judged(&mut self, alloc: Global, left: &[u8]) -> Result<Given<u8>, AllocError>
        requires shadowed { IsShadowed self.old }
        requires some { 0 < length left.now }
        requires room { self.old.at + self.old.taken + length left.now ≤ 67108864 }
        ensures same { IfOk result (λ given. self.new ≡ with_judges self.old self.new.begun self.new.seven) }
        ensures judged { (old : Standing) → Shadows self.old old
            → IfOk result (JudgedOn old left.now self.new) }
    {
        match &mut self.begun {
            Some(begun) => begun.judge(left),
            None => self.begin(alloc, left),
        }
    }

    /// The same, where none has begun. Its judge is kept where they don't end it.
    fn begin(&mut self, alloc: Global, left: &[u8]) -> Result<Given<u8>, AllocError>
        requires none { self.old.begun ≡ None }
        requires shadowed { IsShadowed self.old }
        requires some { 0 < length left.now }
        requires few { length left.now ≤ 67108864 }
        ensures same { IfOk result (λ given. self.new ≡ with_judges self.old self.new.begun self.new.seven) }
        ensures judged { (old : Standing) → Shadows self.old old
            → IfOk result (JudgedOn old left.now self.new) }
    {
        match left[0] {
            SIX => match judged6(left) {
                Given::Part => {
                    self.keep6(alloc, left)?;
                    Ok(Given::Part)
                }
                given => Ok(given),
            },
            SEVEN => self.begin_seven(alloc, left),
            _ => Ok(Given::Refused(0, Cause::Version)),
        }
    }

    /// The same of a bundle of version 7.
    fn begin_seven(&mut self, alloc: Global, left: &[u8]) -> Result<Given<u8>, AllocError>
        requires none { self.old.begun ≡ None }
        requires shadowed { IsShadowed self.old }
        requires some { 0 < length left.now }
        requires few { length left.now ≤ 67108864 }
        requires first { slice_index left.now 0 ≡ 0x9F }
        ensures same { IfOk result (λ given. self.new ≡ with_judges self.old self.new.begun self.new.seven) }
        ensures judged { (old : Standing) → Shadows self.old old
            → IfOk result (JudgedOn old left.now self.new) }
    {
        let given = judge7(&mut self.seven, left)?;
        match &given {
            Given::Whole(..) => self.seven.restart(),
            Given::Part => self.keep7(alloc),
            Given::Refused(..) => {}
        }
        Ok(given)
    }

    /// Keeps the judge of the bundle of version 6 that some octets begin and don't end.
    #[cold]
    #[inline(never)]
    fn keep6(&mut self, alloc: Global, octets: &[u8]) -> Result<(), AllocError>
        requires some { 0 < length octets.now }
        requires few { length octets.now ≤ 67108864 }
        requires first { slice_index octets.now 0 ≡ 0x06 }
        requires cut { IsCut (front6 octets.now) }
        ensures same { OnOk result (self.new ≡ with_judges self.old self.new.begun self.old.seven) }
        ensures begun { OnOk result (IsSomeAnd self.new.begun (λ begun. (bundle : Unfinished)
            × StandsFor begun bundle × HasBegunWith octets.now bundle)) }
    {
        self.begun = Some(Begun::Six(begin6(alloc, octets)?));
        Ok(())
    }

    /// Keeps the judge of the bundle of version 7 that it has begun, and makes another for the next.
    #[cold]
    #[inline(never)]
    fn keep7(&mut self, alloc: Global)
        ensures same { self.new ≡ with_judges self.old (Some (Begun.Seven self.old.seven)) self.new.seven }
        ensures fresh { IsNew self.new.seven }
    {
        let judge = mem::replace(&mut self.seven, Judge7::new(alloc));
        self.begun = Some(Begun::Seven(judge));
    }

    /// Lets go of the judge of the bundle that has ended.
    #[cold]
    #[inline(never)]
    fn let_go(&mut self)
        ensures { self.new ≡ with_judges self.old None self.old.seven }
    {
        self.begun = None;
    }

    /// The input ended.
    fn finish(&mut self, text: &mut String) -> Result<Status, AllocError>
        requires shadowed { IsShadowed self.old }
        ensures shadowed { IsShadowed self.new }
        ensures finished { (old : Standing) → Shadows self.old old
            → IfOk result (Finishes (settling_of old) (string_bytes text.old) (string_bytes text.new)) }
        ensures status { IfOk result IsAnswer }
        ensures memory { OnErr result (self.old.begun ≡ None → ⊥) }
    {
        self.taken = 0;
        match self.begun.take() {
            None => Ok(Status::Done),
            Some(mut begun) => match begun.finish() {
                None => Ok(Status::Done),
                Some(at) => {
                    write_refused(text, self.number, self.at + at, "Truncated")?;
                    Ok(Status::Refused)
                }
            },
        }
    }
}
