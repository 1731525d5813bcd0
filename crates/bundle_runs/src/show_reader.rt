//! `show`, which tells a bundle of version 6 out of its octets, as the octets of its input come.
ghost use Rattle.std.specs.Prelude.{◌≡◌, ◌+◌, ◌<◌, ◌≤◌, ◌++◌, List, ℕ, None, [], false, length, IfOk, OnErr, OnOk};
ghost use Rattle.std.specs.String.{string_bytes};
ghost use Rattle.edge_traits.specs.Outcome.{IsAnswer};
ghost use Rattle.command_frame.specs.PartTask.{FeedsPart, LeavesDue, TellsPart, LeavesFewer};
ghost use Rattle.command_frame.specs.Task.{Finishes};
ghost use Rattle.bundle_runs.specs.declared.commands.command.Command.TheVariants.{Show};
ghost use Rattle.bundle_runs.specs.declared.bundle_reader.Standing.{Standing};
ghost use Rattle.bundle_runs.specs.declared.front.Bundle.{Bundle};
ghost use Rattle.bundle_runs.specs.Answering.{settles_from};
ghost use Rattle.bundle_runs.specs.WrittenLines.{show_line};
ghost use Rattle.bundle_runs.specs.Taking.{settling_of, IsOn};
ghost use Rattle.bundle_runs.specs.Showing.{Owes, OwesLine, ShowsAs, IsShowing, StandsShowing, KeepsOneBundle, parts_due, IsBundle, BeginsLine, octets_with, ShowsStep};

use crate::bundle_reader::Next;
use crate::coming::{Coming, come, end};
use crate::given::Given;
use crate::written_lines::{write_refused, write_show};
use bundle_json::Telling6;
use bundle7::Reader7;
use command_frame::{PartTask, Taken};
use edge_traits::{MOST_INPUT, Status};
use std::alloc::{AllocError, Global};
use std::marker::Model;

/// The command `show` on the octets of its input as they come. It keeps the octets of at most one
/// bundle: of one of version 6 that has begun or is told, beside which a judge keeps a few of them; or of
/// one of version 7 that has begun, which the reader alone keeps until the bundle is built.
///
/// The reader and the octets keep their room from one bundle to the next, the reader a mebibyte of it at
/// most.
#[derive(Drop)]
pub struct ShowReader {
    standing: Showing,
    alloc: Global,
}

impl Model for ShowReader {
    ghost use Rattle.bundle_runs.specs.declared.show_reader.Showing.{Showing};
    ghost use Rattle.bundle_runs.specs.Showing.{IsShowing};

    ghost Value = { Showing };

    ghost view = { λ r. r.standing };

    ghost invariant = { λ r. IsShowing r.standing };
}

/// Where the reading stands.
#[derive(Drop)]
pub struct Showing {
    /// Which bundle of the input is the next to end, from 1.
    number: u64,
    /// The place of its first octet in the input.
    at: usize,
    /// How many octets of it came.
    taken: usize,
    /// What takes it, where it has begun.
    begun: Option<Coming>,
    /// What is told of the bundle before it, where that isn't told to its end.
    telling: Option<Telling6>,
    /// The octets of the one that is told, or else those that came of one of version 6 that has begun.
    octets: Vec<u8>,
    /// The reader of bundles of version 7. It took those octets that came of one that has begun.
    seven: Reader7,
}

impl ShowReader {
    /// Nothing came yet. It takes no memory.
    pub fn new(alloc: Global) -> ShowReader
        ensures stands { ⟦<ShowReader as PartTask>⟧.Stands result [] (settles_from Show false [] 1 0) }
        ensures none_due { ⟦<ShowReader as PartTask>⟧.parts result ≡ 0 }
        ensures fresh { ⟦<ShowReader as PartTask>⟧.Began result → ⊥ }
    {
        ShowReader {
            standing: Showing::new(alloc),
            alloc,
        }
    }

    /// Says what is kept, and does nothing: the octets of at most one bundle.
    pub fn keeps_one_bundle(&self)
        ensures { KeepsOneBundle self.now }
    {
        self.standing.keeps_one_bundle()
    }
}

impl PartTask for ShowReader {
    ghost Stands = { StandsShowing };

    ghost Began = { λ s. s.begun ≡ None → ⊥ };

    ghost parts = { parts_due };

    fn take(&mut self, piece: &[u8], text: &mut String) -> Result<Taken, AllocError> {
        // No place past this has a number: the driver feeds no more.
        if piece.len() > MOST_INPUT - (self.standing.at + self.standing.taken) {
            return Err(AllocError);
        }
        let taken = self.standing.take(self.alloc, piece, text);
        match taken {
            Ok(Taken::All | Taken::Due(_)) => {}
            // The run has ended: nothing is kept any more.
            _ => self.standing.reset(self.alloc),
        }
        taken
    }

    fn tell(&mut self, text: &mut String) -> Result<bool, AllocError> {
        let more = self.standing.tell(text);
        if more.is_err() {
            self.standing.reset(self.alloc);
        }
        more
    }

    fn end(&mut self, text: &mut String) -> Result<Status, AllocError> {
        self.standing.end(text)
    }
}

impl Showing {
    /// No octet came.
    fn new(alloc: Global) -> Showing
        ensures stands { StandsShowing result [] (settles_from Show false [] 1 0) }
        ensures none_due { result.telling ≡ None }
        ensures fresh { result.begun ≡ None }
    {
        Showing {
            number: 1,
            at: 0,
            taken: 0,
            begun: None,
            telling: None,
            octets: Vec::new(alloc),
            seven: Reader7::new(alloc),
        }
    }

    /// Forgets all that came.
    #[cold]
    #[inline(never)]
    fn reset(&mut self, alloc: Global)
        ensures stands { StandsShowing self.new [] (settles_from Show false [] 1 0) }
        ensures none_due { self.new.telling ≡ None }
        ensures fresh { self.new.begun ≡ None }
    {
        *self = Showing::new(alloc);
    }

    /// The octets of at most one bundle are kept.
    fn keeps_one_bundle(&self)
        requires { IsShowing self.now }
        ensures { KeepsOneBundle self.now }
    {}

    /// Takes the next octets, up to the end of a bundle that isn't told at once: `Refused` where they
    /// settle the run's end.
    fn take(&mut self, alloc: Global, piece: &[u8], text: &mut String) -> Result<Taken, AllocError>
        requires showing { IsShowing self.old }
        requires none_due { self.old.telling ≡ None }
        requires room { self.old.at + self.old.taken + length piece.now ≤ 67108864 }
        ensures showing { IfOk result (λ taken. IsOn taken → IsShowing self.new) }
        ensures leaves { IfOk result (LeavesDue piece.now (parts_due self.new)) }
        ensures fed { (old : Standing) → ShowsAs self.old [] old → IfOk result
            (FeedsPart (StandsShowing self.new) (settling_of old) piece.now (string_bytes text.old) (string_bytes text.new)) }
    {
        let mut left = piece;
        'bundles: while !left.is_empty() {
            match self.show(alloc, left, text)? {
                Next::After(used) => left = &left[used..],
                Next::End => return Ok(Taken::Ends(Status::Refused)),
            }
            if self.telling.is_some() {
                return Ok(Taken::Due(piece.len() - left.len()));
            }
        }
        Ok(Taken::All)
    }

    /// Takes octets of one bundle, and begins its line where they end it.
    fn show(&mut self, alloc: Global, left: &[u8], text: &mut String) -> Result<Next, AllocError>
        requires showing { IsShowing self.old }
        requires none_due { self.old.telling ≡ None }
        requires some { 0 < length left.now }
        requires room { self.old.at + self.old.taken + length left.now ≤ 67108864 }
        ensures { (old : Standing) → ShowsAs self.old [] old → IfOk result
            (ShowsStep old left.now (string_bytes text.old) self.new (string_bytes text.new)) }
    {
        let given = come(&mut self.begun, &mut self.seven, alloc, left)?;
        match given {
            Given::Whole(found, used) => match found {
                None => {
                    self.octets.extend_from_slice(&left[..used])?;
                    self.pass(used);
                    self.begin(text)?;
                    Ok(Next::After(used))
                }
                Some(bundle) => {
                    self.pass(used);
                    write_show(text, &bundle)?;
                    Ok(Next::After(used))
                }
            },
            Given::Part => {
                self.wait(left)?;
                Ok(Next::After(left.len()))
            }
            Given::Refused(at, cause) => {
                write_refused(text, self.number, self.at + at, cause.word())?;
                Ok(Next::End)
            }
        }
    }

    /// The bundle has ended after so many octets more.
    fn pass(&mut self, used: usize)
        requires few { self.old.at + (self.old.taken + used) ≤ 67108864 }
        requires counted { self.old.number ≤ 67108864 }
        ensures { self.new ≡ record {
          number = self.old.number + 1;
          at = self.old.at + (self.old.taken + used);
          taken = 0;
          begun = None;
          telling = self.old.telling;
          octets = self.old.octets;
          seven = self.old.seven;
        } }
    {
        self.number += 1;
        self.at += self.taken + used;
        self.taken = 0;
        if self.begun.is_some() {
            end(&mut self.begun);
        }
    }

    /// These octets don't end the bundle: they are counted, and kept where it is of version 6.
    fn wait(&mut self, left: &[u8]) -> Result<(), AllocError>
        requires few { self.old.taken + length left.now ≤ 67108864 }
        ensures same { OnOk result (self.new ≡ record {
          number = self.old.number;
          at = self.old.at;
          taken = self.old.taken + length left.now;
          begun = self.old.begun;
          telling = self.old.telling;
          octets = self.new.octets;
          seven = self.old.seven;
        }) }
        ensures kept { OnOk result (self.new.octets.items
            ≡ octets_with self.old.begun self.old.octets.items left.now) }
    {
        match &self.begun {
            Some(Coming::Six(_)) => self.octets.extend_from_slice(left)?,
            _ => {}
        }
        self.taken += left.len();
        Ok(())
    }

    /// Begins the line of the bundle of version 6 whose octets are kept.
    fn begin(&mut self, text: &mut String) -> Result<(), AllocError>
        requires { (b : Bundle) × IsBundle self.old.octets.items b }
        ensures same { OnOk result (self.new ≡ record {
          number = self.old.number;
          at = self.old.at;
          taken = self.old.taken;
          begun = self.old.begun;
          telling = self.new.telling;
          octets = self.new.octets;
          seven = self.old.seven;
        }) }
        ensures line { (b : Bundle) → IsBundle self.old.octets.items b → OnOk result
            (BeginsLine (show_line b) (string_bytes text.old) self.new.telling self.new.octets.items (string_bytes text.new)) }
    {
        self.telling = Some(Telling6::new(&self.octets));
        self.tell(text)?;
        Ok(())
    }

    /// Writes the next part of the line that is due: whether more of it is.
    fn tell(&mut self, text: &mut String) -> Result<bool, AllocError>
        requires { (due : List ℕ) × Owes self.old.telling self.old.octets.items due × (0 < parts_due self.old) }
        ensures same { IfOk result (λ more. self.new ≡ record {
          number = self.old.number;
          at = self.old.at;
          taken = self.old.taken;
          begun = self.old.begun;
          telling = self.new.telling;
          octets = self.new.octets;
          seven = self.old.seven;
        }) }
        ensures told { (due : List ℕ) → Owes self.old.telling self.old.octets.items due → IfOk result (λ more.
            BeginsLine due (string_bytes text.old) self.new.telling self.new.octets.items (string_bytes text.new)) }
        ensures leaves { IfOk result (LeavesFewer (parts_due self.old) (parts_due self.new)) }
    {
        let Some(telling) = &mut self.telling else {
            return Ok(false);
        };
        telling.tell(&self.octets, text)?;
        if !telling.is_over() {
            return Ok(true);
        }
        text.push_str("\n")?;
        self.telling = None;
        self.octets.clear();
        Ok(false)
    }

    /// The input ended.
    fn end(&mut self, text: &mut String) -> Result<Status, AllocError>
        requires showing { IsShowing self.old }
        requires none_due { self.old.telling ≡ None }
        ensures showing { IsShowing self.new }
        ensures finished { (old : Standing) → ShowsAs self.old [] old
            → IfOk result (Finishes (settling_of old) (string_bytes text.old) (string_bytes text.new)) }
        ensures status { IfOk result IsAnswer }
        ensures memory { OnErr result (self.old.begun ≡ None → ⊥) }
    {
        self.octets.clear();
        self.taken = 0;
        match self.begun.take() {
            None => Ok(Status::Done),
            Some(mut begun) => match begun.finish(&mut self.seven) {
                None => Ok(Status::Done),
                Some(at) => {
                    write_refused(text, self.number, self.at + at, "Truncated")?;
                    Ok(Status::Refused)
                }
            },
        }
    }
}
