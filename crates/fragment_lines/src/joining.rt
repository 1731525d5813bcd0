//! `join` of a bundle.

ghost use Rattle.std.specs.Prelude.{◌≡◌, ◌<◌, ◌^◌, ◌++◌, [], List, codes, false, length, None, Err, IfOk, OnOk, OnErr};
ghost use Rattle.std.specs.String.{string_bytes};
ghost use Rattle.bundle6.specs.Legal.{IsLegal};
ghost use Rattle.bundle7.specs.Legal.{IsLegal7};
ghost use Rattle.translate.specs.Refusals.{first_that_holds};
ghost use Rattle.translate.specs.Reading6.{refusals6, full6_of};
ghost use Rattle.translate.specs.Reading7.{refusals7, full7_of};
ghost use Rattle.translate.specs.Sound.{IsSound};
ghost use Rattle.fragments.specs.declared.join.Join.{Join};
ghost use Rattle.fragments.specs.Cutting.{octets_of};
ghost use Rattle.fragments.specs.Again.{answer, after};
ghost use Rattle.fragment_lines.specs.Said.{says};
ghost use Rattle.fragment_lines.specs.Lines.{spelled_old, spelled_new, unless_refused, Writes};
ghost use Rattle.fragment_lines.specs.Joins.{join6, join7, said_whole, no_fragment_line, LacksRoom};
ghost use Rattle.fragment_lines.specs.Writable.{IsSayable, Tells, said_answer};

use crate::lines::write_word;
use crate::reading::{read6, read7};
use crate::telling::Telling;
use crate::turned_down::TurnedDown;
use crate::views::{spelled_new, spelled_old};
use bundle_meaning::{Content, Full};
use bundle6::Bundle6;
use bundle7::Bundle7;
use endpoint::Octets;
use fragments::{JoinRefused, Joined, Joiner};
use std::alloc::{AllocError, Global};
use std::marker::Model;
use translate::{Refused, refusal6, refusal7, sized};

/// What is said of the joiner's answer: a word, or the whole.
#[derive(Drop)]
enum Answer {
    /// The whole isn't there, or the record was refused.
    Word(&'static str),
    /// The whole.
    Whole(Full),
}

/// The fragments of bundles of either version, of which the wholes aren't there yet.
#[derive(Debug, Drop)]
pub struct BundleJoiner {
    joiner: Joiner,
    alloc: Global,
}

impl Model for BundleJoiner {
    ghost use Rattle.std.specs.Prelude.{◌≡◌, false};
    ghost use Rattle.fragments.specs.Joining.{Joining};
    ghost use Rattle.fragment_lines.specs.Writable.{AreBegun};

    ghost Value = { Joining };

    ghost view = { λ j. j.joiner };

    ghost invariant = { λ j. j.joiner.spent ≡ false → AreBegun j.joiner.joins };
}

impl BundleJoiner {
    /// A joiner to which nothing came. It takes no memory.
    pub fn new(alloc: Global) -> BundleJoiner
        ensures { result ≡ record { joins = []; spent = false } }
    {
        BundleJoiner {
            joiner: Joiner::new(alloc),
            alloc,
        }
    }

    /// Takes a version 6 bundle, and writes the line of what it came to; a whole is a version 6 bundle,
    /// whose octets are left to be told. Or it says why the bundle is turned down; then nothing is
    /// written. After want of memory the joiner may only be dropped.
    ///
    /// The record of a bundle that is no fragment isn't made.
    pub fn join6(
        &mut self,
        text: &mut String,
        bundle: Bundle6,
    ) -> Result<Result<Telling, TurnedDown>, AllocError>
        requires whole { self.old.spent ≡ false }
        requires legal { IsLegal bundle }
        ensures said { IfOk result (Writes (join6 self.old.joins bundle)
            (string_bytes text.old) (string_bytes text.new) self.new.joins) }
        ensures whole { OnOk result (self.new.spent ≡ false) }

        // A bundle that doesn't read as a record changes nothing.
        ensures stays { (first_that_holds (refusals6 bundle) ≡ None → ⊥) → self.new ≡ self.old }

        // Any other is taken as its record, also where the whole that it completes is turned down.
        ensures taken { OnOk result (first_that_holds (refusals6 bundle) ≡ None
            → self.new.joins ≡ after self.old.joins (full6_of bundle)) }

        // Memory is wanted only where the bundle reads as a record, and of one that is no fragment only for
        // its line.
        ensures memory { OnErr result (first_that_holds (refusals6 bundle) ≡ None) }
        ensures unasked { bundle.primary.fragment ≡ None → OnErr result (LacksRoom text.old) }
    {
        match bundle.primary.fragment {
            Some(_) => self.take6(text, bundle),
            None => write_no_fragment(text, refusal6(self.alloc, &bundle)),
        }
    }

    /// Takes a version 7 bundle in the same way; a whole is a version 7 bundle.
    pub fn join7(
        &mut self,
        text: &mut String,
        bundle: Bundle7,
    ) -> Result<Result<Telling, TurnedDown>, AllocError>
        requires whole { self.old.spent ≡ false }
        requires legal { IsLegal7 bundle }
        ensures said { IfOk result (Writes (join7 self.old.joins bundle)
            (string_bytes text.old) (string_bytes text.new) self.new.joins) }
        ensures whole { OnOk result (self.new.spent ≡ false) }

        // A bundle that doesn't read as a record changes nothing.
        ensures stays { (first_that_holds (refusals7 bundle) ≡ None → ⊥) → self.new ≡ self.old }

        // Any other is taken as its record, also where the whole that it completes is turned down.
        ensures taken { OnOk result (first_that_holds (refusals7 bundle) ≡ None
            → self.new.joins ≡ after self.old.joins (full7_of bundle)) }

        // Memory is wanted only where the bundle reads as a record, and of one that is no fragment only for
        // its line.
        ensures memory { OnErr result (first_that_holds (refusals7 bundle) ≡ None) }
        ensures unasked { bundle.primary.fragment ≡ None → OnErr result (LacksRoom text.old) }
    {
        match bundle.primary.fragment {
            Some(_) => self.take7(text, bundle),
            None => write_no_fragment(text, refusal7(&bundle)),
        }
    }

    /// Takes a version 6 bundle, whose record is made.
    fn take6(
        &mut self,
        text: &mut String,
        bundle: Bundle6,
    ) -> Result<Result<Telling, TurnedDown>, AllocError>
        requires whole { self.old.spent ≡ false }
        requires legal { IsLegal bundle }
        ensures said { IfOk result (Writes (join6 self.old.joins bundle)
            (string_bytes text.old) (string_bytes text.new) self.new.joins) }
        ensures whole { OnOk result (self.new.spent ≡ false) }
        ensures stays { (first_that_holds (refusals6 bundle) ≡ None → ⊥) → self.new ≡ self.old }
        ensures taken { OnOk result (first_that_holds (refusals6 bundle) ≡ None
            → self.new.joins ≡ after self.old.joins (full6_of bundle)) }
        ensures memory { OnErr result (first_that_holds (refusals6 bundle) ≡ None) }
    {
        match read6(self.alloc, bundle)? {
            Ok(full) => write_joined6(self.alloc, text, self.add(full)?),
            Err(cause) => Ok(Err(TurnedDown::Untranslated(cause))),
        }
    }

    /// Takes a version 7 bundle, whose record is made.
    fn take7(
        &mut self,
        text: &mut String,
        bundle: Bundle7,
    ) -> Result<Result<Telling, TurnedDown>, AllocError>
        requires whole { self.old.spent ≡ false }
        requires legal { IsLegal7 bundle }
        ensures said { IfOk result (Writes (join7 self.old.joins bundle)
            (string_bytes text.old) (string_bytes text.new) self.new.joins) }
        ensures whole { OnOk result (self.new.spent ≡ false) }
        ensures stays { (first_that_holds (refusals7 bundle) ≡ None → ⊥) → self.new ≡ self.old }
        ensures taken { OnOk result (first_that_holds (refusals7 bundle) ≡ None
            → self.new.joins ≡ after self.old.joins (full7_of bundle)) }
        ensures memory { OnErr result (first_that_holds (refusals7 bundle) ≡ None) }
    {
        match read7(self.alloc, bundle)? {
            Ok(full) => write_joined7(self.alloc, text, self.add(full)?),
            Err(cause) => Ok(Err(TurnedDown::Untranslated(cause))),
        }
    }

    /// What is said of the joiner's answer to a record, which is let go.
    fn add(&mut self, full: Full) -> Result<Answer, AllocError>
        requires whole { self.old.spent ≡ false }
        requires sound { IsSound full }
        ensures answer { IfOk result (Tells (answer self.old.joins full)) }
        ensures after { OnOk result (self.new ≡ record { joins = after self.old.joins full; spent = false }) }
        ensures sayable { IfOk result IsSayable }
    {
        answer_of(self.joiner.add(&full))
    }
}

/// What is said of the joiner's answer.
fn answer_of(given: Result<Joined, JoinRefused>) -> Result<Answer, AllocError>
    ensures told { IfOk result (Tells given) }
    ensures memory { OnErr result (given ≡ Err JoinRefused.Memory) }
{
    match given {
        Ok(Joined::Waiting) => Ok(Answer::Word("Waiting")),
        Ok(Joined::Repeat) => Ok(Answer::Word("Repeat")),
        Ok(Joined::Whole(whole)) => {
            sized_content(&whole.shared.content);
            Ok(Answer::Whole(whole))
        }
        Err(JoinRefused::Memory) => Err(AllocError),
        Err(refused) => Ok(Answer::Word(refused.word())),
    }
}

/// Says that a number counts the octets of a payload.
fn sized_content(content: &Content)
    ensures { length (octets_of content.now) < 2 ^ 64 }
{
    match content {
        Content::Bytes(octets) => sized(octets.as_slice()),
        Content::Report(_) => {}
    }
}

/// The line of an answer, in version 6.
fn write_joined6(
    alloc: Global,
    text: &mut String,
    answer: Answer,
) -> Result<Result<Telling, TurnedDown>, AllocError>
    requires { IsSayable answer }
    ensures { IfOk result (λ said. (now : List Join)
        → Writes (said_answer spelled_old answer now) (string_bytes text.old) (string_bytes text.new) now said) }
{
    match answer {
        Answer::Word(word) => write_open(text, word),
        Answer::Whole(whole) => write_whole(text, spelled_old(alloc, whole)?),
    }
}

/// The line of an answer, in version 7.
fn write_joined7(
    alloc: Global,
    text: &mut String,
    answer: Answer,
) -> Result<Result<Telling, TurnedDown>, AllocError>
    requires { IsSayable answer }
    ensures { IfOk result (λ said. (now : List Join)
        → Writes (said_answer spelled_new answer now) (string_bytes text.old) (string_bytes text.new) now said) }
{
    match answer {
        Answer::Word(word) => write_open(text, word),
        Answer::Whole(whole) => write_whole(text, spelled_new(alloc, whole)?),
    }
}

/// The line of a whole that has these octets, or there is no room for its blocks.
fn write_whole(
    text: &mut String,
    octets: Option<Octets>,
) -> Result<Result<Telling, TurnedDown>, AllocError>
    ensures { IfOk result (λ said. (now : List Join)
        → Writes (said_whole octets now) (string_bytes text.old) (string_bytes text.new) now said) }
{
    match octets {
        Some(octets) => {
            text.push_str("Whole ")?;
            Ok(Ok(Telling::line(octets)))
        }
        None => Ok(Err(TurnedDown::Untranslated(Refused::TooManyBlocks))),
    }
}

/// The line of a bundle that is no fragment, or it doesn't read as a record for this cause.
fn write_no_fragment(
    text: &mut String,
    refused: Option<Refused>,
) -> Result<Result<Telling, TurnedDown>, AllocError>
    ensures said { IfOk result (λ said. (now : List Join)
        → Writes (unless_refused refused (says no_fragment_line now)) (string_bytes text.old) (string_bytes text.new) now said) }
    ensures memory { OnErr result ((refused ≡ None) × LacksRoom text.old) }
{
    match refused {
        Some(cause) => Ok(Err(TurnedDown::Untranslated(cause))),
        None => {
            text.push_str("NotFragment\n")?;
            Ok(Ok(Telling::nothing()))
        }
    }
}

/// The line of an answer that is a word.
fn write_open(text: &mut String, word: &str) -> Result<Result<Telling, TurnedDown>, AllocError>
    ensures { IfOk result (λ said. (now : List Join)
        → Writes (says (word.now ++ codes "\n") now) (string_bytes text.old) (string_bytes text.new) now said) }
{
    write_word(text, word)?;
    Ok(Ok(Telling::nothing()))
}
