//! Lines that are answered as they come: their numbers, and the limits on them.
ghost use Rattle.std.specs.Prelude.{◌≡◌, ◌^◌, false, ◌<◌, ◌++◌, ◌∷◌, ◌+◌, ◌||◌, ◌⊎◌, nat_lt, List, ℕ, [], None, Some, IfOk, OnErr, OnOk, length};
ghost use Rattle.std.specs.String.{string_bytes};
ghost use Rattle.edge_traits.specs.Outcome.{IsAnswer};
ghost use Rattle.command_frame.specs.InputLines.{ended_part};
ghost use Rattle.command_frame.specs.Task.{Settling, WritesOfNothing, Feeds};
ghost use Rattle.command_frame.specs.Lines.{InLine, by_lines};
ghost use Rattle.command_frame.specs.Limits.{Limiting, IsWithin, past_limit, limits_by_lines, turned_limit, InLimits};
ghost use Rattle.command_frame.specs.PartTask.{LeavesTurn, TakesLast, LastWithin};
ghost use Rattle.command_frame.specs.PartLines.{FeedsLine, FeedsWithin, KeepsWithin};

use crate::input_lines::cut_line;
use crate::line_passed::LinePassed;
use crate::part_line_step::PartLineStep;
use crate::part_task::{PartTask, Taken};
use crate::turned::Turned;
use edge_traits::Status;
use std::alloc::{AllocError, Global};

/// A command that answers line by line, and may hand on the text of a line in parts: the line that hasn't
/// ended, and what is kept of those before it. A last line without its line feed is answered at the end
/// of the input.
#[derive(Drop)]
pub struct PartLineReader<L: PartLineStep + Drop> {
    step: L,
    number: u64,
    rest: Vec<u8>,
    passed: Option<LinePassed>,
}

impl<L: PartLineStep + Drop> PartLineReader<L> {
    /// Nothing came yet.
    pub fn new(alloc: Global, step: L) -> PartLineReader<L>
        ensures stands { (start : L.State) → L.Shows step [] start
            → ⟦<PartLineReader<L> as PartTask>⟧.Stands result [] (by_lines L.rules start) }
        ensures none_due { ⟦<PartLineReader<L> as PartTask>⟧.parts result ≡ L.parts step }
        ensures within { (start : L.State) → L.Shows step [] start
            → IsWithin (⟦<PartLineReader<L> as PartTask>⟧.Awaits result []) (⟦<PartLineReader<L> as PartTask>⟧.passed result)
            (limits_by_lines L.rules start) }
        ensures fresh { ((state : L.State) → L.Shows step [] state → L.Began step → 0 < length (L.rules.finish state).text)
            → (settles : Settling) → ⟦<PartLineReader<L> as PartTask>⟧.Stands result [] settles
            → ⟦<PartLineReader<L> as PartTask>⟧.Began result → WritesOfNothing settles }
    {
        PartLineReader {
            step,
            number: 1,
            rest: Vec::new(alloc),
            passed: None,
        }
    }

    /// The limit on lines that ended the run, where one did.
    pub fn passed(&self) -> Option<LinePassed>
        ensures { result ≡ ⟦<PartLineReader<L> as PartTask>⟧.passed self.now }
    {
        self.passed
    }
}

impl<L: PartLineStep + Drop> PartTask for PartLineReader<L> {
    ghost Stands = { λ r due. InLine L.rules (L.Shows r.step due) r.number r.rest.items };

    ghost Began = { λ r. (0 < length r.rest.items) ⊎ L.Began r.step };

    ghost parts = { λ r. L.parts r.step };

    ghost Awaits = { λ r due. InLimits L.rules (L.Shows r.step due) r.number r.rest.items r.passed };

    ghost passed = { λ r. r.passed };

    fn take(&mut self, piece: &[u8], text: &mut String) -> Result<Taken, AllocError> {
        let mut left = piece;
        'lines: while !left.is_empty() {
            let Some((last, later)) = cut_line(left) else {
                return match keep(self, left)? {
                    Some(status) => Ok(Taken::Ends(status)),
                    None => Ok(Taken::All),
                };
            };
            match end_line(self, last, text)? {
                Turned::Passes => left = later,
                Turned::Owes => return Ok(Taken::Due(piece.len() - later.len())),
                Turned::Ends(status) => return Ok(Taken::Ends(status)),
            }
        }
        Ok(Taken::All)
    }

    fn tell(&mut self, text: &mut String) -> Result<bool, AllocError> {
        self.step.tell(text)
    }

    fn last(&mut self, text: &mut String) -> Result<Turned, AllocError> {
        if self.rest.is_empty() {
            return Ok(Turned::Passes);
        }
        last_line(self, text)
    }

    fn end(&mut self, text: &mut String) -> Result<Status, AllocError> {
        if self.rest.is_empty() {
            return self.step.finish(text);
        }
        match last_line(self, text)? {
            Turned::Ends(status) => Ok(status),
            Turned::Passes => self.step.finish(text),
            Turned::Owes => {
                tell_whole(&mut self.step, text)?;
                self.step.finish(text)
            }
        }
    }
}

/// The line that is kept ends with these octets, and a line feed.
fn end_line<L: PartLineStep + Drop>(
    reader: &mut PartLineReader<L>,
    last: &[u8],
    text: &mut String,
) -> Result<Turned, AllocError>
    requires none_due { L.parts reader.old.step ≡ 0 }
    requires plain { ended_part last.now ≡ [] }
    ensures leaves { IfOk result (LeavesTurn (L.parts reader.new.step)) }
    ensures fed { (settles : Settling) → ⟦<PartLineReader<L> as PartTask>⟧.Stands reader.old [] settles → IfOk result
        (FeedsLine (⟦<PartLineReader<L> as PartTask>⟧.Stands reader.new) settles (last.now ++ 10 ∷ []) (string_bytes text.old) (string_bytes text.new)) }
    ensures within { (limits : Limiting) → ⟦<PartLineReader<L> as PartTask>⟧.Awaits reader.old [] limits → IfOk result
        (FeedsWithin (⟦<PartLineReader<L> as PartTask>⟧.Awaits reader.new) reader.new.passed limits (last.now ++ 10 ∷ [])) }
{
    if is_past(reader, last.len()) {
        return Ok(Turned::Ends(stop_past(reader)));
    }
    reader.rest.extend_from_slice(last)?;
    let turned = reader
        .step
        .line(reader.number, reader.rest.as_slice(), text)?;
    reader.passed = turned_limit(reader.number, turned);
    reader.rest.clear();
    reader.number += 1;
    Ok(turned)
}

/// The input ended, and with it the line that is kept.
fn last_line<L: PartLineStep + Drop>(
    reader: &mut PartLineReader<L>,
    text: &mut String,
) -> Result<Turned, AllocError>
    requires none_due { L.parts reader.old.step ≡ 0 }
    requires some { 0 < length reader.old.rest.items }
    ensures none_kept { IfOk result (λ turned. reader.new.rest.items ≡ []) }
    ensures leaves { IfOk result (LeavesTurn (L.parts reader.new.step)) }
    ensures ended { (settles : Settling) → ⟦<PartLineReader<L> as PartTask>⟧.Stands reader.old [] settles → IfOk result
        (TakesLast (⟦<PartLineReader<L> as PartTask>⟧.Stands reader.new) settles (string_bytes text.old) (string_bytes text.new)) }
    ensures within { (limits : Limiting) → ⟦<PartLineReader<L> as PartTask>⟧.Awaits reader.old [] limits → IfOk result
        (LastWithin (⟦<PartLineReader<L> as PartTask>⟧.Awaits reader.new) reader.new.passed limits) }
{
    let number = reader.number;
    let turned = reader.step.line(number, reader.rest.as_slice(), text)?;
    reader.passed = turned_limit(number, turned);
    reader.rest.clear();
    Ok(turned)
}

/// The limit of the command's own that line `number` passed, where that ended the run.
fn turned_limit(number: u64, turned: Turned) -> Option<LinePassed>
    ensures { result ≡ turned_limit number turned }
{
    match turned {
        Turned::Ends(Status::Limit) => Some(LinePassed::Own { line: number }),
        _ => None,
    }
}

/// Keeps octets of a line that hasn't ended.
fn keep<L: PartLineStep + Drop>(
    reader: &mut PartLineReader<L>,
    octets: &[u8],
) -> Result<Option<Status>, AllocError>
    requires some { 0 < length octets.now }
    requires open { ended_part octets.now ≡ [] }
    ensures step { reader.new.step ≡ reader.old.step }
    ensures fed { (settles : Settling) (text : List ℕ) → ⟦<PartLineReader<L> as PartTask>⟧.Stands reader.old [] settles → IfOk result
        (Feeds (⟦<PartLineReader<L> as PartTask>⟧.Stands reader.new []) settles octets.now text text) }
    ensures within { (limits : Limiting) → ⟦<PartLineReader<L> as PartTask>⟧.Awaits reader.old [] limits → IfOk result
        (KeepsWithin (⟦<PartLineReader<L> as PartTask>⟧.Awaits reader.new []) reader.new.passed limits octets.now) }
{
    if is_past(reader, octets.len()) {
        return Ok(Some(stop_past(reader)));
    }
    reader.rest.extend_from_slice(octets)?;
    Ok(None)
}

/// The line that is kept passes a limit: the run ends, and which limit it was is all that is changed.
fn stop_past<L: PartLineStep + Drop>(reader: &mut PartLineReader<L>) -> Status
    ensures limit { result ≡ Status.Limit }
    ensures step { reader.new.step ≡ reader.old.step }
    ensures passed { reader.new.passed ≡ past_limit L.rules reader.old.number }
{
    reader.passed = Some(past_limit(reader));
    Status::Limit
}

/// The limit of a line that is one too many or too long.
fn past_limit<L: PartLineStep + Drop>(reader: &PartLineReader<L>) -> LinePassed
    ensures { Some result ≡ past_limit L.rules reader.now.number }
{
    match reader.number > u64::from(reader.step.most_lines()) {
        true => LinePassed::Lines,
        false => LinePassed::Length {
            line: reader.number,
        },
    }
}

/// Whether the line that is kept passes a limit with so many octets more.
fn is_past<L: PartLineStep + Drop>(reader: &PartLineReader<L>, more: usize) -> bool
    ensures small { result ≡ false → reader.now.number < 2 ^ 32 }
    ensures test { result ≡ (nat_lt L.rules.lines reader.now.number || nat_lt L.rules.octets (length reader.now.rest.items + more)) }
{
    reader.number > u64::from(reader.step.most_lines())
        || reader.rest.len().saturating_add(more) > reader.step.most_octets() as usize
}

/// Appends all parts of the text that is due.
fn tell_whole<L: PartLineStep>(step: &mut L, text: &mut String) -> Result<(), AllocError>
    ensures { (due : List ℕ) (state : L.State) → L.Shows step.old due state
        → OnOk result ((string_bytes text.new ≡ string_bytes text.old ++ due) × L.Shows step.new [] state) }
{
    'telling: loop {
        if !step.tell(text)? {
            return Ok(());
        }
    }
}
