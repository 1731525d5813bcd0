//! Commands that answer line by line.
ghost use Rattle.std.specs.Prelude.{◌≡◌, ◌<◌, [], length, Option};
ghost use Rattle.edge_traits.specs.Content.{most_input};
ghost use Rattle.edge_traits.specs.Outcome.{Ran, source_tells, sink_tells};
ghost use Rattle.command_frame.specs.Lines.{by_lines};
ghost use Rattle.command_frame.specs.Limits.{limits_by_lines};
ghost use Rattle.command_frame.specs.Within.{within};
ghost use Rattle.command_frame.specs.declared.line_passed.LinePassed.{LinePassed};
ghost use Rattle.gateway_run.specs.Passed.{named_by, passed_on_lines, NamesOnLines};

use crate::commands::passed::{Ended, ended_with, passed_on_lines};
use command_frame::{AtOnce, LineStep, PartLineStep, drive_lines};
use edge_traits::{Sink, Source};
use std::alloc::Global;

/// Runs a command that answers each line whole.
pub fn run_lines<L: LineStep + Drop, S: Source, K: Sink>(
    alloc: Global,
    step: L,
    source: &mut S,
    sink: &mut K,
) -> Ended
    requires fresh { (state : L.State) → L.Shows step state → L.Began step → 0 < length (L.rules.finish state).text }
    ensures ran { (start : L.State) → L.Shows step start → Ran (within most_input (by_lines L.rules start)) result.status
        (source_tells S.left S.faults S.failing source.old) (source_tells S.left S.faults S.failing source.new)
        (sink_tells K.held K.faults K.failing sink.old) (sink_tells K.held K.faults K.failing sink.new) }
    ensures passed { (lines : Option LinePassed) × (result.passed ≡ named_by result.status (passed_on_lines lines)) }
    ensures names { (start : L.State) → L.Shows step start
        → NamesOnLines (limits_by_lines L.rules start) (S.left source.old) result.status result.passed }
{
    run_part_lines(alloc, AtOnce::new(step), source, sink)
}

/// Runs a command that may hand on the text of a line in parts.
pub fn run_part_lines<L: PartLineStep + Drop, S: Source, K: Sink>(
    alloc: Global,
    step: L,
    source: &mut S,
    sink: &mut K,
) -> Ended
    requires none_due { L.parts step ≡ 0 }
    requires fresh { (state : L.State) → L.Shows step [] state → L.Began step → 0 < length (L.rules.finish state).text }
    ensures ran { (start : L.State) → L.Shows step [] start → Ran (within most_input (by_lines L.rules start)) result.status
        (source_tells S.left S.faults S.failing source.old) (source_tells S.left S.faults S.failing source.new)
        (sink_tells K.held K.faults K.failing sink.old) (sink_tells K.held K.faults K.failing sink.new) }
    ensures passed { (lines : Option LinePassed) × (result.passed ≡ named_by result.status (passed_on_lines lines)) }
    ensures names { (start : L.State) → L.Shows step [] start
        → NamesOnLines (limits_by_lines L.rules start) (S.left source.old) result.status result.passed }
{
    let ended = drive_lines(alloc, step, source, sink);
    ended_with(ended.status, passed_on_lines(ended.passed))
}
