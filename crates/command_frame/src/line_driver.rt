//! The run of a command that answers line by line.
ghost use Rattle.std.specs.Prelude.{◌≡◌, ◌<◌, [], length, IfSome};
ghost use Rattle.edge_traits.specs.Content.{most_input};
ghost use Rattle.edge_traits.specs.Outcome.{Ran, source_tells, sink_tells};
ghost use Rattle.command_frame.specs.Within.{within};
ghost use Rattle.command_frame.specs.Lines.{by_lines};
ghost use Rattle.command_frame.specs.Limits.{limits_by_lines, limits_within};

use crate::line_passed::LinePassed;
use crate::part_driver::drive_parts;
use crate::part_line_step::PartLineStep;
use crate::part_lines::PartLineReader;
use edge_traits::{Sink, Source, Status};
use std::alloc::Global;

/// How a run over lines ended.
#[derive(Clone, Copy, Debug, PartialEq, Eq, Drop)]
pub struct LinesEnded {
    /// How it ended.
    pub status: Status,
    /// Where that is with a limit, the one on lines that was passed; with none it is the one on the
    /// size of the input.
    pub passed: Option<LinePassed>,
}

/// Runs a command that answers line by line, from its first line on.
pub fn drive_lines<L: PartLineStep + Drop, S: Source, K: Sink>(
    alloc: Global,
    step: L,
    source: &mut S,
    sink: &mut K,
) -> LinesEnded
    requires none_due { L.parts step ≡ 0 }
    requires fresh { (state : L.State) → L.Shows step [] state → L.Began step → 0 < length (L.rules.finish state).text }
    ensures ran { (start : L.State) → L.Shows step [] start → Ran (within most_input (by_lines L.rules start)) result.status
        (source_tells S.left S.faults S.failing source.old) (source_tells S.left S.faults S.failing source.new)
        (sink_tells K.held K.faults K.failing sink.old) (sink_tells K.held K.faults K.failing sink.new) }
    // Where the run ended with a limit, it is the one on lines that the input passes, if it passes one.
    ensures passed { (start : L.State) → L.Shows step [] start → result.status ≡ Status.Limit
        → IfSome (S.left source.old) (λ input. limits_within most_input (limits_by_lines L.rules start) input ≡ result.passed) }
{
    let mut reader = PartLineReader::new(alloc, step);
    let status = drive_parts(alloc, &mut reader, source, sink);
    LinesEnded {
        status,
        passed: reader.passed(),
    }
}
