//! The loop that every command runs in which reads, and the one of a command that writes each answer whole.
ghost use Rattle.std.specs.Prelude.{◌≡◌, ℕ, List, [], Option, None, IfSome};
ghost use Rattle.std.specs.String.{string_bytes};
ghost use Rattle.edge_traits.specs.Content.{most_input};
ghost use Rattle.edge_traits.specs.Outcome.{Ran, IsAnswer, source_tells, sink_tells};
ghost use Rattle.edge_traits.specs.Settled.{at_end};
ghost use Rattle.command_frame.specs.declared.line_passed.LinePassed.{LinePassed};
ghost use Rattle.command_frame.specs.Task.{Settling, IsQuiet, WritesOfNothing, Finishes};
ghost use Rattle.command_frame.specs.Within.{within};
ghost use Rattle.command_frame.specs.Limits.{Limiting, IsWithin, limits_within};
ghost use Rattle.command_frame.specs.Handing.{Handed, HandedEnd, HandedWithin};

use crate::task::Task;
use edge_traits::{Failed, MOST_INPUT, Sink, Source, Status, read_once, write_all};
use std::alloc::{AllocError, Global};

/// How many octets a read asks for.
const BUFFER: usize = 8192;

/// Runs a task that was told nothing yet: what the octets read settle is written before the next
/// read. It looks at no more than the first `MOST_INPUT` octets.
pub fn drive<T: Task, S: Source, K: Sink>(
    alloc: Global,
    task: &mut T,
    source: &mut S,
    sink: &mut K,
) -> Status
    requires fresh { (settles : Settling) → T.Stands task.old settles → T.Began task.old → WritesOfNothing settles }
    ensures { (settles : Settling) → T.Stands task.old settles → IsQuiet settles → Ran (within most_input settles) result
        (source_tells S.left S.faults S.failing source.old) (source_tells S.left S.faults S.failing source.new)
        (sink_tells K.held K.faults K.failing sink.old) (sink_tells K.held K.faults K.failing sink.new) }
{
    drive_by::<Whole, T, S, K>(alloc, task, source, sink)
}

/// How tasks of a kind are told octets, and what they answer is written.
pub(crate) trait Hands<T> {
    // The octets still to come settle this, and no text is due.
    ghost Stands: { T → Settling → Type 0 };

    // The end of the input may want memory.
    ghost Began: { T → Type 0 };

    // The task may be told octets.
    ghost Ready: { T → Type 0 };

    // The octets still to come pass these limits on lines, and no text is due.
    ghost Awaits: { T → Limiting → Type 0 };

    // The limit on lines that ended the run.
    ghost passed: { T → Option LinePassed };

    /// Writes all that the octets of a piece settle: how the run ends, where they settle that too or
    /// something failed.
    fn hand<K: Sink>(task: &mut T, piece: &[u8], text: &mut String, sink: &mut K) -> Option<Status>
        requires { Ready task.old }
        ensures ready { result ≡ None → Ready task.new }
        ensures handed { (settles : Settling) → Stands task.old settles → IsQuiet settles
            → Handed (Stands task.new) settles piece.now
            (sink_tells K.held K.faults K.failing sink.old) (sink_tells K.held K.faults K.failing sink.new) result }
        ensures within { (limits : Limiting) → IsWithin (Awaits task.old) (passed task.old) limits
            → HandedWithin (Awaits task.new) (passed task.new) limits piece.now result };

    /// Writes all that the end of the input settles: how the run ends.
    fn close<K: Sink>(task: &mut T, text: &mut String, sink: &mut K) -> Status
        requires { Ready task.old }
        ensures ended { (settles : Settling) → Stands task.old settles → HandedEnd (Began task.old) settles
            (sink_tells K.held K.faults K.failing sink.old) (sink_tells K.held K.faults K.failing sink.new) result }
        ensures within { (limits : Limiting) → Awaits task.old limits → result ≡ Status.Limit
            → limits at_end [] ≡ passed task.new };
}

/// Runs a task of a kind that was told nothing yet.
pub(crate) fn drive_by<H: Hands<T>, T, S: Source, K: Sink>(
    alloc: Global,
    task: &mut T,
    source: &mut S,
    sink: &mut K,
) -> Status
    requires ready { H.Ready task.old }
    requires fresh { (settles : Settling) → H.Stands task.old settles → H.Began task.old → WritesOfNothing settles }
    ensures ran { (settles : Settling) → H.Stands task.old settles → IsQuiet settles → Ran (within most_input settles) result
        (source_tells S.left S.faults S.failing source.old) (source_tells S.left S.faults S.failing source.new)
        (sink_tells K.held K.faults K.failing sink.old) (sink_tells K.held K.faults K.failing sink.new) }
    ensures passed { (limits : Limiting) → IsWithin (H.Awaits task.old) (H.passed task.old) limits → result ≡ Status.Limit
        → IfSome (S.left source.old) (λ input. limits_within most_input limits input ≡ H.passed task.new) }
{
    let mut text = String::new(alloc);
    let mut buffer = [0u8; BUFFER];
    let mut taken = 0;
    'reading: while taken <= MOST_INPUT {
        let n = match read_once(source, &mut buffer) {
            Ok(n) => n,
            Err(Failed) => return Status::ReadFault,
        };
        if n == 0 {
            return H::close(task, &mut text, sink);
        }
        let size = n.min(MOST_INPUT - taken);
        match H::hand(task, &buffer[..size], &mut text, sink) {
            Some(status) => return status,
            None if size < n => return Status::Limit,
            None => taken += size,
        }
    }
    Status::Limit
}

/// The tasks that add each answer whole.
struct Whole;

impl<T: Task> Hands<T> for Whole {
    ghost Stands = { λ t. T.Stands t };

    ghost Began = { λ t. T.Began t };

    ghost Ready = { λ t. Unit {0} };

    ghost Awaits = { λ t limits. ⊥ };

    ghost passed = { λ t. None };

    fn hand<K: Sink>(
        task: &mut T,
        piece: &[u8],
        text: &mut String,
        sink: &mut K,
    ) -> Option<Status> {
        text.clear();
        let Ok(ends) = task.feed(piece, text) else {
            return Some(Status::Memory);
        };
        match write_all(sink, text.as_bytes()) {
            Ok(()) => ends,
            Err(Failed) => Some(Status::WriteFault),
        }
    }

    fn close<K: Sink>(task: &mut T, text: &mut String, sink: &mut K) -> Status {
        text.clear();
        match task.finish(text) {
            Ok(status) => write_last(text, status, sink),
            Err(AllocError) => Status::Memory,
        }
    }
}

/// Writes the last text of a run that ends so, unless a write fails.
pub(crate) fn write_last<K: Sink>(text: &String, status: Status, sink: &mut K) -> Status
    requires { IsAnswer status }
    ensures { (settles : Settling) → Finishes settles [] (string_bytes text.now) status → HandedEnd ⊥ settles
        (sink_tells K.held K.faults K.failing sink.old) (sink_tells K.held K.faults K.failing sink.new) result }
{
    match write_all(sink, text.as_bytes()) {
        Ok(()) => status,
        Err(Failed) => Status::WriteFault,
    }
}
