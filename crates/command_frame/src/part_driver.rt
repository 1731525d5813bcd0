//! The loop of a command that hands on its text in parts.
ghost use Rattle.std.specs.Prelude.{◌≡◌, ◌<◌, ℕ, List, [], None, Some, IfSome};
ghost use Rattle.edge_traits.specs.Content.{most_input};
ghost use Rattle.edge_traits.specs.Outcome.{Ran, source_tells, sink_tells};
ghost use Rattle.command_frame.specs.Stops.{IsFailure};
ghost use Rattle.command_frame.specs.Task.{Settling, IsQuiet, WritesOfNothing};
ghost use Rattle.edge_traits.specs.Settled.{at_end};
ghost use Rattle.command_frame.specs.Within.{within};
ghost use Rattle.command_frame.specs.Limits.{Limiting, IsWithin, limits_within};
ghost use Rattle.command_frame.specs.Handing.{Told, Handed, HandedEnd, HandedWithin};

use crate::driver::{Hands, drive_by, write_last};
use crate::part_task::{PartTask, Taken};
use crate::turned::Turned;
use edge_traits::{Failed, Sink, Source, Status, write_all};
use std::alloc::{AllocError, Global};

/// Runs a task that was told nothing yet, and that hands on its text in parts. It promises what
/// [`crate::drive`] does: what is written, and how the run ends. That each part is written before the next
/// is told is how it is built, and no clause says it.
pub fn drive_parts<T: PartTask, S: Source, K: Sink>(
    alloc: Global,
    task: &mut T,
    source: &mut S,
    sink: &mut K,
) -> Status
    requires none_due { T.parts task.old ≡ 0 }
    requires fresh { (settles : Settling) → T.Stands task.old [] settles → T.Began task.old → WritesOfNothing settles }
    ensures ran { (settles : Settling) → T.Stands task.old [] settles → IsQuiet settles → Ran (within most_input settles) result
        (source_tells S.left S.faults S.failing source.old) (source_tells S.left S.faults S.failing source.new)
        (sink_tells K.held K.faults K.failing sink.old) (sink_tells K.held K.faults K.failing sink.new) }
    // Where the run ended with a limit, the task has the one on lines that the input passes; where it
    // passes none, it is too long.
    ensures passed { (limits : Limiting) → IsWithin (T.Awaits task.old []) (T.passed task.old) limits → result ≡ Status.Limit
        → IfSome (S.left source.old) (λ input. limits_within most_input limits input ≡ T.passed task.new) }
{
    drive_by::<Parts, T, S, K>(alloc, task, source, sink)
}

/// The tasks that hand on their text in parts.
struct Parts;

impl<T: PartTask> Hands<T> for Parts {
    ghost Stands = { λ t. T.Stands t [] };

    ghost Began = { λ t. T.Began t };

    ghost Ready = { λ t. T.parts t ≡ 0 };

    ghost Awaits = { λ t. T.Awaits t [] };

    ghost passed = { T.passed };

    fn hand<K: Sink>(
        task: &mut T,
        piece: &[u8],
        text: &mut String,
        sink: &mut K,
    ) -> Option<Status> {
        hand_on(task, piece, text, sink)
    }

    fn close<K: Sink>(task: &mut T, text: &mut String, sink: &mut K) -> Status {
        text.clear();
        let Ok(turned) = task.last(text) else {
            return Status::Memory;
        };
        match turned {
            Turned::Ends(status) => write_last(text, status, sink),
            Turned::Owes => match tell_all(task, text, sink) {
                Some(status) => status,
                None => end_whole(task, text, sink),
            },
            Turned::Passes => match write_all(sink, text.as_bytes()) {
                Ok(()) => end_whole(task, text, sink),
                Err(Failed) => Status::WriteFault,
            },
        }
    }
}

/// Writes what the end of the input settles, where nothing is kept that is told in parts.
fn end_whole<T: PartTask, K: Sink>(task: &mut T, text: &mut String, sink: &mut K) -> Status
    requires { T.parts task.old ≡ 0 }
    ensures ended { (settles : Settling) → T.Stands task.old [] settles → HandedEnd (T.Began task.old) settles
        (sink_tells K.held K.faults K.failing sink.old) (sink_tells K.held K.faults K.failing sink.new) result }
    ensures within { (limits : Limiting) → T.Awaits task.old [] limits → result ≡ Status.Limit
        → limits at_end [] ≡ T.passed task.new }
{
    text.clear();
    match task.end(text) {
        Ok(status) => write_last(text, status, sink),
        Err(AllocError) => Status::Memory,
    }
}

/// Writes all that the octets of a piece settle: how the run ends, where they settle that too or
/// something failed.
fn hand_on<T: PartTask, K: Sink>(
    task: &mut T,
    piece: &[u8],
    text: &mut String,
    sink: &mut K,
) -> Option<Status>
    requires { T.parts task.old ≡ 0 }
    ensures none_due { result ≡ None → T.parts task.new ≡ 0 }
    ensures handed { (settles : Settling) → T.Stands task.old [] settles → IsQuiet settles
        → Handed (T.Stands task.new []) settles piece.now
        (sink_tells K.held K.faults K.failing sink.old) (sink_tells K.held K.faults K.failing sink.new) result }
    ensures within { (limits : Limiting) → IsWithin (T.Awaits task.old []) (T.passed task.old) limits
        → HandedWithin (T.Awaits task.new []) (T.passed task.new) limits piece.now result }
{
    let mut left = piece;
    'pieces: while !left.is_empty() {
        text.clear();
        let Ok(taken) = task.take(left, text) else {
            return Some(Status::Memory);
        };
        let Ok(()) = write_all(sink, text.as_bytes()) else {
            return Some(Status::WriteFault);
        };
        match taken {
            Taken::All => return None,
            Taken::Ends(status) => return Some(status),
            Taken::Due(used) => match tell_all(task, text, sink) {
                Some(status) => return Some(status),
                None => left = &left[used..],
            },
        }
    }
    None
}

/// Writes all parts of the text that is due: how the run ends, where something failed.
fn tell_all<T: PartTask, K: Sink>(task: &mut T, text: &mut String, sink: &mut K) -> Option<Status>
    requires { 0 < T.parts task.old }
    ensures none_due { result ≡ None → T.parts task.new ≡ 0 }
    ensures told { (due : List ℕ) (settles : Settling) → T.Stands task.old due settles
        → Told (T.Stands task.new [] settles) due
        (sink_tells K.held K.faults K.failing sink.old) (sink_tells K.held K.faults K.failing sink.new) result }
    ensures within { (due : List ℕ) (limits : Limiting) → T.Awaits task.old due limits
        → result ≡ None → T.Awaits task.new [] limits }
    ensures kept { T.passed task.new ≡ T.passed task.old }
    ensures fault { IfSome result IsFailure }
{
    let mut more = true;
    'telling: while more {
        text.clear();
        more = match task.tell(text) {
            Ok(more) => more,
            Err(AllocError) => return Some(Status::Memory),
        };
        let Ok(()) = write_all(sink, text.as_bytes()) else {
            return Some(Status::WriteFault);
        };
    }
    None
}
