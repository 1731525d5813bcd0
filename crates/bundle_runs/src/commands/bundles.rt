//! The crate's one call.
ghost use Rattle.edge_traits.specs.Outcome.{Ran, source_tells, sink_tells};
ghost use Rattle.bundle_runs.specs.Answering.{settles};

use crate::bundle_reader::BundleReader;
use crate::check_reader::CheckReader;
use crate::commands::command::Command;
use crate::show_reader::ShowReader;
use command_frame::{drive, drive_parts};
use edge_traits::{Sink, Source, Status};
use std::alloc::Global;

/// Reads the source, and writes to the sink what the command says of each bundle, before it reads on.
///
/// The run ends with `Refused` after the line of the first bundle that doesn't decode, or that the
/// command refuses. One that keeps going goes on after a bundle that it refuses, and then ends with
/// `Refused` after the last one. The run ends with
/// `Limit` after the last bundle within 67,108,864 octets where the source has more. A read or a
/// write that fails ends it with `ReadFault` or `WriteFault`, and want of memory with `Memory`.
pub fn bundles<S: Source, K: Sink>(
    alloc: Global,
    command: Command,
    source: &mut S,
    sink: &mut K,
) -> Status
    // What is written, how the run ends, and how its reads and writes went.
    ensures ran { Ran (settles command) result
        (source_tells S.left S.faults S.failing source.old) (source_tells S.left S.faults S.failing source.new)
        (sink_tells K.held K.faults K.failing sink.old) (sink_tells K.held K.faults K.failing sink.new) }
{
    match command {
        Command::Check => {
            let mut reader = CheckReader::new(alloc);
            drive(alloc, &mut reader, source, sink)
        }
        Command::Show => {
            let mut reader = ShowReader::new(alloc);
            drive_parts(alloc, &mut reader, source, sink)
        }
        _ => {
            let mut reader = BundleReader::new(alloc, command);
            drive_parts(alloc, &mut reader, source, sink)
        }
    }
}
