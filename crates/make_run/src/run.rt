//! The command.

ghost use Rattle.std.specs.Prelude.{◌≡◌, ◌≢◌, ◌<◌, ◌^◌};
ghost use Rattle.edge_traits.specs.Outcome.{sink_tells};
ghost use Rattle.make_run.specs.Making.{answer_of};
ghost use Rattle.make_run.specs.Runs.{RanMade};
ghost use Rattle.make_run.specs.Ties.{MadeAs, with_line};
ghost use Rattle.make_run.specs.Wanted.{RunsOut};

use crate::making::Making;
use crate::script::play;
use crate::stop::Stop;
use edge_traits::{Failed, Sink, Status, write_all};
use std::alloc::Global;

/// Plays the script of so many sends that numbers are drawn for from the seed on, and writes one line:
/// how many datagrams were sent, how many blocks came whole at the ends, how many events the drain had,
/// and the sum of the transcript. Nothing is written where the path passes a limit of `world`.
pub fn make<K: Sink>(alloc: Global, seed: u64, count: u64, sink: &mut K) -> Status
    requires { count < 2 ^ 32 }
    ensures ran { RanMade (answer_of seed count) result
        (sink_tells K.held K.faults K.failing sink.old) (sink_tells K.held K.faults K.failing sink.new) }
    // Want of memory is answered only where it may come.
    ensures memory { result ≡ Status.Memory → RunsOut seed count }
{
    match made_line(alloc, seed, count) {
        Ok(line) => write_made(sink, line.as_bytes()),
        Err(Stop::Limit) => Status::Limit,
        Err(Stop::Memory) => Status::Memory,
    }
}

/// Writes the line.
fn write_made<K: Sink>(sink: &mut K, line: &[u8]) -> Status
    ensures ran { RanMade (with_line line.now) result
        (sink_tells K.held K.faults K.failing sink.old) (sink_tells K.held K.faults K.failing sink.new) }
    ensures memory { result ≢ Status.Memory }
{
    match write_all(sink, line) {
        Ok(()) => Status::Done,
        Err(Failed) => Status::WriteFault,
    }
}

/// The line.
fn made_line(alloc: Global, seed: u64, count: u64) -> Result<String, Stop>
    requires { count < 2 ^ 32 }
    ensures { MadeAs seed count result }
{
    let mut making = Making::new(alloc);
    play(alloc, &mut making, seed, count)?;
    let events = making.drain()?;
    let mut line = String::new(alloc);
    making.write_line(count, events, &mut line)?;
    Ok(line)
}
