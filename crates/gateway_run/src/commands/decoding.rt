//! The commands that decode what they read: datagrams or bundles.
ghost use Rattle.std.specs.Prelude.{◌≡◌, None};
ghost use Rattle.edge_traits.specs.Outcome.{Ran, source_tells, sink_tells};
ghost use Rattle.gateway_run.specs.Commands.{command_of, decodes, decoding_limits};
ghost use Rattle.gateway_run.specs.Passed.{NamesOnLines};
ghost use Rattle.gateway_run.specs.Runs.{DecodedNamed, decoding_named};

use crate::commands::command::command_named;
use crate::commands::lines::run_lines;
use crate::commands::passed::{Ended, Passed, ended_with};
use crate::commands::word::Word;
use bundle_runs::bundles;
use edge_traits::{Sink, Source};
use receive_run::{KeepReceiving, Receive};
use std::alloc::Global;

/// A command that decodes what it reads, and no more: it runs no engine, and has neither links nor a clock.
#[derive(Clone, Copy, Debug, PartialEq, Eq, Drop)]
pub enum Decoding {
    /// `receive`: hands up the red parts of recorded datagrams.
    Receive,
    /// `receive --keep-going`: the same, and goes on after a line that it refuses.
    KeepReceiving,
    /// `check`, `show`, `convert`, `cut SIZE` and `join`: what is said of recorded bundles.
    Bundles(bundle_runs::Command),
}

/// Runs a command that decodes.
pub fn decode<S: Source, K: Sink>(
    alloc: Global,
    decoding: Decoding,
    source: &mut S,
    sink: &mut K,
) -> Ended
    ensures ran { Ran (decodes decoding) result.status
        (source_tells S.left S.faults S.failing source.old) (source_tells S.left S.faults S.failing source.new)
        (sink_tells K.held K.faults K.failing sink.old) (sink_tells K.held K.faults K.failing sink.new) }
    ensures names { NamesOnLines (decoding_limits decoding) (S.left source.old) result.status result.passed }
{
    match decoding {
        Decoding::Receive => run_lines(alloc, Receive::new(alloc), source, sink),
        Decoding::KeepReceiving => run_lines(alloc, KeepReceiving::new(alloc), source, sink),
        Decoding::Bundles(command) => {
            ended_with(bundles(alloc, command, source, sink), Passed::Size)
        }
    }
}

/// Answers the command that the words name, from the source to the sink, where it is one that decodes: as
/// `run_told` does, for a program without links and a clock. Nothing comes back where the words name another
/// command, or none; then nothing is read, and nothing is written.
pub fn run_decoding<S: Source, K: Sink>(
    alloc: Global,
    words: &[Word],
    source: &mut S,
    sink: &mut K,
) -> Option<Ended>
    // What is written, how the run ends, and which limit it passed.
    ensures ran { DecodedNamed (decoding_named (command_of words.now)) result
        (source_tells S.left S.faults S.failing source.old) (source_tells S.left S.faults S.failing source.new)
        (sink_tells K.held K.faults K.failing sink.old) (sink_tells K.held K.faults K.failing sink.new) }
    ensures unmoved { result ≡ None → (source.new ≡ source.old) × (sink.new ≡ sink.old) }
{
    let command = command_named(words)?;
    let decoding = command.decoding()?;
    Some(decode(alloc, decoding, source, sink))
}
