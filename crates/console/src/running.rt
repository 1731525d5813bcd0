//! A command over the standard streams.

use crate::advising::{are_lines, hint_of_run, reads_of};
use crate::ending::{end, end_of_print};
use crate::help::{VERSION, print_help};
use crate::remembering::{Ending, Remembering};
use crate::unused::Unused;
use edge_traits::{Clock, Link, Reading, Status, Writing};
use gateway_run::{Ended, Word, run_decoding, run_told};
use std::io;
use std::process::ExitCode;

/// Runs the command that these words name over standard input and standard output, with these links and
/// this clock, which `serve` alone uses, and ends as it ended. Why it ended so, where its output doesn't
/// say, is a line on standard error.
pub fn run_over<L: Link, C: Clock>(
    rt: &HostRuntime,
    words: &[Word],
    old: &mut L,
    new: &mut L,
    clock: &mut C,
) -> ExitCode {
    match words {
        [word] if word.octets() == b"--help".as_slice() || word.octets() == b"-h".as_slice() => {
            end_of_print(print_help(rt))
        }
        [word] if word.octets() == b"--version".as_slice() => end_of_print(rt.print(VERSION)),
        _ => run_named(rt, words, old, new, clock),
    }
}

/// The same for words without links: no command but `serve` has any.
pub fn run_alone(rt: &HostRuntime, words: &[Word]) -> ExitCode {
    let (mut old, mut new, mut clock) = (Unused, Unused, Unused);
    run_over(rt, words, &mut old, &mut new, &mut clock)
}

/// The same of a command that decodes what it reads, and does no more. Of other words it says that they name
/// none.
pub fn run_decoder(rt: &HostRuntime, words: &[Word]) -> ExitCode {
    let reads = reads_of(words);
    let mut source = Remembering::new(Reading::new(rt.reader()), are_lines(reads));
    let mut sink = Ending::new(Writing::new(io::writer(rt)));
    let ended = match run_decoding(rt.alloc(), words, &mut source, &mut sink) {
        Some(ended) => ended,
        None => Ended {
            status: Status::Usage,
            passed: None,
        },
    };
    let hint = hint_of_run(reads, ended.status, source.given(), sink.tail());
    end(rt, words, ended, sink.sink().is_reader_gone(), hint)
}

/// Runs a command, or says that the words name none.
fn run_named<L: Link, C: Clock>(
    rt: &HostRuntime,
    words: &[Word],
    old: &mut L,
    new: &mut L,
    clock: &mut C,
) -> ExitCode {
    let reads = reads_of(words);
    let mut source = Remembering::new(Reading::new(rt.reader()), are_lines(reads));
    let mut sink = Ending::new(Writing::new(io::writer(rt)));
    let ended = run_told(rt.alloc(), words, &mut source, &mut sink, old, new, clock);
    let hint = hint_of_run(reads, ended.status, source.given(), sink.tail());
    end(rt, words, ended, sink.sink().is_reader_gone(), hint)
}
