//! The program's one call.
ghost use Rattle.std.specs.Prelude.{◌≡◌, ◌↔◌, None};
ghost use Rattle.gateway_run.specs.Commands.{command_of};
ghost use Rattle.gateway_run.specs.Edge.{edge_of};
ghost use Rattle.gateway_run.specs.Runs.{RanNamed, Completes, KeepsLaw, NamesPassed};

use crate::commands::command::{command_named, run_command};
use crate::commands::passed::{Ended, Passed, ended_with};
use crate::commands::word::Word;
use edge_traits::{Clock, Link, Sink, Source, Status};
use node_run::laws::answers_events;
use serve_run::laws::runs_keep_law;
use std::alloc::Global;
use world_run::laws::worlds_keep_headline;

/// Answers the command that the words name, from the source to the sink, and writes what the octets
/// read settle before it reads on. The links and the clock are for `serve`, which reads nothing.
pub fn run<S: Source, K: Sink, L: Link, C: Clock>(
    alloc: Global,
    words: &[Word],
    source: &mut S,
    sink: &mut K,
    old_link: &mut L,
    new_link: &mut L,
    clock: &mut C,
) -> Status
    // The four clauses of `run_told`.
    ensures usage { (result ≡ Status.Usage) ↔ (command_of words.now ≡ None) }
    ensures ran { RanNamed (command_of words.now) result
        (edge_of S.Source K.Sink L.Link C.Clock source.old sink.old old_link.old new_link.old clock.old)
        (edge_of S.Source K.Sink L.Link C.Clock source.new sink.new old_link.new new_link.new clock.new) }
    ensures complete { Completes (command_of words.now) result
        (edge_of S.Source K.Sink L.Link C.Clock source.old sink.old old_link.old new_link.old clock.old)
        (edge_of S.Source K.Sink L.Link C.Clock source.new sink.new old_link.new new_link.new clock.new) }
    ensures keeps_law { KeepsLaw (command_of words.now) result
        (edge_of S.Source K.Sink L.Link C.Clock source.old sink.old old_link.old new_link.old clock.old)
        (edge_of S.Source K.Sink L.Link C.Clock source.new sink.new old_link.new new_link.new clock.new) }
{
    run_told(alloc, words, source, sink, old_link, new_link, clock).status
}

/// The same, and which limit the run passed, where it passed one. It is the call that the program makes.
pub fn run_told<S: Source, K: Sink, L: Link, C: Clock>(
    alloc: Global,
    words: &[Word],
    source: &mut S,
    sink: &mut K,
    old_link: &mut L,
    new_link: &mut L,
    clock: &mut C,
) -> Ended
    // Words that name no command are answered as such, and no others.
    ensures usage { (result.status ≡ Status.Usage) ↔ (command_of words.now ≡ None) }

    // What is written, how the run ends, and how the calls of the outside went, by what the command
    // does. Only `serve` moves links and clock; it and `make` read nothing. Where words name no
    // command, nothing outside is moved.
    ensures ran { RanNamed (command_of words.now) result.status
        (edge_of S.Source K.Sink L.Link C.Clock source.old sink.old old_link.old new_link.old clock.old)
        (edge_of S.Source K.Sink L.Link C.Clock source.new sink.new old_link.new new_link.new clock.new) }

    // Where no count rose, the run ends as the input has it, or for want of memory.
    ensures complete { Completes (command_of words.now) result.status
        (edge_of S.Source K.Sink L.Link C.Clock source.old sink.old old_link.old new_link.old clock.old)
        (edge_of S.Source K.Sink L.Link C.Clock source.new sink.new old_link.new new_link.new clock.new) }

    // `receive` hands up exactly the red parts that become whole, and ends where a line is refused
    // or a limit is passed. `node` answers the events that its lines say, and its `up` lines are
    // exactly the red parts that become whole with these events. `record` writes a recording in which no datagram that went out
    // breaks a rule of an exchange (`record_run::laws`). `world` answers the events of its script,
    // and each of its `up` lines is a block that came whole, as it was sent, and once: at either
    // end a piece of what becomes of one bundle that the other end sent, or a report on one that it
    // sent itself. From a path that is hopeful and has room a last line `drain` completes the
    // sessions, in no more events than they cost. `serve` goes as the events have it that its calls
    // are: each reading of the clock, and each datagram that a poll gave. At each face of its gate
    // exactly the red parts are handed up that become whole with these events.
    ensures keeps_law { KeepsLaw (command_of words.now) result.status
        (edge_of S.Source K.Sink L.Link C.Clock source.old sink.old old_link.old new_link.old clock.old)
        (edge_of S.Source K.Sink L.Link C.Clock source.new sink.new old_link.new new_link.new clock.new) }

    // A limit is named if and only if the run ended with one. It is one of the command's, and where
    // the source tells its input, it is the one that this input passes.
    ensures named { NamesPassed (command_of words.now) (S.left source.old) result.status result.passed }
{
    answers_events();
    worlds_keep_headline();
    runs_keep_law();
    match command_named(words) {
        Some(command) => { run_command(alloc, &command, source, sink, old_link, new_link, clock) }
        None => ended_with(Status::Usage, Passed::Size),
    }
}
