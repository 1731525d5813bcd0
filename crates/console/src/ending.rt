//! How the program ends, and what it says of that on standard error.
ghost use Rattle.std.specs.Prelude.{◌≡◌};
ghost use Rattle.std.specs.Process.{exit_status};
ghost use Rattle.edge_traits.specs.Outcome.{code_of};

use crate::advising::slip_of;
use crate::hint::Hint;
use crate::limit::limit_line;
use crate::why::{reason, text_of};
use edge_traits::Status;
use gateway_run::{Ended, Passed, Word};
use std::io;
use std::process::ExitCode;

/// Ends as a run did, and says why where its output doesn't.
pub fn end<R: Eprint + AllocGlobal>(
    rt: &R,
    words: &[Word],
    ended: Ended,
    reader_gone: bool,
    hint: Option<Hint>,
) -> ExitCode
    ensures { exit_status result ≡ code_of ended.status }
{
    match ended.passed {
        Some(passed) => say_limit(rt, words, passed),
        None => say_reason(rt, words, ended.status, reader_gone),
    }
    if let Some(hint) = hint {
        let _ = rt.eprint(hint.line());
    }
    ExitCode::from(ended.status.code())
}

/// Says which limit was passed. Where there is no memory for that line, one is said that doesn't
/// name it.
fn say_limit<R: Eprint + AllocGlobal>(rt: &R, words: &[Word], passed: Passed) {
    let passes = match text_of(words) {
        Some(command) => command.passes,
        None => "passes a limit",
    };
    match limit_line(rt.alloc(), passes, passed) {
        Ok(line) => {
            let _ = rt.eprint(line);
        }
        Err(_) => say_reason(rt, words, Status::Limit, false),
    }
}

/// Says why a run ended so, where its output doesn't.
fn say_reason<R: Eprint>(rt: &R, words: &[Word], status: Status, reader_gone: bool) {
    let Some(line) = reason(words, status, reader_gone) else {
        return;
    };
    let _ = match slip_of(words) {
        Some((slip, word)) if status == Status::Usage => {
            let (name, wanted) = (slip.name(), slip.wanted());
            eprintln!(rt; "fimdahol: serve: {name} is '{word}', and {wanted}")
        }
        _ => eprintln!(rt; "fimdahol: {line}"),
    };
}

/// Ends a call that printed a text of the program's own.
pub fn end_of_print(printed: io::Result<()>) -> ExitCode {
    match printed {
        Ok(()) => ExitCode::from(Status::Done.code()),
        Err(_) => ExitCode::from(Status::WriteFault.code()),
    }
}
