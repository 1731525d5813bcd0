//! The program `fimdahol` without sockets: all commands but `serve` and `gate`, which need them. It is what
//! the script `fimdahol` compiles for a run that isn't proved: without the gateway's crates that takes half
//! the time.
#![tactic(auto)]

use console::{run_alone, words_of};
use std::process::ExitCode;

/// The status of a call with words that aren't for this program.
const USAGE: u8 = 2;

fn main(rt: HostRuntime) -> ExitCode {
    let words = match words_of(&rt) {
        Ok(words) => words,
        Err(status) => return ExitCode::from(status.code()),
    };
    match words.as_slice() {
        [word, ..] if word.octets() == b"serve".as_slice() || word.octets() == b"gate".as_slice() =>
            {
                let _ = rt.eprint(
                    "fimdahol: this program has no sockets; './fimdahol --build' makes one that has\n",
                );
                ExitCode::from(USAGE)
            }
        words => run_alone(&rt, words),
    }
}
