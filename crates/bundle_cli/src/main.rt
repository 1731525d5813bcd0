//! The program `fimdahol`: it hands the words of its call, standard input and standard output to
//! `gateway_run::run_told`, and ends with the status that it answers. Where its output doesn't say
//! why it ended so, a line on standard error does (`console`).
//!
//! `gate FILE` it answers by `gate_run::gate`, over the sockets that the file names, and `gate check FILE` by
//! `gate_check::check`.
//! It writes nothing where an argument isn't UTF-8 (status 2) or where memory runs out before
//! the call (status 7).
#![tactic(auto)]

mod gate;
mod journal;
mod serving;
mod sockets;

use console::{run_alone, words_of};
use gate::{check_file, run_file};
use serving::serve;
use std::process::ExitCode;

fn main(rt: HostRuntime) -> ExitCode {
    let words = match words_of(&rt) {
        Ok(words) => words,
        Err(status) => return ExitCode::from(status.code()),
    };
    match words.as_slice() {
        // These read the file that they name, and not standard input.
        [gate, check, file]
            if gate.octets() == b"gate".as_slice() && check.octets() == b"check".as_slice() => {
            check_file(&rt, &words, file.text())
        }
        [gate, file] if gate.octets() == b"gate".as_slice() => run_file(&rt, &words, file.text()),
        // Its addresses are looked at first, whatever its other words are.
        [word, _, old_bind, old_peer, new_bind, new_peer, _]
            if word.octets() == b"serve".as_slice() => {
            serve(&rt, &words, [old_bind, old_peer, new_bind, new_peer])
        }
        words => run_alone(&rt, words),
    }
}
