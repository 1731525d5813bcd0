//! The program `fimdahol` with the commands that decode what they read, and no others. The script `fimdahol`
//! compiles it for a run of one of these that isn't proved: without engines, a gateway and replays that takes
//! half the time.
#![tactic(auto)]

use console::{run_decoder, words_of};
use std::process::ExitCode;

fn main(rt: HostRuntime) -> ExitCode {
    match words_of(&rt) {
        Ok(words) => run_decoder(&rt, words.as_slice()),
        Err(status) => ExitCode::from(status.code()),
    }
}
