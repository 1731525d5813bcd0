//! The outside as the gateway sees it: where octets come from, where they go, two datagram
//! links and a clock.
//!
//! Each of `Source`, `Sink` and `Link` counts its faults: a call that fails raises the count by
//! one, and no other call changes it. So a caller's contract can say "this run ended because a
//! read failed" of every outside, also of one whose octets no contract can see. What an outside
//! holds is told where it can be told: the versions in memory tell it as long as they have room,
//! and `Reading` tells what std's reader below it tells. `Writing` tells nothing as a sink, and
//! says of each write what it adds to std's writer below it. `UdpLink` and `SystemClock` are over
//! UDP sockets and the clock of the system, and tell nothing.
//!
//! Beside the traits stands what every command shares: `read_once`, `read_all`, `write_all`, the
//! `Status` that a run ends with, what octets settle of an answer (`specs/Settled.antt`), and how a
//! run went (`specs/Outcome.antt`).
#![tactic(auto)]

mod answer;
mod clock;
mod failing;
mod gone;
mod input;
mod kept;
mod link;
mod output;
mod sink;
mod source;
mod status;
mod system_clock;
mod udp;

pub use answer::Answer;
pub use clock::{Clock, MemClock};
pub use failing::Failed;
pub use input::{MOST_INPUT, ReadRefused, read_all, read_once};
pub use link::{LONGEST_DATAGRAM, Link, MemLink};
pub use output::{write_all, write_answer};
pub use sink::{MemSink, Sink, SureSink, Writing};
pub use source::{MOST_AGAIN, MemSource, Reading, Source, SureSource};
pub use status::Status;
pub use system_clock::SystemClock;
pub use udp::{Pause, UdpLink};
