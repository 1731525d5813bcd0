//! The command `make`: a script that numbers are drawn for is played on a whole path, and its
//! transcript is counted and summed in place of being written.
//!
//! A generator draws the numbers (`specs/Draws.antt`). Bundles are sent from both ends in turn, each
//! with eight events after it: a datagram of the last ones comes, or time passes
//! (`specs/Script.antt`). Then the path is drained. The transcript is that of `world_run`, whose words
//! say what each event writes; here each event's lines are summed and then forgotten
//! (`specs/Making.antt`). So one line says of a long run whether it went as another one did.
//!
//! [`make`] reads nothing. It keeps the path, the lines of one event, and, of a drain, what its
//! events did until that is summed.
#![tactic(auto)]

mod bundles;
mod draws;
mod making;
mod run;
mod script;
mod stop;
mod summing;

pub use run::make;
