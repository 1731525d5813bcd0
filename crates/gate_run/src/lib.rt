//! The run of the gateway that an operator runs: `fimdahol gate FILE`.
//!
//! A run is made in turns, each a half of the old face and one of the new. A half reads the clocks,
//! adds pieces of earlier runs, lets time pass, polls its face's link, commits its records to the
//! journal, lets the old face send and then the new one, writes the lines in one piece, makes the
//! journal's file anew where it is large, and shows the metrics where they are due. [`gate`] makes
//! exactly the acts of `peer_half`'s definition over what the outside gives (`specs/Course.antt`), in
//! one order across all that is outside, or a front of them where it ends early (`specs/Outcome.antt`).
//! Where an outside tells nothing, it is still told how the run ended, that nothing was written after a
//! failed write, and that no call on the journal followed a failed one.
#![tactic(auto)]

mod driven;
pub mod laws;
mod run;
mod running;
mod sending;
mod status;
mod stop;
mod storing;
mod telling;

pub use run::gate;
pub use running::run_from;
pub use status::GateStatus;
