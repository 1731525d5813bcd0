//! The parts of a half of a run among other implementations, one by one: what a run of the gateway asks of
//! the gateway at work.
//!
//! [`HalfParts`] has a method for each part of `peer_half`'s definition, and its contract says that how
//! the run stands goes on as that part says. A half reads the clocks, adds pieces of earlier runs, ticks, takes
//! what came, sends at the old face and then at the new one, tells what went wrong, and writes the lines and
//! the metrics. Who drives it does what is outside: it polls and sends, and writes.
#![tactic(auto)]

mod parts;

pub use parts::HalfParts;
