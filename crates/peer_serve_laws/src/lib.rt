//! What the gateway among other implementations has in common with that of `serve`.
//!
//! The sessions of a face are those of an engine that remembers each number that it closed, as long as no
//! bound is met: no session is closed since nothing touched it or for want of memory, and no number is
//! forgotten (`specs/Sessions`). A gateway with the settings of `serve`, to which blocks of one bundle or none
//! come, decides about each as `serve` does, and sends each piece at once (`specs/Steps`). So a run with one
//! clock and no journal, whose links are always open, sends at each face what `serve` sends over the same
//! readings and datagrams (`specs/Serves`). Each definition names the bounds that aren't met. There is no code
//! here.
#![tactic(auto)]

pub mod laws;
