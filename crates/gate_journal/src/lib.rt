//! A journal on a store: what was acknowledged isn't lost, at whatever moment a crash comes.
//!
//! [`recover`] reads what is kept. [`Journal::install`] makes the file anew of it, beside the old
//! one, and puts it in that one's place. [`Journal::commit`] writes records behind the closed gate, syncs,
//! opens the gate, and syncs: a crash leaves all of them or none. After a call that failed the journal is
//! not to be used; what a crash may have left is read again.
#![tactic(auto)]

mod fault;
mod journal;
mod recovery;
mod steps;

pub use fault::RecoverFault;
pub use journal::Journal;
pub use recovery::recover;
