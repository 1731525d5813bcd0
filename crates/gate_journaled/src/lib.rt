//! An outside of the gateway whose journal is on a store.
//!
//! [`Journaled`] is made of an outside and of a journal: what is committed goes to the journal's store
//! first, and then the outside keeps it among what it made. So what was made and what a disk may leave are
//! told of one thing: at each moment between two calls, the one at which a datagram is sent too, each file
//! that a crash may leave says what is kept by what was made (`specs/Says.antt`). With a store whose writes
//! are torn, a whole run can be stopped at any moment and be recovered.
#![tactic(auto)]

mod journaled;
mod keeping;

pub use journaled::Journaled;
