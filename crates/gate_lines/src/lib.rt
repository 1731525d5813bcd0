//! The lines of the gateway's notes: what became of a block that came at a face, or what the face's
//! engine notes, as the words of a transcript's line.
#![tactic(auto)]

mod notes;

pub use notes::push_gate_note;
