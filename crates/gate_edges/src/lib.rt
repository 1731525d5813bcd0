//! The outsides of the gateway that an operator runs, beside the links and the sink of `edge_traits`:
//! two clocks that are read together, a board on which its metrics are put, and a journal.
//!
//! [`Clocks`] are a wall clock, which may be set, and a monotonic one. A [`Board`] shows one text at a
//! time. An [`Outside`] is all that the gateway sees and does outside; what is to be kept over a stop it
//! takes by two calls. The versions in memory tell what they show and what they were shown; those of the
//! system tell nothing, and of what a file or a clock does no clause speaks.
#![tactic(auto)]

mod board;
mod clocks;
mod failing;
mod lengths;
mod mem_acts;
mod mem_face;
mod mem_outside;
mod mem_records;
mod outside;

pub use board::{Board, FileBoard, MemBoard};
pub use clocks::{Clocks, MemClocks, SystemClocks};
pub use lengths::{entries_length, gate_of};
pub use mem_acts::MemAct;
pub use mem_face::MemFace;
pub use mem_outside::MemOutside;
pub use mem_records::MemRecord;
pub use outside::Outside;
