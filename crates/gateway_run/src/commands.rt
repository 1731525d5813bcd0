//! The commands, and the words that name them.

pub mod command;
pub mod decoding;
pub mod gate_name;
pub mod lines;
pub mod passed;
pub mod run;
pub mod serve;
pub mod word;
