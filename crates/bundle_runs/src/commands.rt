//! The commands, over a source and a sink.

pub mod bundles;
pub mod command;
