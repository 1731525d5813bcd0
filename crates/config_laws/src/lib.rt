//! Laws about configuration files, as `gate_config` defines what they mean: what is shown of a file
//! is read again as what was shown.
//!
//! There is no code here. The proofs stand on the laws of TOML's own reader and writer. They go from
//! the lines that are shown to the expressions that they are read as, to the tables that these make,
//! and to the values of those, of which nothing is refused; and back from any text that means a file
//! to what holds of its values.
#![tactic(auto)]

pub mod laws;
