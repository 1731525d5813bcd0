//! What the program says around a run to whoever called it: its help, why a run ended where the output
//! doesn't say, and what an input looks like that was refused.
//!
//! [`run_over`] runs the command that the words of a call name, over standard input and standard output:
//! it makes the call `gateway_run::run_told` and ends as that ends. Two words it answers itself, where
//! each is the only one: `--help` (or `-h`) and `--version`. [`run_alone`] is that without links.
#![tactic(auto)]

mod advising;
mod ending;
mod given;
mod help;
mod hint;
mod hinting;
mod limit;
mod looks;
mod reads;
mod refusal;
mod remembering;
mod running;
mod slip;
mod table;
mod unused;
mod why;
mod words;

pub use advising::slip_of;
pub use ending::end;
pub use hint::Hint;
pub use running::{run_alone, run_decoder, run_over};
pub use slip::Slip;
pub use words::words_of;
