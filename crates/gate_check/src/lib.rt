//! The command `gate check FILE`: it says what a gateway's configuration means, or why it is refused.
//!
//! [`check`] reads a file to its end, or one octet past the most that a configuration may have, and
//! writes what it means as a file that says all of it, with its defaults. So an operator sees what
//! the gateway would run with. A file that is refused writes nothing: the refusal is answered, for
//! standard error.
#![tactic(auto)]

mod checking;

pub use checking::{Checked, check};
