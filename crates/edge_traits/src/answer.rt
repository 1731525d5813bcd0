//! A command's answer.
use crate::status::Status;

/// The text that a command writes, and how its run ends.
#[derive(Drop)]
pub struct Answer {
    /// The lines.
    pub text: String,
    /// How the run ends once they are written: `Done`, `Refused` or `Limit`.
    pub status: Status,
}
