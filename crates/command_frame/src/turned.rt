//! What octets bring about that are answered at once or part by part.

use edge_traits::Status;

/// What came of a line, or of the last octets of an input.
#[derive(Clone, Copy, Debug, PartialEq, Eq, Drop)]
pub enum Turned {
    /// Their text was added, and no text is due.
    Passes,
    /// None of their text was added: all of it is due.
    Owes,
    /// Their text was added, and the run ends with them: with `Refused` or `Limit`.
    Ends(Status),
}
