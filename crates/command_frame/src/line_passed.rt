//! The limits on lines.

/// Which limit on lines ended a run.
#[derive(Clone, Copy, Debug, PartialEq, Eq, Drop)]
pub enum LinePassed {
    /// There are more lines than may be.
    Lines,
    /// This line is longer than one may be.
    Length { line: u64 },
    /// This line passes a limit of the command itself.
    Own { line: u64 },
}
