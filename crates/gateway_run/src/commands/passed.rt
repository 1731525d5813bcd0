//! How a run ended, and which limit it passed.
ghost use Rattle.std.specs.Prelude.{◌≡◌};
ghost use Rattle.gateway_run.specs.Passed.{named_by, passed_on_lines};

use command_frame::LinePassed;
use edge_traits::Status;

/// The limit that a run passed, and where.
#[derive(Clone, Copy, Debug, PartialEq, Eq, Drop)]
pub enum Passed {
    /// The input has more than 67,108,864 octets.
    Size,
    /// It has more than 1,000,000 lines.
    Lines,
    /// This line has more than 9,000,000 octets.
    LineLength { line: u64 },
    /// This line passes a limit of the command's own.
    Own { line: u64 },
    /// The script that the command makes passes a limit of its own.
    Script,
}

/// How a run ended, and which limit it passed.
#[derive(Clone, Copy, Debug, PartialEq, Eq, Drop)]
pub struct Ended {
    /// How it ended.
    pub status: Status,
    /// The limit, where that is how.
    pub passed: Option<Passed>,
}

/// The run ended so, where it passed this limit if it passed one.
pub fn ended_with(status: Status, limit: Passed) -> Ended
    ensures status { result.status ≡ status }
    ensures passed { result.passed ≡ named_by status limit }
{
    let passed = match status {
        Status::Limit => Some(limit),
        _ => None,
    };
    Ended { status, passed }
}

/// The limit that a run over lines passed, by what its lines passed. One that passed none on lines
/// and ended with a limit passed the one on the size.
pub fn passed_on_lines(passed: Option<LinePassed>) -> Passed
    ensures { result ≡ passed_on_lines passed }
{
    match passed {
        None => Passed::Size,
        Some(LinePassed::Lines) => Passed::Lines,
        Some(LinePassed::Length { line }) => Passed::LineLength { line },
        Some(LinePassed::Own { line }) => Passed::Own { line },
    }
}
