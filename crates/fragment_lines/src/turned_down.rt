//! Why a bundle is turned down.

ghost use Rattle.std.specs.Prelude.{◌≡◌};
ghost use Rattle.fragment_lines.specs.Lines.{turned_down_word};

use fragments::CutRefused;
use thiserror::Error;
use translate::Refused;

/// Why a valid bundle is turned down by `cut` or `join`.
#[derive(Clone, Copy, Debug, PartialEq, Eq, Error)]
pub enum TurnedDown {
    /// It doesn't read as a record; or, in `join`, the whole that it completes has too many blocks.
    #[error("{0}")]
    Untranslated(Refused),
    /// It would have to be cut, and must not be.
    #[error("MustNot")]
    MustNot,
}

impl TurnedDown {
    /// The cause's name.
    pub fn word(&self) -> &'static str
        ensures { result.now ≡ turned_down_word self.now }
    {
        match self {
            TurnedDown::Untranslated(cause) => cause.word(),
            TurnedDown::MustNot => CutRefused::MustNot.word(),
        }
    }
}
