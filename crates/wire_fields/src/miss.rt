//! Why a field isn't there.

ghost use Rattle.std.specs.Prelude.{◌≡◌};
ghost use Rattle.wire_fields.specs.Word.{word_of};

use thiserror::Error;

/// Why a field isn't there as it should be. A decoder answers `Truncated`, or its own cause.
#[derive(Clone, Copy, Debug, PartialEq, Eq, Error)]
pub enum Miss {
    /// The input ends inside the field.
    #[error("Truncated")]
    Truncated,
    /// The octets spell no value of the field's kind, however they go on.
    #[error("Absent")]
    Absent,
}

impl Miss {
    /// The variant's name.
    pub fn word(&self) -> &'static str
        ensures { result.now ≡ word_of self.now }
    {
        match self {
            Miss::Truncated => "Truncated",
            Miss::Absent => "Absent",
        }
    }
}
