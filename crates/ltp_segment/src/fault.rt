//! Why a datagram is refused.

ghost use Rattle.std.specs.Prelude.{◌≡◌};
ghost use Rattle.ltp_segment.specs.Cause.{word_of};
ghost use Rattle.ltp_segment.specs.Ties.{missed};

use thiserror::Error;
use wire_fields::Miss;

/// Why a datagram isn't a segment, in the order of the fields and of their conditions.
#[derive(Clone, Copy, Debug, PartialEq, Eq, Error)]
pub enum SegmentCause {
    /// The version isn't 0.
    #[error("Version")]
    Version,
    /// The segment type is 5, 6, 10 or 11, which are not in use.
    #[error("Kind")]
    Kind,
    /// No number below 2^64 is spelled within ten octets.
    #[error("Number")]
    Number,
    /// A piece ends at 2^64 or beyond.
    #[error("Range")]
    Range,
    /// The serial number of a checkpoint or of a report is 0.
    #[error("Serial")]
    Serial,
    /// A report's lower bound isn't below its upper bound.
    #[error("Bounds")]
    Bounds,
    /// A claim is empty, begins before the end of the one before it, or ends beyond the report's
    /// bounds.
    #[error("Claim")]
    Claim,
    /// Octets follow the segment.
    #[error("Trailing")]
    Trailing,
    /// The datagram ends inside a field.
    #[error("Truncated")]
    Truncated,
}

impl SegmentCause {
    /// The refusal of a field that begins at this place.
    pub(crate) fn at(self, at: usize) -> SegmentFault
        ensures at { result.at ≡ at }
        ensures cause { result.cause ≡ self }
    {
        SegmentFault { at, cause: self }
    }

    /// The refusal of a field that isn't there: `Truncated` where the datagram ends inside it.
    pub(crate) fn missed(self, at: usize, miss: Miss) -> SegmentFault
        ensures at { result.at ≡ at }
        ensures cause { result.cause ≡ missed self miss }
    {
        match miss {
            Miss::Truncated => SegmentCause::Truncated.at(at),
            Miss::Absent => self.at(at),
        }
    }

    /// The cause's name.
    pub fn word(&self) -> &'static str
        ensures { result.now ≡ word_of self.now }
    {
        match self {
            SegmentCause::Version => "Version",
            SegmentCause::Kind => "Kind",
            SegmentCause::Number => "Number",
            SegmentCause::Range => "Range",
            SegmentCause::Serial => "Serial",
            SegmentCause::Bounds => "Bounds",
            SegmentCause::Claim => "Claim",
            SegmentCause::Trailing => "Trailing",
            SegmentCause::Truncated => "Truncated",
        }
    }
}

/// A refusal: the octets before a place spell the earlier fields with their conditions, and the
/// field that begins there isn't as it should be.
#[derive(Clone, Copy, Debug, PartialEq, Eq)]
pub struct SegmentFault {
    /// How many octets stand before the field.
    pub at: usize,
    /// What is wrong with the field.
    pub cause: SegmentCause,
}
