//! Why an entry isn't accepted.

ghost use Rattle.std.specs.Prelude.{◌≡◌};
ghost use Rattle.ltp_audit.specs.Words.{rule_word};

use ltp_segment::SegmentCause;
use thiserror::Error;

/// The rules of an exchange (RFC 5326), in the order in which an entry is tested.
#[derive(Clone, Copy, Debug, PartialEq, Eq, Error)]
pub enum Rule {
    /// The session is of neither engine, or the other engine sends such a segment in it.
    #[error("Side")]
    Side,
    /// A report claims an octet that no earlier red piece holds.
    #[error("ClaimUnseen")]
    ClaimUnseen,
    /// A report answers a checkpoint that no earlier piece is.
    #[error("CheckpointUnseen")]
    CheckpointUnseen,
    /// A report is acknowledged that no earlier segment is.
    #[error("AckUnseen")]
    AckUnseen,
    /// A red piece has another octet than an earlier one has for the same place.
    #[error("OctetsDiffer")]
    OctetsDiffer,
    /// A cancel is acknowledged that no earlier segment is.
    #[error("CancelUnseen")]
    CancelUnseen,
}

impl Rule {
    /// The rule's name.
    pub fn word(&self) -> &'static str
        ensures { result.now ≡ rule_word self.now }
    {
        match self {
            Rule::Side => "Side",
            Rule::ClaimUnseen => "ClaimUnseen",
            Rule::CheckpointUnseen => "CheckpointUnseen",
            Rule::AckUnseen => "AckUnseen",
            Rule::OctetsDiffer => "OctetsDiffer",
            Rule::CancelUnseen => "CancelUnseen",
        }
    }
}

/// Why an entry isn't accepted.
#[derive(Clone, Copy, Debug, PartialEq, Eq, Error)]
pub enum AuditFault {
    /// The datagram isn't a segment.
    #[error("Form")]
    Form {
        /// The place of the first field that isn't as it should be.
        at: usize,
        /// Why it isn't.
        cause: SegmentCause,
    },
    /// The segment breaks a rule.
    #[error("Broken")]
    Broken {
        /// The first rule that it breaks.
        rule: Rule,
    },
    /// Memory is wanted.
    #[error("Memory")]
    Memory,
}
