//! What the definitions promise. Each law is the contract of a function that does nothing.

ghost use Rattle.std.specs.Prelude.{List, ℕ};
ghost use Rattle.wire_fields.specs.Reading.{IsOctets};
ghost use Rattle.wire_fields.specs.Whole.{ExactlyOneWhole};
ghost use Rattle.ltp_segment.specs.Values.{SegmentValue};
ghost use Rattle.ltp_segment.specs.Table.{segment};
ghost use Rattle.ltp_segment.specs.Legal.{IsSegment};
ghost use Rattle.ltp_segment.specs.Spelling.{IsWritten, segment_octets};

use crate::fault::SegmentCause;

/// A datagram is a segment, and only one, or it has a refusal, and only one; never both.
pub fn is_segment_or_refused()
    ensures { (datagram : List ℕ) → IsOctets datagram
        → ExactlyOneWhole segment SegmentCause.Trailing datagram }
{}

/// What is written of a segment spells it, and is read back as the same segment.
pub fn is_read_back()
    ensures { (s : SegmentValue) → IsSegment s → IsWritten s (segment_octets s) }
{}
