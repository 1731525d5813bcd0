//! Where the segments of a block lie.

ghost use Rattle.std.specs.Prelude.{◌≡◌, ℕ, ◌+◌, ◌-◌, ◌<◌, ◌≤◌, length, min, map, All, IfOk, OnOk, OnErr};
ghost use Rattle.std.specs.Prelude.{◌++◌, ◌∷◌, []};
ghost use Rattle.spans.specs.Runs.{HasAll};
ghost use Rattle.ltp_session.specs.Sender.{segments_of, unclaimed};
ghost use Rattle.ltp_sender.specs.Ranges.{Forgets};
ghost use Rattle.ltp_sender.specs.Segments.{segment_in, IsOn};

use crate::ranges::Ranges;
use spans::Spans;
use std::alloc::{AllocError, Global};

/// A segment: the octets of a part of a block from `from` to before `to`.
#[derive(Clone, Copy, Debug)]
pub(crate) struct Segment {
    pub from: usize,
    pub to: usize,
}

/// A segment that was sent as a checkpoint.
#[derive(Clone, Copy, Debug)]
pub(crate) struct Checkpoint {
    pub segment: Segment,
    pub serial: u64,
    /// The serial of the report that it answers; 0 where there is none.
    pub report: u64,
}

/// The segment that begins at a place before the stop of its part.
pub(crate) fn segment_at(from: usize, stop: usize, size: usize) -> Segment
    requires { from < stop }
    ensures from { result.from ≡ from }
    ensures to { result.to ≡ from + min size (stop - from) }
{
    Segment {
        from,
        to: from + size.min(stop - from),
    }
}

/// Adds a segment where the ranges don't have all of its places. They may forget the places
/// before it.
fn add_unclaimed(
    segments: &mut Vec<Segment>,
    ranges: &mut Ranges<'_>,
    segment: Segment,
) -> Result<(), AllocError>
    requires { segment.from < segment.to }
    ensures rest { Forgets segment.from ranges.old ranges.new }
    ensures claimed { HasAll segment.from segment.to ranges.old
        → OnOk result (segments.new.items ≡ segments.old.items) }
    ensures unclaimed { (HasAll segment.from segment.to ranges.old → ⊥)
        → OnOk result (segments.new.items ≡ segments.old.items ++ segment ∷ []) }
{
    if !ranges.have(segment.from as u64, segment.to as u64) {
        segments.push(segment)?;
    }
    Ok(())
}

/// The segments of a red part that aren't wholly claimed, in order.
pub(crate) fn unclaimed(
    alloc: Global,
    claimed: &Spans,
    part: &[u8],
    size: usize,
) -> Result<Vec<Segment>, AllocError>
    requires some { 1 ≤ size }
    requires limit { length claimed.now ≡ length part.now }
    ensures on { IfOk result (λ segments. All (IsOn (length part.now)) segments.items) }
    ensures exact { IfOk result (λ segments. map (segment_in part.now) segments.items
        ≡ unclaimed claimed.now (segments_of size 0 part.now)) }
    ensures wanted { OnErr result (0 < length part.now) }
{
    let mut segments = Vec::new(alloc);
    let mut ranges = Ranges::of(claimed);
    let mut from = 0;
    'cutting: while from < part.len() {
        let segment = segment_at(from, part.len(), size);
        add_unclaimed(&mut segments, &mut ranges, segment)?;
        from = segment.to;
    }
    Ok(segments)
}
