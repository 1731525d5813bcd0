//! Where a piece may stand, and the lengths and bounds that it settles.

ghost use Rattle.std.specs.Prelude.{◌≡◌};
ghost use Rattle.ltp_session.specs.Cells.{length_after, is_past, is_below, is_misplaced};
ghost use Rattle.ltp_session.specs.Receiver.{lowest, bound_of};

/// Whether a place is past the length, where that is known.
pub(crate) fn is_past(length: Option<u64>, place: u64) -> bool
    ensures { result ≡ is_past length place }
{
    match length {
        Some(end) => end < place,
        None => false,
    }
}

/// Whether a place is below the length, where that is known.
pub(crate) fn is_below(length: Option<u64>, place: u64) -> bool
    ensures { result ≡ is_below length place }
{
    match length {
        Some(end) => place < end,
        None => false,
    }
}

/// Whether a red piece that stops here can't be one of the red part: it stops past its length, or
/// the red part ends with it elsewhere than before, or below an octet that came.
pub(crate) fn is_misplaced(reach: u64, length: Option<u64>, ends: bool, stop: u64) -> bool
    ensures { result ≡ is_misplaced reach length ends stop }
{
    match length {
        Some(end) => end < stop || (ends && (end != stop || stop < reach)),
        None => ends && stop < reach,
    }
}

/// The length of the red part, once a piece came that stops here.
pub(crate) fn length_after(length: Option<u64>, ends: bool, stop: u64) -> Option<u64>
    ensures { result ≡ length_after length ends stop }
{
    match length {
        None if ends => Some(stop),
        _ => length,
    }
}

/// The upper bound of a report on a checkpoint that stops here.
pub(crate) fn bound_of(length: Option<u64>, stop: u64) -> u64
    ensures { result ≡ bound_of length stop }
{
    match length {
        Some(end) => end,
        None => stop,
    }
}

/// The lower of an offset and an earlier one.
pub(crate) fn lowest(green: Option<u64>, offset: u64) -> Option<u64>
    ensures { result ≡ lowest green offset }
{
    match green {
        Some(low) => Some(low.min(offset)),
        None => Some(offset),
    }
}
