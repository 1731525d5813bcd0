//! Laws over a drain of one link whose two directions cross in any order (RFC 5326).
//!
//! `ltp_drain` delivers what is sent in the order of sending, whichever end sent it. Here picks
//! say which end's oldest new segment is delivered next, so that segments of the two directions
//! cross in any way; and they have old segments come once more, those that were sent before the
//! drain and those that were delivered in it. `specs/Picks` says what a pick does, and
//! `specs/PickedRuns` what such a drain promises. The laws stand on the ranks of `ltp_drain`,
//! which fall however the directions cross, and rise by two at most where an old segment comes.
#![tactic(auto)]

pub mod laws;
