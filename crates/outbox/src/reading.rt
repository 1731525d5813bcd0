//! A reading of two clocks.

/// What the clocks showed at one moment.
#[derive(Clone, Copy, Debug, PartialEq, Eq)]
pub struct Reading {
    /// The wall clock's: milliseconds since the start of the year 2000 UTC. It may be set, and then
    /// jumps either way.
    pub wall: u64,
    /// The monotonic clock's: milliseconds since some moment. It never falls.
    pub monotonic: u64,
}
