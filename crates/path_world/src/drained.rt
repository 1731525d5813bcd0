//! What a drain of a path did.

use endpoint::Listed;
use path_laws::PathEffects;

/// What the places of a path did at one event after the other.
pub type PathSteps = Listed<PathEffects>;

/// What a drain of a path did.
#[derive(Debug, Drop)]
pub struct PathDrained {
    /// How many events there were.
    pub events: u64,
    /// What was done at each event, in order.
    pub effects: PathSteps,
}
