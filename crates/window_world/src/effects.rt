//! What ends of a link with windows do, and when.

ghost use Rattle.std.specs.Prelude.{◌≡◌, length};

use endpoint::Listed;
use ltp_world::WorldEffects;

/// What ends do at an event, and the moment at which it happens.
#[derive(Debug, Drop)]
pub struct At {
    /// The moment, at which the link is open, in milliseconds.
    pub now: u64,
    /// What they do.
    pub effects: WorldEffects,
}

/// What ends do at one event after the other, each with its moment.
pub type Timed = Listed<At>;

/// What a drain did.
#[derive(Debug, Drop)]
pub struct WindowDrained {
    /// How many events there were.
    pub events: u64,
    /// What the ends did at each event, in order.
    pub effects: Timed,
    /// The plan has no moment for the next event. Else nothing is left to do.
    pub plan_ends: bool,
}

impl WindowDrained {
    /// A drain that did this.
    pub(crate) fn of(items: Vec<At>, plan_ends: bool) -> WindowDrained
        ensures events { result.events ≡ length result.effects }
        ensures effects { result.effects ≡ items.items }
        ensures plan { result.plan_ends ≡ plan_ends }
    {
        let effects = Timed::from_vec(items);
        let events = effects.len() as u64;
        WindowDrained {
            events,
            effects,
            plan_ends,
        }
    }
}
