//! A link that is set up, before its first event.

ghost use Rattle.std.specs.Prelude.{◌<◌, ◌≤◌, ◌^◌};

use crate::always::plan_or_always;
use crate::on_link::Running;
use contact_plan::Plan;
use ltp_engine::Engine;
use ltp_segment::Policy;
use std::alloc::{AllocError, Global};
use window_world::WindowWorld;

/// The number of an engine's first session.
const FIRST_SESSION: u64 = 1;

/// How a link is set up, before the first event.
#[derive(Debug, Drop)]
pub(crate) struct Planned {
    pub policy: Policy,
    pub now: u64,
    pub plan: Plan,
    /// Whether windows were given.
    pub windows: bool,
    ghost segment: { 2 ≤ policy.segment },
    ghost timeout: { 1 ≤ policy.timeout },
    ghost cap: { 1 ≤ policy.cap },
    ghost early: { now < 2 ^ 62 },
}

impl Planned {
    ghost use Rattle.std.specs.Prelude.{List, IfOk};
    ghost use Rattle.contact_plan.specs.declared.window.Window.{Window};
    ghost use Rattle.link_run.specs.Link.{LinkStart, link_course, link_setup};
    ghost use Rattle.link_run.specs.Shows.{PlannedAs, RunsAs};

    /// The link begins, at the moment of its first line. Without windows it is always open.
    pub fn begins(self, alloc: Global) -> Result<Running, AllocError>
        ensures { (start : LinkStart) (windows : List Window) → PlannedAs self start windows
            → IfOk result (λ r. RunsAs r (link_setup start windows)
            (link_course (link_setup start windows) start.now)) }
    {
        let Planned {
            policy,
            now,
            plan,
            windows,
        } = self;
        let plan = plan_or_always(alloc, plan, windows)?;
        let first = Engine::new(alloc, 1, 2, FIRST_SESSION, policy);
        let second = Engine::new(alloc, 2, 1, FIRST_SESSION, policy);
        Ok(Running {
            world: WindowWorld::new(alloc, first, second, plan, now),
            windows,
            octets: 0,
        })
    }
}
