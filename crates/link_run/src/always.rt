//! The plan of a link.

ghost use Rattle.std.specs.Prelude.{◌≡◌, IfOk, if◌then◌else◌};
ghost use Rattle.contact_plan.specs.Windows.{IsPlan};
ghost use Rattle.link_run.specs.Link.{always};

use contact_plan::{Plan, Window};
use ltp_session::NO_MOMENT;
use std::alloc::{AllocError, Global};

/// The plan of the windows that were given; without any that of a link that is always open.
pub(crate) fn plan_or_always(alloc: Global, plan: Plan, windows: bool) -> Result<Plan, AllocError>
    ensures { IfOk result (λ made. made ≡ (if windows then plan else always)) }
{
    if windows {
        return Ok(plan);
    }
    let made = always(alloc)?;
    Ok(made)
}

/// The plan of a link that is always open.
fn always(alloc: Global) -> Result<Plan, AllocError>
    ensures { IfOk result (λ plan. plan ≡ always) }
{
    let window = Window {
        from: 0,
        to: NO_MOMENT,
    };
    match Plan::new(alloc, [window].as_slice()) {
        Ok(plan) => Ok(plan),
        Err(_) => Err(AllocError),
    }
}
