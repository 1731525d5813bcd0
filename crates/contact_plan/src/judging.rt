//! Which windows are a plan, told without memory.

ghost use Rattle.std.specs.Prelude.{◌≡◌, length};
ghost use Rattle.contact_plan.specs.Fault.{first_misplaced, may_follow, plan_fault};

use crate::fault::PlanFault;
use crate::window::Window;

/// A plan has at most as many windows.
pub(crate) const WINDOWS_MOST: usize = 4096;

/// No window ends after this moment.
const LAST_END: u64 = 1 << 62;

/// Why windows are no plan.
pub(crate) fn fault_of(windows: &[Window]) -> Option<PlanFault>
    ensures { result ≡ plan_fault windows.now }
{
    if windows.len() > WINDOWS_MOST {
        return Some(PlanFault::TooMany);
    }
    match misplaced(windows) {
        Some(index) => Some(PlanFault::Order { index }),
        None => None,
    }
}

/// The index of the first window that may not follow the one before it.
fn misplaced(windows: &[Window]) -> Option<usize>
    ensures { result ≡ first_misplaced 0 0 windows.now }
{
    let mut end = 0;
    let mut index = 0;
    'windows: for window in windows {
        if !may_follow(end, *window) {
            return Some(index);
        }
        end = window.to;
        index += 1;
    }
    None
}

/// Whether a window may follow one that ends here.
pub(crate) fn may_follow(end: u64, window: Window) -> bool
    ensures { result ≡ may_follow end window }
{
    end <= window.from && window.from < window.to && window.to <= LAST_END
}
