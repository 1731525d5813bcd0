//! Numbers of sessions that are over go into the memory.

ghost use Rattle.std.specs.Prelude.{◌≡◌, ◌+◌, ◌≤◌, ◌^◌, length, OnOk};
ghost use Rattle.session_memory.specs.Numbers.{runs_in};
ghost use Rattle.session_memory.specs.Laws.{IsSet64};
ghost use Rattle.peer_sessions.specs.Keys.{with_marked};
ghost use Rattle.peer_sessions.specs.Sessions.{with_closed};

use session_memory::SessionMemory;
use std::alloc::AllocError;

/// The sessions of these numbers are over. There is a place for each of them.
pub(crate) fn remember_all(
    memory: &mut SessionMemory,
    mut numbers: Vec<u64>,
) -> Result<(), AllocError>
    requires set { IsSet64 memory.old.newer }
    requires places { runs_in memory.old.newer + length numbers.items ≤ memory.old.most }
    ensures { OnOk result (memory.new ≡ with_closed numbers.items memory.old) }
{
    'closing: while let Some(n) = numbers.pop() {
        memory.close(n)?;
    }
    Ok(())
}

/// The sessions of these numbers are over, and are remembered for good.
pub(crate) fn mark_all(memory: &mut SessionMemory, marks: &[u64]) -> Result<(), AllocError>
    requires set { IsSet64 memory.old.marked }
    requires places { runs_in memory.old.marked + length marks.now ≤ 2 ^ 63 }
    ensures { OnOk result (memory.new ≡ with_marked marks.now memory.old) }
{
    let mut left = marks.len();
    'marking: while left > 0 {
        left -= 1;
        let n = marks[left];
        memory.mark(n)?;
    }
    Ok(())
}
