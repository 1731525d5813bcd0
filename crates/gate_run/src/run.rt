//! A run of the gateway.

ghost use Rattle.std.specs.Prelude.{◌≡◌, ◌<◌, IfSome, option_map};
ghost use Rattle.journal_file.specs.Legal.{IsLegal};
ghost use Rattle.journal_file.specs.Ties.{kept_of};
ghost use Rattle.gate_edges.specs.Ahead.{reading_next};
ghost use Rattle.peer_half.specs.Setup.{IsRunnable, used_up};
ghost use Rattle.gate_run.specs.Course.{run_over};
ghost use Rattle.gate_run.specs.Outcome.{MadeBy, WentStoring, WentWithout, WentWriting};

use crate::running::run_from;
use crate::status::GateStatus;
use gate_config::GateFile;
use gate_edges::Outside;
use journal_file::Kept;
use peer_live::{LiveGate, used_up};
use std::alloc::{AllocError, Global};

/// Runs the gateway that a file says for so many turns, unless a write or a call on the journal fails or
/// memory runs out. There is a board if and only if the file says where the metrics are put. Where a
/// journal is kept, it goes on from what earlier runs kept in it.
pub fn gate<O: Outside>(
    alloc: Global,
    file: &GateFile,
    kept: Option<Kept>,
    turns: u64,
    outside: &mut O,
) -> GateStatus
    requires runnable { IsRunnable file.now }
    requires legal { IfSome kept (λ kept. IsLegal (kept_of kept)) }
    // Where the outside tells what it will give, exactly the acts of the definition are made, in order
    // across all objects; or a front of them.
    ensures made { IfSome (O.ahead outside.old) (λ ahead.
        MadeBy (run_over file.now (option_map kept_of kept) turns ahead) result
        (O.made outside.old) (O.made outside.new)) }
    // It ended by a failed write, or by a failed call on the journal, if and only if one failed.
    ensures writes { WentWriting result (O.writes outside.old) (O.writes outside.new) }
    ensures stores { WentStoring result (O.stores outside.old) (O.stores outside.new) }
    // It ended for want of session numbers if and only if earlier runs have used all of a face.
    ensures used { IfSome (O.ahead outside.old) (λ ahead. 0 < turns
        → WentWithout (used_up file.now (option_map kept_of kept) (reading_next ahead).wall) result) }
{
    if turns == 0 {
        return GateStatus::Done;
    }
    let reading = outside.read();
    if let Some(face) = used_up(file, &kept, reading.wall) {
        return GateStatus::SessionsUsed { face };
    }
    match LiveGate::new(alloc, file, kept, reading.wall) {
        Ok(live) => run_from(alloc, live, file, turns, reading, outside),
        Err(AllocError) => GateStatus::Memory,
    }
}
