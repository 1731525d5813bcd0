//! A run of turns.

ghost use Rattle.std.specs.Prelude.{◌≡◌, ◌<◌, ◌^◌, Option, Some};
ghost use Rattle.gate_edges.specs.Ahead.{Ahead, reading_next, past_reading};
ghost use Rattle.gate_cases.specs.declared.face.Face.{Face};
ghost use Rattle.journal_file.specs.Values.{KeptValue};
ghost use Rattle.peer_half.specs.Starts.{starts_at};
ghost use Rattle.gate_run.specs.Course.{Point, run_over};
ghost use Rattle.gate_run.specs.Outcome.{MadeBy, WentStoring, WentWriting};
ghost use Rattle.gate_run.specs.declared.status.GateStatus.TheVariants as statuses;
ghost use Rattle.gate_run.specs.Stages.{StopsWriting, StopsStoring, WentSo, run_over_turns};

use crate::driven::Driven;
use crate::status::GateStatus;
use crate::stop::Stop;
use gate_config::GateFile;
use gate_edges::Outside;
use outbox::Reading;
use peer_parts::HalfParts;
use std::alloc::Global;

/// Makes so many turns with a gateway at work, at least one, once the journal's file is made anew where
/// one is kept. At the beginning the clocks showed this.
fn drive<T: HalfParts + Drop, O: Outside>(
    alloc: Global,
    parts: T,
    board: bool,
    turns: u64,
    reading: Reading,
    outside: &mut O,
) -> Result<(), Stop>
    requires some { 0 < turns }
    requires small { reading.wall < 2 ^ 62 }
    ensures goes { (p : Point) → T.Shows parts p.standing → reading ≡ reading_next p.ahead
        → O.ahead outside.old ≡ Some (past_reading p.ahead)
        → WentSo (run_over_turns board turns p) result (O.made outside.old) (O.made outside.new) }
    ensures writes { StopsWriting result (O.writes outside.old) (O.writes outside.new) }
    ensures stores { StopsStoring result (O.stores outside.old) (O.stores outside.new) }
{
    let mut driven = Driven::new(alloc, parts)?;
    driven.begin(outside)?;
    driven.turn_at(board, reading, outside)?;
    driven.turns(board, turns - 1, outside)
}

/// Makes the run of so many turns that a file says, at least one, with a gateway at work that stands as
/// the file, what earlier runs kept and the first reading of the wall clock have it. At the beginning
/// the clocks showed that reading. There is a board if and only if the file says where the metrics are
/// put.
pub fn run_from<T: HalfParts + Drop, O: Outside>(
    alloc: Global,
    parts: T,
    file: &GateFile,
    turns: u64,
    reading: Reading,
    outside: &mut O,
) -> GateStatus
    requires some { 0 < turns }
    requires small { reading.wall < 2 ^ 62 }
    // Where the outside told that reading, and tells what it will give, exactly the acts of the
    // definition are made, in order across all objects; or a front of them where the run ends early.
    ensures made { (kept : Option KeptValue) (ahead : Ahead)
        → T.Shows parts (starts_at file.now kept reading.wall)
        → reading ≡ reading_next ahead → O.ahead outside.old ≡ Some (past_reading ahead)
        → MadeBy (run_over file.now kept turns ahead) result
        (O.made outside.old) (O.made outside.new) }
    // It ended by a failed write if and only if one failed, and nothing was written after that; and the
    // same holds of a failed call on the journal.
    ensures writes { WentWriting result (O.writes outside.old) (O.writes outside.new) }
    ensures stores { WentStoring result (O.stores outside.old) (O.stores outside.new) }
    // It didn't end for want of session numbers.
    ensures used { (face : Face) → result ≡ statuses.SessionsUsed face → ⊥ }
{
    let board = file.gateway.metrics.is_some();
    match drive(alloc, parts, board, turns, reading, outside) {
        Ok(()) => GateStatus::Done,
        Err(stop) => stop.status(),
    }
}
