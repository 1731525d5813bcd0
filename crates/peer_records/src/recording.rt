//! What a step did to what is known.

ghost use Rattle.std.specs.Prelude.{◌≡◌, ◌+◌, ◌^◌, ◌<◌, ◌≤◌, [], length, map, IfSome, OnOk, OnErr};
ghost use Rattle.peer_gateway.specs.Answers.{added_seen, told_seen};
ghost use Rattle.peer_records.specs.Happened.{notes_in};
ghost use Rattle.peer_records.specs.Halves.{recording};
ghost use Rattle.peer_records.specs.Laws.{IsToAdd, AddsWell, DoesNothing, Fits};
ghost use Rattle.peer_records.specs.Records.{done_records, named_left, added_records, added_waiting};
ghost use Rattle.peer_records.specs.Said.{IsOrdered, happened_by, said_with, shown};
ghost use Rattle.peer_records.specs.Ties.{with_waiting, with_named};

use crate::ending::ends;
use crate::held::Held;
use crate::said::Said;
use crate::step::StepDone;
use gate_records::GateSessions;
use peer_gateway::{Added, RemarkAt};
use std::alloc::{AllocError, Global};

/// A step was done, and `gate` says which sessions are kept after it.
pub(crate) fn record<G: GateSessions>(
    alloc: Global,
    said: &mut Said,
    held: &mut Held,
    step: &StepDone<'_>,
    gate: &G,
) -> Result<(), AllocError>
    requires { IsOrdered (said.old).kept }
    ensures ok { OnOk result (shown said.new held.new ≡ recording
        (happened_by step.now (G.opened gate.now) (G.handed_up gate.now)) (shown said.old held.old)) }
    ensures fits { OnOk result (IfSome (step.now).again (IsToAdd (shown said.old held.old).keeping)
        → Fits (happened_by step.now (G.opened gate.now) (G.handed_up gate.now))
        (shown said.old held.old).keeping) }
    ensures wanted { OnErr result (DoesNothing
        (happened_by step.now (G.opened gate.now) (G.handed_up gate.now))
        (shown said.old held.old).keeping → ⊥) }
{
    let _ = step.wall();
    record_ends(alloc, said, held, step.told(), gate)?;
    record_added(alloc, said, held, step, step.added())?;
    held.begin_all(alloc, step.begun())?;
    said.mark_all(alloc, step, gate, step.out())?;
    said.clear_over(alloc, step, gate)
}

/// `done` for each piece, with an id, of a block whose session ended.
fn record_ends<G: GateSessions>(
    alloc: Global,
    said: &mut Said,
    held: &mut Held,
    told: &[RemarkAt],
    gate: &G,
) -> Result<(), AllocError>
    requires { IsOrdered (said.old).kept }
    ensures said { OnOk result (said.new ≡ said_with (done_records
        (G.opened gate.now) (notes_in (map told_seen told.now)) (held.old).named) said.old) }
    ensures left { OnOk result (held.new ≡ with_named held.old (named_left
        (G.opened gate.now) (notes_in (map told_seen told.now)) (held.old).named)) }
    ensures wanted { OnErr result (done_records
        (G.opened gate.now) (notes_in (map told_seen told.now)) (held.old).named ≡ [] → ⊥) }
{
    let ended = ends(alloc, held, told, gate)?;
    said.end_all(alloc, ended.as_slice())
}

/// `begun` for each piece that is added, which waits under the next id; a piece of an earlier run waits under
/// the id that it has.
fn record_added(
    alloc: Global,
    said: &mut Said,
    held: &mut Held,
    step: &StepDone<'_>,
    added: &[Added],
) -> Result<(), AllocError>
    ensures said { OnOk result (said.new ≡ said_with (added_records (step.now).again
        ((said.old).kept).greatest (map added_seen added.now)) said.old) }
    ensures waits { OnOk result (held.new ≡ with_waiting held.old (added_waiting (step.now).again
        ((said.old).kept).greatest (map added_seen added.now) (held.old).waiting)) }
    ensures fits { OnOk result (IfSome (step.now).again (IsToAdd (shown said.old held.old).keeping)
        → AddsWell (step.now).again (map added_seen added.now)
        (shown said.old held.old).keeping) }
    ensures wanted { OnErr result (added.now ≡ [] → ⊥) }
{
    match step.again {
        Some(id) => held.add_again(id, added),
        None => {
            let greatest = said.kept.greatest;
            want_ids(greatest, added.len())?;
            said.begin_all(alloc, added)?;
            held.add_all(greatest, added)
        }
    }
}

/// Whether there are ids for so many pieces more.
fn want_ids(greatest: u64, count: usize) -> Result<(), AllocError>
    ensures ok { OnOk result (greatest + count < 2 ^ 64) }
    ensures wanted { OnErr result (2 ^ 64 ≤ greatest + count) }
{
    match greatest.checked_add(count as u64) {
        Some(_) => Ok(()),
        None => Err(AllocError),
    }
}
