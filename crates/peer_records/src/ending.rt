//! Pieces whose session ended.

ghost use Rattle.std.specs.Prelude.{◌≡◌, ◌++◌, [], map, IfOk, OnOk, OnErr};
ghost use Rattle.std.specs.List.Sorted.{IsNonDecreasing, IsPermutation};
ghost use Rattle.peer_gateway.specs.Answers.{remark_seen, told_seen};
ghost use Rattle.peer_records.specs.Happened.{notes_in};
ghost use Rattle.peer_records.specs.Records.{all_done, end_done, end_leaves, done_records, named_left};
ghost use Rattle.peer_records.specs.Said.{said_by, done_of, ids_ended};
ghost use Rattle.peer_records.specs.Ties.{with_named};
ghost use Rattle.peer_records.specs.Told.{ends_told};

use crate::held::Held;
use crate::record::StepRecord;
use crate::told::ends_told;
use gate_records::GateSessions;
use journal_file::How;
use peer_gateway::RemarkAt;
use std::alloc::{AllocError, Global};

/// A piece, by its id, whose session ended.
#[derive(Clone, Copy, Debug)]
pub(crate) struct Ended {
    pub id: u64,
    pub how: How,
}

/// The pieces of own sessions that ended, in their order. Memory is wanted only where there are some.
pub(crate) fn ends<G: GateSessions>(
    alloc: Global,
    held: &mut Held,
    told: &[RemarkAt],
    gate: &G,
) -> Result<Vec<Ended>, AllocError>
    ensures ended { IfOk result (λ ended. map done_of ended.items ≡ done_records
        (G.opened gate.now) (notes_in (map told_seen told.now)) (held.old).named) }
    ensures left { OnOk result (held.new ≡ with_named held.old (named_left
        (G.opened gate.now) (notes_in (map told_seen told.now)) (held.old).named)) }
    ensures wanted { OnErr result (done_records
        (G.opened gate.now) (notes_in (map told_seen told.now)) (held.old).named ≡ [] → ⊥) }
{
    let mut ended = Vec::new(alloc);
    'told: for one in told {
        end_by(alloc, held, one, gate, &mut ended)?;
    }
    Ok(ended)
}

/// By what is told once.
fn end_by<G: GateSessions>(
    alloc: Global,
    held: &mut Held,
    told: &RemarkAt,
    gate: &G,
    ended: &mut Vec<Ended>,
) -> Result<(), AllocError>
    ensures ended { OnOk result (map done_of ended.new.items ≡ map done_of ended.old.items ++ end_done
        (G.opened gate.now) (told.now).face (ends_told (remark_seen (told.now).remark)) (held.old).named) }
    ensures left { OnOk result (held.new ≡ with_named held.old (end_leaves
        (G.opened gate.now) (told.now).face (ends_told (remark_seen (told.now).remark)) (held.old).named)) }
    ensures wanted { OnErr result (end_done
        (G.opened gate.now) (told.now).face (ends_told (remark_seen (told.now).remark)) (held.old).named
        ≡ [] → ⊥) }
{
    match ends_told(told) {
        Some((session, how)) if !gate.is_open(told.face, session) => {
            let ids = held.end(alloc, told.face, session)?;
            push_all(ended, ids.as_slice(), how)
        }
        _ => Ok(()),
    }
}

/// Pieces of one session.
fn push_all(ended: &mut Vec<Ended>, ids: &[u64], how: How) -> Result<(), AllocError>
    ensures ended { OnOk result (map done_of ended.new.items
        ≡ map done_of ended.old.items ++ all_done how ids.now) }
    ensures wanted { OnErr result (ids.now ≡ [] → ⊥) }
{
    'ids: for id in ids {
        ended.push(Ended { id: *id, how })?;
    }
    Ok(())
}

/// Their records are appended.
pub(crate) fn say_ended(records: &mut Vec<StepRecord>, ended: &[Ended]) -> Result<(), AllocError>
    ensures { OnOk result (map said_by records.new.items
        ≡ map said_by records.old.items ++ map done_of ended.now) }
{
    'ended: for one in ended {
        let Ended { id, how } = *one;
        records.push(StepRecord::Done { id, how })?;
    }
    Ok(())
}

/// Their ids, so that none falls.
pub(crate) fn sorted_ids(alloc: Global, ended: &[Ended]) -> Result<Vec<u64>, AllocError>
    ensures same { IfOk result (λ ids. IsPermutation (ids_ended ended.now) ids.items) }
    ensures sorted { IfOk result (λ ids. IsNonDecreasing ids.items) }
{
    let mut ids = ids_ended(alloc, ended)?;
    ids.sort_unstable();
    Ok(ids)
}

/// Their ids, in their order.
fn ids_ended(alloc: Global, ended: &[Ended]) -> Result<Vec<u64>, AllocError>
    ensures { IfOk result (λ ids. ids.items ≡ ids_ended ended.now) }
{
    let mut ids = Vec::new(alloc);
    'ids: for one in ended {
        ids.push(one.id)?;
    }
    Ok(ids)
}
