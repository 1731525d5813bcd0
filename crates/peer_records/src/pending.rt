//! Pending pieces: their order, and how many octets they have.

ghost use Rattle.std.specs.Prelude.{◌≡◌, ◌+◌, ◌^◌, ◌<◌, ◌≤◌, false, IfOk, IfErr, IfSome, IfNone};
ghost use Rattle.std.specs.List.{Contains, list_any};
ghost use Rattle.std.specs.List.Sorted.{IsNonDecreasing};
ghost use Rattle.gate_records.specs.Keeping.{octets_of};
ghost use Rattle.journal_file.specs.Keeping.{has_id};
ghost use Rattle.journal_file.specs.Spelling.{IsSmall};
ghost use Rattle.peer_gateway.specs.Answers.{added_seen};
ghost use Rattle.peer_records.specs.Records.{came_if, pending_with};
ghost use Rattle.peer_records.specs.Said.{AreRising, rises, is_among, pending_without};

use journal_file::Pending;
use peer_gateway::Added;
use std::alloc::{AllocError, Global};

// ---- octets

/// The octets of blocks and those of one more, where that is below 2^64: no memory has more.
pub(crate) fn with_octets(octets: u64, more: usize) -> Result<u64, AllocError>
    ensures sum { IfOk result (λ sum. sum ≡ octets + more) }
    ensures wanted { IfErr result (λ _. 2 ^ 64 ≤ octets + more) }
{
    match octets.checked_add(more as u64) {
        Some(sum) => Ok(sum),
        None => Err(AllocError),
    }
}

/// How many octets blocks have.
#[tactic(auto, unfolding(gate_records::specs::Keeping::octets_of))]
pub(crate) fn octets_in(pending: &[Pending]) -> Result<u64, AllocError>
    ensures sum { IfOk result (λ sum. sum ≡ octets_of pending.now) }
    ensures wanted { IfErr result (λ _. 2 ^ 64 ≤ octets_of pending.now) }
{
    let mut octets = 0;
    'adding: for one in pending {
        octets = with_octets(octets, one.block.len())?;
    }
    Ok(octets)
}

/// The same, where they are known to be at most so many.
#[tactic(auto, unfolding(gate_records::specs::Keeping::octets_of))]
pub(crate) fn octets_left(pending: &[Pending], most: u64) -> u64
    requires { octets_of pending.now ≤ most }
    ensures { result ≡ octets_of pending.now }
{
    let mut octets = 0;
    'adding: for one in pending {
        octets += one.block.len() as u64;
    }
    octets
}

// ---- a piece that is begun

/// The next id, where there is one below 2^64: no memory has so many pieces.
pub(crate) fn next_id(greatest: u64) -> Result<u64, AllocError>
    ensures id { IfOk result (λ id. id ≡ greatest + 1) }
    ensures wanted { IfErr result (λ _. 2 ^ 64 ≤ greatest + 1) }
{
    match greatest.checked_add(1) {
        Some(id) => Ok(id),
        None => Err(AllocError),
    }
}

/// A piece that is begun, under this id, with a copy of its octets, and where it is dated with the moment at
/// which it came.
pub(crate) fn pending_of(alloc: Global, id: u64, added: &Added) -> Result<Pending, AllocError>
    ensures { IfOk result (λ p. p ≡ pending_with id (added_seen added.now)) }
{
    Ok(Pending {
        id,
        face: added.face,
        came: came_of(added),
        block: added.piece.octets.copy(alloc)?,
    })
}

/// When a piece came, where it is dated.
pub(crate) fn came_of(added: &Added) -> Option<u64>
    ensures came { result ≡ came_if ((added_seen added.now).piece) }
    ensures small { IsSmall (came_if ((added_seen added.now).piece)) }
{
    if !added.piece.is_dated {
        return None;
    }
    Some(moment_of(added))
}

/// When its bundle came.
fn moment_of(added: &Added) -> u64
    ensures { result ≡ ((added.now).piece).came }
{
    added.piece.came
}

// ---- their order

/// Whether their ids rise, up to the greatest that was given.
#[tactic(auto, unfolding(crate::specs::Said::rises))]
pub(crate) fn rises(greatest: u64, pending: &[Pending]) -> bool
    ensures { result ≡ rises greatest 0 pending.now }
{
    let mut last = 0;
    'rising: for one in pending {
        if one.id <= last {
            return false;
        }
        last = one.id;
    }
    last <= greatest
}

/// The one of an id, where their ids rise. It walks through few of them.
pub(crate) fn find(pending: &[Pending], id: u64) -> Option<&Pending>
    ensures found { IfSome result (λ p. Contains pending.now p.now) }
    ensures id { IfSome result (λ p. (p.now).id ≡ id) }
    ensures none { IfNone result (AreRising 0 pending.now → list_any (has_id id) pending.now ≡ false) }
{
    match pending.binary_search_by_key(&id, |one| one.id) {
        Ok(at) => Some(&pending[at]),
        Err(_) => None,
    }
}

/// Those of these ids are pending no longer. The ids don't fall.
pub(crate) fn drop_ended(pending: &mut Vec<Pending>, ids: &[u64])
    ensures { IsNonDecreasing ids.now
        → pending.new.items ≡ pending_without ids.now pending.old.items }
{
    pending.retain(|one| !is_among(ids, one.id));
}

/// Whether an id is among some that don't fall.
fn is_among(ids: &[u64], id: u64) -> bool
    ensures { IsNonDecreasing ids.now
        → result ≡ is_among ids.now id }
{
    ids.binary_search(&id).is_ok()
}
