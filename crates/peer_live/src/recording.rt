//! The journal, where one is kept: what the parts of a half do to it.

ghost use Rattle.std.specs.Prelude.{◌≡◌, ◌==◌, [], false, not, length, map, option_map, IfOk, IfSome, OnErr, OnOk};
ghost use Rattle.std.specs.Option.{is_some};
ghost use Rattle.journal_file.specs.Length.{entries_length, gate_of};
ghost use Rattle.journal_file.specs.Ties.{kept_of, record_of};
ghost use Rattle.peer_half.specs.Journals.{anew_in, is_large, kept_in, past_commit, records_in};
ghost use Rattle.peer_half.specs.Parts.{first_waiting, marks_in, pending_in, reserved_in};
ghost use Rattle.peer_half.specs.Steps.{opens_in, recorded_with, ups_in};
ghost use Rattle.peer_records.specs.Said.{happened_by};

use crate::journal::Journal;
use crate::opened::Opened;
use gate_cases::Face;
use journal_file::{Kept, Pending, Record};
use peer_gateway::PeerGateway;
use peer_records::StepDone;
use std::alloc::{AllocError, Global};

/// What a step of the gateway did is recorded, before what it does is done.
pub(crate) fn record(
    alloc: Global,
    journal: &mut Option<Journal>,
    step: &StepDone<'_>,
    gate: &PeerGateway,
) -> Result<(), AllocError>
    requires { gate.now.spent ≡ false }
    ensures { OnOk result (journal.new ≡ recorded_with
        (happened_by step.now (opens_in (gate.now).gate) (ups_in (gate.now).gate)) journal.old) }
{
    let Some(journal) = journal else {
        return Ok(());
    };
    let opened = Opened { gate };
    journal.keeping.step(alloc, step, &opened)
}

/// The half ends, with the next numbers of both faces: numbers are reserved. Memory is wanted only where there is
/// a record.
pub(crate) fn reserve(
    alloc: Global,
    journal: &mut Option<Journal>,
    old: u64,
    new: u64,
) -> Result<(), AllocError>
    ensures after { OnOk result (journal.new ≡ reserved_in old new journal.old) }
    ensures wanted { OnErr result (records_in (reserved_in old new journal.old) ≡ [] → ⊥) }
{
    match journal {
        Some(journal) => journal.keeping.reserve(alloc, old, new),
        None => Ok(()),
    }
}

/// Whether there are records that are to be committed.
pub(crate) fn has_records(journal: &Option<Journal>) -> bool
    ensures { result ≡ not (length (records_in journal.now) == 0) }
{
    match journal {
        Some(journal) => journal.keeping.has_records(),
        None => false,
    }
}

/// The records that are to be committed. Memory is wanted only where there are some.
pub(crate) fn records(
    alloc: Global,
    journal: &Option<Journal>,
) -> Result<Vec<Record<'_>>, AllocError>
    ensures those { IfOk result (λ records. map record_of records.items ≡ records_in journal.now) }
    ensures wanted { OnErr result (records_in journal.now ≡ [] → ⊥) }
{
    match journal {
        Some(journal) => journal.keeping.records(alloc),
        None => Ok(Vec::new(alloc)),
    }
}

/// They were committed, and take so many octets.
pub(crate) fn committed(journal: &mut Option<Journal>, octets: usize)
    ensures { octets ≡ entries_length (records_in journal.old)
        → journal.new ≡ past_commit journal.old }
{
    if let Some(journal) = journal {
        journal.committed(octets);
    }
}

/// Whether the file is to be made anew.
pub(crate) fn is_large(journal: &Option<Journal>) -> bool
    ensures { result ≡ is_large journal.now }
{
    match journal {
        Some(journal) => journal.is_large(),
        None => false,
    }
}

/// What is kept.
pub(crate) fn kept(journal: &Option<Journal>) -> Option<&Kept>
    ensures { option_map (λ kept. kept_of kept.now) result ≡ kept_in journal.now }
{
    match journal {
        Some(journal) => Some(journal.keeping.kept()),
        None => None,
    }
}

/// The file was made anew, and its gate stands there.
pub(crate) fn installed(journal: &mut Option<Journal>, place: usize)
    ensures { IfSome (kept_in journal.old) (λ kept. place ≡ gate_of kept)
        → journal.new ≡ anew_in journal.old }
{
    if let Some(journal) = journal {
        journal.installed(place);
    }
}

/// How many sessions are marked; none without a journal.
pub(crate) fn marks(journal: &Option<Journal>) -> usize
    ensures { result ≡ marks_in journal.now }
{
    match journal {
        Some(journal) => journal.keeping.marks(),
        None => 0,
    }
}

/// How many pieces are pending; none without a journal.
pub(crate) fn pending(journal: &Option<Journal>) -> usize
    ensures { result ≡ pending_in journal.now }
{
    match journal {
        Some(journal) => journal.keeping.pending(),
        None => 0,
    }
}

/// Whether a piece of earlier runs is still to be added at a face.
pub(crate) fn has_kept(journal: &Option<Journal>, face: Face) -> bool
    ensures { result ≡ is_some (first_waiting face journal.now) }
{
    match journal {
        Some(journal) => journal.keeping.next_kept(face).is_some(),
        None => false,
    }
}

/// The first piece of earlier runs that is still to be added at a face; none without a journal.
pub(crate) fn next_kept(
    alloc: Global,
    journal: &Option<Journal>,
    face: Face,
) -> Result<Option<Pending>, AllocError>
    ensures { IfOk result (λ next. next ≡ first_waiting face journal.now) }
{
    let Some(journal) = journal else {
        return Ok(None);
    };
    let Some(pending) = journal.keeping.next_kept(face) else {
        return Ok(None);
    };
    Ok(Some(Pending {
        id: pending.id,
        face: pending.face,
        came: pending.came,
        block: pending.block.copy(alloc)?,
    }))
}
