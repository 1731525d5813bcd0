//! Copies of what goes to a journal.

ghost use Rattle.std.specs.Prelude.{◌≡◌, map, IfOk};
ghost use Rattle.journal_file.specs.Ties.{kept_of, record_of};
ghost use Rattle.gate_edges.specs.InMemory.{value_of};

use endpoint::Octets;
use gate_cases::Face;
use journal_file::{How, Kept, Mark, Pending, Record};
use std::alloc::{AllocError, Global};

/// A record of a journal, with a block of its own.
#[derive(Debug, Drop)]
pub enum MemRecord {
    /// A block is begun at a face, under an id.
    Begun(Pending),
    /// The session of a pending id ended.
    Done { id: u64, how: How },
    /// A report goes out about a session of the peer that isn't handed up.
    Marked(Mark),
    /// That session was handed up, or its sender cancelled it.
    Clear { face: Face, session: u64 },
    /// The numbers of a face below this one may have been used.
    Reserved { face: Face, number: u64 },
}

/// A copy of a record.
fn copy_record(alloc: Global, said: &Record) -> Result<MemRecord, AllocError>
    ensures { IfOk result (λ copy. value_of copy ≡ record_of said.now) }
{
    Ok(match said {
        Record::Begun {
            id,
            face,
            came,
            block,
        } => MemRecord::Begun(Pending {
            id: *id,
            face: *face,
            came: *came,
            block: Octets::from_slice(alloc, block)?,
        }),
        Record::Done { id, how } => MemRecord::Done { id: *id, how: *how },
        Record::Marked(mark) => MemRecord::Marked(*mark),
        Record::Clear { face, session } => MemRecord::Clear {
            face: *face,
            session: *session,
        },
        Record::Reserved { face, number } => MemRecord::Reserved {
            face: *face,
            number: *number,
        },
    })
}

/// A copy of records.
pub fn copy_records(alloc: Global, records: &[Record]) -> Result<Vec<MemRecord>, AllocError>
    ensures { IfOk result (λ copies. map value_of copies.items ≡ map record_of records.now) }
{
    let mut copies = Vec::new(alloc);
    'records: for said in records {
        copies.push(copy_record(alloc, said)?)?;
    }
    Ok(copies)
}

/// A copy of pending blocks.
fn copy_pending(alloc: Global, pending: &[Pending]) -> Result<Vec<Pending>, AllocError>
    ensures { IfOk result (λ copies. copies.items ≡ pending.now) }
{
    let mut copies = Vec::new(alloc);
    'pending: for one in pending {
        copies.push(Pending {
            id: one.id,
            face: one.face,
            came: one.came,
            block: Octets::from_slice(alloc, one.block.as_slice())?,
        })?;
    }
    Ok(copies)
}

/// A copy of what is kept.
pub fn copy_kept(alloc: Global, kept: &Kept) -> Result<Kept, AllocError>
    ensures { IfOk result (λ copy. kept_of copy ≡ kept_of kept.now) }
{
    Ok(Kept {
        pending: copy_pending(alloc, kept.pending.as_slice())?,
        marks: Vec::from_slice(alloc, kept.marks.as_slice())?,
        old_reserved: kept.old_reserved,
        new_reserved: kept.new_reserved,
        greatest: kept.greatest,
    })
}
