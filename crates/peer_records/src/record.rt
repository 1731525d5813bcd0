//! A record that has its block.

ghost use Rattle.std.specs.Prelude.{◌≡◌, [], map, IfOk, OnErr};
ghost use Rattle.journal_file.specs.Ties.{record_of};
ghost use Rattle.peer_records.specs.Said.{said_by};

use gate_cases::Face;
use journal_file::{How, Mark, Pending, Record};
use std::alloc::{AllocError, Global};

/// A record that is to be committed. It has its block, since that may be pending no longer by then.
#[derive(Debug, Drop)]
pub(crate) enum StepRecord {
    /// A piece is begun.
    Begun(Pending),
    /// The session of a pending piece ended.
    Done { id: u64, how: How },
    /// A report goes out about a session of the peer that isn't handed up.
    Marked(Mark),
    /// That session was handed up, or its sender cancelled it.
    Clear { face: Face, session: u64 },
    /// The numbers of a face below this one may have been used.
    Reserved { face: Face, number: u64 },
}

impl StepRecord {
    /// The record, with its block lent.
    pub(crate) fn as_record(&self) -> Record<'_>
        ensures { record_of result ≡ said_by self.now }
    {
        match self {
            StepRecord::Begun(pending) => Record::Begun {
                id: pending.id,
                face: pending.face,
                came: pending.came,
                block: pending.block.as_slice(),
            },
            StepRecord::Done { id, how } => Record::Done { id: *id, how: *how },
            StepRecord::Marked(mark) => Record::Marked(*mark),
            StepRecord::Clear { face, session } => Record::Clear {
                face: *face,
                session: *session,
            },
            StepRecord::Reserved { face, number } => Record::Reserved {
                face: *face,
                number: *number,
            },
        }
    }
}

/// The records, with their blocks lent. Memory is wanted only where there are some.
pub(crate) fn lent(alloc: Global, records: &[StepRecord]) -> Result<Vec<Record<'_>>, AllocError>
    ensures ok { IfOk result (λ lent. map record_of lent.items ≡ map said_by records.now) }
    ensures wanted { OnErr result (records.now ≡ [] → ⊥) }
{
    let mut lent = Vec::new(alloc);
    'lending: for said in records {
        lent.push(said.as_record())?;
    }
    Ok(lent)
}
