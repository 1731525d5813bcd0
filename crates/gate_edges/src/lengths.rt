//! How many octets go to a journal.

ghost use Rattle.std.specs.Prelude.{◌≡◌, map, IfOk};
ghost use Rattle.journal_file.specs.Length.{entries_length, gate_of};
ghost use Rattle.journal_file.specs.Ties.{kept_of, record_of};

use journal_file::{Kept, Record, write_behind_gate, write_file};
use std::alloc::{AllocError, Global};

/// How far the gate of a journal moves on where these records are committed, for an outside that has none.
pub fn entries_length(alloc: Global, records: &[Record]) -> Result<usize, AllocError>
    ensures { IfOk result (λ n. n ≡ entries_length (map record_of records.now)) }
{
    let mut octets = Vec::new(alloc);
    write_behind_gate(alloc, records, &mut octets)?;
    Ok(octets.len())
}

/// The place of the gate of a file made anew of what is kept, for an outside that has no journal.
pub fn gate_of(alloc: Global, kept: &Kept) -> Result<usize, AllocError>
    ensures { IfOk result (λ n. n ≡ gate_of (kept_of kept.now)) }
{
    let mut octets = Vec::new(alloc);
    write_file(alloc, kept, &mut octets)?;
    Ok(octets.len() - 1)
}
