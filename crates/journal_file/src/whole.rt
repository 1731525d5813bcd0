//! A whole file, made anew of what is kept.

ghost use Rattle.std.specs.Prelude.{◌≡◌, ◌++◌, OnOk};
ghost use Rattle.std.specs.List.{flat_map};
ghost use Rattle.journal_file.specs.Anew.{file_of};
ghost use Rattle.journal_file.specs.Ties.{kept_of, record_of, entry_of, begun_entry, mark_entry, head_octets};

use crate::kept::{Kept, Mark, Pending};
use crate::reading::{OPEN, OPENING};
use crate::record::Record;
use crate::writing::{CLOSED, write_record};
use gate_cases::Face;
use std::alloc::{AllocError, Global};

/// Appends a file that is made anew of what is kept: the numbers that are reserved, the pending blocks,
/// each begun under its id, and the marks. Records may follow behind its closed gate, with which it ends.
pub fn write_file(alloc: Global, kept: &Kept, out: &mut Vec<u8>) -> Result<(), AllocError>
    ensures ok { OnOk result (out.new.items ≡ out.old.items ++ file_of (kept_of kept.now)) }
{
    write_head(alloc, kept, out)?;
    write_pending(alloc, kept.pending.as_slice(), out)?;
    write_marks(alloc, kept.marks.as_slice(), out)?;
    out.push(CLOSED)?;
    Ok(())
}

/// Appends an open gate and a record.
fn write_entry(alloc: Global, said: &Record, out: &mut Vec<u8>) -> Result<(), AllocError>
    ensures ok { OnOk result (out.new.items ≡ out.old.items ++ entry_of said.now) }
{
    out.push(OPEN)?;
    write_record(alloc, said, out)
}

/// Appends the start, and the numbers that are reserved.
fn write_head(alloc: Global, kept: &Kept, out: &mut Vec<u8>) -> Result<(), AllocError>
    ensures ok { OnOk result (out.new.items ≡ out.old.items ++ head_octets (kept_of kept.now)) }
{
    out.extend_from_slice(&OPENING)?;
    let old = Record::Reserved {
        face: Face::Old,
        number: kept.old_reserved,
    };
    write_entry(alloc, &old, out)?;
    let new = Record::Reserved {
        face: Face::New,
        number: kept.new_reserved,
    };
    write_entry(alloc, &new, out)
}

/// Appends the pending blocks, each begun under its id.
fn write_pending(alloc: Global, pending: &[Pending], out: &mut Vec<u8>) -> Result<(), AllocError>
    ensures ok { OnOk result (out.new.items ≡ out.old.items ++ flat_map begun_entry pending.now) }
{
    'pending: for one in pending {
        let begun = Record::Begun {
            id: one.id,
            face: one.face,
            came: one.came,
            block: one.block.as_slice(),
        };
        write_entry(alloc, &begun, out)?;
    }
    Ok(())
}

/// Appends marks.
fn write_marks(alloc: Global, marks: &[Mark], out: &mut Vec<u8>) -> Result<(), AllocError>
    ensures ok { OnOk result (out.new.items ≡ out.old.items ++ flat_map mark_entry marks.now) }
{
    'marks: for mark in marks {
        write_entry(alloc, &Record::Marked(*mark), out)?;
    }
    Ok(())
}
