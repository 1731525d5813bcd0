//! Whether the names of a block's references alone are longer than a session carries. A block of some
//! octets may have millions of references to one long name, each of which is spelled in a wrap, so it is
//! decided before anything is written, and takes no memory.

ghost use Rattle.std.specs.Prelude.{◌≡◌};
ghost use Rattle.std.specs.List.{list_any};
ghost use Rattle.endpoint.specs.Lent.{endpoint_of};
ghost use Rattle.gate_cases.specs.Names.{least, are_over, is_over, over_at};

use crate::case::BLOCK_MAX;
use crate::face::Face;
use bundle_meaning::{Ext, Full};
use endpoint::{Name, Refs};

/// How many octets a name has at least in a wrap.
fn least(name: Name<'_>) -> usize
    ensures { result ≡ least (endpoint_of name.entry) }
{
    match name {
        Name::Null | Name::Ipn { .. } => 5,
        Name::Dtn(ssp) => ssp.len(),
    }
}

/// Whether so many names are longer than a session carries.
fn are_over(refs: &Refs) -> bool
    ensures { result ≡ are_over refs.now }
{
    let mut sum: usize = 0;
    'summing: for at in 0..refs.len() {
        let size = least(refs.get(at));
        if BLOCK_MAX - sum < size {
            return true;
        }
        sum += size;
    }
    false
}

/// Whether the names of a block of version 6 are.
fn is_over(ext: &Ext) -> bool
    ensures { result ≡ is_over ext.now }
{
    match ext {
        Ext::Six(block) => are_over(&block.refs),
        Ext::Seven(_) => false,
    }
}

/// Whether those of one of the blocks are.
fn is_one_over(exts: &[Ext]) -> bool
    ensures { result ≡ list_any is_over exts.now }
{
    exts.iter().any(|ext| is_over(ext))
}

/// Whether the names of a block are that is wrapped on the way to a face.
fn over_at(to: Face, full: &Full) -> bool
    ensures { result ≡ over_at to full.now }
{
    match to {
        Face::Old => false,
        Face::New => is_one_over(full.exts.as_slice()),
    }
}

/// Whether the names of a block of one of the records are longer than a session carries, where the block is
/// wrapped on the way to a face. It takes no memory.
pub fn is_any_over(to: Face, records: &[Full]) -> bool
    ensures { result ≡ list_any (over_at to) records.now }
{
    records.iter().any(|full| over_at(to, full))
}
