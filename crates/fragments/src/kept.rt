//! The extension blocks of a piece.

ghost use Rattle.std.specs.Prelude.{◌≡◌, ◌-◌, ◌++◌, ◌∷◌, [], ◌≤◌, length, drop, IfOk, OnOk};
ghost use Rattle.std.specs.List.{filter, count_by};
ghost use Rattle.bundle_meaning.specs.Bits.{has_bit};
ghost use Rattle.fragments.specs.Cutting.{is_replicated, exts_in, after_in};

use bundle_meaning::{Ext, Exts};
use std::alloc::{AllocError, Global};

/// Whether flag bit 0 is set.
pub(crate) fn has_lowest(flags: u64) -> bool
    ensures { result ≡ has_bit 0 flags }
{
    flags % 2 == 1
}

/// Whether a block is to stand in every fragment.
fn is_replicated(ext: &Ext) -> bool
    ensures { result ≡ is_replicated ext.now }
{
    match ext {
        Ext::Six(block) => has_lowest(block.flags),
        Ext::Seven(block) => has_lowest(block.flags),
    }
}

/// Copies of the extension blocks that a piece has.
pub(crate) fn exts_in(alloc: Global, exts: &Exts, i: usize) -> Result<Exts, AllocError>
    ensures { IfOk result (λ kept. kept ≡ exts_in i exts.now) }
{
    if i == 0 {
        exts.copy(alloc)
    } else {
        replicated(alloc, exts.as_slice())
    }
}

/// Copies of the blocks that are to stand in every fragment.
fn replicated(alloc: Global, exts: &[Ext]) -> Result<Exts, AllocError>
    ensures { IfOk result (λ kept. kept ≡ filter is_replicated exts.now) }
{
    let mut kept = Exts::new(alloc);
    'keeping: for ext in exts {
        keep(alloc, &mut kept, ext)?;
    }
    Ok(kept)
}

/// Puts a copy of a block at the end, where it is to stand in every fragment.
fn keep(alloc: Global, kept: &mut Exts, ext: &Ext) -> Result<(), AllocError>
    ensures { OnOk result (kept.new ≡ kept.old ++ filter is_replicated (ext.now ∷ [])) }
{
    if is_replicated(ext) {
        kept.push(ext.copy(alloc)?)?;
    }
    Ok(())
}

/// How many of a piece's extension blocks stand after its payload, where so many of the record's do.
pub(crate) fn after_in(exts: &[Ext], after: u64, i: usize) -> u64
    requires { after ≤ length exts.now }
    ensures { result ≡ after_in i after exts.now }
{
    if i == 0 {
        after
    } else {
        how_many(&exts[exts.len() - after as usize..])
    }
}

/// How many of the blocks are to stand in every fragment.
fn how_many(exts: &[Ext]) -> u64
    ensures { result ≡ count_by is_replicated exts.now }
{
    exts.iter().filter(|ext| is_replicated(ext)).count() as u64
}
