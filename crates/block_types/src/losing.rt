//! What a record loses where it is made bare.

ghost use Rattle.std.specs.Prelude.{◌≡◌, ◌∷◌, ◌++◌, [], IfOk, OnOk};
ghost use Rattle.translate.specs.View7.{needs_residue7};
ghost use Rattle.block_types.specs.Bare.{kind_left, kinds_left};

use bundle_meaning::{Ext, Full};
use endpoint::Octets;
use std::alloc::{AllocError, Global};
use translate::needs_residue7;

/// What a record loses where it is made bare.
#[derive(Debug, Drop)]
pub struct LeftOut {
    /// The types of its version 6 blocks, in order.
    pub kinds: Octets,
    /// Whether version 6 says something else of it than its default, or a report's time has a part below
    /// one millisecond: its version 7 bundle has a residue for that.
    pub residue: bool,
}

/// What a record would lose.
pub fn left_out(alloc: Global, full: &Full) -> Result<LeftOut, AllocError>
    ensures kinds { IfOk result (λ left. left.kinds ≡ kinds_left full.now.exts) }
    ensures residue { IfOk result (λ left. left.residue ≡ needs_residue7 full.now) }
{
    Ok(LeftOut {
        kinds: kinds_left(alloc, full.exts.as_slice())?,
        residue: needs_residue7(full),
    })
}

/// The types of the version 6 blocks.
fn kinds_left(alloc: Global, exts: &[Ext]) -> Result<Octets, AllocError>
    ensures { IfOk result (λ kinds. kinds ≡ kinds_left exts.now) }
{
    let mut kinds = Vec::new(alloc);
    'leaving: for ext in exts {
        leave(&mut kinds, ext)?;
    }
    Ok(Octets::from_vec(kinds))
}

/// Puts the type of a version 6 block at the end of others.
fn leave(kinds: &mut Vec<u8>, ext: &Ext) -> Result<(), AllocError>
    ensures { OnOk result (kinds.new.items ≡ kinds.old.items ++ kinds_left (ext.now ∷ [])) }
{
    if let Some(kind) = kind_left(ext) {
        kinds.push(kind)?;
    }
    Ok(())
}

/// The type of a version 6 block.
fn kind_left(ext: &Ext) -> Option<u8>
    ensures { result ≡ kind_left ext.now }
{
    match ext {
        Ext::Six(block) => Some(block.kind),
        Ext::Seven(_) => None,
    }
}
