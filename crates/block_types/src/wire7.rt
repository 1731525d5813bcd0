//! Bundles of version 7 with the types of the wire.

ghost use Rattle.std.specs.Prelude.{◌≡◌, map};
ghost use Rattle.bundle7.specs.Legal.{IsLegal7};
ghost use Rattle.block_types.specs.Relabelled.{retyped7, relabelled7};

use crate::types::BlockTypes;
use bundle7::{Block7, Blocks7, Bundle7};

/// The bundle in which residues and wraps have the types of the wire, and what has these types there has
/// those of residues and wraps. The extension blocks alone change, and of them the types.
#[tactic(auto, unfolding(crate::specs::Relabelled::relabelled7))]
pub fn relabel7(types: BlockTypes, bundle: Bundle7) -> Bundle7
    ensures exact { result ≡ relabelled7 types bundle }
    ensures legal { IsLegal7 bundle → IsLegal7 result }
{
    let Bundle7 {
        primary,
        exts,
        payload,
    } = bundle;
    Bundle7 {
        primary,
        exts: retyped(types, exts),
        payload,
    }
}

/// The blocks with the other type each.
fn retyped(types: BlockTypes, blocks: Blocks7) -> Blocks7
    ensures { result ≡ map (retyped7 types) blocks }
{
    let mut items = blocks.into_vec();
    retype_all(types, &mut items);
    Blocks7::from_vec(items)
}

/// Gives each of the blocks the other type.
fn retype_all(types: BlockTypes, blocks: &mut [Block7])
    ensures { blocks.new ≡ map (retyped7 types) blocks.old }
{
    for block in blocks.iter_mut() {
        retype(types, block);
    }
}

/// Gives the block the other type.
fn retype(types: BlockTypes, block: &mut Block7)
    ensures { block.new ≡ retyped7 types block.old }
{
    block.kind = types.swapped(block.kind);
}
