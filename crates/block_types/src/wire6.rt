//! Bundles of version 6 whose wraps say the types of the wire.

ghost use Rattle.std.specs.Prelude.{◌≡◌, ◌==◌, ◌&&◌, ◌+◌, ◌++◌, ◌∷◌, [], ◌<◌, ◌≤◌, nat_le, nat_lt, true, map, length, slice_index, slice_set};
ghost use Rattle.endpoint.specs.Endpoints.{begins};
ghost use Rattle.bundle6.specs.Legal.{IsLegal};
ghost use Rattle.bundle_meaning.specs.Blocks.{mark};
ghost use Rattle.block_types.specs.Types.{swapped};
ghost use Rattle.block_types.specs.Relabelled.{says_private_type, is_retyped, retyped_body, retyped6, relabelled6};

use crate::types::{BlockTypes, WRAP};
use bundle6::{Block6, Blocks6, Bundle6};
use endpoint::Octets;
use std::alloc::Global;
use std::mem;

/// The octets with which the body of a wrap begins that says a private type: the mark, and the first octet
/// of each number from 128 to 255.
const FRONT: [u8; 5] = [0x42, 0x36, 0x37, 0x47, 0x81];
/// The place of the type's second octet, by which it is told.
const SECOND: usize = 5;
/// What the type's first octet adds to its second.
const HIGH: u64 = 0x80;

/// The bundle whose wraps say of their blocks the types of the wire, where they said those of the gateway,
/// and the other way round. Of each such body one octet changes. It takes no memory.
#[tactic(auto, unfolding(crate::specs::Relabelled::relabelled6))]
pub fn relabel6(alloc: Global, types: BlockTypes, bundle: Bundle6) -> Bundle6
    ensures exact { result ≡ relabelled6 types bundle }
    ensures legal { IsLegal bundle → IsLegal result }
{
    let Bundle6 { primary, blocks } = bundle;
    Bundle6 {
        primary,
        blocks: retyped(alloc, types, blocks),
    }
}

/// The blocks, of which each wrap says the other type.
fn retyped(alloc: Global, types: BlockTypes, blocks: Blocks6) -> Blocks6
    ensures { result ≡ map (retyped6 types) blocks }
{
    let mut items = blocks.into_vec();
    retype_all(alloc, types, &mut items);
    Blocks6::from_vec(items)
}

/// Has each of the blocks say the other type, where it is a wrap.
fn retype_all(alloc: Global, types: BlockTypes, blocks: &mut [Block6])
    ensures { blocks.new ≡ map (retyped6 types) blocks.old }
{
    for block in blocks.iter_mut() {
        retype(alloc, types, block);
    }
}

/// Has the block say the other type, where it is a wrap.
fn retype(alloc: Global, types: BlockTypes, block: &mut Block6)
    ensures { block.new ≡ retyped6 types block.old }
{
    if is_retyped(block) {
        let body = mem::replace(&mut block.body, Octets::new(alloc));
        block.body = retyped_body(types, body);
    }
}

/// Whether the block is a wrap that says a private type.
fn is_retyped(block: &Block6) -> bool
    ensures { result ≡ is_retyped block.now }
{
    u64::from(block.kind) == WRAP && says_private_type(block.body.as_slice())
}

/// Whether a wrap's body says a private type.
fn says_private_type(body: &[u8]) -> bool
    ensures { result ≡ says_private_type body.now }
{
    begins(body) && is_private(second(body))
}

/// Whether a body begins as that of a wrap that says a type from 128 to 255.
fn begins(body: &[u8]) -> bool
    ensures { result ≡ begins (mark ++ 0x81 ∷ []) body.now }
{
    body.starts_with(FRONT.as_slice())
}

/// The octet at the place of the type's second; 0 past the end.
fn second(body: &[u8]) -> u8
    ensures { result ≡ slice_index body.now 5 }
{
    match body.get(SECOND) {
        Some(octet) => *octet,
        None => 0,
    }
}

/// Whether after 81 the octet ends a number from 192 to 255.
fn is_private(octet: u8) -> bool
    ensures { result ≡ (nat_le 0x40 octet && nat_lt octet 0x80) }
{
    octet >= 0x40 && octet < 0x80
}

/// The body of a wrap with the other type.
fn retyped_body(types: BlockTypes, body: Octets) -> Octets
    requires { says_private_type body ≡ true }
    ensures { result ≡ retyped_body types body }
{
    let mut octets = body.into_vec();
    octets[SECOND] = other_octet(types, octets[SECOND]);
    Octets::from_vec(octets)
}

/// The second octet of the other type.
fn other_octet(types: BlockTypes, octet: u8) -> u8
    requires low { 0x40 ≤ octet }
    requires high { octet < 0x80 }
    ensures { result + 0x80 ≡ swapped types (0x80 + octet) }
{
    (types.swapped(HIGH + u64::from(octet)) - HIGH) as u8
}
