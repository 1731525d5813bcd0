//! The types that residues and wraps have on a wire.

ghost use Rattle.std.specs.Prelude.{◌≡◌, None, IfSome};
ghost use Rattle.block_types.specs.Pair.{IsPair, swap};

/// The type of a residue among the gateway's own.
const RESIDUE: u64 = 192;
/// The type of a wrap among the gateway's own.
pub(crate) const WRAP: u64 = 193;
/// One more than the greatest type that a version 6 block may have.
const TYPES: u64 = 256;

/// The types that residues and wraps have on a wire, in a version 7 bundle, and in what a wrap in a
/// version 6 bundle says of its block.
#[derive(Clone, Copy, Debug)]
pub struct BlockTypes {
    residue: u64,
    wrap: u64,
    ghost pair: { IsPair residue wrap },
}

impl BlockTypes {
    ghost use Rattle.block_types.specs.Types.{swapped};

    /// These types: both are from 192 to 255, the residue's isn't 193, and the wrap's is neither 192 nor
    /// the residue's. Other numbers are refused.
    pub fn new(residue: u64, wrap: u64) -> Option<BlockTypes>
        ensures taken { IfSome result (λ types. (types.residue ≡ residue) × (types.wrap ≡ wrap)) }
        ensures refused { result ≡ None → IsPair residue wrap → ⊥ }
    {
        let private = RESIDUE <= residue && residue < TYPES && RESIDUE <= wrap && wrap < TYPES;
        if private && residue != WRAP && wrap != RESIDUE && wrap != residue {
            Some(BlockTypes { residue, wrap })
        } else {
            None
        }
    }

    /// The type on the wire of a block that has this type in the gateway, and the other way round.
    #[tactic(auto, unfolding(crate::specs::Types::swapped))]
    pub fn swapped(self, kind: u64) -> u64
        ensures { result ≡ swapped self kind }
    {
        swap(WRAP, self.wrap, swap(RESIDUE, self.residue, kind))
    }
}

/// The other of two numbers, where it is one of them.
fn swap(one: u64, other: u64, number: u64) -> u64
    ensures { result ≡ swap one other number }
{
    if number == one {
        other
    } else if number == other {
        one
    } else {
        number
    }
}
