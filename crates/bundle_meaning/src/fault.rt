//! Why octets are no body of a private block.

ghost use Rattle.std.specs.Prelude.{◌≡◌};
ghost use Rattle.bundle_meaning.specs.Word.{word_of};

use std::alloc::AllocError;
use thiserror::Error;

/// Why no body of a private block was read.
#[derive(Clone, Copy, Debug, PartialEq, Eq, Error)]
pub enum BlockFault {
    /// The octets aren't exactly one body, or a value is outside its range.
    #[error("Bad")]
    Bad,
    /// Memory ran out; the octets are a body.
    #[error("Memory")]
    Memory,
}

impl BlockFault {
    /// The fault's name.
    pub fn word(&self) -> &'static str
        ensures { result.now ≡ word_of self.now }
    {
        match self {
            BlockFault::Bad => "Bad",
            BlockFault::Memory => "Memory",
        }
    }
}

impl From<AllocError> for BlockFault {
    ghost use Rattle.std.specs.Prelude.{◌≡◌};
    ghost use Rattle.bundle_meaning.specs.declared.fault.BlockFault.{BlockFault};
    ghost use Rattle.bundle_meaning.specs.declared.fault.BlockFault.TheVariants as faults;

    ghost from_gives = { λ _ fault. fault ≡ faults.Memory };

    fn from(_: AllocError) -> BlockFault {
        BlockFault::Memory
    }
}
