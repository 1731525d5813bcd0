//! Flags, bit by bit.

ghost use Rattle.std.specs.Prelude.{◌≡◌, ◌<◌};
ghost use Rattle.bundle6.specs.Bits.{has_bit, without};

/// The bit of a bundle's flags that says it is a fragment.
pub(crate) const FRAGMENT: u32 = 0;
/// The bit of a block's flags that marks the last block.
pub(crate) const LAST: u32 = 3;
/// The bit of a block's flags that says it has references.
pub(crate) const REFS: u32 = 6;

/// Whether a bit is set.
pub fn has_bit(flags: u64, bit: u32) -> bool
    requires { bit < 64 }
    ensures { result ≡ has_bit bit flags }
{
    (flags >> bit) & 1 == 1
}

/// The flags with a bit clear.
pub fn without(flags: u64, bit: u32) -> u64
    requires { bit < 64 }
    ensures { result ≡ without bit flags }
{
    if has_bit(flags, bit) {
        flags - (1 << bit)
    } else {
        flags
    }
}
