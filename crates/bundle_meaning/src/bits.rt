//! Flags, bit by bit.

ghost use Rattle.std.specs.Prelude.{◌≡◌};
ghost use Rattle.bundle_meaning.specs.Bits.{is_within, is_without};

/// The bundle flags that mean the same in both versions: bits 0, 1, 2, 5, 14, 16, 17 and 18.
pub(crate) const COMMON: u64 = 0x74027;
/// The block flags that mean the same in both versions: bits 0, 1, 2 and 4.
pub(crate) const BLOCK_COMMON: u64 = 0x17;
/// The bundle flags that never stand in a record's version 6 part: the common ones, and bit 3,
/// custody.
pub(crate) const NOT_OWN6: u64 = 0x7402F;
/// The block flags that no value of version 6 has: bit 3, last block, and bit 6, has references.
pub(crate) const BLOCK_MARKS: u64 = 0x48;
/// The block flags that never stand in the version 6 part of a record's payload: the common ones, and
/// bits 3 and 6.
pub(crate) const BLOCK_NOT_OWN6: u64 = 0x5F;
/// The statuses of a report, by bit: 0 received, 2 forwarded, 3 delivered, 4 deleted.
pub(crate) const STATUSES: u64 = 0x1D;

/// Whether no flag but those of the mask is set.
pub(crate) fn is_within(flags: u64, mask: u64) -> bool
    ensures { result ≡ is_within mask flags }
{
    flags & mask == flags
}

/// Whether no flag of the mask is set.
pub(crate) fn is_without(flags: u64, mask: u64) -> bool
    ensures { result ≡ is_without mask flags }
{
    flags & mask == 0
}
