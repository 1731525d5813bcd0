//! The check of a block of version 7, summed as the octets of the block come.

ghost use Rattle.std.specs.Prelude.{◌≡◌, ◌≤◌, length, IfOk};
ghost use Rattle.wire_fields.specs.Reading.{read};
ghost use Rattle.wire_fields.specs.Words.{exact_byte_string};
ghost use Rattle.bundle7.specs.declared.fault.Cause7.TheVariants.{Crc};
ghost use Rattle.bundle7.specs.Cause.{refused, missed};
ghost use Rattle.bundle7.specs.Check.{exact_octets};
ghost use Rattle.wire_fields.specs.Gives.{Gives};
ghost use Rattle.bundle_judges.specs.Sum7.{no_octets, with_octets, check_head, check_octets};

use bundle7::{Cause7, Refused7};
use crc_fields::{Register16, Register32};
use wire_fields::{BYTE_STRING, Miss, head_at, octets_at};

/// The octets of a block that came, summed for its check.
#[derive(Clone, Copy)]
pub(crate) enum Sum {
    /// The block has no check.
    Unchecked,
    /// The check is CRC-16 X-25.
    Short(Register16),
    /// The check is CRC-32C.
    Long(Register32),
}

impl Sum {
    /// No octet came of a block with a check of this type.
    pub(crate) fn new(crc: u8) -> Sum
        ensures { result ≡ no_octets crc }
    {
        match crc {
            0 => Sum::Unchecked,
            1 => Sum::Short(Register16::new()),
            _ => Sum::Long(Register32::new()),
        }
    }

    /// These octets too.
    #[inline(always)]
    pub(crate) fn with(self, octets: &[u8]) -> Sum
        ensures { result ≡ with_octets self octets.now }
    {
        match self {
            Sum::Unchecked => Sum::Unchecked,
            Sum::Short(register) => Sum::Short(register.update(octets)),
            Sum::Long(register) => Sum::Long(register.update(octets)),
        }
    }

    /// The head of the check at the front of some octets.
    #[inline(always)]
    pub(crate) fn head(&self, text: &[u8]) -> Result<((), usize), Refused7>
        ensures within { IfOk result (λ x. x.1 ≤ length text.now) }
        ensures exact { Gives (λ _. tt) refused result (read (check_head self.now) text.now 0) }
    {
        match self {
            Sum::Unchecked => Ok(((), 0)),
            Sum::Short(_) => {
                let (_, end) = length_of(text, 2)?;
                Ok(((), end))
            }
            Sum::Long(_) => {
                let (_, end) = length_of(text, 4)?;
                Ok(((), end))
            }
        }
    }

    /// The check itself there, of a block that is summed up to it.
    #[inline(always)]
    pub(crate) fn octets(self, text: &[u8]) -> Result<((), usize), Refused7>
        ensures within { IfOk result (λ x. x.1 ≤ length text.now) }
        ensures exact { Gives (λ _. tt) refused result (read (check_octets self) text.now 0) }
    {
        match self {
            Sum::Unchecked => Ok(((), 0)),
            Sum::Short(register) => {
                let check = register.update(&[0; 2]).finish().to_be_bytes();
                let (_, end) = exactly(text, &check)?;
                Ok(((), end))
            }
            Sum::Long(register) => {
                let check = register.update(&[0; 4]).finish().to_be_bytes();
                let (_, end) = exactly(text, &check)?;
                Ok(((), end))
            }
        }
    }
}

/// The head of a byte string of so many octets.
#[inline(always)]
fn length_of(text: &[u8], count: u64) -> Result<(u64, usize), Refused7>
    ensures within { IfOk result (λ x. x.1 ≤ length text.now) }
    ensures exact { Gives (λ n. n) refused result (read (exact_byte_string count Crc) text.now 0) }
{
    match head_at(text, 0, BYTE_STRING) {
        Ok((found, end)) if found == count => Ok((found, end)),
        Ok(_) => Err(absent(Cause7::Crc)),
        Err(miss) => Err(missed(miss, Cause7::Crc)),
    }
}

/// These octets.
#[inline(always)]
fn exactly(text: &[u8], check: &[u8]) -> Result<((), usize), Refused7>
    ensures within { IfOk result (λ x. x.1 ≤ length text.now) }
    ensures exact { Gives (λ _. check.now) refused result
        (read (exact_octets (length check.now) check.now) text.now 0) }
{
    match octets_at(text, 0, check.len() as u64) {
        Ok((found, end)) => {
            if found != check {
                return Err(absent(Cause7::Crc));
            }
            Ok(((), end))
        }
        Err(miss) => Err(missed(miss, Cause7::Crc)),
    }
}

/// A field that stands at the front is refused there.
pub(crate) fn absent(cause: Cause7) -> Refused7
    ensures { result ≡ record { at = 0; cause = cause } }
{
    Refused7 { at: 0, cause }
}

/// The same, where it isn't there: the octets end inside it, or it has this cause.
pub(crate) fn missed(miss: Miss, cause: Cause7) -> Refused7
    ensures { result ≡ missed 0 miss cause }
{
    match miss {
        Miss::Truncated => absent(Cause7::Truncated),
        Miss::Absent => absent(cause),
    }
}
