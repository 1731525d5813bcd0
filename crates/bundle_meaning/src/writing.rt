//! Fields of private bodies, written.

ghost use Rattle.std.specs.Prelude.{◌≡◌, ◌++◌, ◌^◌, ◌<◌, length, IfOk, OnOk};
ghost use Rattle.bundle_meaning.specs.Blocks.{mark};
ghost use Rattle.bundle_meaning.specs.Body.{numbers_octets, name_octets};

use crate::field::MARK;
use endpoint::Endpoint;
use std::alloc::{AllocError, Global};

/// The most octets that a number has.
pub(crate) const NUMBER: usize = 10;

/// A body with its mark, and room for so many octets more.
pub(crate) fn begin(alloc: Global, room: usize) -> Result<Vec<u8>, AllocError>
    ensures { IfOk result (λ out. out.items ≡ mark) }
{
    let mut out = Vec::with_capacity(alloc, room.saturating_add(MARK.len()))?;
    out.extend_from_slice(MARK.as_slice())?;
    Ok(out)
}

/// Appends numbers, each in as few octets as can be.
pub(crate) fn write_numbers(numbers: &[u64], out: &mut Vec<u8>) -> Result<(), AllocError>
    ensures { OnOk result (out.new.items ≡ out.old.items ++ numbers_octets numbers.now) }
{
    for number in numbers {
        sdnv::write(*number, out)?;
    }
    Ok(())
}

/// Appends an endpoint: the length of its text, and the text.
pub(crate) fn write_name(
    alloc: Global,
    endpoint: &Endpoint,
    out: &mut Vec<u8>,
) -> Result<(), AllocError>
    ensures { OnOk result (out.new.items ≡ out.old.items ++ name_octets endpoint.now) }
{
    let text = endpoint.to_text(alloc)?;
    sdnv::write(text.len() as u64, out)?;
    out.extend_from_slice(text.as_slice())?;
    Ok(())
}
