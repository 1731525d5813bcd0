//! What the tables share: octets and bundles that are written in hex, and texts of several lines.

ghost use Rattle.std.specs.Prelude.{IfOk};
ghost use Rattle.bundle6.specs.Legal.{IsLegal};
ghost use Rattle.bundle7.specs.Legal.{IsLegal7};

use bundle6::{Bundle6, decode6};
use bundle7::{Bundle7, decode7};
use endpoint::Octets;
use std::alloc::Global;
use std::test::Fail;

/// The octets that a row writes in hex.
pub(crate) fn octets(alloc: Global, text: &str) -> Result<Vec<u8>, Fail> {
    match hex::decode(alloc, text.as_bytes()) {
        Ok(octets) => Ok(octets),
        Err(_) => Err(Fail::new("a row isn't hex")),
    }
}

/// Whether octets are those that a row writes in hex.
pub(crate) fn is(alloc: Global, given: &Octets, text: &str) -> Result<bool, Fail> {
    Ok(given.as_slice() == octets(alloc, text)?.as_slice())
}

/// The bundle of version 6 that a row writes in hex.
pub(crate) fn six(alloc: Global, text: &str) -> Result<Bundle6, Fail>
    ensures { IfOk result IsLegal }
{
    match decode6(alloc, &octets(alloc, text)?) {
        Ok((bundle, _)) => Ok(bundle),
        Err(_) => Err(Fail::new("a row is no bundle of version 6")),
    }
}

/// The bundle of version 7 that a row writes in hex.
pub(crate) fn seven(alloc: Global, text: &str) -> Result<Bundle7, Fail>
    ensures { IfOk result IsLegal7 }
{
    match decode7(alloc, &octets(alloc, text)?) {
        Ok((bundle, _)) => Ok(bundle),
        Err(_) => Err(Fail::new("a row is no bundle of version 7")),
    }
}

/// Whether a text is exactly these lines.
pub(crate) fn are_lines(text: &str, lines: &[&str]) -> bool {
    let mut rest = text;
    for line in lines {
        match after_line(rest, line) {
            Some(after) => rest = after,
            None => return false,
        }
    }
    rest.is_empty()
}

/// What follows a line in front of a text, if it stands there.
fn after_line<'t>(text: &'t str, line: &str) -> Option<&'t str> {
    text.strip_prefix(line)?.strip_prefix("\n")
}
