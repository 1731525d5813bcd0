//! What all tables share: octets in hex, blocks, lines, and failures that say what isn't so.

use std::alloc::{AllocError, Global};
use std::fmt::Write;
use std::test::Fail;

/// Fails with these words where something isn't so.
pub(crate) fn is_so(so: bool, what: &'static str) -> Result<(), Fail> {
    if so { Ok(()) } else { Err(Fail::new(what)) }
}

/// Fails where lines aren't those that a row has.
pub(crate) fn are_lines(text: &str, wanted: &'static str) -> Result<(), Fail> {
    if text == wanted {
        return Ok(());
    }
    Err(Fail::new(format_args!("{text}in place of\n{wanted}")))
}

/// The octets that a row writes in hex.
pub(crate) fn octets(alloc: Global, text: &str) -> Result<Vec<u8>, Fail> {
    match hex::decode(alloc, text.as_bytes()) {
        Ok(octets) => Ok(octets),
        Err(_) => Err(Fail::new("a row isn't hex")),
    }
}

/// A block of so many octets, of which no two that are near each other are alike.
pub(crate) fn block(alloc: Global, size: u64) -> Result<Vec<u8>, AllocError> {
    let mut octets = Vec::new(alloc);
    for i in 0..size {
        octets.push((i % 251) as u8)?;
    }
    Ok(octets)
}

/// Appends these words, one right after the other.
pub(crate) fn write_words(text: &mut String, words: &[&str]) -> Result<(), AllocError> {
    for word in words {
        text.push_str(word)?;
    }
    Ok(())
}

/// Appends numbers, each after a blank.
pub(crate) fn write_numbers(text: &mut String, numbers: &[u64]) -> Result<(), AllocError> {
    for number in numbers {
        write!(text, " {number}")?;
    }
    Ok(())
}

/// Appends octets in hex, after a blank, and ends the line.
pub(crate) fn write_octets(
    alloc: Global,
    text: &mut String,
    octets: &[u8],
) -> Result<(), AllocError> {
    let digits = hex::encode(alloc, octets)?;
    write_words(text, &[" ", digits.as_str(), "\n"])
}
