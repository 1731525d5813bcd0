//! Where the texts that `serde_json` writes are cut, and a block's octets, which go in there.
ghost use Rattle.std.specs.Prelude.{◌≡◌, ◌++◌, List, ℕ, OnOk};
ghost use Rattle.std.specs.String.{string_bytes};
ghost use Rattle.hex_text.specs.Hex.{IsBytes, encode_lower};

use hex_text::write_hex;
use std::alloc::AllocError;

/// What an object begins with, up to its first block.
pub(crate) const BLOCKS: &str = r#"{"blocks":["#;

/// What an object begins with that has one block, up to the octets of the block.
pub(crate) const LAST: &str = r#"{"blocks":[{"body":""#;

/// What a block begins with, up to its octets.
pub(crate) const BODY: &str = r#"{"body":""#;

/// What stands after the last reference of a block.
pub(crate) const REFS_END: &str = "]}";

/// Appends what stands in another text between its front and its end.
pub(crate) fn write_between(
    text: &mut String,
    whole: &str,
    front: &str,
    end: &str,
) -> Result<(), AllocError>
    ensures { (middle : List ℕ) → whole.now ≡ front.now ++ (middle ++ end.now)
        → OnOk result (string_bytes text.new ≡ string_bytes text.old ++ middle) }
{
    text.push_str(between(whole, front, end))
}

/// What stands in a text between its front and its end.
fn between<'a>(text: &'a str, front: &str, end: &str) -> &'a str
    ensures { (middle : List ℕ) → text.now ≡ front.now ++ (middle ++ end.now) → result.now ≡ middle }
{
    match text.strip_prefix(front) {
        Some(rest) => rest.strip_suffix(end).unwrap_or(""),
        None => "",
    }
}

/// Appends the octets of a block in hex.
pub(crate) fn write_octets(text: &mut String, octets: &[u8]) -> Result<(), AllocError>
    ensures written { OnOk result (string_bytes text.new ≡ string_bytes text.old ++ encode_lower octets.now) }
    // Each is below 256, so that no digit needs an escape.
    ensures small { IsBytes octets.now }
{
    write_hex(text, octets)
}
