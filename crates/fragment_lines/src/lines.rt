//! The lines that are written.

ghost use Rattle.std.specs.Prelude.{◌≡◌, ◌++◌, codes, OnOk};
ghost use Rattle.std.specs.String.{string_bytes};
ghost use Rattle.fragment_lines.specs.Lines.{hex_line};

use std::alloc::AllocError;

/// Octets in hex of lower case, as a line.
pub(crate) fn write_hex_line(text: &mut String, octets: &[u8]) -> Result<(), AllocError>
    ensures { OnOk result (string_bytes text.new ≡ string_bytes text.old ++ hex_line octets.now) }
{
    hex_text::write_hex(text, octets)?;
    text.push_str("\n")
}

/// A word as a line.
pub(crate) fn write_word(text: &mut String, word: &str) -> Result<(), AllocError>
    ensures { OnOk result (string_bytes text.new ≡ string_bytes text.old ++ (word.now ++ codes "\n")) }
{
    write!(text, "{word}\n")
}
