//! The lines that are written.
ghost use Rattle.std.specs.Prelude.{◌≡◌, ◌++◌, OnOk};
ghost use Rattle.std.specs.String.{string_bytes};
ghost use Rattle.bundle_runs.specs.Legal.{IsLegal};
ghost use Rattle.bundle_runs.specs.WrittenLines.{check_line, show_line, refused_line, turned_down_line};

use crate::front::Bundle;
use bundle_json::{write6, write7};
use std::alloc::AllocError;

/// The version of a bundle, and how many octets it has.
pub fn write_check(text: &mut String, version: u8, size: usize) -> Result<(), AllocError>
    ensures { OnOk result (string_bytes text.new ≡ string_bytes text.old ++ check_line version size) }
{
    write!(text, "{version} {size}\n")
}

/// A bundle's values as JSON.
pub fn write_show(text: &mut String, bundle: &Bundle) -> Result<(), AllocError>
    requires { IsLegal bundle.now }
    ensures { OnOk result (string_bytes text.new ≡ string_bytes text.old ++ show_line bundle.now) }
{
    match bundle {
        Bundle::Six(bundle) => write6(text, bundle)?,
        Bundle::Seven(bundle) => write7(text, bundle)?,
    }
    text.push_str("\n")
}

/// Bundle `number` is valid, and is refused.
pub fn write_turned_down(text: &mut String, number: u64, word: &str) -> Result<(), AllocError>
    ensures { OnOk result (string_bytes text.new ≡ string_bytes text.old ++ turned_down_line number word.now) }
{
    write!(text, "refused {number} {word}\n")
}

/// Bundle `number` is invalid, by the field at this place of the input.
pub fn write_refused(
    text: &mut String,
    number: u64,
    at: usize,
    word: &str,
) -> Result<(), AllocError>
    ensures { OnOk result (string_bytes text.new ≡ string_bytes text.old ++ refused_line number at word.now) }
{
    write!(text, "refused {number} {at} {word}\n")
}
