//! Hex that is written.
ghost use Rattle.std.specs.Prelude.{◌≡◌, ◌++◌, ◌≤◌, length, OnOk};
ghost use Rattle.std.specs.String.{string_bytes};
ghost use Rattle.hex.specs.Hex.{encode_lower};
ghost use Rattle.hex_text.specs.declared.writing.TheConstants.{AT_A_TIME};

use std::alloc::AllocError;
use std::str;

/// How many octets are made hex at a time.
const AT_A_TIME: usize = 64;

/// Appends octets in hex of lower case. Where memory runs out, a part of it may stand there.
pub fn write_hex(text: &mut String, octets: &[u8]) -> Result<(), AllocError>
    ensures { OnOk result (string_bytes text.new ≡ string_bytes text.old ++ encode_lower octets.now) }
{
    text.reserve(octets.len().saturating_mul(2))?;
    let mut rest = octets;
    'pieces: while !rest.is_empty() {
        let (piece, more) = rest.split_at(rest.len().min(AT_A_TIME));
        write_piece(text, piece)?;
        rest = more;
    }
    Ok(())
}

/// The same for a few octets.
fn write_piece(text: &mut String, octets: &[u8]) -> Result<(), AllocError>
    requires { length octets.now ≤ AT_A_TIME }
    ensures { OnOk result (string_bytes text.new ≡ string_bytes text.old ++ encode_lower octets.now) }
{
    let mut room = [0u8; 2 * AT_A_TIME];
    let digits = &mut room[..2 * octets.len()];
    hex::encode_to_slice(octets, digits).unwrap();
    text.push_str(str::from_utf8(digits).unwrap())
}
