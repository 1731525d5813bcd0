//! Hex that is read.
ghost use Rattle.std.specs.Prelude.{◌≡◌, true, is_ok, Ok, IfOk};
ghost use Rattle.std.specs.List.{list_all};
ghost use Rattle.hex.specs.Hex.{decode_of, is_hex_digit};

use std::alloc::{AllocError, Global};

/// Whether a text is hex: an even number of digits of either case. It takes no memory.
pub fn is_hex(text: &[u8]) -> bool
    ensures { result ≡ is_ok (decode_of text.now) }
{
    text.len() % 2 == 0 && are_digits(text)
}

/// Whether each octet is a hex digit. Each is looked at, so that the pass has no branch.
fn are_digits(text: &[u8]) -> bool
    ensures { result ≡ list_all is_hex_digit text.now }
{
    let mut all = true;
    'digits: for octet in text {
        all &= is_digit(*octet);
    }
    all
}

/// Whether an octet is a hex digit, of either case.
fn is_digit(octet: u8) -> bool
    ensures { result ≡ is_hex_digit octet }
{
    octet.is_ascii_hexdigit()
}

/// The octets of a text that is hex. It fails only for want of memory.
pub fn octets_of(alloc: Global, text: &[u8]) -> Result<Vec<u8>, AllocError>
    requires { is_ok (decode_of text.now) ≡ true }
    ensures { IfOk result (λ octets. decode_of text.now ≡ Ok octets.items) }
{
    match hex::decode(alloc, text) {
        Ok(octets) => Ok(octets),
        Err(_) => Err(AllocError),
    }
}
