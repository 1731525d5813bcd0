//! Octets in hex.

ghost use Rattle.std.specs.Prelude.{◌≡◌, true, is_some, Some, IfOk};
ghost use Rattle.replay_script.specs.Events.{hex_of};

use endpoint::Octets;
use std::alloc::{AllocError, Global};

/// Whether a text is hex: an even number of digits. It takes no memory.
pub(crate) fn is_hex(text: &[u8]) -> bool
    ensures { result ≡ is_some (hex_of text.now) }
{
    hex_text::is_hex(text)
}

/// The octets of a text that is hex.
pub(crate) fn octets_in(alloc: Global, text: &[u8]) -> Result<Octets, AllocError>
    requires { is_some (hex_of text.now) ≡ true }
    ensures { IfOk result (λ octets. hex_of text.now ≡ Some octets) }
{
    let octets = hex_text::octets_of(alloc, text)?;
    Ok(Octets::from_vec(octets))
}
