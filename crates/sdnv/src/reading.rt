//! A number at the front of a text.

ghost use Rattle.std.specs.Prelude.{◌≡◌, ◌↔◌, ℕ, ◌+◌, ◌*◌, ◌^◌, ◌<◌, ◌≤◌, length, take, IfOk};
ghost use Rattle.sdnv.specs.Spelling.{Spells};
ghost use Rattle.sdnv.specs.Reading.{judged, read_of, IsShort, IsTooLong, IsTooLarge};

use crate::MOST;
use crate::fault::SdnvFault;

/// Reads the number at the front, and how many octets spell it (RFC 5050, section 4.1). More may
/// follow. No memory is taken.
pub fn read(bytes: &[u8]) -> Result<(u64, usize), SdnvFault>
    // What is read is spelled so.
    ensures found { IfOk result (λ x. (x.1 ≤ length bytes.now) × Spells (take x.1 bytes.now) x.0) }
    // What is spelled so is read, whatever follows it.
    ensures only { (n k : ℕ) → k ≤ length bytes.now → Spells (take k bytes.now) n
        → result ≡ Ok (n, k) }
    // Each fault comes if and only if it is true.
    ensures short { (result ≡ Err SdnvFault.Short) ↔ IsShort bytes.now }
    ensures too_long { (result ≡ Err SdnvFault.TooLong) ↔ IsTooLong bytes.now }
    ensures too_large { (result ≡ Err SdnvFault.TooLarge) ↔ IsTooLarge bytes.now }
    // All of this is one function of the octets.
    ensures exact { result ≡ read_of bytes.now }
{
    first_number(bytes)
}

/// Adds up the groups until an octet ends the number. Nine of them stay below 2^63.
#[inline(never)]
fn first_number(bytes: &[u8]) -> Result<(u64, usize), SdnvFault>
    ensures { result ≡ read_of bytes.now }
{
    let most = bytes.len().min(MOST - 1);
    let mut value: u64 = 0;
    for i in 0..most {
        let octet = bytes[i];
        value = value * 128 + (octet % 128) as u64;
        if octet < 128 {
            return Ok((value, i + 1));
        }
    }
    if bytes.len() < MOST {
        return Err(SdnvFault::Short);
    }
    tenth(value, bytes[MOST - 1])
}

/// The number that the tenth octet ends, if it does, after nine groups of this value.
fn tenth(value: u64, octet: u8) -> Result<(u64, usize), SdnvFault>
    requires { value < 2 ^ 63 }
    ensures goes_on { 128 ≤ octet → result ≡ Err SdnvFault.TooLong }
    ensures ends { octet < 128 → result ≡ judged (value * 128 + octet) 10 }
{
    if octet >= 128 {
        return Err(SdnvFault::TooLong);
    }
    if value >= 1 << 57 {
        return Err(SdnvFault::TooLarge);
    }
    Ok((value * 128 + octet as u64, MOST))
}
