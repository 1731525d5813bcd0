//! The shortest spelling of a number.

ghost use Rattle.std.specs.Prelude.{◌≡◌, ℕ, ◌+◌, ◌^◌, ◌<◌, ◌≤◌, ◌++◌, length, drop, OnOk, OnErr};
ghost use Rattle.std.specs.Prelude.{vec_len, vec_capacity};
ghost use Rattle.sdnv.specs.Shortest.{spelling, IsShortest, ReadsBack};

use crate::MOST;
use std::alloc::AllocError;

/// Appends the shortest spelling of a number (RFC 5050, section 4.1). Memory is wanted only where
/// there is no room for it; where it runs out, all is as before.
pub fn write(value: u64, out: &mut Vec<u8>) -> Result<(), AllocError>
    ensures ok { OnOk result (out.new.items ≡ out.old.items ++ spelling value) }
    ensures err { OnErr result (out.new.items ≡ out.old.items) }
    // Memory is wanted only where there is no room.
    ensures full { OnErr result (vec_capacity out.old < vec_len out.old + length (spelling value)) }
    ensures capacity { vec_capacity out.old ≤ vec_capacity out.new }
{
    let (octets, at) = spell(value);
    out.extend_from_slice(&octets[at..])?;
    Ok(())
}

/// How many octets the shortest spelling of a number has. No memory is taken.
pub fn len(value: u64) -> usize
    ensures { result ≡ length (spelling value) }
{
    let mut octets = 1;
    let mut rest = value / 128;
    'counting: while rest > 0 {
        octets += 1;
        rest /= 128;
    }
    octets
}

/// What `write` appends spells its number, no other text does so in as few octets, and `read` gives
/// the number back, whatever follows.
pub fn spells_shortest()
    ensures shortest { (n : ℕ) → n < 2 ^ 64 → IsShortest (spelling n) n }
    ensures again { (n : ℕ) → n < 2 ^ 64 → ReadsBack (spelling n) n }
{}

/// The shortest spelling, at the end of ten octets, and where in them it begins.
fn spell(value: u64) -> ([u8; MOST], usize)
    ensures within { result.1 < 10 }
    ensures spelled { drop result.1 result.0 ≡ spelling value }
{
    let mut octets = [0; MOST];
    let mut at = MOST - 1;
    octets[at] = (value % 128) as u8;
    let mut rest = value / 128;
    'filling: while rest > 0 {
        at -= 1;
        octets[at] = (rest % 128) as u8 + 128;
        rest /= 128;
    }
    (octets, at)
}
