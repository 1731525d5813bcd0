//! Heads: the kind and the number that each item begins with.
ghost use Rattle.std.specs.Prelude.{◌≡◌, ◌↔◌, ◌≤◌, ◌^◌, ℕ, length, take, IfOk};
ghost use Rattle.std.specs.Int.{w8, w16, w32, w64};
ghost use Rattle.cbor_lite.specs.Head.{SpellsHead, HeadFault, kind_of, any_head_at, head_at};
ghost use Rattle.cbor_lite.specs.Head.{number_at, number_in, shortest};
ghost use Rattle.cbor_lite.specs.declared.fault.CborFault.{CborFault};
ghost use Rattle.cbor_lite.specs.declared.head.Head.{Head};

use crate::fault::CborFault;

/// The head of an item: its kind, which CBOR calls the major type, 0 to 7, and the number that it
/// says.
#[derive(Clone, Copy, Debug, PartialEq, Eq, Drop)]
pub struct Head {
    pub major: u8,
    pub value: u64,
}

/// Reads the head of an item, whatever its kind, and how many octets it has. It is refused as
/// `Kind` only where its additional information is 28 to 31.
pub fn read_head(bytes: &[u8]) -> Result<(Head, usize), CborFault>
    // What is read is spelled so.
    ensures found { IfOk result (λ x. (x.1 ≤ length bytes.now)
        × SpellsHead x.0.major (take x.1 bytes.now) x.0.value) }
    // What is spelled so is read, whatever follows.
    ensures only { (h : Head) (k : ℕ) → k ≤ length bytes.now
        → SpellsHead h.major (take k bytes.now) h.value → result ≡ Ok (h, k) }
    ensures fault { (e : CborFault) → (result ≡ Err e)
        ↔ HeadFault (kind_of bytes.now) bytes.now e }
    ensures exact { result ≡ any_head_at bytes.now }
{
    any_head(bytes)
}

/// Reads the head of an item of this kind, 0 to 7, and how many octets it has. What this says of
/// the octets stands at `read_uint` and `read_array`, whose kinds are 0 and 4.
#[inline(always)]
pub fn read_head_of(kind: u8, bytes: &[u8]) -> Result<(u64, usize), CborFault>
    ensures { result ≡ head_at kind bytes.now }
{
    head_of(kind, bytes)
}

fn any_head(bytes: &[u8]) -> Result<(Head, usize), CborFault>
    ensures { result ≡ any_head_at bytes.now }
{
    let major = first_kind(bytes);
    let (value, size) = head_of(major, bytes)?;
    Ok((Head { major, value }, size))
}

/// The kind in the first octet, which without one matters to nobody.
fn first_kind(bytes: &[u8]) -> u8
    ensures { result ≡ kind_of bytes.now }
{
    match bytes.split_first() {
        Some((first, _)) => *first / 32,
        None => 0,
    }
}

#[inline(always)]
#[tactic(auto, unfolding(crate::specs::Head::head_at))]
fn head_of(kind: u8, bytes: &[u8]) -> Result<(u64, usize), CborFault>
    ensures { result ≡ head_at kind bytes.now }
{
    match bytes.split_first() {
        None => Err(CborFault::Short),
        Some((first, rest)) if *first / 32 == kind => number(*first % 32, rest),
        Some(_) => Err(CborFault::Kind),
    }
}

/// The number of a head with this additional information, and how many octets the head has. Most numbers
/// stand in the first octet, so only the others are left to a call.
#[inline(always)]
fn number(information: u8, rest: &[u8]) -> Result<(u64, usize), CborFault>
    ensures { result ≡ number_at information rest.now }
{
    if information < 24 {
        Ok((u64::from(information), 1))
    } else {
        number_behind(information, rest)
    }
}

/// The same of a number that stands in the octets after the first. Room for a call's result is cleared
/// where its caller begins: here that is on this way alone.
#[inline(always)]
fn number_behind(information: u8, rest: &[u8]) -> Result<(u64, usize), CborFault>
    requires { 24 ≤ information }
    ensures { result ≡ number_at information rest.now }
{
    wide_number(information, rest)
}

/// The same, called.
#[inline(never)]
fn wide_number(information: u8, rest: &[u8]) -> Result<(u64, usize), CborFault>
    requires { 24 ≤ information }
    ensures { result ≡ number_at information rest.now }
{
    match information {
        24 => in_one_octet(rest),
        25 => in_two_octets(rest),
        26 => in_four_octets(rest),
        27 => in_eight_octets(rest),
        _ => Err(CborFault::Kind),
    }
}

fn in_one_octet(rest: &[u8]) -> Result<(u64, usize), CborFault>
    ensures { result ≡ number_in w8 24 rest.now }
{
    match rest.first_chunk::<1>() {
        Some(octets) => needed(24, 2, u64::from(u8::from_be_bytes(*octets))),
        None => Err(CborFault::Short),
    }
}

fn in_two_octets(rest: &[u8]) -> Result<(u64, usize), CborFault>
    ensures { result ≡ number_in w16 (2 ^ 8) rest.now }
{
    match rest.first_chunk::<2>() {
        Some(octets) => needed(1 << 8, 3, u64::from(u16::from_be_bytes(*octets))),
        None => Err(CborFault::Short),
    }
}

fn in_four_octets(rest: &[u8]) -> Result<(u64, usize), CborFault>
    ensures { result ≡ number_in w32 (2 ^ 16) rest.now }
{
    match rest.first_chunk::<4>() {
        Some(octets) => needed(1 << 16, 5, u64::from(u32::from_be_bytes(*octets))),
        None => Err(CborFault::Short),
    }
}

fn in_eight_octets(rest: &[u8]) -> Result<(u64, usize), CborFault>
    ensures { result ≡ number_in w64 (2 ^ 32) rest.now }
{
    match rest.first_chunk::<8>() {
        Some(octets) => needed(1 << 32, 9, u64::from_be_bytes(*octets)),
        None => Err(CborFault::Short),
    }
}

/// A number that was read has to need its octets: each below `least` has a shorter head.
fn needed(least: u64, size: usize, value: u64) -> Result<(u64, usize), CborFault>
    ensures { result ≡ shortest least size value }
{
    if value < least {
        Err(CborFault::NotShortest)
    } else {
        Ok((value, size))
    }
}
