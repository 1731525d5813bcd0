//! Readers of items.
ghost use Rattle.std.specs.Prelude.{◌≡◌, ◌↔◌, ◌<◌, ◌≤◌, ◌+◌, ◌∷◌, [], ℕ, Bool, List, length, take};
ghost use Rattle.std.specs.Prelude.{IfOk, MatchResult, Err, Ok};
ghost use Rattle.cbor_lite.specs.Head.{SpellsHead, HeadFault, head_at};
ghost use Rattle.cbor_lite.specs.Item.{SpellsString, StringFault, string_at, lent, boolean, break};
ghost use Rattle.cbor_lite.specs.Item.{BooleanFault, BreakFault, boolean_at, break_at};
ghost use Rattle.cbor_lite.specs.declared.fault.CborFault.{CborFault};

use crate::fault::CborFault;
use crate::head::read_head_of;

/// The kind of unsigned numbers.
pub(crate) const UNSIGNED: u8 = 0;
/// The kind of byte strings.
pub(crate) const BYTES: u8 = 2;
/// The kind of text strings.
pub(crate) const TEXT: u8 = 3;
/// The kind of arrays.
pub(crate) const ARRAY: u8 = 4;

/// Reads an unsigned number, and how many octets it has.
pub fn read_uint(bytes: &[u8]) -> Result<(u64, usize), CborFault>
    // What is read is spelled so.
    ensures found { IfOk result (λ x. (x.1 ≤ length bytes.now)
        × SpellsHead 0 (take x.1 bytes.now) x.0) }
    // What is spelled so is read, whatever follows.
    ensures only { (n : ℕ) (k : ℕ) → k ≤ length bytes.now
        → SpellsHead 0 (take k bytes.now) n → result ≡ Ok (n, k) }
    ensures fault { (e : CborFault) → (result ≡ Err e) ↔ HeadFault 0 bytes.now e }
    ensures exact { result ≡ head_at 0 bytes.now }
{
    head_of_kind(UNSIGNED, bytes)
}

/// Reads the head of an array, which says how many items follow, and how many octets the head has.
pub fn read_array(bytes: &[u8]) -> Result<(u64, usize), CborFault>
    // What is read is spelled so.
    ensures found { IfOk result (λ x. (x.1 ≤ length bytes.now)
        × SpellsHead 4 (take x.1 bytes.now) x.0) }
    // What is spelled so is read, whatever follows.
    ensures only { (n : ℕ) (k : ℕ) → k ≤ length bytes.now
        → SpellsHead 4 (take k bytes.now) n → result ≡ Ok (n, k) }
    ensures fault { (e : CborFault) → (result ≡ Err e) ↔ HeadFault 4 bytes.now e }
    ensures exact { result ≡ head_at 4 bytes.now }
{
    head_of_kind(ARRAY, bytes)
}

/// Reads a byte string, and how many octets it has with its head.
pub fn read_bytes(bytes: &[u8]) -> Result<(&[u8], usize), CborFault>
    // What is read is spelled so.
    ensures found { IfOk result (λ x. (x.1 ≤ length bytes.now)
        × SpellsString 2 (take x.1 bytes.now) x.0.now) }
    // What is spelled so is read, whatever follows.
    ensures only { (body : List ℕ) (k : ℕ) → k ≤ length bytes.now
        → SpellsString 2 (take k bytes.now) body → lent result ≡ Ok (body, k) }
    ensures fault { (e : CborFault) → (result ≡ Err e) ↔ StringFault 2 bytes.now e }
    ensures exact { lent result ≡ string_at 2 bytes.now }
{
    read_string(BYTES, bytes)
}

/// Reads a text string, and how many octets it has with its head. Whether the octets are text isn't
/// tested.
pub fn read_text(bytes: &[u8]) -> Result<(&[u8], usize), CborFault>
    // What is read is spelled so.
    ensures found { IfOk result (λ x. (x.1 ≤ length bytes.now)
        × SpellsString 3 (take x.1 bytes.now) x.0.now) }
    // What is spelled so is read, whatever follows.
    ensures only { (body : List ℕ) (k : ℕ) → k ≤ length bytes.now
        → SpellsString 3 (take k bytes.now) body → lent result ≡ Ok (body, k) }
    ensures fault { (e : CborFault) → (result ≡ Err e) ↔ StringFault 3 bytes.now e }
    ensures exact { lent result ≡ string_at 3 bytes.now }
{
    read_string(TEXT, bytes)
}

/// The head of an item of this kind, with what that says of the octets.
fn head_of_kind(kind: u8, bytes: &[u8]) -> Result<(u64, usize), CborFault>
    ensures found { IfOk result (λ x. (x.1 ≤ length bytes.now)
        × SpellsHead kind (take x.1 bytes.now) x.0) }
    ensures only { (n k : ℕ) → k ≤ length bytes.now
        → SpellsHead kind (take k bytes.now) n → result ≡ Ok (n, k) }
    ensures fault { (e : CborFault) → (result ≡ Err e) ↔ HeadFault kind bytes.now e }
    ensures exact { result ≡ head_at kind bytes.now }
{
    read_head_of(kind, bytes)
}

fn read_string(kind: u8, bytes: &[u8]) -> Result<(&[u8], usize), CborFault>
    ensures { lent result ≡ string_at kind bytes.now }
{
    let (size, start) = head_of_kind(kind, bytes)?;
    let rest = &bytes[start..];
    if (rest.len() as u64) < size {
        return Err(CborFault::Short);
    }
    Ok((&rest[..size as usize], start + size as usize))
}

/// Reads a boolean, which has one octet.
pub fn read_bool(bytes: &[u8]) -> Result<(bool, usize), CborFault>
    ensures found { IfOk result (λ x. (x.1 ≤ length bytes.now)
        × (take x.1 bytes.now ≡ boolean x.0 ∷ [])) }
    ensures only { (b : Bool) (k : ℕ) → k ≤ length bytes.now
        → take k bytes.now ≡ boolean b ∷ [] → result ≡ Ok (b, k) }
    ensures fault { (e : CborFault) → (result ≡ Err e) ↔ BooleanFault bytes.now e }
    ensures exact { result ≡ boolean_at bytes.now }
{
    match bytes.split_first() {
        None => Err(CborFault::Short),
        Some((0xF4, _)) => Ok((false, 1)),
        Some((0xF5, _)) => Ok((true, 1)),
        Some(_) => Err(CborFault::Kind),
    }
}

/// Reads the octet that ends an array without a length.
pub fn read_break(bytes: &[u8]) -> Result<usize, CborFault>
    ensures found { IfOk result (λ k. (k ≤ length bytes.now) × (take k bytes.now ≡ break ∷ [])) }
    ensures only { (k : ℕ) → k ≤ length bytes.now → take k bytes.now ≡ break ∷ []
        → result ≡ Ok k }
    ensures fault { (e : CborFault) → (result ≡ Err e) ↔ BreakFault bytes.now e }
    ensures exact { result ≡ break_at bytes.now }
{
    match bytes.split_first() {
        None => Err(CborFault::Short),
        Some((0xFF, _)) => Ok(1),
        Some(_) => Err(CborFault::Kind),
    }
}
