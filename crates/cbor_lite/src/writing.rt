//! Writers of items.
ghost use Rattle.std.specs.Prelude.{◌≡◌, ◌+◌, ◌<◌, ◌≤◌, ◌++◌, ◌∷◌, [], length, OnOk, OnErr};
ghost use Rattle.std.specs.Prelude.{vec_len, vec_capacity};
ghost use Rattle.cbor_lite.specs.Head.{head};
ghost use Rattle.cbor_lite.specs.Item.{string, boolean};

use crate::reading::{ARRAY, BYTES, TEXT, UNSIGNED};
use std::alloc::AllocError;

/// Appends an unsigned number.
pub fn write_uint(value: u64, out: &mut Vec<u8>) -> Result<(), AllocError>
    ensures written { OnOk result (out.new.items ≡ out.old.items ++ head 0 value) }
    ensures kept { OnErr result (out.new.items ≡ out.old.items) }
    // Memory is wanted only where there is no room.
    ensures full { OnErr result (vec_capacity out.old < vec_len out.old + length (head 0 value)) }
{
    write_head(UNSIGNED, value, out)
}

/// Appends the head of an array with this number of items.
pub fn write_array(items: u64, out: &mut Vec<u8>) -> Result<(), AllocError>
    ensures written { OnOk result (out.new.items ≡ out.old.items ++ head 4 items) }
    ensures kept { OnErr result (out.new.items ≡ out.old.items) }
    // Memory is wanted only where there is no room.
    ensures full { OnErr result (vec_capacity out.old < vec_len out.old + length (head 4 items)) }
{
    write_head(ARRAY, items, out)
}

/// Appends a byte string.
pub fn write_bytes(value: &[u8], out: &mut Vec<u8>) -> Result<(), AllocError>
    ensures written { OnOk result (out.new.items ≡ out.old.items ++ string 2 value.now) }
    ensures kept { OnErr result (out.new.items ≡ out.old.items) }
    // Memory is wanted only where there is no room.
    ensures full { OnErr result (vec_capacity out.old < vec_len out.old + length (string 2 value.now)) }
{
    write_string(BYTES, value, out)
}

/// Appends a text string; the octets are not tested as text.
pub fn write_text(value: &[u8], out: &mut Vec<u8>) -> Result<(), AllocError>
    ensures written { OnOk result (out.new.items ≡ out.old.items ++ string 3 value.now) }
    ensures kept { OnErr result (out.new.items ≡ out.old.items) }
    // Memory is wanted only where there is no room.
    ensures full { OnErr result (vec_capacity out.old < vec_len out.old + length (string 3 value.now)) }
{
    write_string(TEXT, value, out)
}

/// Appends a boolean.
pub fn write_bool(value: bool, out: &mut Vec<u8>) -> Result<(), AllocError>
    ensures written { OnOk result (out.new.items ≡ out.old.items ++ boolean value ∷ []) }
    ensures kept { OnErr result (out.new.items ≡ out.old.items) }
    // Memory is wanted only where there is no room.
    ensures full { OnErr result (vec_capacity out.old ≤ vec_len out.old) }
{
    out.push(if value { 0xF5 } else { 0xF4 })?;
    Ok(())
}

/// Appends a string; where its content doesn't fit after its head, the head is taken back.
fn write_string(kind: u8, value: &[u8], out: &mut Vec<u8>) -> Result<(), AllocError>
    requires { kind < 8 }
    ensures written { OnOk result (out.new.items ≡ out.old.items ++ string kind value.now) }
    ensures kept { OnErr result (out.new.items ≡ out.old.items) }
    // Memory is wanted only where there is no room.
    ensures full { OnErr result (vec_capacity out.old < vec_len out.old + length (string kind value.now)) }
{
    let before = out.len();
    write_head(kind, value.len() as u64, out)?;
    let written = out.extend_from_slice(value);
    if written.is_err() {
        out.truncate(before);
    }
    written
}

/// Appends the shortest head of this kind that says the value.
pub fn write_head(kind: u8, value: u64, out: &mut Vec<u8>) -> Result<(), AllocError>
    requires { kind < 8 }
    ensures written { OnOk result (out.new.items ≡ out.old.items ++ head kind value) }
    ensures kept { OnErr result (out.new.items ≡ out.old.items) }
    // Memory is wanted only where there is no room.
    ensures full { OnErr result (vec_capacity out.old < vec_len out.old + length (head kind value)) }
    ensures capacity { vec_capacity out.old ≤ vec_capacity out.new }
{
    let first = kind * 32;
    if value < 24 {
        out.extend_from_slice(&[first + value as u8])
    } else if value < 1 << 8 {
        out.extend_from_slice(&[first + 24, value as u8])
    } else if value < 1 << 16 {
        let [a, b] = (value as u16).to_be_bytes();
        out.extend_from_slice(&[first + 25, a, b])
    } else if value < 1 << 32 {
        let [a, b, c, d] = (value as u32).to_be_bytes();
        out.extend_from_slice(&[first + 26, a, b, c, d])
    } else {
        let [a, b, c, d, e, f, g, h] = value.to_be_bytes();
        out.extend_from_slice(&[first + 27, a, b, c, d, e, f, g, h])
    }
}
