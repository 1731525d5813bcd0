//! Writing bundles.

ghost use Rattle.std.specs.Prelude.{◌≡◌, ◌++◌, ◌≤◌, ℕ, List, length, drop, IfOk, OnOk};
ghost use Rattle.bundle7.specs.Check.{check16, check32};
ghost use Rattle.bundle7.specs.Table.{is_fragment, fragment_items, check_items};
ghost use Rattle.bundle7.specs.Spelling.{eid_octets, crc_octets, with_check, part_octets, opening_octets, creation_octets, main_octets, bare_octets, primary_octets, block_octets, blocks_octets, octets7};
ghost use Rattle.bundle7.specs.Legal.{IsLegal7, Spells7, IsReadAgain};

use crate::block::Block7;
use crate::bundle::Bundle7;
use crate::check::{sixteen, thirty_two};
use crate::eid::append_eid;
use crate::primary::Primary7;
use crate::reading::{BREAK, OPEN};
use cbor_lite::{write_array, write_bytes, write_head, write_uint};
use endpoint::{Fragment, Octets};
use std::alloc::{AllocError, Global};
use wire_fields::BYTE_STRING;

/// The octets of a bundle: the one spelling of a legal bundle. Of another bundle it writes the same
/// parts in the same order, and they spell nothing.
pub fn encode7(alloc: Global, bundle: &Bundle7) -> Result<Octets, AllocError>
    ensures exact { IfOk result (λ octets. octets ≡ octets7 bundle.now) }

    // What is legal is spelled.
    ensures spelled { IsLegal7 bundle.now → IfOk result (Spells7 bundle.now) }

    // It is read again, whatever follows it.
    ensures again { IsLegal7 bundle.now → IfOk result (IsReadAgain bundle.now) }

    // What was read is written in the octets that it was read from.
    ensures same { (w : List ℕ) → Spells7 bundle.now w → IfOk result (λ octets. octets ≡ w) }
{
    spelling(alloc, bundle)
}

/// The octets of a bundle.
#[tactic(auto, unfolding(crate::specs::Spelling::octets7))]
fn spelling(alloc: Global, bundle: &Bundle7) -> Result<Octets, AllocError>
    ensures { IfOk result (λ o. o ≡ octets7 bundle.now) }
{
    let room = bundle.payload.body.len().saturating_add(256);
    let mut out = Vec::with_capacity(alloc, room)?;
    out.push(OPEN)?;
    append_primary(&bundle.primary, &mut out)?;
    append_blocks(bundle.exts.as_slice(), &mut out)?;
    append_block(&bundle.payload, &mut out)?;
    out.push(BREAK)?;
    Ok(Octets::from_vec(out))
}

/// Appends the primary block.
fn append_primary(primary: &Primary7, out: &mut Vec<u8>) -> Result<(), AllocError>
    ensures { OnOk result (out.new.items ≡ out.old.items ++ primary_octets primary.now) }
{
    let start = out.len();
    append_main(primary, out)?;
    append_check(primary.crc, start, out)?;
    Ok(())
}

/// Appends the primary block without its check.
#[tactic(auto, unfolding(crate::specs::Spelling::main_octets))]
fn append_main(primary: &Primary7, out: &mut Vec<u8>) -> Result<(), AllocError>
    ensures { OnOk result (out.new.items ≡ out.old.items ++ main_octets primary.now) }
{
    append_opening(primary.flags, primary.crc, out)?;
    append_eid(&primary.destination, out)?;
    append_eid(&primary.source, out)?;
    append_eid(&primary.report_to, out)?;
    append_creation(primary.millis, primary.sequence, out)?;
    write_uint(primary.lifetime, out)?;
    append_part(primary.fragment, out)?;
    Ok(())
}

/// Appends the head of the primary block's array, the version, the flags and the type of the check.
fn append_opening(flags: u64, crc: u8, out: &mut Vec<u8>) -> Result<(), AllocError>
    ensures { OnOk result (out.new.items ≡ out.old.items ++ opening_octets flags crc) }
{
    write_array(8 + fragment_items(flags) + check_items(crc), out)?;
    write_uint(7, out)?;
    write_uint(flags, out)?;
    write_uint(u64::from(crc), out)?;
    Ok(())
}

/// Appends the creation timestamp.
fn append_creation(millis: u64, sequence: u64, out: &mut Vec<u8>) -> Result<(), AllocError>
    ensures { OnOk result (out.new.items ≡ out.old.items ++ creation_octets millis sequence) }
{
    write_array(2, out)?;
    write_uint(millis, out)?;
    write_uint(sequence, out)?;
    Ok(())
}

/// How many items a fragment adds to the primary block's array.
fn fragment_items(flags: u64) -> u64
    ensures { result ≡ fragment_items (is_fragment flags) }
{
    if flags % 2 == 1 { 2 } else { 0 }
}

/// How many items a check adds to a block's array.
fn check_items(crc: u8) -> u64
    ensures { result ≡ check_items crc }
{
    if crc == 0 { 0 } else { 1 }
}

/// Appends the numbers of a fragment, if there is one.
fn append_part(part: Option<Fragment>, out: &mut Vec<u8>) -> Result<(), AllocError>
    ensures { OnOk result (out.new.items ≡ out.old.items ++ part_octets part) }
{
    if let Some(part) = part {
        write_uint(part.offset, out)?;
        write_uint(part.total, out)?;
    }
    Ok(())
}

/// Appends blocks.
fn append_blocks(blocks: &[Block7], out: &mut Vec<u8>) -> Result<(), AllocError>
    ensures { OnOk result (out.new.items ≡ out.old.items ++ blocks_octets blocks.now) }
{
    'each: for block in blocks {
        append_block(block, out)?;
    }
    Ok(())
}

/// Appends a block.
fn append_block(block: &Block7, out: &mut Vec<u8>) -> Result<(), AllocError>
    ensures { OnOk result (out.new.items ≡ out.old.items ++ block_octets block.now) }
{
    let start = out.len();
    append_bare(block, out)?;
    append_check(block.crc, start, out)?;
    Ok(())
}

/// Appends a block without its check.
#[tactic(auto, unfolding(crate::specs::Spelling::bare_octets))]
fn append_bare(block: &Block7, out: &mut Vec<u8>) -> Result<(), AllocError>
    ensures { OnOk result (out.new.items ≡ out.old.items ++ bare_octets block.now) }
{
    write_array(5 + check_items(block.crc), out)?;
    write_uint(block.kind, out)?;
    write_uint(block.number, out)?;
    write_uint(block.flags, out)?;
    write_uint(u64::from(block.crc), out)?;
    write_bytes(block.body.as_slice(), out)?;
    Ok(())
}

/// Appends the check of this type of the block that begins at `start`.
#[tactic(auto, unfolding(crate::specs::Spelling::crc_octets))]
fn append_check(crc: u8, start: usize, out: &mut Vec<u8>) -> Result<(), AllocError>
    requires { start ≤ length out.old.items }
    ensures { OnOk result (out.new.items ≡ out.old.items ++ crc_octets crc (drop start out.old.items)) }
{
    match crc {
        0 => Ok(()),
        1 => {
            write_head(BYTE_STRING, 2, out)?;
            let check = sixteen(&out[start..]);
            out.extend_from_slice(&check)
        }
        _ => {
            write_head(BYTE_STRING, 4, out)?;
            let check = thirty_two(&out[start..]);
            out.extend_from_slice(&check)
        }
    }
}
