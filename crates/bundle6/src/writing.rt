//! Writing a bundle in its canonical spelling.

ghost use Rattle.std.specs.Prelude.{◌≡◌, ◌+◌, ◌^◌, ◌<◌, ◌∷◌, ◌++◌, List, length, map, IfOk, OnOk};
ghost use Rattle.std.specs.List.{All, flat_map};
ghost use Rattle.sdnv.specs.Shortest.{spelling};
ghost use Rattle.bundle6.specs.Bits.{has_bit};
ghost use Rattle.bundle6.specs.Legal.{IsLegal, IsLegalBlock, IsReadAgain, Spells6};
ghost use Rattle.bundle6.specs.Spelling.{pair_octets, part_octets, marked, canon6};
ghost use Rattle.bundle6.specs.Writing.{pairs_octets, rest_written, primary_written, refs_written, block_written, blocks_written};

use crate::block::{Block6, Blocks6};
use crate::bundle::Bundle6;
use crate::flags::{LAST, REFS};
use crate::names::Offsets;
use crate::numbering::numbering_of;
use crate::primary::Primary6;
use endpoint::{Fragment, Octets};
use std::alloc::{AllocError, Global};

/// Room for the numbers of a primary block, most of which have few octets.
const ROOM: usize = 100;

/// How many names a primary block has.
const NAMES: usize = 4;

/// A name's two numbers.
fn write_pair(out: &mut Vec<u8>, pair: Offsets) -> Result<(), AllocError>
    ensures { OnOk result (out.new.items ≡ out.old.items ++ pair_octets pair) }
{
    sdnv::write(pair.scheme, out)?;
    sdnv::write(pair.ssp, out)?;
    Ok(())
}

/// The two numbers of each name.
fn write_pairs(out: &mut Vec<u8>, pairs: &[Offsets]) -> Result<(), AllocError>
    ensures { OnOk result (out.new.items ≡ out.old.items ++ pairs_octets pairs.now) }
{
    for pair in pairs {
        write_pair(out, *pair)?;
    }
    Ok(())
}

/// Offset and total of a fragment.
fn write_part(out: &mut Vec<u8>, part: Option<Fragment>) -> Result<(), AllocError>
    ensures { OnOk result (out.new.items ≡ out.old.items ++ part_octets part) }
{
    if let Some(part) = part {
        sdnv::write(part.offset, out)?;
        sdnv::write(part.total, out)?;
    }
    Ok(())
}

/// What stands after the length field of a primary block.
fn rest_of(
    alloc: Global,
    primary: &Primary6,
    pairs: &[Offsets],
    dictionary: &[u8],
) -> Result<Vec<u8>, AllocError>
    ensures { IfOk result (λ rest. rest.items ≡ rest_written primary.now pairs.now dictionary.now) }
{
    let mut rest = Vec::with_capacity(alloc, dictionary.len().saturating_add(ROOM))?;
    write_pairs(&mut rest, pairs)?;
    sdnv::write(primary.seconds, &mut rest)?;
    sdnv::write(primary.sequence, &mut rest)?;
    sdnv::write(primary.lifetime, &mut rest)?;
    sdnv::write(dictionary.len() as u64, &mut rest)?;
    rest.extend_from_slice(dictionary)?;
    write_part(&mut rest, primary.fragment)?;
    Ok(rest)
}

/// A primary block.
fn write_primary(out: &mut Vec<u8>, primary: &Primary6, rest: &[u8]) -> Result<(), AllocError>
    ensures { OnOk result (out.new.items ≡ out.old.items ++ primary_written primary.now rest.now) }
{
    out.push(6)?;
    sdnv::write(primary.flags, out)?;
    sdnv::write(rest.len() as u64, out)?;
    out.extend_from_slice(rest)?;
    Ok(())
}

/// A block's flags as they are written: with the mark of the last block and that of references.
fn marked(block: &Block6, last: bool) -> u64
    requires { IsLegalBlock block.now }
    ensures { result ≡ marked last block.now }
{
    let last_bit = if last { 1 << LAST } else { 0 };
    let refs_bit = if block.refs.len() == 0 { 0 } else { 1 << REFS };
    block.flags + last_bit + refs_bit
}

/// The references of a block: how many, and the numbers of each.
fn write_refs(out: &mut Vec<u8>, pairs: &[Offsets]) -> Result<(), AllocError>
    ensures { OnOk result (out.new.items ≡ out.old.items ++ refs_written pairs.now) }
{
    if pairs.is_empty() {
        return Ok(());
    }
    sdnv::write(pairs.len() as u64, out)?;
    write_pairs(out, pairs)
}

/// A block, whose references have these numbers.
fn write_block(
    out: &mut Vec<u8>,
    block: &Block6,
    last: bool,
    pairs: &[Offsets],
) -> Result<(), AllocError>
    requires legal { IsLegalBlock block.now }
    requires counted { length pairs.now ≡ length block.now.refs }
    ensures { OnOk result (out.new.items ≡ out.old.items ++ block_written last block.now pairs.now) }
{
    out.push(block.kind)?;
    sdnv::write(marked(block, last), out)?;
    write_refs(out, pairs)?;
    sdnv::write(block.body.len() as u64, out)?;
    out.extend_from_slice(block.body.as_slice())?;
    Ok(())
}

/// Blocks up to the last, whose references have these numbers.
fn write_blocks(out: &mut Vec<u8>, blocks: &[Block6], pairs: &[Offsets]) -> Result<(), AllocError>
    requires legal { All IsLegalBlock blocks.now }
    requires counted { length pairs.now ≡ length (flat_map (λ block. block.refs) blocks.now) }
    ensures { OnOk result (out.new.items ≡ out.old.items ++ blocks_written blocks.now pairs.now) }
{
    let mut rest = pairs;
    for (i, block) in blocks.iter().enumerate() {
        let (own, others) = rest.split_at(block.refs.len());
        write_block(out, block, i + 1 == blocks.len(), own)?;
        rest = others;
    }
    Ok(())
}

/// How many octets the bodies of the blocks have: only a guess at the room that they take.
fn octets_of(blocks: &[Block6]) -> usize {
    blocks
        .iter()
        .fold(0usize, |sum, block| sum.saturating_add(block.body.len()))
}

/// The canonical spelling of a bundle: numbers in as few octets as can be, and in the dictionary each
/// text once, in the order of first use. The dictionary is empty where each endpoint is null or an
/// ipn name other than `ipn:0.0`.
pub fn encode6(alloc: Global, bundle: &Bundle6) -> Result<Octets, AllocError>
    requires { IsLegal bundle.now }
    ensures exact { IfOk result (λ octets. octets ≡ canon6 bundle.now) }

    // It spells the bundle.
    ensures spelled { IfOk result (Spells6 bundle.now) }

    // It is read again, whatever follows it.
    ensures again { IfOk result (IsReadAgain bundle.now) }
{
    let numbering = numbering_of(alloc, bundle)?;
    let (names, refs) = numbering.pairs.as_slice().split_at(NAMES);
    let rest = rest_of(
        alloc,
        &bundle.primary,
        names,
        numbering.dictionary.as_slice(),
    )?;
    let blocks = bundle.blocks.as_slice();
    let room = rest.len().saturating_add(octets_of(blocks));
    let mut out = Vec::with_capacity(alloc, room.saturating_add(ROOM))?;
    write_primary(&mut out, &bundle.primary, rest.as_slice())?;
    write_blocks(&mut out, blocks, refs)?;
    Ok(Octets::from_vec(out))
}
