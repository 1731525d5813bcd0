//! What bundles mean: timestamps in both versions, and the bodies of the gateway's private blocks.

ghost use Rattle.bundle_meaning.specs.Blocks.{IsBlock6, IsBlock7};

use crate::rows::{is, octets};
use bundle_meaning::{
    Block6Like, Block7Like, BlockFault, Ext, Extra7, Exts, Id6, Id7, ResidueOld, SequenceTooLarge,
    TimeTooLarge, id_to_new, id_to_old, read_residue_new, read_residue_old, read_wrap_new,
    read_wrap_old, write_wrap_new, write_wrap_old,
};
use endpoint::Endpoint;
use std::alloc::Global;
use std::test::Fail;

/// Seconds and sequence number of version 6, and milliseconds and sequence number of version 7.
const PAIRS: &[((u64, u64), (u64, u64))] = &[
    ((1000, 5), (1_000_005, 0)),
    ((1000, 500), (1_000_500, 0)),
    ((1000, 700), (1_000_700, 0)),
    (
        (18_446_744_073_709_551, 615),
        (18_446_744_073_709_551_615, 0),
    ),
    (
        (0, 18_446_744_073_709_551_615),
        (615, 18_446_744_073_709_551),
    ),
];

/// Whether two timestamps are each other's counterparts.
fn is_pair(old: (u64, u64), new: (u64, u64)) -> bool {
    let old = Id6 {
        seconds: old.0,
        sequence: old.1,
    };
    let new = Id7 {
        millis: new.0,
        sequence: new.1,
    };
    id_to_new(old.seconds, old.sequence) == Ok(new)
        && id_to_old(new.millis, new.sequence) == Ok(old)
}

#[test]
fn timestamps_pair_off(rt: HostRuntime) {
    for &(old, new) in PAIRS {
        assert!(rt; is_pair(old, new), "{} {}", old.0, old.1);
    }
    assert!(rt; id_to_new(18_446_744_073_709_551, 616) == Err(TimeTooLarge));
    assert!(rt; id_to_old(616, 18_446_744_073_709_551) == Err(SequenceTooLarge));
}

/// Bodies of a residue in version 6, and what they say.
const OLD_RESIDUES: &[(&str, ResidueOld)] = &[
    (
        "4236374783730000000000",
        ResidueOld {
            slack: 499,
            extra7: Extra7 {
                flags: 0,
                crc: 0,
                payload_crc: 0,
                payload_flags: 0,
            },
            no_time: 0,
        },
    ),
    (
        "42363747876740020188001d",
        ResidueOld {
            slack: 999,
            extra7: Extra7 {
                flags: 64,
                crc: 2,
                payload_crc: 1,
                payload_flags: 1024,
            },
            no_time: 29,
        },
    ),
];

/// Bodies that are none: one of 1,000 ms, one with an octet more, one that ends early, and others
/// of which one value is out of its range or not as short as can be.
const NO_OLD_RESIDUES: &[&str] = &[
    "",
    "42363747",
    "4236374683730000000000",
    "4236374787680001000000",
    "4236374700000100000000",
    "423637470000010000",
    "42363747000101000000",
    "42363747000003000000",
    "42363747000001030000",
    "42363747000001000100",
    "42363747000001000002",
    "4236374780000001000000",
];

#[test]
fn old_residues(rt: HostRuntime) -> Result<(), Fail> {
    for &(text, residue) in OLD_RESIDUES {
        let body = octets(rt.alloc(), text)?;
        assert!(rt; read_residue_old(&body) == Ok(residue), "{text}");
    }
    for &text in NO_OLD_RESIDUES {
        let body = octets(rt.alloc(), text)?;
        assert!(rt; read_residue_old(&body) == Err(BlockFault::Bad), "{text}");
    }
    Ok(())
}

/// Whether a body is a residue in version 7 of a bundle with these flags and this custodian, with as
/// many blocks after the payload, and this part of the time of delivery.
fn is_new_residue(
    alloc: Global,
    text: &str,
    flags: u64,
    name: &str,
    after: u64,
    rest: u32,
) -> Result<bool, Fail> {
    let custodian = Endpoint::from_text(alloc, name.as_bytes())?;
    match read_residue_new(alloc, &octets(alloc, text)?) {
        Ok(residue) => {
            let extra = &residue.extra6;
            let rests = residue.rests;
            let said = extra.flags == flags && extra.custodian == custodian;
            let empty = extra.payload_flags == 0 && rests == [0, 0, rest, 0];
            Ok(said && empty && extra.after == after)
        }
        Err(_) => Ok(false),
    }
}

#[test]
fn new_residues(rt: HostRuntime) -> Result<(), Fail> {
    let custodian = "4236374781100864746e3a6e6f6e6500000000bd843f00";
    assert!(rt; is_new_residue(rt.alloc(), custodian, 144, "dtn:none", 0, 999_999)?);
    let after = "4236374781100769706e3a312e31000300000000";
    assert!(rt; is_new_residue(rt.alloc(), after, 144, "ipn:1.1", 3, 0)?);
    Ok(())
}

/// Bodies that are none: custody asked for, no endpoint, a part of a whole millisecond, an octet
/// too many, and one too few.
const NO_NEW_RESIDUES: &[&str] = &[
    "",
    "4236374781180864746e3a6e6f6e65000000000000",
    "4236374781100869706e3a302e3030000000000000",
    "4236374781100864746e3a6e6f6e65080000000000",
    "4236374781100864746e3a6e6f6e6500000000bd844000",
    "4236374781100864746e3a6e6f6e6500000000000000",
    "4236374781100864746e3a6e6f6e650000000000",
];

#[test]
fn other_octets_are_no_new_residue(rt: HostRuntime) -> Result<(), Fail> {
    for &text in NO_NEW_RESIDUES {
        let body = octets(rt.alloc(), text)?;
        let read = read_residue_new(rt.alloc(), &body);
        assert!(rt; read.err() == Some(BlockFault::Bad), "{text}");
    }
    Ok(())
}

/// A wrap in version 6, and the block that it holds: type, number, flags, check and body.
type OldWrap = (&'static str, (u64, u64, u64, u8), &'static str);

const OLD_WRAPS: &[OldWrap] = &[
    ("423637470a02000082181e181e", (10, 2, 0, 0), "82181e181e"),
    ("42363747814803820002", (200, 3, 256, 2), ""),
];

/// Whether a block has these numbers and this body.
fn is_block7(alloc: Global, block: &Block7Like, row: OldWrap) -> Result<bool, Fail> {
    let (_, numbers, body) = row;
    let read = (block.kind, block.number, block.flags, block.crc) == numbers;
    Ok(read && is(alloc, &block.body, body)?)
}

/// Whether a block's wrap has these octets.
fn has_old_wrap(alloc: Global, block: &Block7Like, wrap: &[u8]) -> Result<bool, Fail>
    requires { IsBlock7 block.now }
{
    Ok(write_wrap_old(alloc, block)?.as_slice() == wrap)
}

/// Whether a wrap is read as its block, and the block's wrap has its octets.
fn is_old_wrap(alloc: Global, row: OldWrap) -> Result<bool, Fail> {
    let wrap = octets(alloc, row.0)?;
    let Ok(block) = read_wrap_old(alloc, &wrap) else {
        return Ok(false);
    };
    if block.kind == 192 || block.kind == 193 {
        return Ok(false);
    }
    Ok(is_block7(alloc, &block, row)? && has_old_wrap(alloc, &block, &wrap)?)
}

#[test]
fn old_wraps(rt: HostRuntime) -> Result<(), Fail> {
    for &row in OLD_WRAPS {
        assert!(rt; is_old_wrap(rt.alloc(), row)?, "{}", row.0);
    }
    Ok(())
}

/// A wrap in version 7, and the block that it holds: type, flags, how many references, and body.
type NewWrap = (&'static str, (u8, u64, usize), &'static str);

const NEW_WRAPS: &[NewWrap] = &[
    ("4236374781480100aa", (200, 1, 0), "aa"),
    (
        "423637470500020864746e3a6e6f6e650769706e3a312e31ff",
        (5, 0, 2),
        "ff",
    ),
];

/// Whether a block has these numbers, as many references, and this body.
fn is_block6(alloc: Global, block: &Block6Like, row: NewWrap) -> Result<bool, Fail> {
    let (_, numbers, body) = row;
    let read = (block.kind, block.flags, block.refs.len()) == numbers;
    Ok(read && is(alloc, &block.body, body)?)
}

/// Whether a block's wrap has these octets.
fn has_new_wrap(alloc: Global, block: &Block6Like, wrap: &[u8]) -> Result<bool, Fail>
    requires { IsBlock6 block.now }
{
    Ok(write_wrap_new(alloc, block)?.as_slice() == wrap)
}

/// Whether a wrap is read as its block, and the block's wrap has its octets.
fn is_new_wrap(alloc: Global, row: NewWrap) -> Result<bool, Fail> {
    let wrap = octets(alloc, row.0)?;
    let Ok(block) = read_wrap_new(alloc, &wrap) else {
        return Ok(false);
    };
    if block.kind == 192 || block.kind == 193 {
        return Ok(false);
    }
    Ok(is_block6(alloc, &block, row)? && has_new_wrap(alloc, &block, &wrap)?)
}

#[test]
fn new_wraps(rt: HostRuntime) -> Result<(), Fail> {
    for &row in NEW_WRAPS {
        assert!(rt; is_new_wrap(rt.alloc(), row)?, "{}", row.0);
    }
    Ok(())
}

/// Bodies that are no wrap in version 6: without a mark, and with a payload's type, its number, or a
/// check that there isn't.
const NO_OLD_WRAPS: &[&str] = &[
    "0a02000082181e181e",
    "42363747",
    "423637470102000000",
    "423637470a01000000",
    "423637470a02000300",
];

/// Bodies that are no wrap in version 7: with a payload's type, a type of more than an octet, flags
/// that no value has, a count of more references than there are, and a text that is no endpoint.
const NO_NEW_WRAPS: &[&str] = &[
    "4236374701000000",
    "4236374782000000",
    "4236374705080000",
    "4236374705400000",
    "42363747050081ffffffffffffffff7f",
    "423637470500010161",
];

#[test]
fn other_octets_are_no_wrap(rt: HostRuntime) -> Result<(), Fail> {
    for &text in NO_OLD_WRAPS {
        let read = read_wrap_old(rt.alloc(), &octets(rt.alloc(), text)?);
        assert!(rt; read.err() == Some(BlockFault::Bad), "{text}");
    }
    for &text in NO_NEW_WRAPS {
        let read = read_wrap_new(rt.alloc(), &octets(rt.alloc(), text)?);
        assert!(rt; read.err() == Some(BlockFault::Bad), "{text}");
    }
    Ok(())
}

/// Appends the block that a wrap in version 6 holds.
fn push7(alloc: Global, exts: &mut Exts, text: &str) -> Result<(), Fail> {
    let wrap = octets(alloc, text)?;
    match read_wrap_old(alloc, &wrap) {
        Ok(block) => Ok(exts.push(Ext::Seven(block))?),
        Err(_) => Err(Fail::new("a row is no wrap")),
    }
}

/// Appends the block that a wrap in version 7 holds.
fn push6(alloc: Global, exts: &mut Exts, text: &str) -> Result<(), Fail> {
    let wrap = octets(alloc, text)?;
    match read_wrap_new(alloc, &wrap) {
        Ok(block) => Ok(exts.push(Ext::Six(block))?),
        Err(_) => Err(Fail::new("a row is no wrap")),
    }
}

/// Whether extension blocks are two, copied, taken out and put in again.
fn two_stay(alloc: Global, exts: &Exts) -> Result<bool, Fail> {
    let again = Exts::from_vec(exts.copy(alloc)?.into_vec());
    Ok(exts.len() == 2 && again.as_slice().len() == 2)
}

#[test]
fn extension_blocks_are_a_list(rt: HostRuntime) -> Result<(), Fail> {
    let mut exts = Exts::new(rt.alloc());
    push7(rt.alloc(), &mut exts, "423637470a020000820101")?;
    push6(rt.alloc(), &mut exts, "4236374781480100aa")?;
    assert!(rt; two_stay(rt.alloc(), &exts)?);
    Ok(())
}
