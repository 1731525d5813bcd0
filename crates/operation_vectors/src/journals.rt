//! Journals: what a file is read as, or where and why it is damaged, and a file that is made anew. The
//! octets are those of an independent model, and its own check of CRC-32C.

use crate::journal_texts::{BEGUN, is_damaged, said, says, told};
use journal_file::{read_kept, write_file};
use std::alloc::Global;
use std::test::Fail;

/// Files that say what is kept, and what that is: the pending blocks, the marks, the numbers that are
/// reserved and the greatest id.
const KEPT: &[(&str, &str)] = &[
    ("", "reserved 0 0 greatest 0"),
    ("66696d6a726e6c3100", "reserved 0 0 greatest 0"),
    ("66696d6a726e6c310001", "reserved 0 0 greatest 0"),
    (
        "66696d6a726e6c31010500a00198234a740101010101ab2d07a7b501030007bdd2502ee8d1a700",
        "begun 1 new 1 mark old 7 1010000 reserved 4097 0 greatest 1",
    ),
    (
        "66696d6a726e6c310101010101ab2d07a7b501020101cec2ea0300",
        "reserved 0 0 greatest 1",
    ),
];

/// The same, with blocks that have the moment at which they came.
const DATED: &[(&str, &str)] = &[
    (
        "66696d6a726e6c3101060101bdd25003616263bca0aed400",
        "begun 1 new 3 came 1010000 reserved 0 0 greatest 1",
    ),
    (
        "66696d6a726e6c31010601010000ad112f1b00",
        "begun 1 new 0 came 0 reserved 0 0 greatest 1",
    ),
    (
        "66696d6a726e6c310106010181ffffffffffffffff7f0016ccf13100",
        "begun 1 new 0 came 18446744073709551615 reserved 0 0 greatest 1",
    ),
    (
        "66696d6a726e6c3101010100016f8c51841001060201bdd25003616263a50fa2fd00",
        "begun 1 old 1 begun 2 new 3 came 1010000 reserved 0 0 greatest 2",
    ),
    (
        "66696d6a726e6c3101060101bdd25003616263bca0aed401020101cec2ea0300",
        "reserved 0 0 greatest 1",
    ),
];

/// Files that are damaged, the place, and the cause.
const DAMAGED: &[(&str, usize, &str)] = &[
    ("68656c6c6f", 0, "Start"),
    ("66696d6a726e6c31", 8, "Truncated"),
    ("66696d6a726e6c3101", 9, "Truncated"),
    ("66696d6a726e6c3101007d53510000", 9, "Kind"),
    ("66696d6a726e6c310106", 10, "Truncated"),
    ("66696d6a726e6c310107", 9, "Kind"),
    ("66696d6a726e6c310105008001e7a8a97600", 11, "Number"),
    ("66696d6a726e6c31010502018ed526f300", 10, "Face"),
];

/// The same, of records that end what isn't pending, begin an id again, or end in no way.
const MISPLACED: &[(&str, usize, &str)] = &[
    (
        "66696d6a726e6c310101010101ab2d07a7b501020201fa25429a00",
        20,
        "Id",
    ),
    (
        "66696d6a726e6c310101010101ab2d07a7b501010100003063730100",
        20,
        "Id",
    ),
    ("66696d6a726e6c3101010001008680790800", 10, "Id"),
    (
        "66696d6a726e6c31010101010023c1eb76010201003ca9690000",
        20,
        "How",
    ),
    (
        "66696d6a726e6c31010101010023c1eb7601020104fb33fe1f00",
        20,
        "How",
    ),
];

/// The same, of records that begin a block with its moment.
const DATED_DAMAGED: &[(&str, usize, &str)] = &[
    ("66696d6a726e6c3101060101bdd2", 12, "Truncated"),
    ("66696d6a726e6c3101060101bdd250036162", 16, "Truncated"),
    (
        "66696d6a726e6c3101060101036162632df4e76d00",
        14,
        "Truncated",
    ),
    (
        "66696d6a726e6c3101060101800103616263b990ec9000",
        12,
        "Number",
    ),
    (
        "66696d6a726e6c31010601018280808080808080800003616263bbfe19b400",
        12,
        "Number",
    ),
    (
        "66696d6a726e6c3101060102bdd2500361626367e429bd00",
        11,
        "Face",
    ),
    ("66696d6a726e6c3101060001bdd25003616263489e789c00", 10, "Id"),
    (
        "66696d6a726e6c310101010103616263301157e401060101bdd25003616263bca0aed400",
        22,
        "Id",
    ),
    (
        "66696d6a726e6c3101060101bdd25003616263bca0aed40101010103616263301157e400",
        25,
        "Id",
    ),
    (
        "66696d6a726e6c3101060101bdd25003616263c7db214d00",
        19,
        "Crc",
    ),
];

/// Octets of the file with one block that are changed, to what, and the place where it is damaged then.
const CHANGED: &[(usize, u8, usize, &str)] = &[
    (0, 0x67, 0, "Start"),
    (9, 0x06, 10, "Id"),
    (9, 0x07, 9, "Kind"),
    (12, 0x02, 13, "Crc"),
    (40, 0x00, 72, "Crc"),
    (75, 0x00, 72, "Crc"),
    (76, 0x01, 77, "Truncated"),
];

#[test]
fn a_file_says_what_is_kept(rt: HostRuntime) -> Result<(), Fail> {
    for (text, wanted) in KEPT {
        assert!(rt; says(rt.alloc(), text, wanted)?, "{text}");
    }
    Ok(())
}

#[test]
fn a_file_says_when_a_block_came(rt: HostRuntime) -> Result<(), Fail> {
    for (text, wanted) in DATED {
        assert!(rt; says(rt.alloc(), text, wanted)?, "{text}");
    }
    Ok(())
}

#[test]
fn a_damaged_file_is_refused(rt: HostRuntime) -> Result<(), Fail> {
    for (text, at, cause) in DAMAGED {
        assert!(rt; is_damaged(rt.alloc(), text, *at, cause)?, "{text}");
    }
    Ok(())
}

#[test]
fn a_damaged_moment_is_refused(rt: HostRuntime) -> Result<(), Fail> {
    for (text, at, cause) in DATED_DAMAGED {
        assert!(rt; is_damaged(rt.alloc(), text, *at, cause)?, "{text}");
    }
    Ok(())
}

#[test]
fn a_misplaced_record_is_refused(rt: HostRuntime) -> Result<(), Fail> {
    for (text, at, cause) in MISPLACED {
        assert!(rt; is_damaged(rt.alloc(), text, *at, cause)?, "{text}");
    }
    Ok(())
}

/// Whether the file with one block is damaged at a place, where an octet is changed to another.
fn is_found(alloc: Global, row: (usize, u8, usize, &str)) -> Result<bool, Fail> {
    let (place, octet, at, cause) = row;
    let mut file = hex::decode(alloc, BEGUN)?;
    if let Some(changed) = file.get_mut(place) {
        *changed = octet;
    }
    let wanted = told(alloc, at, cause)?;
    Ok(said(alloc, &file)?.as_str() == wanted.as_str())
}

#[test]
fn a_changed_octet_is_found(rt: HostRuntime) -> Result<(), Fail> {
    for &row in CHANGED {
        assert!(rt; is_found(rt.alloc(), row)?, "{}", row.0);
    }
    Ok(())
}

/// Whether a file is made anew as it is of what it says is kept.
fn is_made_again(alloc: Global, file: &[u8]) -> Result<bool, Fail> {
    let Ok(kept) = read_kept(alloc, file) else {
        return Ok(false);
    };
    let mut made = Vec::new(alloc);
    write_file(alloc, &kept, &mut made)?;
    Ok(made.as_slice() == file)
}

#[test]
fn a_file_is_made_anew(rt: HostRuntime) -> Result<(), Fail> {
    let file = hex::decode(rt.alloc(), BEGUN)?;
    assert!(rt; is_made_again(rt.alloc(), &file)?);
    Ok(())
}

/// What a file says with octets after its closed gate.
fn said_before(alloc: Global, text: &str, after: &str) -> Result<String, Fail> {
    let mut file = hex::decode(alloc, text)?;
    file.extend_from_slice(&hex::decode(alloc, after)?)?;
    said(alloc, &file)
}

#[test]
fn what_follows_a_closed_gate_is_not_read(rt: HostRuntime) -> Result<(), Fail> {
    let got = said_before(rt.alloc(), BEGUN, "020101cec2ea03")?;
    assert!(rt; got.as_str() == "begun 1 new 41 reserved 4097 4097 greatest 1");
    Ok(())
}
