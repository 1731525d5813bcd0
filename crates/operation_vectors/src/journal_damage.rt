//! Files with one octet changed.

use crate::journal_texts::{DATED_DONE, DONE, said};
use std::alloc::Global;
use std::test::Fail;

/// A file, its gates, and what it says up to each.
struct Gated {
    file: &'static str,
    gates: &'static [(usize, &'static str)],
}

/// A block is begun and ends: without a moment, and with one.
const FILES: &[Gated] = &[
    Gated {
        file: DONE,
        gates: &[
            (8, "reserved 0 0 greatest 0"),
            (17, "reserved 4097 0 greatest 0"),
            (26, "reserved 4097 4097 greatest 0"),
            (76, "begun 1 new 41 reserved 4097 4097 greatest 1"),
            (84, "reserved 4097 4097 greatest 1"),
        ],
    },
    Gated {
        file: DATED_DONE,
        gates: &[
            (8, "reserved 0 0 greatest 0"),
            (17, "reserved 4097 0 greatest 0"),
            (26, "reserved 4097 4097 greatest 0"),
            (
                79,
                "begun 1 new 41 came 1010000 reserved 4097 4097 greatest 1",
            ),
            (87, "reserved 4097 4097 greatest 1"),
        ],
    },
];

/// What a file says up to a gate at this place, if there is one.
fn up_to(gates: &[(usize, &'static str)], at: usize) -> Option<&'static str> {
    for (gate, says) in gates {
        if *gate == at {
            return Some(says);
        }
    }
    None
}

/// What a file says with the octet at a place changed.
fn changed(alloc: Global, file: &[u8], at: usize, octet: u8) -> Result<String, Fail> {
    let mut file = Vec::from_slice(alloc, file)?;
    if let Some(changed) = file.get_mut(at) {
        *changed = octet;
    }
    said(alloc, &file)
}

/// Whether it says what the file said up to the gate at this place, or is damaged where none is there.
fn is_fit(says: &str, front: Option<&str>, octet: u8) -> bool {
    match front {
        Some(front) if octet != 1 => says == front,
        _ => !says.as_bytes().ends_with(b"greatest 0") && !says.as_bytes().ends_with(b"greatest 1"),
    }
}

/// The first change at a place that isn't found.
fn unfound(
    alloc: Global,
    file: &[u8],
    front: Option<&str>,
    at: usize,
    was: u8,
) -> Result<Option<u8>, Fail> {
    'octets: for octet in 0..=255u8 {
        if octet != was && !is_fit(changed(alloc, file, at, octet)?.as_str(), front, octet) {
            return Ok(Some(octet));
        }
    }
    Ok(None)
}

/// The first place of a file at which a change isn't found.
fn first_unfound(alloc: Global, gated: &Gated) -> Result<Option<(usize, u8)>, Fail> {
    let file = hex::decode(alloc, gated.file)?;
    let mut at: usize = 0;
    for was in file.as_slice() {
        let front = up_to(gated.gates, at);
        if let Some(octet) = unfound(alloc, &file, front, at, *was)? {
            return Ok(Some((at, octet)));
        }
        at = at.saturating_add(1);
    }
    Ok(None)
}

/// A changed octet of a record is found. A changed gate closes the file there, or opens it at its end.
#[test]
fn a_changed_octet_is_found(rt: HostRuntime) -> Result<(), Fail> {
    for gated in FILES {
        let unfound = first_unfound(rt.alloc(), gated)?;
        assert!(rt; unfound.is_none(), "{} {unfound:?}", gated.file);
    }
    Ok(())
}
