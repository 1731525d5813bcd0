//! Bundles among other implementations: blocks of several bundles, block types that are refused, ages, and
//! pieces that are gathered. What is decided about them is in `peer_vectors`.

ghost use Rattle.std.specs.Prelude.{◌≤◌, IfOk};
ghost use Rattle.piece_gathering.specs.declared.piece.TheConstants.{BLOCK_MAX};
ghost use Rattle.translate.specs.Sound.{IsSound};

use crate::rows::{is, octets};
use block_types::BlockTypes;
use bundle_age::raised;
use bundle_meaning::Full;
use bundle_rows::{End, count};
use bundle6::decode6;
use bundle7::{decode7, encode7};
use endpoint::Octets;
use gate_cases::Face;
use piece_gathering::{Gathering, Piece};
use std::alloc::Global;
use std::test::Fail;
use translate::{from6, from7, view7};

/// A version 6 bundle of three octets, and the version 7 bundle that it becomes.
const B6: &str = "0681100d02010101000000008768053c00010803616263";

const B7: &str =
    "9f8907000182028202018202820101820100821a000f42450019ea5b425a46850101000043616263ff";

/// A block at a face: how many bundles it has; and the place and the cause of its end, if it has one.
type Row = (Face, &'static str, usize, Option<(usize, &'static str)>);

const ROWS: &[Row] = &[
    // two bundles
    (
        Face::Old,
        "0681100d02010101000000008768053c000108036162630681100d02010101000000008768063c00010803616263",
        2,
        None,
    ),
    // a bundle, one whose primary block has another length, and a third
    (
        Face::Old,
        "0681100d02010101000000008768053c000108036162630681100c02010101000000008768063c000108036162630681100d02010101000000008768053c00010803616263",
        1,
        Some((40, "PrimaryEnd")),
    ),
    // an octet after a bundle
    (
        Face::Old,
        "0681100d02010101000000008768053c0001080361626300",
        1,
        Some((23, "Version")),
    ),
    // the first octets of another after a bundle
    (
        Face::New,
        "9f8907000182028202018202820101820100821a000f42450019ea5b425a46850101000043616263ff9f8907000182028202018202820101820100821a00",
        1,
        Some((60, "Truncated")),
    ),
    // none
    (Face::New, B6, 0, Some((0, "Start"))),
    (Face::New, B7, 1, None),
    (Face::Old, "", 0, None),
];

/// Whether a row ends so.
fn ends(end: Option<End>, wanted: Option<(usize, &str)>) -> bool {
    match end {
        None => wanted.is_none(),
        Some(end) => match wanted {
            None => false,
            Some((at, word)) => end.at == at && end.cause.word() == word,
        },
    }
}

#[test]
fn blocks_of_several_bundles(rt: HostRuntime) -> Result<(), Fail> {
    for &(face, text, bundles, end) in ROWS {
        let block = octets(rt.alloc(), text)?;
        let counted = count(face, &block);
        assert!(rt; counted.bundles == bundles, "{text}");
        assert!(rt; ends(counted.end, end), "{text}");
    }
    Ok(())
}

/// Types that aren't taken.
const NO_TYPES: &[(u64, u64)] = &[
    (193, 194),
    (191, 193),
    (256, 193),
    (200, 192),
    (200, 200),
    (200, 256),
    (192, 191),
];

#[test]
fn block_types_that_are_refused(rt: HostRuntime) {
    for &(residue, wrap) in NO_TYPES {
        assert!(rt;
            BlockTypes::new(residue, wrap).is_none(),
            "{residue} {wrap}"
        );
    }
}

/// A version 7 bundle with an age of 5,000 ms; what it is after a stay of 1,000 ms, in either version; and what
/// that becomes after 2,000 ms more.
const YOUNG: &str =
    "9f8907000182028202018202820101820100821a000f42450019ea5b425a46850702000043191388850101000043616263ff";

const OLDER7: &str =
    "9f8907000182028202018202820101820100821a000f42450019ea5b425a46850702000043191770850101000043616263ff";

const OLDER: &str = "0681100d02010101000000008768053c00c1000b4236374707020000191770010803616263";

const OLDEST: &str =
    "9f8907000182028202018202820101820100821a000f42450019ea5b425a46850702000043191f40850101000043616263ff";

/// The record of a version 6 bundle.
fn six(alloc: Global, text: &str) -> Result<Full, Fail>
    ensures { IfOk result IsSound }
{
    let Ok((bundle, _)) = decode6(alloc, &octets(alloc, text)?) else {
        return Err(Fail::new("a row is no version 6 bundle"));
    };
    match from6(alloc, &bundle) {
        Ok(full) => Ok(full),
        Err(_) => Err(Fail::new("a row isn't read")),
    }
}

/// The record of a version 7 bundle.
fn seven(alloc: Global, text: &str) -> Result<Full, Fail>
    ensures { IfOk result IsSound }
{
    let Ok((bundle, _)) = decode7(alloc, &octets(alloc, text)?) else {
        return Err(Fail::new("a row is no version 7 bundle"));
    };
    match from7(alloc, &bundle) {
        Ok(full) => Ok(full),
        Err(_) => Err(Fail::new("a row isn't read")),
    }
}

/// Whether a record is this bundle of version 7.
fn is_seven(alloc: Global, full: &Full, text: &str) -> Result<bool, Fail>
    requires { IsSound full.now }
{
    match view7(alloc, full) {
        Ok(view) => is(alloc, &encode7(alloc, &view)?, text),
        Err(_) => Err(Fail::new("a row has no view")),
    }
}

/// Whether a record is this bundle of version 7 after a stay.
fn is_after(alloc: Global, full: Full, stay: u64, text: &str) -> Result<bool, Fail>
    requires { IsSound full }
{
    let full = raised(alloc, full, stay)?;
    is_seven(alloc, &full, text)
}

#[test]
fn ages_of_bundles_that_wait(rt: HostRuntime) -> Result<(), Fail> {
    let alloc = rt.alloc();
    assert!(rt; is_after(alloc, seven(alloc, YOUNG)?, 1000, OLDER7)?);
    assert!(rt; is_after(alloc, six(alloc, OLDER)?, 2000, OLDEST)?);
    Ok(())
}

/// A piece of 41 octets that was added at a moment.
fn piece(alloc: Global, added: u64) -> Piece
    ensures { result.size ≤ BLOCK_MAX }
{
    Piece {
        octets: Octets::new(alloc),
        size: 41,
        came: 0,
        added,
        is_dated: false,
    }
}

/// Whether a gathering of these bounds has so many pieces ready at each moment, where one is added at each
/// of the others.
fn gathers(
    alloc: Global,
    gathering: &mut Gathering,
    added: &[u64],
    ready: &[(u64, usize)],
) -> Result<bool, Fail> {
    for &moment in added {
        gathering.add(piece(alloc, moment))?;
    }
    for &(moment, count) in ready {
        if gathering.ready(moment) != count {
            return Ok(false);
        }
    }
    Ok(true)
}

/// Whether so many pieces are taken at a moment, and none is left.
fn takes(
    alloc: Global,
    gathering: &mut Gathering,
    moment: u64,
    count: usize,
) -> Result<bool, Fail> {
    let taken = gathering.take(alloc, moment)?;
    Ok(taken.len() == count && gathering.len() == 0)
}

#[test]
fn pieces_are_gathered(rt: HostRuntime) -> Result<(), Fail> {
    let mut gathering = Gathering::new(rt.alloc(), 60, 1000);
    assert!(rt; gathers(rt.alloc(), &mut gathering, &[0], &[(5, 0)])?);
    assert!(rt; gathers(rt.alloc(), &mut gathering, &[5], &[(5, 2)])?);
    assert!(rt; takes(rt.alloc(), &mut gathering, 5, 2)?);
    Ok(())
}

#[test]
fn a_piece_waits_so_long(rt: HostRuntime) -> Result<(), Fail> {
    let mut gathering = Gathering::new(rt.alloc(), 60, 1000);
    assert!(rt; gathers(rt.alloc(), &mut gathering, &[0], &[(999, 0), (1000, 1)])?);
    let mut alone = Gathering::new(rt.alloc(), 0, 1000);
    assert!(rt; gathers(rt.alloc(), &mut alone, &[0, 0], &[(0, 1)])?);
    Ok(())
}
