//! A link whose segments come late, twice or never.

ghost use Rattle.std.specs.Prelude.{◌≡◌, false, OnOk};

use crate::lines::{block, is_so, octets};
use crate::links::{deliver, link};
use ltp_engine::Effects;
use ltp_segment::{Note, Outs};
use ltp_world::{DeliverRefused, End, EndEffects, LinkWorld};
use std::alloc::Global;
use std::test::Fail;

/// A datagram: its front in hex, and a range of the block after it.
type Part = (&'static str, usize, usize);

/// The octets of a datagram.
fn spelled(alloc: Global, part: Part, block: &[u8]) -> Result<Vec<u8>, Fail> {
    let (front, from, to) = part;
    let mut datagram = octets(alloc, front)?;
    match block.get(from..to) {
        Some(octets) => datagram.extend_from_slice(octets)?,
        None => return Err(Fail::new("a row's range isn't the block's")),
    }
    Ok(datagram)
}

/// Whether these datagrams are sent.
fn are(alloc: Global, outs: &Outs, wanted: &[Part], block: &[u8]) -> Result<bool, Fail> {
    if outs.len() != wanted.len() {
        return Ok(false);
    }
    for (datagram, &part) in outs.as_slice().iter().zip(wanted) {
        if datagram.as_slice() != spelled(alloc, part, block)?.as_slice() {
            return Ok(false);
        }
    }
    Ok(true)
}

/// A delivery: of datagram `k`, to this end, which sends these datagrams, hands the block up or
/// doesn't, and notes this.
type Row = (usize, End, &'static [Part], bool, Option<Note>);

/// Two of three segments come, and a report on them; the third is late, and comes again. All is
/// over once the second report is acknowledged, and what comes after that is noted.
const LATE: &[Row] = &[
    (0, End::Second, &[], false, None),
    (
        2,
        End::Second,
        &[("0801010002028930000200840088008130", 0, 0)],
        false,
        None,
    ),
    (
        3,
        End::First,
        &[("0901010002", 0, 0), ("0101010001840084000302", 512, 1024)],
        false,
        None,
    ),
    (1, End::Second, &[], true, None),
    (4, End::Second, &[], false, None),
    (
        5,
        End::Second,
        &[("08010100030389300001008930", 0, 0)],
        false,
        None,
    ),
    (
        6,
        End::First,
        &[("0901010003", 0, 0)],
        false,
        Some(Note::Sent { session: 1 }),
    ),
    (7, End::Second, &[], false, None),
    (
        0,
        End::Second,
        &[],
        false,
        Some(Note::Closed { session: 1 }),
    ),
];

/// Whether the block is handed up.
fn is_handed_up(effects: &Effects, block: &[u8]) -> bool {
    match effects.ups.as_slice() {
        [part] => part.session == 1 && part.body.as_slice() == block,
        _ => false,
    }
}

/// What is noted first, where anything is.
fn noted(effects: &Effects) -> Option<Note> {
    effects.notes.as_slice().first().copied()
}

/// Whether it is this end, which hands the block up or doesn't, and notes what a row says.
fn is_noted(told: &EndEffects, row: Row, block: &[u8]) -> bool {
    let (_, end, _, up, note) = row;
    told.end == end && is_handed_up(&told.effects, block) == up && noted(&told.effects) == note
}

/// Whether an end does as a row says.
fn is_told(alloc: Global, told: &EndEffects, row: Row, block: &[u8]) -> Result<bool, Fail> {
    Ok(is_noted(told, row, block) && are(alloc, &told.effects.out, row.2, block)?)
}

/// Whether a delivery does as its row says.
fn holds(alloc: Global, world: &mut LinkWorld, row: Row, block: &[u8]) -> Result<bool, Fail>
    requires { world.old.spent ≡ false }
    ensures { OnOk result (world.new.spent ≡ false) }
{
    let told = deliver(world, row.0)?;
    is_told(alloc, &told, row, block)
}

/// Whether the first end's block is sent so.
fn is_sent(
    alloc: Global,
    world: &mut LinkWorld,
    block: &[u8],
    wanted: &[Part],
) -> Result<bool, Fail>
    requires { world.old.spent ≡ false }
    ensures { OnOk result (world.new.spent ≡ false) }
{
    match world.submit(End::First, block, block.len() as u64) {
        Ok(effects) => are(alloc, &effects.out, wanted, block),
        Err(_) => Err(Fail::new("the block isn't sent")),
    }
}

/// The three segments of a block of 1,200 octets.
const SEGMENTS: &[Part] = &[
    ("0001010001008400", 0, 512),
    ("000101000184008400", 512, 1024),
    ("0301010001880081300200", 1024, 1200),
];

/// The first end's block is sent in its three segments, and each delivery does as its row says: in
/// all there were 8 datagrams.
fn goes(alloc: Global, world: &mut LinkWorld, rows: &[Row], block: &[u8]) -> Result<(), Fail>
    requires { world.old.spent ≡ false }
{
    is_so(
        is_sent(alloc, world, block, SEGMENTS)?,
        "the three segments",
    )?;
    for &row in rows {
        if !holds(alloc, world, row, block)? {
            return Err(Fail::new(format_args!("datagram {}", row.0)));
        }
    }
    is_so(world.sent() == 8, "how many datagrams were sent")
}

#[test]
fn a_late_segment_comes_again(rt: HostRuntime) -> Result<(), Fail> {
    let octets = block(rt.alloc(), 1200)?;
    let mut world = link(rt.alloc(), 512, 10)?;
    goes(rt.alloc(), &mut world, LATE, &octets)
}

/// Whether there is no datagram 0.
fn has_none(world: &mut LinkWorld) -> bool
    requires { world.old.spent ≡ false }
{
    matches!(world.deliver(0), Err(DeliverRefused::NoSuchDatagram))
}

#[test]
fn no_other_datagram_is_delivered(rt: HostRuntime) -> Result<(), Fail> {
    let mut world = link(rt.alloc(), 512, 10)?;
    is_so(has_none(&mut world), "there is a datagram 0")
}
