//! The greatest block, in 8,192 segments.

ghost use Rattle.std.specs.Prelude.{◌≡◌, false, OnOk};

use crate::lines::{block, is_so, octets};
use crate::links::{deliver, link};
use ltp_engine::SubmitRefused;
use ltp_segment::{BLOCK_MAX, Note, Outs};
use ltp_world::{Drained, End, EndEffects, LinkWorld};
use std::alloc::Global;
use std::test::Fail;

/// A report with serial 2 on checkpoint 2, as far as its claims: 1,024 of them, below 1,048,064.
const REPORT: &str = "080101000202bffc00008800";

/// The last segment, as the checkpoint 3 that answers the report 2, as far as its octets.
const CHECKPOINT: &str = "030101000181fffc0084000302";

/// Whether so many datagrams are sent, of which the last begins with these octets.
fn end_so(outs: &Outs, count: usize, front: &[u8]) -> bool {
    match outs.as_slice().last() {
        Some(last) => outs.len() == count && last.as_slice().starts_with(front),
        None => false,
    }
}

/// Whether an end sends so many datagrams, of which the last begins so.
fn ends_with(alloc: Global, told: &EndEffects, count: usize, front: &str) -> Result<bool, Fail> {
    let front = octets(alloc, front)?;
    Ok(end_so(&told.effects.out, count, &front))
}

/// Whether an end sends nothing and hands nothing up.
fn is_silent(told: &EndEffects) -> bool {
    told.effects.out.len() == 0 && told.effects.ups.as_slice().is_empty()
}

/// Whether datagram `k` comes, and nothing is sent or handed up.
fn is_taken(world: &mut LinkWorld, k: usize) -> Result<bool, Fail>
    requires { world.old.spent ≡ false }
    ensures { OnOk result (world.new.spent ≡ false) }
{
    let told = deliver(world, k)?;
    Ok(is_silent(&told))
}

/// Whether every second segment of the greatest block comes, up to the last but one.
fn half_of_it_comes(world: &mut LinkWorld) -> Result<bool, Fail>
    requires { world.old.spent ≡ false }
    ensures { OnOk result (world.new.spent ≡ false) }
{
    for i in 0..4096 {
        if !is_taken(world, 2 * i)? {
            return Ok(false);
        }
    }
    Ok(true)
}

/// Whether the checkpoint comes, and one report is sent.
fn is_reported(alloc: Global, world: &mut LinkWorld) -> Result<bool, Fail>
    requires { world.old.spent ≡ false }
    ensures { OnOk result (world.new.spent ≡ false) }
{
    let told = deliver(world, 8191)?;
    ends_with(alloc, &told, 1, REPORT)
}

/// Whether the report comes and is acknowledged, and 7,168 segments are sent again.
fn is_answered(alloc: Global, world: &mut LinkWorld) -> Result<bool, Fail>
    requires { world.old.spent ≡ false }
    ensures { OnOk result (world.new.spent ≡ false) }
{
    let told = deliver(world, 8192)?;
    ends_with(alloc, &told, 7169, CHECKPOINT)
}

/// How often an end hands the block up, where it hands nothing else up.
fn ups_of(told: &EndEffects, block: &[u8]) -> Option<u64> {
    match told.effects.ups.as_slice() {
        [] => Some(0),
        [up] if up.session == 1 && up.body.as_slice() == block => Some(1),
        _ => None,
    }
}

/// How often an end notes that the block is sent, where it notes nothing else.
fn notes_of(told: &EndEffects) -> Option<u64> {
    match told.effects.notes.as_slice() {
        [] => Some(0),
        [Note::Sent { session: 1 }] => Some(1),
        _ => None,
    }
}

/// How often the block is handed up in a drain, where nothing else is.
fn all_ups(drained: &Drained, block: &[u8]) -> Option<u64> {
    let mut count: u64 = 0;
    for ends in drained.effects.as_slice() {
        for told in ends.as_slice() {
            count = count.saturating_add(ups_of(told, block)?);
        }
    }
    Some(count)
}

/// How often a drain notes that the block is sent, where it notes nothing else.
fn all_notes(drained: &Drained) -> Option<u64> {
    let mut count: u64 = 0;
    for ends in drained.effects.as_slice() {
        for told in ends.as_slice() {
            count = count.saturating_add(notes_of(told)?);
        }
    }
    Some(count)
}

/// Whether a drain took 7,176 events, handed the block up once, noted once that it is sent, and
/// nothing else.
fn is_complete(drained: &Drained, block: &[u8]) -> bool {
    drained.events == 7176 && all_ups(drained, block) == Some(1) && all_notes(drained) == Some(1)
}

/// Whether a drain completes the block's session.
fn is_completed(world: &mut LinkWorld, block: &[u8]) -> Result<bool, Fail>
    requires { world.old.spent ≡ false }
    ensures { OnOk result (world.new.spent ≡ false) }
{
    match world.drain() {
        Ok(drained) => Ok(is_complete(&drained, block)),
        Err(_) => Err(Fail::new("the link isn't drained")),
    }
}

/// The first end sends this block, in 8,192 segments.
fn send(world: &mut LinkWorld, block: &[u8]) -> Result<(), Fail>
    requires { world.old.spent ≡ false }
    ensures { OnOk result (world.new.spent ≡ false) }
{
    match world.submit(End::First, block, block.len() as u64) {
        Ok(told) => is_so(
            told.out.len() == 8192,
            "the block isn't sent in 8,192 segments",
        ),
        Err(_) => Err(Fail::new("the block isn't sent")),
    }
}

/// The greatest block is sent, and every second segment comes; the report on them has as many claims
/// as it may have. It comes too, and what is sent again for it is lost. Then a drain completes the
/// session, in 7,176 events at one moment: the clock; the report again and its acknowledgement; the
/// checkpoint, and the next report with its acknowledgement; the 7,168 segments once more; and the
/// last report and its acknowledgement. The cost is 8,192 and 16.
fn goes(alloc: Global, world: &mut LinkWorld, block: &[u8]) -> Result<(), Fail>
    requires { world.old.spent ≡ false }
{
    send(world, block)?;
    is_so(half_of_it_comes(world)?, "a segment isn't taken")?;
    is_so(is_reported(alloc, world)?, "the report")?;
    is_so(is_answered(alloc, world)?, "what is sent again")?;
    is_so(is_completed(world, block)?, "the drain")?;
    is_so(world.now() == 10_000, "the clock at the end")?;
    is_so(world.sent() == 22_537, "how many datagrams were sent")
}

#[test]
fn the_greatest_block_is_completed(rt: HostRuntime) -> Result<(), Fail> {
    let octets = block(rt.alloc(), BLOCK_MAX)?;
    let mut world = link(rt.alloc(), 512, 10)?;
    goes(rt.alloc(), &mut world, &octets)
}

/// Whether a block is refused as too large.
fn is_too_large(world: &mut LinkWorld, block: &[u8]) -> bool
    requires { world.old.spent ≡ false }
{
    matches!(
        world.submit(End::First, block, 0),
        Err(SubmitRefused::TooLarge)
    )
}

#[test]
fn a_greater_block_is_refused(rt: HostRuntime) -> Result<(), Fail> {
    let octets = block(rt.alloc(), 4_194_305)?;
    let mut world = link(rt.alloc(), 512, 10)?;
    is_so(is_too_large(&mut world, &octets), "it isn't refused")
}
