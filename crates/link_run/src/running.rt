//! The events of a link.

ghost use Rattle.std.specs.Prelude.{◌≡◌, ◌<◌, ◌≤◌, ◌^◌, ◌+◌, ◌-◌, ◌++◌, ℕ, List, Bool, [], ◌∷◌, true, false, length, nat_lt, None, IfOk, IfSome};
ghost use Rattle.std.specs.String.{string_bytes};
ghost use Rattle.command_frame.specs.Stops.{IsStop};
ghost use Rattle.command_frame.specs.Lines.{TurnsAs};
ghost use Rattle.link_run.specs.Link.{LinkCourse, LinkSetup, LinkState, delivers, drained, drains, if_kept, passes_to, sends};
ghost use Rattle.window_world.specs.Refused.{submit_word};
ghost use Rattle.link_run.specs.Shows.{StandsOn, Stood, TellsUndelivered, capped, is_memory};
ghost use Rattle.link_run.specs.WrittenLines.{closed_refusal, count_sent, count_timed, deliver_refusal, last_line, octets_sent, octets_timed, send_refusal, timed_text, told_text};

use crate::counting::{add_sent, add_timed, count_sent, count_timed};
use crate::written_lines::{
    write_closed, write_last, write_timed, write_told, write_undelivered, write_unsent,
};
use edge_traits::Status;
use ltp_engine::SubmitRefused;
use ltp_world::{DeliverRefused, End, EndEffects};
use std::alloc::{AllocError, Global};
use window_world::{WindowDeliver, WindowDrained, WindowSubmit, WindowWorld};

/// The most octets of all datagrams that were sent.
pub(crate) const MOST_SENT: u64 = 1 << 28;

/// An end submits a block, all of it red.
pub(crate) fn send(
    alloc: Global,
    world: &mut WindowWorld,
    octets: &mut u64,
    end: End,
    block: &[u8],
    text: &mut String,
) -> Result<Option<Status>, AllocError>
    requires { world.old.spent ≡ false }
    ensures stops { IfOk result (λ ends. IfSome ends IsStop) }
    ensures whole { IfOk result (λ ends. world.new.spent ≡ false) }
    ensures turn { (s : LinkSetup) (c : LinkCourse) → StandsOn world.old octets.old s c
        → IfOk result (TurnsAs (Stood world.new octets.new) (sends s c end block.now)
        (string_bytes text.old) (string_bytes text.new)) }
{
    match world.submit(end, block, block.len() as u64) {
        Ok(effects) => {
            let told = [EndEffects { end, effects }];
            tell(alloc, octets, world.sent(), told.as_slice(), text)
        }
        Err(refused) => unsent(alloc, end, refused, text),
    }
}

/// A block wasn't submitted.
fn unsent(
    alloc: Global,
    end: End,
    refused: WindowSubmit,
    text: &mut String,
) -> Result<Option<Status>, AllocError>
    ensures { IfOk result (λ ends. (ends ≡ None) × (is_memory refused ≡ false)
        × (string_bytes text.new ≡ string_bytes text.old ++ send_refusal end (submit_word refused))) }
{
    if is_memory(&refused) {
        return Err(AllocError);
    }
    write_unsent(alloc, text, end, refused.word())?;
    Ok(None)
}

/// Whether memory ran out.
fn is_memory(refused: &WindowSubmit) -> bool
    ensures { result ≡ is_memory refused.now }
{
    matches!(
        refused,
        WindowSubmit::Refused {
            cause: SubmitRefused::Memory
        }
    )
}

/// A datagram comes to the end that didn't send it.
pub(crate) fn deliver(
    alloc: Global,
    world: &mut WindowWorld,
    octets: &mut u64,
    k: u64,
    text: &mut String,
) -> Result<Option<Status>, AllocError>
    requires { world.old.spent ≡ false }
    ensures stops { IfOk result (λ ends. IfSome ends IsStop) }
    ensures whole { IfOk result (λ ends. world.new.spent ≡ false) }
    ensures turn { (s : LinkSetup) (c : LinkCourse) → StandsOn world.old octets.old s c
        → IfOk result (TurnsAs (Stood world.new octets.new) (delivers s c k)
        (string_bytes text.old) (string_bytes text.new)) }
{
    match world.deliver(k as usize) {
        Ok(told) => {
            let told = [told];
            tell(alloc, octets, world.sent(), told.as_slice(), text)
        }
        Err(refused) => undelivered(alloc, refused, text),
    }
}

/// A datagram wasn't delivered.
fn undelivered(
    alloc: Global,
    refused: WindowDeliver,
    text: &mut String,
) -> Result<Option<Status>, AllocError>
    ensures { IfOk result (λ ends. (ends ≡ None)
        × TellsUndelivered refused (string_bytes text.old) (string_bytes text.new)) }
{
    match refused {
        WindowDeliver::Closed => write_closed(alloc, text)?,
        WindowDeliver::Refused { cause } => match cause {
            DeliverRefused::NoSuchDatagram => write_undelivered(alloc, text)?,
            DeliverRefused::Memory => return Err(AllocError),
        },
    }
    Ok(None)
}

/// Time passes, up to this moment.
pub(crate) fn pass(
    alloc: Global,
    world: &mut WindowWorld,
    octets: &mut u64,
    now: u64,
    text: &mut String,
) -> Result<Option<Status>, AllocError>
    requires whole { world.old.spent ≡ false }
    requires moment { now < 2 ^ 62 }
    ensures stops { IfOk result (λ ends. IfSome ends IsStop) }
    ensures whole { IfOk result (λ ends. world.new.spent ≡ false) }
    ensures turn { (s : LinkSetup) (c : LinkCourse) → StandsOn world.old octets.old s c
        → IfOk result (TurnsAs (Stood world.new octets.new) (passes_to s c now)
        (string_bytes text.old) (string_bytes text.new)) }
{
    if now < world.now() {
        return Ok(None);
    }
    let told = world.clock(now)?;
    tell(alloc, octets, world.sent(), told.as_slice(), text)
}

/// The link stops losing, until nothing is left to do or the plan ends.
pub(crate) fn drain(
    alloc: Global,
    world: &mut WindowWorld,
    windows: bool,
    octets: u64,
    text: &mut String,
) -> Result<Option<Status>, AllocError>
    requires { world.old.spent ≡ false }
    ensures stops { IfOk result (λ ends. IfSome ends IsStop) }
    ensures turn { (s : LinkSetup) (c : LinkCourse) → StandsOn world.old octets s c → s.windows ≡ windows
        → IfOk result (TurnsAs (λ state. state ≡ drained) (drains s c)
        (string_bytes text.old) (string_bytes text.new)) }
{
    let moment = world.now();
    let done = world.drain()?;
    if done.plan_ends && !windows {
        return Ok(Some(Status::Limit));
    }
    tell_drained(alloc, windows, moment, octets, world.sent(), done, text)
}

/// Writes what a drain did, unless more octets were sent by then than may be. So many datagrams were
/// sent by its end.
fn tell_drained(
    alloc: Global,
    windows: bool,
    moment: u64,
    octets: u64,
    sent: usize,
    done: WindowDrained,
    text: &mut String,
) -> Result<Option<Status>, AllocError>
    ensures stops { IfOk result (λ ends. IfSome ends IsStop) }
    ensures told { count_timed done.effects ≤ sent → IfOk result (TurnsAs (λ now. now ≡ drained)
        (if_kept (octets + octets_timed done.effects)
        (timed_text windows moment (sent - count_timed done.effects) done.effects
        ++ last_line done.plan_ends done.events) drained)
        (string_bytes text.old) (string_bytes text.new)) }
{
    let ats = done.effects.as_slice();
    if add_timed(octets, ats) > MOST_SENT {
        return Ok(Some(Status::Limit));
    }
    let before = (sent as u64).saturating_sub(count_timed(0, ats));
    write_timed(alloc, text, windows, moment, before, ats)?;
    write_last(alloc, text, done.plan_ends, done.events)?;
    Ok(None)
}

/// Writes what an event did, unless more octets were sent by then than may be. So many datagrams were
/// sent by its end.
fn tell(
    alloc: Global,
    octets: &mut u64,
    sent: usize,
    tolds: &[EndEffects],
    text: &mut String,
) -> Result<Option<Status>, AllocError>
    ensures stops { IfOk result (λ ends. IfSome ends IsStop) }
    ensures counted { octets.new ≡ capped (octets.old + octets_sent tolds.now) }
    ensures told { (state : LinkState) → count_sent tolds.now ≤ sent
        → IfOk result (TurnsAs (λ now. now ≡ state)
        (if_kept (octets.old + octets_sent tolds.now)
        (told_text (sent - count_sent tolds.now) tolds.now) state)
        (string_bytes text.old) (string_bytes text.new)) }
{
    *octets = add_sent(*octets, tolds);
    if *octets > MOST_SENT {
        return Ok(Some(Status::Limit));
    }
    let before = (sent as u64).saturating_sub(count_sent(0, tolds));
    write_told(alloc, text, before, tolds)?;
    Ok(None)
}
