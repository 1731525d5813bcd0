//! Drains from window to window.

ghost use Rattle.std.specs.Prelude.{◌≡◌, false, true, IfOk, OnOk};

use crate::lines::is_so;
use crate::plans::plan_of;
use ltp_engine::Engine;
use ltp_segment::Policy;
use ltp_world::{DeliverRefused, End};
use std::alloc::Global;
use std::test::Fail;
use window_world::{WindowDeliver, WindowDrained, WindowSubmit, WindowWorld};

/// The engines 1 and 2 at moment 0, on a link that is open in these windows.
fn link(alloc: Global, windows: &[(u64, u64)]) -> Result<WindowWorld, Fail>
    ensures { IfOk result (λ world. world.spent ≡ false) }
{
    let Ok(policy) = Policy::new(1_024, 10_000, 10, 40_000) else {
        return Err(Fail::new("there is no such policy"));
    };
    let Ok(plan) = plan_of(alloc, windows) else {
        return Err(Fail::new("the windows are refused"));
    };
    let first = Engine::new(alloc, 1, 2, 1, policy);
    let second = Engine::new(alloc, 2, 1, 1, policy);
    Ok(WindowWorld::new(alloc, first, second, plan, 0))
}

/// The first end sends three octets, all red.
fn send(world: &mut WindowWorld) -> Result<(), Fail>
    requires { world.old.spent ≡ false }
    ensures { OnOk result (world.new.spent ≡ false) }
{
    match world.submit(End::First, b"abc".as_slice(), 3) {
        Ok(_) => Ok(()),
        Err(_) => Err(Fail::new("a block isn't sent")),
    }
}

/// A drain has so many events, all at this moment, and the plan ends it or doesn't.
fn is_drained(done: &WindowDrained, events: u64, now: u64, plan_ends: bool) -> Result<(), Fail> {
    is_so(done.events == events, "the events")?;
    is_so(
        done.plan_ends == plan_ends,
        "whether the plan ends the drain",
    )?;
    for at in done.effects.as_slice() {
        is_so(at.now == now, "the moment of an event")?;
    }
    Ok(())
}

/// What a drain is to do, and how the link stands after it.
struct Drain {
    events: u64,
    plan_ends: bool,
    now: u64,
    sent: usize,
}

/// Three octets are sent, and a drain does so.
fn drains(world: &mut WindowWorld, wanted: &Drain) -> Result<(), Fail>
    requires { world.old.spent ≡ false }
{
    send(world)?;
    let done = world.drain()?;
    is_drained(&done, wanted.events, wanted.now, wanted.plan_ends)?;
    is_so(world.now() == wanted.now, "the clock at the end")?;
    is_so(world.sent() == wanted.sent, "how many datagrams were sent")
}

/// On a link that is open in these windows a drain does so.
fn goes(alloc: Global, windows: &[(u64, u64)], wanted: &Drain) -> Result<(), Fail> {
    let mut world = link(alloc, windows)?;
    drains(&mut world, wanted)
}

/// A timer of 10,000 is due 5,000 after the second window begins: there the block is sent again, and
/// all that follows happens at that moment.
const GOES_ON: &Drain = &Drain {
    events: 4,
    plan_ends: false,
    now: 105_000,
    sent: 4,
};

#[test]
fn a_drain_goes_on_in_the_next_window(rt: HostRuntime) -> Result<(), Fail> {
    goes(rt.alloc(), &[(0, 5_000), (100_000, 200_000)], GOES_ON)
}

/// Without a second window the timer waits, and nothing is spent.
const ENDS: &Drain = &Drain {
    events: 0,
    plan_ends: true,
    now: 0,
    sent: 1,
};

#[test]
fn a_plan_ends_a_drain(rt: HostRuntime) -> Result<(), Fail> {
    goes(rt.alloc(), &[(0, 5_000)], ENDS)
}

/// Whether there is no datagram 0, on a link that is open.
fn has_none(world: &mut WindowWorld) -> bool
    requires { world.old.spent ≡ false }
    ensures { result ≡ true → world.new.spent ≡ false }
{
    matches!(
        world.deliver(0),
        Err(WindowDeliver::Refused {
            cause: DeliverRefused::NoSuchDatagram
        })
    )
}

/// The clock is set to the end of the window, at which both ends are told.
fn closes(world: &mut WindowWorld) -> Result<(), Fail>
    requires { world.old.spent ≡ false }
    ensures { OnOk result (world.new.spent ≡ false) }
{
    let told = world.clock(5_000)?;
    is_so(told.as_slice().len() == 2, "the ends")?;
    is_so(!world.is_open(), "the link is open")
}

/// Whether nothing is submitted, as the link is closed.
fn submits_nothing(world: &mut WindowWorld) -> bool
    requires { world.old.spent ≡ false }
    ensures { result ≡ true → world.new.spent ≡ false }
{
    matches!(
        world.submit(End::First, b"".as_slice(), 0),
        Err(WindowSubmit::Closed)
    )
}

/// Whether nothing is delivered, as the link is closed.
fn delivers_nothing(world: &mut WindowWorld) -> bool
    requires { world.old.spent ≡ false }
{
    matches!(world.deliver(9), Err(WindowDeliver::Closed))
}

/// A link is closed, and refuses as that.
fn refuses(world: &mut WindowWorld) -> Result<(), Fail>
    requires { world.old.spent ≡ false }
{
    if !has_none(world) {
        return Err(Fail::new("there is a datagram 0"));
    }
    closes(world)?;
    if !submits_nothing(world) {
        return Err(Fail::new("a block is sent on a closed link"));
    }
    is_so(delivers_nothing(world), "a datagram comes on a closed link")
}

/// While the link is closed nothing is submitted or delivered, also what there isn't.
#[test]
fn a_closed_link_refuses_first(rt: HostRuntime) -> Result<(), Fail> {
    let mut world = link(rt.alloc(), &[(0, 5_000)])?;
    refuses(&mut world)
}
