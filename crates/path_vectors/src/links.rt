//! What the tables of links share: a link, and a delivery on it.

ghost use Rattle.std.specs.Prelude.{◌≡◌, false, IfOk, OnOk};

use ltp_engine::Engine;
use ltp_segment::Policy;
use ltp_world::{DeliverRefused, EndEffects, LinkWorld};
use std::alloc::Global;
use std::test::Fail;

/// The engines 1 and 2 at moment 0, which cut segments of so many octets and send what waits for an
/// answer so often.
pub(crate) fn link(alloc: Global, segment: u32, limit: u32) -> Result<LinkWorld, Fail>
    ensures { IfOk result (λ world. world.spent ≡ false) }
{
    let Ok(policy) = Policy::new(segment, 10_000, limit, 160_000) else {
        return Err(Fail::new("there is no such policy"));
    };
    let first = Engine::new(alloc, 1, 2, 1, policy);
    let second = Engine::new(alloc, 2, 1, 1, policy);
    Ok(LinkWorld::new(alloc, first, second, 0))
}

/// Datagram `k` is delivered.
pub(crate) fn deliver(world: &mut LinkWorld, k: usize) -> Result<EndEffects, Fail>
    requires { world.old.spent ≡ false }
    ensures { OnOk result (world.new.spent ≡ false) }
{
    match world.deliver(k) {
        Ok(told) => Ok(told),
        Err(DeliverRefused::NoSuchDatagram) => Err(Fail::new("a row has no datagram")),
        Err(DeliverRefused::Memory) => Err(Fail::new("memory ran out")),
    }
}
