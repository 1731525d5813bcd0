//! The script, which is drawn as it is played.

ghost use Rattle.std.specs.Prelude.{◌≡◌, ◌<◌, ◌^◌, ◌+◌, ℕ, List, [], ◌∷◌, suc, false, OnOk};
ghost use Rattle.path_laws.specs.Path.{PathSetup, Path, PathEvent};
ghost use Rattle.make_run.specs.Draws.{next, drawn};
ghost use Rattle.make_run.specs.Script.{Plan, send_by, event_by, plans};
ghost use Rattle.make_run.specs.Ties.{Leaves, PlaysUpTo};

use crate::bundles::{bundle_octets, sender_of};
use crate::draws::Draws;
use crate::making::Making;
use crate::stop::Stop;
use std::alloc::Global;

/// A payload has at most so many octets.
const MOST_PAYLOAD: u64 = 6_000;

/// So many other events follow each send.
const OTHERS: u64 = 8;

/// A wait is shorter than so many milliseconds.
const LONGEST_WAIT: u64 = 20_000;

/// The i-th send, from 0.
fn play_send(alloc: Global, making: &mut Making, draws: &mut Draws, i: u64) -> Result<(), Stop>
    requires small { i < 2 ^ 32 }
    requires whole { making.old.path.spent ≡ false }
    ensures draws { OnOk result (draws.new.state ≡ next draws.old.state) }
    ensures whole { OnOk result (making.new.path.spent ≡ false) }
    ensures plays { (s : PathSetup) (w : Path) (script : List PathEvent) (more : List Plan)
        → Leaves s w script (send_by i (drawn (next draws.old.state)) ∷ more) making.old
        → PlaysUpTo s w script more making.new result }
{
    let size = 1 + draws.draw() % MOST_PAYLOAD;
    let bundle = bundle_octets(alloc, i, size as usize)?;
    making.send(sender_of(i), bundle.as_slice())
}

/// An event that is no send.
fn play_other(making: &mut Making, draws: &mut Draws) -> Result<(), Stop>
    requires { making.old.path.spent ≡ false }
    ensures draws { OnOk result (draws.new.state ≡ next (next draws.old.state)) }
    ensures whole { OnOk result (making.new.path.spent ≡ false) }
    ensures plays { (s : PathSetup) (w : Path) (script : List PathEvent) (more : List Plan)
        → Leaves s w script (event_by (drawn (next draws.old.state)) (drawn (next (next draws.old.state))) ∷ more) making.old
        → PlaysUpTo s w script more making.new result }
{
    let r = draws.draw();
    let t = draws.draw();
    if r % 4 == 3 {
        making.wait(t % LONGEST_WAIT)
    } else {
        making.deliver(t)
    }
}

/// The i-th send, from 0, and the other events after it.
fn play_round(alloc: Global, making: &mut Making, draws: &mut Draws, i: u64) -> Result<(), Stop>
    requires small { i < 2 ^ 32 }
    requires whole { making.old.path.spent ≡ false }
    ensures whole { OnOk result (making.new.path.spent ≡ false) }
    ensures plays { (s : PathSetup) (w : Path) (script : List PathEvent) (left : ℕ)
        → Leaves s w script (plans (suc left) i draws.old.state) making.old
        → PlaysUpTo s w script (plans left (i + 1) draws.new.state) making.new result }
{
    play_send(alloc, making, draws, i)?;
    'others: for _ in 0..OTHERS {
        play_other(making, draws)?;
    }
    Ok(())
}

/// The whole script: so many sends, each with the other events after it.
pub(crate) fn play(alloc: Global, making: &mut Making, seed: u64, count: u64) -> Result<(), Stop>
    requires few { count < 2 ^ 32 }
    requires whole { making.old.path.spent ≡ false }
    ensures whole { OnOk result (making.new.path.spent ≡ false) }
    ensures plays { (s : PathSetup) (w : Path) (script : List PathEvent)
        → Leaves s w script (plans count 0 seed) making.old
        → PlaysUpTo s w script [] making.new result }
{
    let mut draws = Draws { state: seed };
    'rounds: for i in 0..count {
        play_round(alloc, making, &mut draws, i)?;
    }
    Ok(())
}
