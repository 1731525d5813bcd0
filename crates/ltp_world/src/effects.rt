//! What ends of a link do in answer to an event.

ghost use Rattle.std.specs.Prelude.{◌≡◌, [], ◌∷◌, length, IfOk};
ghost use Rattle.ltp_engine.specs.Effects.{nothing_done};
ghost use Rattle.ltp_world.specs.Values.{both_ends};

use crate::ends::End;
use endpoint::Listed;
use ltp_engine::{Effects, Greens, Notes, Ups};
use ltp_segment::Outs;
use std::alloc::{AllocError, Global};
use std::marker::Model;

/// What an end does.
#[derive(Debug, Drop)]
pub struct EndEffects {
    /// The end.
    pub end: End,
    /// What it does.
    pub effects: Effects,
}

/// What ends do, in order.
#[derive(Debug, Drop)]
pub struct WorldEffects {
    items: Vec<EndEffects>,
}

impl Model for WorldEffects {
    ghost use Rattle.std.specs.Prelude.{List};
    ghost use Rattle.ltp_world.specs.declared.effects.EndEffects.{EndEffects};

    ghost Value = { List EndEffects };

    ghost view = { λ effects. effects.items.items };
}

impl WorldEffects {
    /// What one end does.
    pub fn one(alloc: Global, told: EndEffects) -> Result<WorldEffects, AllocError>
        ensures { IfOk result (λ one. one ≡ told ∷ []) }
    {
        let mut items = Vec::new(alloc);
        items.push(told)?;
        Ok(WorldEffects { items })
    }

    /// Both ends do nothing.
    pub(crate) fn idle(alloc: Global) -> Result<WorldEffects, AllocError>
        ensures { IfOk result (λ both. both ≡ both_ends nothing_done nothing_done) }
    {
        WorldEffects::of(alloc, nothing(alloc), nothing(alloc))
    }

    /// What both ends do, the first one first.
    pub(crate) fn of(
        alloc: Global,
        first: Effects,
        second: Effects,
    ) -> Result<WorldEffects, AllocError>
        ensures { IfOk result (λ both. both ≡ both_ends first second) }
    {
        let mut items = Vec::new(alloc);
        items.push(EndEffects {
            end: End::First,
            effects: first,
        })?;
        items.push(EndEffects {
            end: End::Second,
            effects: second,
        })?;
        Ok(WorldEffects { items })
    }

    /// What ends do, moved and not copied.
    pub fn into_vec(self) -> Vec<EndEffects>
        ensures { result.items ≡ self }
    {
        let WorldEffects { items } = self;
        items
    }

    /// What ends do, lent.
    pub fn as_slice(&self) -> &[EndEffects]
        ensures { result.now ≡ self.now }
    {
        self.items.as_slice()
    }
}

/// Nothing is done. It takes no memory.
fn nothing(alloc: Global) -> Effects
    ensures { result ≡ nothing_done }
{
    Effects {
        out: Outs::new(alloc),
        ups: Ups::from_vec(Vec::new(alloc)),
        greens: Greens::from_vec(Vec::new(alloc)),
        notes: Notes::from_vec(Vec::new(alloc)),
    }
}

/// What ends do at one event after the other.
pub type WorldSteps = Listed<WorldEffects>;

/// What a drain did.
#[derive(Debug, Drop)]
pub struct Drained {
    /// How many events there were.
    pub events: u64,
    /// What the ends did at each event, in order: where a datagram came the one that it came to, and where
    /// the clock was set both, which ticked.
    pub effects: WorldSteps,
}
