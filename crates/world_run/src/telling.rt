//! The transcript of a drain, which is written part by part.

ghost use Rattle.std.specs.Prelude.{◌≡◌, ◌++◌, IfOk};
ghost use Rattle.std.specs.String.{string_bytes};
ghost use Rattle.world_run.specs.WrittenLines.{end_line};
ghost use Rattle.world_run.specs.Shows.{steps_text};
ghost use Rattle.world_run.specs.Telling.{left_text, Tells};

use crate::written_lines::{write_effects, write_end};
use path_laws::PathEffects;
use path_world::PathDrained;
use std::alloc::{AllocError, Global};

/// A part that has so many octets isn't added to.
const PART: usize = 65_536;

/// What is left to write of a drain: the lines of some events, and that it ended.
#[derive(Debug, Drop)]
pub(crate) struct Telling {
    /// What was done at the events that are left, the last one first.
    left: Vec<PathEffects>,
    /// How many events there were.
    events: u64,
}

impl Telling {
    /// Nothing of this drain is written.
    pub fn new(done: PathDrained) -> Telling
        ensures { left_text result ≡ steps_text done.effects ++ end_line done.events }
    {
        let PathDrained { events, effects } = done;
        let mut left = effects.into_vec();
        left.reverse();
        Telling { left, events }
    }

    /// Writes the next part, and answers whether more is left.
    pub fn tell(&mut self, alloc: Global, text: &mut String) -> Result<bool, AllocError>
        ensures { IfOk result (Tells self.old self.new (string_bytes text.old) (string_bytes text.new)) }
    {
        'events: while let Some(effects) = self.left.pop() {
            write_effects(alloc, text, effects)?;
            if text.len() >= PART {
                return Ok(true);
            }
        }
        write_end(alloc, text, self.events)?;
        Ok(false)
    }
}
