//! Lines whose texts are added whole as they come.
ghost use Rattle.std.specs.Prelude.{◌≡◌, [], List, ℕ};

use crate::line_step::LineStep;
use crate::part_line_step::PartLineStep;
use crate::turned::Turned;
use edge_traits::Status;
use std::alloc::AllocError;

/// A step whose texts are all added at once, among those that may hand on a text in parts.
#[derive(Drop)]
pub struct AtOnce<L: LineStep + Drop> {
    step: L,
}

impl<L: LineStep + Drop> AtOnce<L> {
    /// The step, which stands as it stood.
    pub fn new(step: L) -> AtOnce<L>
        ensures shows { (state : L.State) → L.Shows step state → ⟦<AtOnce<L> as PartLineStep>⟧.Shows result [] state }
        ensures shown { (state : L.State) → ⟦<AtOnce<L> as PartLineStep>⟧.Shows result [] state → L.Shows step state }
        ensures none_due { ⟦<AtOnce<L> as PartLineStep>⟧.parts result ≡ 0 }
        ensures began { ⟦<AtOnce<L> as PartLineStep>⟧.Began result → L.Began step }
    {
        AtOnce { step }
    }
}

impl<L: LineStep + Drop> PartLineStep for AtOnce<L> {
    ghost State = { L.State };

    ghost Shows = { λ s due state. (due ≡ []) × L.Shows s.step state };

    ghost rules = { L.rules };

    ghost Began = { λ s. L.Began s.step };

    ghost parts = { λ s. 0 };

    fn most_lines(&self) -> u32 {
        self.step.most_lines()
    }

    fn most_octets(&self) -> u32 {
        self.step.most_octets()
    }

    fn line(&mut self, number: u64, line: &[u8], text: &mut String) -> Result<Turned, AllocError> {
        match self.step.line(number, line, text)? {
            Some(status) => Ok(Turned::Ends(status)),
            None => Ok(Turned::Passes),
        }
    }

    fn tell(&mut self, text: &mut String) -> Result<bool, AllocError> {
        Ok(false)
    }

    fn finish(&mut self, text: &mut String) -> Result<Status, AllocError> {
        self.step.finish(text)
    }
}
