//! Blocks of a bundle of version 7 after one another, where they lie.

ghost use Rattle.std.specs.Prelude.{ℕ, ◌≡◌, ◌+◌, ◌<◌, ◌^◌, List, length, drop, Ok};
ghost use Rattle.bundle_judges.specs.Stand7.{Reaches, StartsOn, Steps};

use crate::here7::block_here;
use crate::stand7::{Small, Stage, Stand, Step, end_of, is_last};
use endpoint::Fragment;

impl Stand {
    /// The primary block ended after so many of the octets that are there, of which none came before.
    pub(crate) fn started_here(&mut self, part: Option<Fragment>, rest: &[u8], end: usize) -> Step
        requires counted { self.old.came + length rest.now < 2 ^ 64 }
        requires starts { (text : List ℕ) × StartsOn text self.old rest.now part end }
        ensures { (text : List ℕ) → StartsOn text self.old rest.now part end
            → Steps text self.old (Ok result) self.new }
    {
        self.part = part;
        self.seen.clear();
        self.blocks_here(rest, end)
    }

    /// The blocks after so many octets, as long as they are there as a whole, and the mark after the last.
    /// No stage is written between them.
    fn blocks_here(&mut self, rest: &[u8], from: usize) -> Step
        requires counted { self.old.came + length rest.now < 2 ^ 64 }
        requires reaches { (text : List ℕ)
            × Reaches text self.old rest.now (Stage.Field Small.Block) from }
        ensures { (text : List ℕ) → Reaches text self.old rest.now (Stage.Field Small.Block) from
            → Steps text self.old (Ok result) self.new }
    {
        let mut to = from;
        'following: loop {
            let Some((lead, more)) = block_here(&rest[to..], self.part, &self.seen) else {
                return self.go(Stage::Field(Small::Block), to);
            };
            to += more;
            if is_last(lead.kind, self.seen.count()) {
                return self.end_here(&rest[to..], to);
            }
            self.seen.push(lead.kind, lead.number);
        }
    }

    /// The mark that ends the bundle, after so many octets.
    fn end_here(&mut self, rest: &[u8], more: usize) -> Step
        requires counted { self.old.came + more + length rest.now < 2 ^ 64 }
        ensures { (text left : List ℕ) → Reaches text self.old left (Stage.Field Small.End) more
            → rest.now ≡ drop more left → Steps text self.old (Ok result) self.new }
    {
        match end_of(rest) {
            Ok((_, end)) => Step::Ended(self.came + more + end),
            Err(_) => self.go(Stage::Field(Small::End), more),
        }
    }
}
