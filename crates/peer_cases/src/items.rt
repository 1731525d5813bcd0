//! What stands in a block that was handed up, one thing after the other.

ghost use Rattle.std.specs.Prelude.{◌≡◌, length, IfSome};
ghost use Rattle.std.specs.Option.{option_map};
ghost use Rattle.peer_cases.specs.Rows.{items_of, index_if};

use bundle_rows::{End, Next, next_at};
use gate_cases::Face;
use std::marker::Model;

/// A thing that stands in a block.
#[derive(Clone, Copy, Debug)]
pub enum Item<'a> {
    /// A bundle of the face's version.
    Bundle {
        /// Its place in the row, from 1, where it isn't alone in it.
        index: Option<usize>,
        /// Its octets.
        octets: &'a [u8],
    },
    /// The end of a row that doesn't end with its block.
    End {
        /// Its place in the row, from 1, where it isn't alone in it.
        index: Option<usize>,
        /// Where the row ends, and why.
        end: End,
    },
}

/// The things in a block that are still to come.
#[derive(Debug, Drop)]
pub struct Items<'a> {
    face: Face,
    block: &'a [u8],
    /// Whether more than one thing stands in the block.
    several: bool,
    /// The place in the row of the next thing, from 1.
    index: usize,
    /// Where it begins.
    at: usize,
    /// What it is.
    next: Next,
}

ghost use Rattle.peer_cases.specs.Items.{item_seen, IsItem, Gives, goes_on};

impl<'a> Model for Items<'a> {
    ghost use Rattle.peer_cases.specs.Items.{ItemsValue, items_from_place, IsAhead};

    ghost Value = { ItemsValue };

    ghost view = { λ items. record {
      face = items.face;
      left = items_from_place items.several items.index items.face items.block.now items.at;
    } };

    ghost invariant = { λ items. IsAhead items.face items.block.now items.index items.at items.next };
}

impl<'a> Items<'a> {
    /// All that stands in a block that was handed up at a face. It takes no memory.
    pub fn new(face: Face, block: &'a [u8]) -> Items<'a>
        ensures face { result.face ≡ face }
        ensures left { result.left ≡ items_of face block.now }
    {
        let next = next_at(face, block, 0);
        Items {
            face,
            block,
            several: is_several(block, next),
            index: 1,
            at: 0,
            next,
        }
    }

    /// The next thing, where one is left. It takes no memory. The octets of a bundle are those of one
    /// bundle of the face's version.
    pub fn next_item(&mut self) -> Option<Item<'a>>
        ensures face { self.new.face ≡ self.old.face }
        ensures gives { Gives self.old.left self.new.left (option_map item_seen result) }
        ensures bundle { IfSome result (IsItem self.old.face) }
    {
        let index = index_if(self.several, self.index);
        match self.next {
            Next::Nothing => None,
            Next::Bundle { to } => {
                let octets = &self.block[self.at..to];
                self.next = next_at(self.face, self.block, to);
                self.at = to;
                self.index += 1;
                Some(Item::Bundle { index, octets })
            }
            Next::End { at, cause } => {
                self.next = Next::Nothing;
                self.at = self.block.len();
                Some(Item::End {
                    index,
                    end: End { at, cause },
                })
            }
        }
    }
}

/// Whether something follows what stands first in a block.
fn is_several(block: &[u8], first: Next) -> bool
    ensures { result ≡ goes_on (length block.now) first }
{
    match first {
        Next::Nothing | Next::End { .. } => false,
        Next::Bundle { to } => to != block.len(),
    }
}

/// The place in the row, where there is more than one thing in it.
fn index_if(several: bool, index: usize) -> Option<usize>
    ensures { result ≡ index_if several index }
{
    if several { Some(index) } else { None }
}
