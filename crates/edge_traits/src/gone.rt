//! Datagrams that are kept in memory as far as there is room.
ghost use Rattle.std.specs.Prelude.{◌≡◌, ◌≤◌, [], Some, map, length, sum_by, vec_len, vec_capacity, IfOk, IfSome};
ghost use Rattle.edge_traits.specs.Content.{joined};
ghost use Rattle.edge_traits.specs.Datagrams.{texts_of};
ghost use Rattle.edge_traits.specs.InMemory.{KeepingGone, unless_lost, gone_within};

use std::alloc::{AllocError, Global};
use std::marker::Model;

/// The datagrams kept so far, told as long as all of them had room.
#[derive(Drop)]
pub struct Gone {
    octets: Vec<u8>,
    lengths: Vec<usize>,
    room: usize,
    lost: bool,
}

impl Model for Gone {
    ghost Value = { KeepingGone };

    ghost view = { λ g. record {
      room = g.room;
      gone = unless_lost g.lost (texts_of g.lengths.items g.octets.items);
    } };

    ghost invariant = { λ g. (sum_by (λ n. n) g.lengths.items ≡ length g.octets.items)
        × (vec_len g.octets ≤ g.room) × (g.room ≤ vec_capacity g.octets)
        × (vec_len g.lengths ≤ g.room) × (g.room ≤ vec_capacity g.lengths) };
}

impl Gone {
    /// None yet, with room for so many octets in so many datagrams.
    pub fn new(alloc: Global, room: usize) -> Result<Gone, AllocError>
        ensures room { IfOk result (λ g. g.room ≡ room) }
        ensures gone { IfOk result (λ g. g.gone ≡ Some []) }
    {
        let octets = Vec::with_capacity(alloc, room)?;
        let lengths = Vec::with_capacity(alloc, room)?;
        Ok(Gone {
            octets,
            lengths,
            room,
            lost: false,
        })
    }

    /// The octets of those that were kept, end to end.
    pub fn octets(&self) -> &[u8]
        ensures { IfSome self.now.gone (λ gone. result.now ≡ joined gone) }
    {
        self.octets.as_slice()
    }

    /// How many octets each of those has that were kept.
    pub fn lengths(&self) -> &[usize]
        ensures { IfSome self.now.gone (λ gone. result.now ≡ map length gone) }
    {
        self.lengths.as_slice()
    }

    /// Keeps the datagram where there is room for it, and takes no memory.
    pub fn keep(&mut self, datagram: &[u8])
        ensures room { self.new.room ≡ self.old.room }
        ensures gone { self.new.gone ≡ gone_within self.old.room self.old.gone datagram.now }
    {
        let room = self.room - self.octets.len();
        if self.lost
            || self.lengths.len() == self.room
            || room < datagram.len()
            || self.octets.extend_from_slice(datagram).is_err()
            || self.lengths.push(datagram.len()).is_err()
        {
            self.lost = true;
        }
    }
}
