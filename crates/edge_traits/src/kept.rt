//! Octets that are kept in memory as far as there is room.
ghost use Rattle.std.specs.Prelude.{◌≡◌, ◌≤◌, [], false, vec_len, vec_capacity, IfOk};
ghost use Rattle.edge_traits.specs.InMemory.{Keeping, kept_after};

use std::alloc::{AllocError, Global};
use std::marker::Model;

/// The octets kept so far, and whether a later piece had no room. After one that had none, none is
/// kept.
#[derive(Drop)]
pub struct Kept {
    octets: Vec<u8>,
    room: usize,
    lost: bool,
}

impl Model for Kept {
    ghost Value = { Keeping };

    ghost view = { λ k. record { room = k.room; octets = k.octets.items; lost = k.lost } };

    ghost invariant = { λ k. (vec_len k.octets ≤ k.room) × (k.room ≤ vec_capacity k.octets) };
}

impl Kept {
    /// None yet, with room for so many octets.
    pub fn new(alloc: Global, room: usize) -> Result<Kept, AllocError>
        ensures { IfOk result (λ k. k ≡ record { room = room; octets = []; lost = false }) }
    {
        let octets = Vec::with_capacity(alloc, room)?;
        Ok(Kept {
            octets,
            room,
            lost: false,
        })
    }

    /// The octets that were kept.
    pub fn octets(&self) -> &[u8]
        ensures { result.now ≡ self.now.octets }
    {
        self.octets.as_slice()
    }

    /// Keeps the piece where there is room for it and none was lost before. It takes no memory.
    pub fn keep(&mut self, piece: &[u8])
        ensures { self.new ≡ kept_after self.old piece.now }
    {
        let room = self.room - self.octets.len();
        if self.lost || room < piece.len() || self.octets.extend_from_slice(piece).is_err() {
            self.lost = true;
        }
    }
}
