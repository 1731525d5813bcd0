//! The first octets of a field that is under way.

ghost use Rattle.std.specs.Prelude.{◌≡◌, ◌+◌, ◌<◌, ◌≤◌, ◌++◌, ◌∷◌, [], length, ◌==◌};

use std::marker::Model;

/// How many: as many as a body that is an endpoint has at most.
pub(crate) const MOST: usize = 1_050;

/// At most so many octets. They ask for no memory.
#[derive(Drop)]
pub(crate) struct Few {
    items: [u8; MOST],
    count: usize,
}

impl Model for Few {
    ghost use Rattle.std.specs.Prelude.{◌≤◌, ℕ, List, take};

    ghost Value = { List ℕ };

    ghost view = { λ few. take few.count few.items };

    ghost invariant = { λ few. few.count ≤ 1050 };
}

impl Few {
    /// No octets yet.
    pub(crate) fn none() -> Few
        ensures { result ≡ [] }
    {
        Few {
            items: [0; MOST],
            count: 0,
        }
    }

    /// Forgets all.
    pub(crate) fn clear(&mut self)
        ensures { self.new ≡ [] }
    {
        self.count = 0;
    }

    /// How many there are.
    pub(crate) fn len(&self) -> usize
        ensures { result ≡ length self.now }
    {
        self.count
    }

    /// Whether there are none.
    pub(crate) fn is_empty(&self) -> bool
        ensures { result ≡ (length self.now == 0) }
    {
        self.count == 0
    }

    /// The octets, lent.
    pub(crate) fn as_slice(&self) -> &[u8]
        ensures { result.now ≡ self.now }
    {
        &self.items[..self.count]
    }

    /// One more.
    pub(crate) fn push(&mut self, octet: u8)
        requires { length self.old < 1050 }
        ensures { self.new ≡ self.old ++ octet ∷ [] }
    {
        self.items[self.count] = octet;
        self.count += 1;
    }

    /// These too.
    pub(crate) fn fill(&mut self, more: &[u8])
        requires { length self.old + length more.now ≤ 1050 }
        ensures { self.new ≡ self.old ++ more.now }
    {
        let end = self.count + more.len();
        self.items[self.count..end].copy_from_slice(more);
        self.count = end;
    }
}
