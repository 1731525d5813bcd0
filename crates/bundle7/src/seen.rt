//! What later blocks ask of the extension blocks so far.

ghost use Rattle.std.specs.Prelude.{◌≡◌, ◌<◌, ◌++◌, ◌∷◌, [], length};

use std::marker::Model;

/// The most extension blocks that a bundle has. Own rule.
pub const MOST_EXTENSIONS: u64 = 64;

/// At most so many numbers, in their order. They ask for no memory.
#[derive(Drop)]
pub(crate) struct Numbers {
    items: [u64; 64],
    count: usize,
}

impl Model for Numbers {
    ghost use Rattle.std.specs.Prelude.{◌≤◌, ℕ, List, take};

    ghost Value = { List ℕ };

    ghost view = { λ numbers. take numbers.count numbers.items };

    ghost invariant = { λ numbers. numbers.count ≤ 64 };
}

impl Numbers {
    ghost use Rattle.bundle7.specs.Table.{has};

    /// No numbers yet.
    fn none() -> Numbers
        ensures { result ≡ [] }
    {
        Numbers {
            items: [0; 64],
            count: 0,
        }
    }

    /// Forgets all.
    fn clear(&mut self)
        ensures { self.new ≡ [] }
    {
        self.count = 0;
    }

    /// How many there are.
    fn count(&self) -> u64
        ensures { result ≡ length self.now }
    {
        self.count as u64
    }

    /// One more.
    fn push(&mut self, number: u64)
        requires { length self.old < 64 }
        ensures { self.new ≡ self.old ++ number ∷ [] }
    {
        self.items[self.count] = number;
        self.count += 1;
    }

    /// Whether this number is among them.
    pub(crate) fn has(&self, number: u64) -> bool
        ensures { result ≡ has number self.now }
    {
        self.items[..self.count].iter().any(|item| *item == number)
    }
}

/// The types and the numbers of the extension blocks so far.
#[derive(Drop)]
pub struct Seen {
    pub(crate) kinds: Numbers,
    pub(crate) numbers: Numbers,
}

impl Seen {
    ghost use Rattle.bundle7.specs.Seen.{seen_with};

    /// No blocks yet.
    pub fn none() -> Seen
        ensures { result ≡ record { kinds = []; numbers = [] } }
    {
        Seen {
            kinds: Numbers::none(),
            numbers: Numbers::none(),
        }
    }

    /// Forgets all.
    pub fn clear(&mut self)
        ensures { self.new ≡ record { kinds = []; numbers = [] } }
    {
        self.kinds.clear();
        self.numbers.clear();
    }

    /// How many blocks there are.
    pub fn count(&self) -> u64
        ensures { result ≡ length self.now.kinds }
    {
        self.kinds.count()
    }

    /// One more block, of this type and number.
    pub fn push(&mut self, kind: u64, number: u64)
        requires kinds { length self.old.kinds < 64 }
        requires numbers { length self.old.numbers < 64 }
        ensures { self.new ≡ seen_with self.old kind number }
    {
        self.kinds.push(kind);
        self.numbers.push(number);
    }
}
