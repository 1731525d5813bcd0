//! Lists that contracts see as lists, so that records that hold them are equal where their values are.

ghost use Rattle.std.specs.Prelude.{◌≡◌, [], length, IfOk};

use std::alloc::{AllocError, Global};
use std::marker::Model;

/// A list of octets.
#[derive(Debug, Drop)]
pub struct Octets {
    items: Vec<u8>,
}

impl Model for Octets {
    ghost use Rattle.std.specs.Prelude.{List, ℕ};

    ghost Value = { List ℕ };

    ghost view = { λ octets. octets.items.items };
}

impl PartialEq for Octets {
    ghost use Rattle.std.specs.Prelude.{◌==◌};
    ghost use Rattle.std.proofs.Common.{rules};
    ghost use Rattle.std.specs.Cmp.Lexicographic.{pointwise};
    ghost use Rattle.std.specs.Cmp.Rules.{comparing};

    ghost eq = { pointwise ◌==◌ };

    ghost laws = { Prim.search (comparing, rules) };

    fn eq(&self, other: &Octets) -> bool {
        self.as_slice() == other.as_slice()
    }
}

impl Eq for Octets {
    ghost use Rattle.std.proofs.Common.{rules};
    ghost use Rattle.std.specs.Cmp.Rules.{comparing};

    ghost laws = { Prim.search (comparing, rules) };
}

impl Octets {
    /// No octets yet. It takes no memory.
    pub fn new(alloc: Global) -> Octets
        ensures { result ≡ [] }
    {
        Octets {
            items: Vec::new(alloc),
        }
    }

    /// These octets, moved and not copied.
    pub fn from_vec(items: Vec<u8>) -> Octets
        ensures { result ≡ items.items }
    {
        Octets { items }
    }

    /// A copy of these octets, in as much memory as they need.
    pub fn from_slice(alloc: Global, octets: &[u8]) -> Result<Octets, AllocError>
        ensures { IfOk result (λ copied. copied ≡ octets.now) }
    {
        Ok(Octets {
            items: Vec::from_slice(alloc, octets)?,
        })
    }

    /// The octets, moved and not copied.
    pub fn into_vec(self) -> Vec<u8>
        ensures { result.items ≡ self }
    {
        let Octets { items } = self;
        items
    }

    /// The octets, lent.
    pub fn as_slice(&self) -> &[u8]
        ensures { result.now ≡ self.now }
    {
        self.items.as_slice()
    }

    /// How many octets there are.
    pub fn len(&self) -> usize
        ensures { result ≡ length self.now }
    {
        self.items.len()
    }

    /// A copy of the octets.
    pub fn copy(&self, alloc: Global) -> Result<Octets, AllocError>
        ensures { IfOk result (λ copied. copied ≡ self.now) }
    {
        Octets::from_slice(alloc, self.as_slice())
    }
}
