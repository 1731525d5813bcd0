//! Lists that mostly have a single item.

ghost use Rattle.std.specs.Prelude.{◌≡◌, ◌++◌, ◌∷◌, [], IfOk, OnErr};
ghost use Rattle.ltp_session.specs.Engine.{list_of};

use std::alloc::{AllocError, Global};
use std::marker::Model;

/// How items are kept.
#[derive(Debug, Drop)]
enum FewItems<T> {
    /// A single one, and where memory for more comes from.
    One([T; 1], Global),
    /// Any number of them.
    Several(Vec<T>),
}

/// Items, in their order. A single one takes no memory.
#[derive(Debug, Drop)]
pub struct Few<T> {
    items: FewItems<T>,
}

impl<T> Model for Few<T> {
    ghost use Rattle.std.specs.Prelude.{List};
    ghost use Rattle.ltp_engine.specs.FewItems.{items_in};

    ghost Value = { List T };

    ghost view = { λ few. items_in few.items };
}

impl<T: Copy> Few<T> {
    /// A single item. It takes no memory.
    pub fn one(alloc: Global, item: T) -> Few<T>
        ensures { result ≡ item ∷ [] }
    {
        Few {
            items: FewItems::One([item], alloc),
        }
    }

    /// These items, moved and not copied.
    pub fn from_vec(items: Vec<T>) -> Few<T>
        ensures { result ≡ items.items }
    {
        Few {
            items: FewItems::Several(items),
        }
    }

    /// The items as a vector. A single one is put into memory; others are moved and not copied.
    pub fn into_vec(self) -> Result<Vec<T>, AllocError>
        ensures { IfOk result (λ items. items.items ≡ self) }
    {
        match self.items {
            FewItems::One(one, alloc) => {
                let mut items = Vec::new(alloc);
                items.push(one[0])?;
                Ok(items)
            }
            FewItems::Several(items) => Ok(items),
        }
    }

    /// The items, lent.
    pub fn as_slice(&self) -> &[T]
        ensures { result.now ≡ self.now }
    {
        match &self.items {
            FewItems::One(one, _) => one.as_slice(),
            FewItems::Several(items) => items.as_slice(),
        }
    }

    /// These items, and one after them, where there is one. Memory is wanted only where there is
    /// another before it.
    pub(crate) fn with(self, alloc: Global, item: Option<T>) -> Result<Few<T>, AllocError>
        ensures items { IfOk result (λ all. all ≡ self ++ list_of item) }
        ensures wanted { OnErr result (self ≡ [] → ⊥) }
    {
        let Some(item) = item else {
            return Ok(self);
        };
        if self.as_slice().is_empty() {
            return Ok(Few::one(alloc, item));
        }
        let mut items = self.into_vec()?;
        items.push(item)?;
        Ok(Few::from_vec(items))
    }
}
