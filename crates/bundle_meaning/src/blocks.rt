//! The extension blocks of a record, each as its own version has it.

ghost use Rattle.std.specs.Prelude.{◌≡◌, ◌++◌, ◌∷◌, [], length, take, IfOk, OnOk, OnErr};
ghost use Rattle.bundle_meaning.specs.Blocks.{is_single};

use endpoint::{Octets, Refs};
use std::alloc::{AllocError, Global};
use std::marker::Model;

/// An extension block of version 6 (RFC 5050, section 4.6).
#[derive(Debug, Drop)]
pub struct Block6Like {
    /// The block's type, not 1.
    pub kind: u8,
    /// The block's flags. Bits 3, last block, and 6, has references, are clear.
    pub flags: u64,
    /// The endpoints that it refers to.
    pub refs: Refs,
    /// Its octets.
    pub body: Octets,
}

/// An extension block of version 7 (RFC 9171, section 4.3.2).
#[derive(Debug, Drop)]
pub struct Block7Like {
    /// The block's type, not 1.
    pub kind: u64,
    /// The block's number, at least 2.
    pub number: u64,
    /// The block's flags.
    pub flags: u64,
    /// The block's check: 0 none, 1 CRC-16 X-25, 2 CRC-32C.
    pub crc: u8,
    /// Its octets.
    pub body: Octets,
}

/// An extension block of one of the two versions.
#[derive(Debug, Drop)]
pub enum Ext {
    /// Of version 6.
    Six(Block6Like),
    /// Of version 7.
    Seven(Block7Like),
}

/// A list of extension blocks.
#[derive(Debug, Drop)]
pub struct Exts {
    items: Vec<Ext>,
}

impl Model for Exts {
    ghost use Rattle.std.specs.Prelude.{List};
    ghost use Rattle.bundle_meaning.specs.declared.blocks.Ext.{Ext};

    ghost Value = { List Ext };

    ghost view = { λ exts. exts.items.items };
}

impl Block6Like {
    /// An equal block.
    pub fn copy(&self, alloc: Global) -> Result<Block6Like, AllocError>
        ensures { IfOk result (λ copied. copied ≡ self.now) }
    {
        Ok(Block6Like {
            kind: self.kind,
            flags: self.flags,
            refs: self.refs.copy(alloc)?,
            body: self.body.copy(alloc)?,
        })
    }
}

impl Block7Like {
    /// An equal block.
    pub fn copy(&self, alloc: Global) -> Result<Block7Like, AllocError>
        ensures { IfOk result (λ copied. copied ≡ self.now) }
    {
        Ok(Block7Like {
            kind: self.kind,
            number: self.number,
            flags: self.flags,
            crc: self.crc,
            body: self.body.copy(alloc)?,
        })
    }
}

impl Ext {
    /// An equal block.
    pub fn copy(&self, alloc: Global) -> Result<Ext, AllocError>
        ensures { IfOk result (λ copied. copied ≡ self.now) }
    {
        Ok(match self {
            Ext::Six(block) => Ext::Six(block.copy(alloc)?),
            Ext::Seven(block) => Ext::Seven(block.copy(alloc)?),
        })
    }
}

impl Exts {
    /// No blocks yet. It takes no memory.
    pub fn new(alloc: Global) -> Exts
        ensures { result ≡ [] }
    {
        Exts {
            items: Vec::new(alloc),
        }
    }

    /// These blocks, moved and not copied.
    pub fn from_vec(items: Vec<Ext>) -> Exts
        ensures { result ≡ items.items }
    {
        Exts { items }
    }

    /// The blocks, moved and not copied.
    pub fn into_vec(self) -> Vec<Ext>
        ensures { result.items ≡ self }
    {
        let Exts { items } = self;
        items
    }

    /// The blocks, lent.
    pub fn as_slice(&self) -> &[Ext]
        ensures { result.now ≡ self.now }
    {
        self.items.as_slice()
    }

    /// How many blocks there are.
    pub fn len(&self) -> usize
        ensures { result ≡ length self.now }
    {
        self.items.len()
    }

    /// Adds a block at the end. Where memory runs out the list stays as it was.
    pub fn push(&mut self, ext: Ext) -> Result<(), AllocError>
        ensures ok { OnOk result (self.new ≡ self.old ++ ext ∷ []) }
        ensures err { OnErr result (self.new ≡ self.old) }
    {
        self.items.push(ext)?;
        Ok(())
    }

    /// A copy of the blocks.
    pub fn copy(&self, alloc: Global) -> Result<Exts, AllocError>
        ensures { IfOk result (λ copied. copied ≡ self.now) }
    {
        let exts = self.as_slice();
        let mut items = Vec::with_capacity(alloc, exts.len())?;
        for ext in exts {
            items.push(ext.copy(alloc)?)?;
        }
        Ok(Exts { items })
    }
}

/// Whether a version 7 bundle has at most one block of this type: a previous node, a bundle age or a
/// hop count (RFC 9171, section 4.4).
pub fn is_single(kind: u64) -> bool
    ensures { result ≡ is_single kind }
{
    kind == 6 || kind == 7 || kind == 10
}
