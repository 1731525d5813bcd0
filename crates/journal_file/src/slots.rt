//! What is kept while a file is read: a slot for each block that was begun, found by its id without a
//! walk through the others, and emptied where the block ended. Blocks are lent, and copied at the end.

ghost use Rattle.std.specs.Prelude.{◌≡◌, ◌+◌, ◌<◌, ◌≤◌, ◌++◌, ◌∷◌, [], ℕ, true, IfOk, IfSome, IfNone, OnOk, OnErr, length, take, drop};
ghost use Rattle.journal_file.specs.Values.{nothing_kept};
ghost use Rattle.journal_file.specs.Keeping.{has_id, is_pending, kept_with, without_first};
ghost use Rattle.journal_file.specs.Ties.{kept_of, record_of, takes_memory};
ghost use Rattle.journal_file.specs.Wants.{KeepsSome};
ghost use Rattle.journal_file.specs.Rising.{AllBelow, AllFrom, AreRising, IsAbove, Found, NotFound, held, held_in, holds_block};

use crate::kept::{Kept, Pending};
use crate::record::Record;
use endpoint::Octets;
use gate_cases::Face;
use std::alloc::{AllocError, Global};
use std::marker::Model;

/// A block that was begun; none where it ended.
#[derive(Clone, Copy, Debug)]
pub(crate) struct Slot<'a> {
    pub(crate) id: u64,
    pub(crate) face: Face,
    pub(crate) came: Option<u64>,
    pub(crate) block: Option<&'a [u8]>,
}

/// What is kept so far.
#[derive(Drop)]
pub(crate) struct Book<'a> {
    /// A slot for each block that was begun, in the order of their ids.
    slots: Vec<Slot<'a>>,
    /// The marks and the numbers that are reserved.
    rest: Kept,
    /// The greatest id that was given.
    greatest: u64,
}

impl<'a> Model for Book<'a> {
    ghost use Rattle.std.specs.Prelude.{◌+◌};
    ghost use Rattle.journal_file.specs.Values.{KeptValue};
    ghost use Rattle.journal_file.specs.Keeping.{with_pending};
    ghost use Rattle.journal_file.specs.Ties.{kept_of};
    ghost use Rattle.journal_file.specs.Rising.{AllBelow, AreRising, held};

    ghost Value = { KeptValue };

    ghost view = { λ b. with_pending (kept_of b.rest) (held b.slots.items) b.greatest };

    ghost invariant = { λ b. AreRising b.slots.items × AllBelow (b.greatest + 1) b.slots.items };
}

impl<'a> Book<'a> {
    /// Nothing is kept yet. It takes no memory.
    pub(crate) fn new(alloc: Global) -> Book<'a>
        ensures { result ≡ nothing_kept }
    {
        Book {
            slots: Vec::new(alloc),
            rest: Kept::new(alloc),
            greatest: 0,
        }
    }

    /// The greatest id that was given.
    pub(crate) fn greatest(&self) -> u64
        ensures { result ≡ self.now.greatest }
    {
        self.greatest
    }

    /// Whether an id is pending.
    pub(crate) fn is_pending(&self, id: u64) -> bool
        ensures { result ≡ is_pending id self.now.pending }
    {
        holds(self.slots.as_slice(), id)
    }

    /// Does what a record says.
    #[tactic(auto, unfolding(crate::specs::Keeping::kept_with))]
    pub(crate) fn take(&mut self, alloc: Global, said: &Record<'a>) -> Result<(), AllocError>
        requires { IsAbove self.old.greatest (record_of said.now) }
        ensures ok { OnOk result (self.new ≡ kept_with self.old (record_of said.now)) }
        ensures memory { OnErr result (takes_memory (record_of said.now) ≡ true) }
    {
        match said {
            Record::Begun {
                id,
                face,
                came,
                block,
            } => {
                let slot = Slot {
                    id: *id,
                    face: *face,
                    came: *came,
                    block: Some(block),
                };
                add(&mut self.slots, slot, self.greatest)?;
                self.greatest = *id;
                Ok(())
            }
            Record::Done { id, .. } => {
                empty(&mut self.slots, *id);
                Ok(())
            }
            _ => self.rest.take(alloc, said),
        }
    }

    /// What is kept, with copies of the blocks.
    pub(crate) fn close(self, alloc: Global) -> Result<Kept, AllocError>
        ensures kept { IfOk result (λ kept. kept_of kept ≡ self.entry) }
        ensures memory { OnErr result (KeepsSome self.entry) }
    {
        let Book {
            slots,
            rest,
            greatest,
        } = self;
        let pending = copies(alloc, slots.as_slice())?;
        let Kept {
            marks,
            old_reserved,
            new_reserved,
            ..
        } = rest;
        Ok(Kept {
            pending,
            marks,
            old_reserved,
            new_reserved,
            greatest,
        })
    }
}

/// The first slot with this id or one above it, or how many slots there are.
fn slot_of(slots: &[Slot], id: u64) -> usize
    requires { AreRising slots.now }
    ensures within { result ≤ length slots.now }
    ensures below { AllBelow id (take result slots.now) }
    ensures above { AllFrom id (drop result slots.now) }
{
    let mut from = 0;
    let mut to = slots.len();
    'halving: while from < to {
        let middle = from + (to - from) / 2;
        if slots[middle].id < id {
            from = middle + 1;
        } else {
            to = middle;
        }
    }
    from
}

/// Whether a slot holds a block with this id.
fn is_at(slot: &Slot, id: u64) -> bool
    ensures { result ≡ holds_block id slot.now }
{
    slot.id == id && slot.block.is_some()
}

/// The slot that holds a block with this id.
fn place_of(slots: &[Slot], id: u64) -> Option<usize>
    requires { AreRising slots.now }
    ensures found { IfSome result (λ at. Found id at slots.now) }
    ensures none { IfNone result (NotFound id slots.now) }
{
    let at = slot_of(slots, id);
    if at == slots.len() {
        return None;
    }
    if is_at(&slots[at], id) {
        return Some(at);
    }
    None
}

/// Whether a slot holds a block with this id.
fn holds(slots: &[Slot], id: u64) -> bool
    requires { AreRising slots.now }
    ensures { result ≡ is_pending id (held slots.now) }
{
    match place_of(slots, id) {
        Some(_) => true,
        None => false,
    }
}

/// The slot that holds a block with this id is emptied, if there is one.
fn empty(slots: &mut Vec<Slot>, id: u64)
    requires { AreRising slots.old.items }
    ensures held { held slots.new.items ≡ without_first (has_id id) (held slots.old.items) }
    ensures rising { AreRising slots.new.items }
    ensures bound { (n : ℕ) → AllBelow n slots.old.items → AllBelow n slots.new.items }
{
    if let Some(at) = place_of(slots.as_slice(), id) {
        slots[at].block = None;
    }
}

/// Adds a slot at the end.
fn add<'a>(slots: &mut Vec<Slot<'a>>, slot: Slot<'a>, greatest: u64) -> Result<(), AllocError>
    requires rising { AreRising slots.old.items }
    requires bound { AllBelow (greatest + 1) slots.old.items }
    requires above { greatest < slot.id }
    ensures ok { OnOk result (held slots.new.items ≡ held slots.old.items ++ held (slot.entry ∷ [])) }
    ensures rising { AreRising slots.new.items }
    ensures bound { OnOk result (AllBelow (slot.entry.id + 1) slots.new.items) }
    ensures same { OnErr result (slots.new.items ≡ slots.old.items) }
{
    slots.push(slot)?;
    Ok(())
}

/// Copies of the blocks in the slots that aren't empty.
fn copies(alloc: Global, slots: &[Slot]) -> Result<Vec<Pending>, AllocError>
    ensures held { IfOk result (λ pending. pending.items ≡ held slots.now) }
    ensures memory { OnErr result (0 < length (held slots.now)) }
{
    let mut pending = Vec::new(alloc);
    'copying: for slot in slots {
        copy(alloc, *slot, &mut pending)?;
    }
    Ok(pending)
}

/// Adds a copy of the block in a slot, if there is one.
fn copy(alloc: Global, slot: Slot, pending: &mut Vec<Pending>) -> Result<(), AllocError>
    ensures held { OnOk result (pending.new.items ≡ pending.old.items ++ held (slot.entry ∷ [])) }
    ensures memory { OnErr result (0 < length (held (slot.entry ∷ []))) }
{
    match slot.block {
        Some(block) => pending.push(Pending {
            id: slot.id,
            face: slot.face,
            came: slot.came,
            block: Octets::from_slice(alloc, block)?,
        })?,
        None => {}
    }
    Ok(())
}
