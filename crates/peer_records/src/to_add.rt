//! Pieces of earlier runs that are still to be added.

ghost use Rattle.std.specs.Prelude.{◌≡◌, true, false, ◌++◌, ◌∷◌, [], drop, map, IfOk, IfSome, IfNone, OnOk, OnErr};
ghost use Rattle.gate_cases.specs.declared.face.Face.TheVariants.{Old, New};
ghost use Rattle.gateway_core.specs.Gate.{at_face, with_face};
ghost use Rattle.peer_gateway.specs.Answers.{added_seen};
ghost use Rattle.peer_records.specs.Said.{AreToAdd, ids_at, ids_left, without_id};

use gate_cases::Face;
use journal_file::Pending;
use peer_gateway::Added;
use std::alloc::{AllocError, Global};
use std::collections::VecDeque;
use std::marker::Model;

/// The ids of pieces of earlier runs that are still to be added at each face, in order.
#[derive(Debug, Drop)]
pub(crate) struct ToAdd {
    at_old: VecDeque<u64>,
    at_new: VecDeque<u64>,
}

impl Model for ToAdd {
    ghost use Rattle.std.specs.Prelude.{ℕ, List};

    ghost Value = { List ℕ × List ℕ };

    ghost view = { λ t. (t.at_old.items, t.at_new.items) };
}

impl ToAdd {
    /// None is. It takes no memory.
    pub fn none(alloc: Global) -> ToAdd
        ensures { result ≡ ([], []) }
    {
        ToAdd {
            at_old: VecDeque::new(alloc),
            at_new: VecDeque::new(alloc),
        }
    }

    /// All that are pending are.
    pub fn all(alloc: Global, pending: &[Pending]) -> Result<ToAdd, AllocError>
        ensures ok { IfOk result (λ t. t ≡ (ids_at Old pending.now, ids_at New pending.now)) }
        ensures wanted { OnErr result (pending.now ≡ [] → ⊥) }
    {
        let mut to_add = ToAdd::none(alloc);
        'pending: for one in pending {
            to_add.push(one.face, one.id)?;
        }
        Ok(to_add)
    }

    /// One more is, at its face after the others.
    fn push(&mut self, face: Face, id: u64) -> Result<(), AllocError>
        ensures { OnOk result (self.new ≡ with_face self.old face (at_face self.old face ++ id ∷ [])) }
    {
        match face {
            Face::Old => self.at_old.push_back(id)?,
            Face::New => self.at_new.push_back(id)?,
        }
        Ok(())
    }

    /// The first at a face.
    pub fn first(&self, face: Face) -> Option<u64>
        ensures found { IfSome result (λ id.
            at_face self.now face ≡ id ∷ drop 1 (at_face self.now face)) }
        ensures none { IfNone result (at_face self.now face ≡ []) }
    {
        match face {
            Face::Old => first_in(&self.at_old),
            Face::New => first_in(&self.at_new),
        }
    }

    /// A step was to add this one, if any, and added it where there was room.
    pub fn step(&mut self, again: Option<u64>, added: &[Added])
        ensures { AreToAdd self.old → self.new ≡ (
          ids_left again (map added_seen added.now) self.old.0,
          ids_left again (map added_seen added.now) self.old.1,
        ) }
    {
        if let Some(id) = again {
            if !added.is_empty() {
                self.remove(id);
            }
        }
    }

    /// One leaves, if it is there. It is looked for at the front of each face first, and no further where it is
    /// there.
    fn remove(&mut self, id: u64)
        ensures { AreToAdd self.old → self.new ≡ (without_id id self.old.0, without_id id self.old.1) }
    {
        if take_first(&mut self.at_old, id) {
            return;
        }
        if take_first(&mut self.at_new, id) {
            return;
        }
        remove(&mut self.at_old, id);
        remove(&mut self.at_new, id);
    }
}

/// The first of them.
fn first_in(ids: &VecDeque<u64>) -> Option<u64>
    ensures found { IfSome result (λ id. ids.now.items ≡ id ∷ drop 1 ids.now.items) }
    ensures none { IfNone result (ids.now.items ≡ []) }
{
    match ids.front() {
        Some(id) => Some(*id),
        None => None,
    }
}

/// Whether one is the first of them; then it leaves.
fn take_first(ids: &mut VecDeque<u64>, id: u64) -> bool
    ensures first { result ≡ true → ids.old.items ≡ id ∷ ids.new.items }
    ensures other { result ≡ false → ids.new.items ≡ ids.old.items }
{
    if !is_first(ids, id) {
        return false;
    }
    let _ = ids.pop_front();
    true
}

/// Whether it is the first of them.
fn is_first(ids: &VecDeque<u64>, id: u64) -> bool
    ensures { result ≡ true → ids.now.items ≡ id ∷ drop 1 ids.now.items }
{
    match first_in(ids) {
        Some(first) => first == id,
        None => false,
    }
}

/// One leaves, if it is there.
fn remove(ids: &mut VecDeque<u64>, id: u64)
    ensures { ids.new.items ≡ without_id id ids.old.items }
{
    ids.retain(|one| *one != id);
}
