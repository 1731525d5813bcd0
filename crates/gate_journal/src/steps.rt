//! Several calls on a store that are one step.

ghost use Rattle.std.specs.Prelude.{◌≡◌, ◌⊎◌, ◌<◌, ◌^◌, Some, length, option_map, IfSome, OnOk};
ghost use Rattle.edge_traits.specs.Faults.{count_after};
ghost use Rattle.store_traits.specs.Disk.{written, NoneNew, Only, LeavesOnly};
ghost use Rattle.gate_journal.specs.Steps.{TornOnly, IsShutAt, opened, MayStand};

use edge_traits::Failed;
use store_traits::Store;

/// What a gate holds that is open.
const OPEN: u8 = 1;

/// Writes at a place, and syncs.
fn put<S: Store>(store: &mut S, at: usize, octets: &[u8]) -> Result<(), Failed>
    ensures seen { OnOk result (S.seen store.new ≡ option_map (written at octets.now) (S.seen store.old)) }
    ensures durable { OnOk result (IfSome (S.seen store.new) (λ s. Only s (S.may_leave store.new))) }
    ensures any_moment { LeavesOnly S.moment S.left_since store.old store.new (TornOnly at (length octets.now) (S.may_leave store.old)) }
    ensures count { S.faults store.new ≡ count_after (S.faults store.old) result }
{
    store.write_at(at, octets)?;
    store.sync()
}

/// Writes octets behind a closed gate, and then opens it.
pub(crate) fn open<S: Store>(store: &mut S, gate: usize, octets: &[u8]) -> Result<(), Failed>
    requires small { gate < 2 ^ 62 }
    // Where the file ends with a closed gate there, it is open after it, before the octets.
    ensures seen { OnOk result (IfSome (S.seen store.old) (λ s. IsShutAt gate s → S.seen store.new ≡ Some (opened gate octets.now s))) }
    ensures durable { OnOk result (IfSome (S.seen store.new) (λ s. Only s (S.may_leave store.new))) }
    ensures any_moment { IfSome (S.seen store.old) (λ s. IsShutAt gate s → Only s (S.may_leave store.old)
        → LeavesOnly S.moment S.left_since store.old store.new (MayStand gate octets.now s)) }
    ensures count { S.faults store.new ≡ count_after (S.faults store.old) result }
{
    put(store, gate + 1, octets)?;
    put(store, gate, &[OPEN])
}

/// Makes a new file of these octets and syncs it.
fn draft<S: Store>(store: &mut S, octets: &[u8]) -> Result<(), Failed>
    ensures draft { OnOk result (IfSome (S.seen store.old) (λ s. (S.draft store.new ≡ octets.now) × Only octets.now (S.draft_may_leave store.new))) }
    ensures seen { S.seen store.new ≡ S.seen store.old }
    ensures crash { NoneNew (S.may_leave store.old) (S.may_leave store.new) }
    ensures any_moment { LeavesOnly S.moment S.left_since store.old store.new (S.may_leave store.old) }
    ensures count { S.faults store.new ≡ count_after (S.faults store.old) result }
{
    store.start_new()?;
    store.add(octets)?;
    store.sync_new()
}

/// A new file of these octets takes the place of the old one.
pub(crate) fn replace<S: Store>(store: &mut S, octets: &[u8]) -> Result<(), Failed>
    ensures seen { OnOk result (IfSome (S.seen store.old) (λ s. S.seen store.new ≡ Some octets.now)) }
    ensures durable { OnOk result (IfSome (S.seen store.old) (λ s. Only octets.now (S.may_leave store.new))) }
    ensures any_moment { IfSome (S.seen store.old) (λ s. LeavesOnly S.moment S.left_since store.old store.new (λ c. S.may_leave store.old c ⊎ (c ≡ octets.now))) }
    ensures count { S.faults store.new ≡ count_after (S.faults store.old) result }
{
    draft(store, octets)?;
    store.install()?;
    store.sync()
}
