//! Reading what is kept, after a stop.

ghost use Rattle.std.specs.Prelude.{◌≡◌, ◌-◌, ◌<◌, ◌^◌, ◌↔◌, ℕ, Ok, Err, IfOk, IfErr, IfSome};
ghost use Rattle.store_traits.specs.Disk.{NoneNew, LeavesOnly};
ghost use Rattle.wire_fields.specs.Refusal.{Stop};
ghost use Rattle.wire_fields.specs.Gives.{GivesWhole};
ghost use Rattle.journal_file.specs.declared.fault.JournalCause.{JournalCause};
ghost use Rattle.journal_file.specs.Values.{KeptValue};
ghost use Rattle.journal_file.specs.File.{Reads, IsDamaged};
ghost use Rattle.journal_file.specs.Anew.{IsSound};
ghost use Rattle.journal_file.specs.Legal.{IsLegal};
ghost use Rattle.journal_file.specs.Ties.{kept_of};
ghost use Rattle.gate_journal.specs.Recovery.{damage, faults_then, HasOctets};

use crate::fault::RecoverFault;
use journal_file::{Kept, read_kept};
use std::alloc::Global;
use store_traits::Store;

/// Reads what is kept. Nothing is written, so a crash while it reads leaves what it might have left
/// before. The journal is to be made anew of what is kept from here on, before anything is committed.
/// Where the file is damaged, and where a file of another program stands there, it stays as it is.
pub fn recover<S: Store>(alloc: Global, store: &mut S) -> Result<Kept, RecoverFault>
    // What is read is what the file stands for.
    ensures found { IfOk result (λ kept. IfSome (S.seen store.old) (λ s. Reads s (kept_of kept))) }
    // What a file stands for is read, unless the outside fails or memory runs out.
    ensures only { IfSome (S.seen store.old) (λ s. (k : KeptValue) → Reads s k
        → GivesWhole kept_of damage result (Ok k)) }
    // It is legal, and the file may be made anew of it.
    ensures legal { IfOk result (λ kept. IsLegal (kept_of kept)) }
    ensures sound { IfOk result (λ kept. IsSound (kept_of kept)) }

    // What is refused is damaged there.
    ensures damaged { IfErr result (λ e. IfSome (S.seen store.old) (λ s. IfSome (damage e) (λ d. IsDamaged s d.0 d.1))) }
    // What is damaged is refused there, unless the outside fails or memory runs out.
    ensures refuses { IfSome (S.seen store.old) (λ s. (at : ℕ) (why : Stop JournalCause) → IsDamaged s at why
        → GivesWhole kept_of damage result (Err (at, why))) }
    // The outside failed if and only if its count of faults rose.
    ensures failed { S.faults store.old < 2 ^ 64 - 1
        → ((result ≡ Err RecoverFault.Failed) ↔ (S.faults store.old < S.faults store.new)) }
    // Memory is wanted only where the file has octets.
    ensures memory { result ≡ Err RecoverFault.Memory → IfSome (S.seen store.old) HasOctets }

    ensures seen { S.seen store.new ≡ S.seen store.old }
    ensures crash { NoneNew (S.may_leave store.old) (S.may_leave store.new) }
    ensures any_moment { LeavesOnly S.moment S.left_since store.old store.new (S.may_leave store.old) }
    ensures count { S.faults store.new ≡ faults_then (S.faults store.old) result }
{
    let octets = store.read(alloc)?;
    let kept = read_kept(alloc, octets.as_slice())?;
    Ok(kept)
}
