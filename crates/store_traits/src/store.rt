//! A file with what a crash may leave of it.

ghost use Rattle.std.specs.Prelude.{◌≡◌, ℕ, ◌+◌, ◌≤◌, ◌⊎◌, [], ◌++◌, List, Option, Some, Err, length, option_map, IfOk, IfSome, OnOk};
ghost use Rattle.edge_traits.specs.Faults.{count_after};
ghost use Rattle.store_traits.specs.Disk.{written, Torn, Follows, NoneNew, Only, Elapses, faults_after};

use crate::fault::StoreFault;
use edge_traits::Failed;
use std::alloc::Global;

/// A file that is written in place, and a new file beside it that can take its place. After a call that
/// failed, of the file is known only what a crash may leave.
pub trait Store {
    // The octets that a read gives, where they are told.
    ghost seen: { Self → Option (List ℕ) };

    // What a crash at this moment may leave. Of a store that tells no octets this says nothing.
    ghost may_leave: { Self → List ℕ → Type 0 };

    // The moment, as a number that doesn't fall.
    ghost moment: { Self → ℕ };

    // What a crash at some moment from that one on might have left, during a call or between two.
    ghost left_since: { Self → ℕ → List ℕ → Type 0 };

    // The octets of the new file, and what a crash may leave of it, of a store that tells.
    ghost draft: { Self → List ℕ };

    ghost draft_may_leave: { Self → List ℕ → Type 0 };

    // How many faults there were, up to the greatest number that 64 bits show.
    ghost faults: { Self → ℕ };

    /// All octets of the file.
    fn read(&mut self, alloc: Global) -> Result<Vec<u8>, StoreFault>
        ensures octets { IfOk result (λ octets. IfSome (seen self.old) (λ s. octets.items ≡ s)) }
        // Memory is wanted only where there are some.
        ensures memory { result ≡ Err StoreFault.Memory → IfSome (seen self.old) (λ s. s ≡ [] → ⊥) }
        ensures seen { seen self.new ≡ seen self.old }
        ensures crash { NoneNew (may_leave self.old) (may_leave self.new) }
        ensures time { Elapses (moment self.old) (moment self.new) (left_since self.old) (left_since self.new) (may_leave self.new) }
        ensures count { faults self.new ≡ faults_after (faults self.old) result };

    /// Writes over what stands at a place, and past the end. Until a sync a crash may leave any octets
    /// in the range. A store that tells its octets fails at a place past their end.
    fn write_at(&mut self, at: usize, octets: &[u8]) -> Result<(), Failed>
        ensures seen { OnOk result (seen self.new ≡ option_map (written at octets.now) (seen self.old)) }
        ensures crash { Follows (Torn at (length octets.now)) (may_leave self.old) (may_leave self.new) }
        ensures time { Elapses (moment self.old) (moment self.new) (left_since self.old) (left_since self.new) (may_leave self.new) }
        ensures count { faults self.new ≡ count_after (faults self.old) result };

    /// After it a crash leaves what a read gives.
    fn sync(&mut self) -> Result<(), Failed>
        ensures durable { OnOk result (IfSome (seen self.old) (λ s. Only s (may_leave self.new))) }
        ensures seen { seen self.new ≡ seen self.old }
        ensures crash { NoneNew (may_leave self.old) (may_leave self.new) }
        ensures time { Elapses (moment self.old) (moment self.new) (left_since self.old) (left_since self.new) (may_leave self.new) }
        ensures count { faults self.new ≡ count_after (faults self.old) result };

    /// Begins a new file beside this one, with no octets.
    fn start_new(&mut self) -> Result<(), Failed>
        ensures draft { OnOk result (IfSome (seen self.old) (λ s. draft self.new ≡ [])) }
        ensures seen { seen self.new ≡ seen self.old }
        ensures crash { NoneNew (may_leave self.old) (may_leave self.new) }
        ensures time { Elapses (moment self.old) (moment self.new) (left_since self.old) (left_since self.new) (may_leave self.new) }
        ensures count { faults self.new ≡ count_after (faults self.old) result };

    /// Adds octets at the end of the new file.
    fn add(&mut self, octets: &[u8]) -> Result<(), Failed>
        ensures draft { OnOk result (IfSome (seen self.old) (λ s. draft self.new ≡ draft self.old ++ octets.now)) }
        ensures seen { seen self.new ≡ seen self.old }
        ensures crash { NoneNew (may_leave self.old) (may_leave self.new) }
        ensures time { Elapses (moment self.old) (moment self.new) (left_since self.old) (left_since self.new) (may_leave self.new) }
        ensures count { faults self.new ≡ count_after (faults self.old) result };

    /// After it a crash leaves the new file as it was written.
    fn sync_new(&mut self) -> Result<(), Failed>
        ensures durable { OnOk result (IfSome (seen self.old) (λ s. Only (draft self.old) (draft_may_leave self.new))) }
        ensures draft { draft self.new ≡ draft self.old }
        ensures seen { seen self.new ≡ seen self.old }
        ensures crash { NoneNew (may_leave self.old) (may_leave self.new) }
        ensures time { Elapses (moment self.old) (moment self.new) (left_since self.old) (left_since self.new) (may_leave self.new) }
        ensures count { faults self.new ≡ count_after (faults self.old) result };

    /// The new file takes the place of this one, by its name. Until a sync a crash may leave either.
    fn install(&mut self) -> Result<(), Failed>
        ensures seen { OnOk result (IfSome (seen self.old) (λ s. seen self.new ≡ Some (draft self.old))) }
        ensures crash { (c : List ℕ) → may_leave self.new c → may_leave self.old c ⊎ draft_may_leave self.old c }
        ensures time { Elapses (moment self.old) (moment self.new) (left_since self.old) (left_since self.new) (may_leave self.new) }
        ensures count { faults self.new ≡ count_after (faults self.old) result };

    // This moment is one of those since an earlier one.
    ghost counts_now: { (store : Self) (t : ℕ) (c : List ℕ) → t ≤ moment store → may_leave store c → left_since store t c };

    // Since this moment there is no other.
    ghost only_now: { (store : Self) (c : List ℕ) → left_since store (moment store) c → may_leave store c };
}
