//! What a gateway at work knows of its journal.

ghost use Rattle.std.specs.Prelude.{◌≡◌, Some, IfOk, OnOk};
ghost use Rattle.journal_file.specs.Ties.{kept_of};
ghost use Rattle.peer_half.specs.Journals.{anew_in, is_large, journalled, past_commit};
ghost use Rattle.journal_file.specs.Length.{entries_length, gate_of};

use journal_file::Kept;
use peer_records::Keeping;
use std::alloc::{AllocError, Global};
use std::marker::Model;

/// So many octets, and twice as many as are pending, stand before the gate of a file that is to be made
/// anew: 64 MiB.
const LARGE: u64 = 67_108_864;

/// What is known of the journal, the records of this half, and where the gate of its file stands.
#[derive(Debug, Drop)]
pub(crate) struct Journal {
    pub keeping: Keeping,
    pub place: u64,
}

impl Model for Journal {
    ghost use Rattle.peer_half.specs.Journals.{Journalled};

    ghost Value = { Journalled };

    ghost view = { λ j. record { recorded = j.keeping; place = j.place } };
}

impl Journal {
    /// A journal that keeps this, of which no file is made yet.
    pub fn new(alloc: Global, kept: Kept) -> Result<Journal, AllocError>
        ensures { IfOk result (λ j. j ≡ journalled (kept_of kept)) }
    {
        let keeping = Keeping::new(alloc, kept)?;
        Ok(Journal { keeping, place: 0 })
    }

    /// The records were committed, and take so many octets.
    pub fn committed(&mut self, octets: usize)
        ensures { octets ≡ entries_length ((self.old).recorded).records
            → Some self.new ≡ past_commit (Some self.old) }
    {
        self.keeping.clear_records();
        self.place = self.place.saturating_add(octets as u64);
    }

    /// The file was made anew, and its gate stands there.
    pub fn installed(&mut self, place: usize)
        ensures { place ≡ gate_of (((self.old).recorded).keeping).kept
            → Some self.new ≡ anew_in (Some self.old) }
    {
        self.place = place as u64;
    }

    /// Whether the file is to be made anew.
    pub fn is_large(&self) -> bool
        ensures { result ≡ is_large (Some self.now) }
    {
        self.place >= LARGE && (self.place - LARGE) / 2 >= self.keeping.pending_octets()
    }
}
