//! Which places of a red part have an octet.

ghost use Rattle.std.specs.Prelude.{◌≡◌, ◌≤◌, length, OnOk};
ghost use Rattle.spans.specs.Places.{uncovered, with_covered, all_covered};

use spans::Spans;
use std::alloc::{AllocError, Global};
use std::marker::Model;

/// The last place. No piece has an octet for it, since each stops at a number below 2^64.
pub(crate) const LAST: u64 = u64::MAX;

/// Places before the last one, as ranges.
#[derive(Debug, Drop)]
pub(crate) struct Places {
    spans: Spans,
}

impl Model for Places {
    ghost use Rattle.std.specs.Prelude.{◌≡◌, List, Bool, length};
    ghost use Rattle.ltp_audit.specs.declared.places.TheConstants.{LAST};

    ghost Value = { List Bool };

    ghost view = { λ p. p.spans };

    ghost invariant = { λ p. length p.spans ≡ LAST };
}

impl Places {
    /// None of them. It takes no memory.
    pub fn none(alloc: Global) -> Places
        ensures places { result ≡ uncovered LAST }
        ensures limit { length result ≡ LAST }
    {
        Places {
            spans: Spans::new(alloc, LAST),
        }
    }

    /// Those from `from` to before `to`, too.
    pub fn add(&mut self, from: u64, to: u64) -> Result<(), AllocError>
        requires { from ≤ to }
        ensures places { OnOk result (self.new ≡ with_covered from to self.old) }
        ensures limit { length self.old ≡ LAST }
    {
        self.spans.cover(from, to)?;
        Ok(())
    }

    /// Whether they have all from `from` to before `to`.
    pub fn have(&self, from: u64, to: u64) -> bool
        requires { from ≤ to }
        ensures { result ≡ all_covered from to self.now }
    {
        self.spans.covers(from, to)
    }
}
