//! Which sessions, and which serial numbers of sessions, something was said of.

ghost use Rattle.std.specs.Prelude.{◌≡◌, ℕ, false, OnOk};
ghost use Rattle.ltp_audit.specs.Pages.{is_marked, is_named, Marked, Named};

use ltp_session::SessionName;
use std::alloc::{AllocError, Global};
use std::collections::BTreeSet;

/// Serial numbers of sessions.
#[derive(Debug, Drop)]
pub(crate) struct Marks {
    set: BTreeSet<((u64, u64), u64)>,
}

impl Marks {
    /// None yet. It takes no memory.
    pub fn new(alloc: Global) -> Marks
        ensures { (o n serial : ℕ) → is_marked result o n serial ≡ false }
    {
        Marks {
            set: BTreeSet::new(alloc),
        }
    }

    /// Whether the session's number is one of them.
    pub fn has(&self, name: SessionName, serial: u64) -> bool
        ensures { result ≡ is_marked self.now name.originator name.number serial }
    {
        self.set.contains(&((name.originator, name.number), serial))
    }

    /// The session's number is one of them, too.
    pub fn add(&mut self, name: SessionName, serial: u64) -> Result<(), AllocError>
        ensures { OnOk result (Marked self.old name.originator name.number serial self.new) }
    {
        self.set.insert(((name.originator, name.number), serial))?;
        Ok(())
    }
}

/// Sessions.
#[derive(Debug, Drop)]
pub(crate) struct Names {
    set: BTreeSet<(u64, u64)>,
}

impl Names {
    /// None yet. It takes no memory.
    pub fn new(alloc: Global) -> Names
        ensures { (o n : ℕ) → is_named result o n ≡ false }
    {
        Names {
            set: BTreeSet::new(alloc),
        }
    }

    /// Whether the session is one of them.
    pub fn has(&self, name: SessionName) -> bool
        ensures { result ≡ is_named self.now name.originator name.number }
    {
        self.set.contains(&(name.originator, name.number))
    }

    /// The session is one of them, too.
    pub fn add(&mut self, name: SessionName) -> Result<(), AllocError>
        ensures { OnOk result (Named self.old name.originator name.number self.new) }
    {
        self.set.insert((name.originator, name.number))?;
        Ok(())
    }
}
