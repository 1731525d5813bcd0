//! A store in memory. Each call is done at once, so a crash leaves what is there. It keeps each content
//! that its file had.

ghost use Rattle.std.specs.Prelude.{◌≡◌, ◌⊎◌, [], ◌∷◌, ◌++◌, ◌≤◌, Some, length, drop, IfOk, IfErr, OnOk, OnErr};
ghost use Rattle.std.proofs.Common.{inl};
ghost use Rattle.edge_traits.specs.Faults.{count_after, one_more};
ghost use Rattle.store_traits.specs.Disk.{written};
ghost use Rattle.store_traits.specs.Past.{HadBeen, only_octets};

use crate::fault::StoreFault;
use crate::store::Store;
use edge_traits::Failed;
use std::alloc::{AllocError, Global};

/// A call on a store.
#[derive(Clone, Copy, Debug, PartialEq, Eq)]
pub enum Call {
    /// The file was read.
    Read,
    /// It was written in place.
    Write,
    /// It was synced.
    Sync,
    /// A new file was begun.
    StartNew,
    /// Octets were added to it.
    Add,
    /// It was synced.
    SyncNew,
    /// It took the place of the old one.
    Install,
}

/// A store in memory, of which one call may be told to fail.
#[derive(Drop)]
pub struct MemStore {
    alloc: Global,
    octets: Vec<u8>,
    draft: Vec<u8>,
    /// Each content that the file had before this one.
    past: Vec<Vec<u8>>,
    calls: Vec<Call>,
    /// How many calls come before the one that is to fail.
    fails: Option<usize>,
    faults: u64,
}

impl MemStore {
    /// A store whose file has these octets, all of them on the disk. The call before which so many others
    /// come fails, where one is named.
    pub fn new(alloc: Global, octets: &[u8], fails: Option<usize>) -> Result<MemStore, AllocError>
        ensures seen { IfOk result (λ m. ⟦<MemStore as Store>⟧.seen m ≡ Some octets.now) }
        ensures faults { IfOk result (λ m. ⟦<MemStore as Store>⟧.faults m ≡ 0) }
    {
        let octets = Vec::from_slice(alloc, octets)?;
        Ok(MemStore {
            alloc,
            octets,
            draft: Vec::new(alloc),
            past: Vec::new(alloc),
            calls: Vec::new(alloc),
            fails,
            faults: 0,
        })
    }

    /// The octets of the file.
    pub fn octets(&self) -> &[u8]
        ensures { Some result.now ≡ ⟦<MemStore as Store>⟧.seen self.now }
    {
        self.octets.as_slice()
    }

    /// The calls that were made, in order.
    pub fn calls(&self) -> &[Call] {
        self.calls.as_slice()
    }
}

/// Notes a call, which fails where it is to, or where it can't be noted.
pub(crate) fn begin(
    calls: &mut Vec<Call>,
    fails: Option<usize>,
    faults: &mut u64,
    call: Call,
) -> Result<(), Failed>
    ensures count { faults.new ≡ count_after faults.old result }
{
    let at = calls.len();
    if calls.push(call).is_err() || fails == Some(at) {
        return Err(fail(faults));
    }
    Ok(())
}

/// The outside failed.
pub(crate) fn fail(faults: &mut u64) -> Failed
    ensures { faults.new ≡ one_more faults.old }
{
    *faults = faults.saturating_add(1);
    Failed
}

/// A copy of a file's octets. It takes memory where there are some.
pub(crate) fn copy(alloc: Global, octets: &[u8]) -> Result<Vec<u8>, StoreFault>
    ensures ok { IfOk result (λ copy. copy.items ≡ octets.now) }
    ensures err { IfErr result (λ e. (e ≡ StoreFault.Memory) × (octets.now ≡ [] → ⊥)) }
{
    if octets.is_empty() {
        return Ok(Vec::new(alloc));
    }
    Ok(octets.to_vec(alloc)?)
}

/// Other octets take the place of those that are there, which are kept.
fn replace(
    alloc: Global,
    octets: &mut Vec<u8>,
    past: &mut Vec<Vec<u8>>,
    next: Vec<u8>,
) -> Result<(), AllocError>
    ensures ok { OnOk result (octets.new.items ≡ next.items) }
    ensures err { OnErr result (octets.new.items ≡ octets.old.items) }
    ensures past { OnOk result ((v : _) × (v.items ≡ octets.old.items) × (past.new.items ≡ past.old.items ++ v ∷ [])) }
    ensures past_err { OnErr result (past.new.items ≡ past.old.items) }
{
    past.push(octets.to_vec(alloc)?)?;
    *octets = next;
    Ok(())
}

/// A file's octets with others written over them.
pub(crate) fn written(
    alloc: Global,
    file: &[u8],
    at: usize,
    octets: &[u8],
) -> Result<Vec<u8>, AllocError>
    requires { at ≤ length file.now }
    ensures { IfOk result (λ next. next.items ≡ written at octets.now file.now) }
{
    let mut next = file[..at].to_vec(alloc)?;
    next.extend_from_slice(octets)?;
    if octets.len() < file.len() - at {
        next.extend_from_slice(&file[at + octets.len()..])?;
    }
    Ok(next)
}

/// Writes over the octets of a file, which are kept.
fn write(
    alloc: Global,
    file: &mut Vec<u8>,
    past: &mut Vec<Vec<u8>>,
    at: usize,
    octets: &[u8],
) -> Result<(), AllocError>
    requires { at ≤ length file.old.items }
    ensures ok { OnOk result (file.new.items ≡ written at octets.now file.old.items) }
    ensures err { OnErr result (file.new.items ≡ file.old.items) }
    ensures past { OnOk result ((v : _) × (v.items ≡ file.old.items) × (past.new.items ≡ past.old.items ++ v ∷ [])) }
    ensures past_err { OnErr result (past.new.items ≡ past.old.items) }
{
    let next = written(alloc, file.as_slice(), at, octets)?;
    replace(alloc, file, past, next)
}

impl Store for MemStore {
    ghost seen = { λ m. Some m.octets.items };

    ghost may_leave = { λ m c. c ≡ m.octets.items };

    ghost moment = { λ m. length m.past.items };

    ghost left_since = { λ m t c. (c ≡ m.octets.items) ⊎ HadBeen (drop t m.past.items) c };

    ghost draft = { λ m. m.draft.items };

    ghost draft_may_leave = { λ m c. c ≡ m.draft.items };

    ghost faults = { λ m. m.faults };

    ghost counts_now = { λ m t c le now. inl now };

    ghost only_now = { λ m c left. only_octets m.past.items m.octets.items c left };

    fn read(&mut self, alloc: Global) -> Result<Vec<u8>, StoreFault> {
        begin(&mut self.calls, self.fails, &mut self.faults, Call::Read)?;
        copy(alloc, self.octets.as_slice())
    }

    fn write_at(&mut self, at: usize, octets: &[u8]) -> Result<(), Failed> {
        begin(&mut self.calls, self.fails, &mut self.faults, Call::Write)?;
        if at > self.octets.len() {
            return Err(fail(&mut self.faults));
        }
        match write(self.alloc, &mut self.octets, &mut self.past, at, octets) {
            Ok(()) => Ok(()),
            Err(AllocError) => Err(fail(&mut self.faults)),
        }
    }

    fn sync(&mut self) -> Result<(), Failed> {
        begin(&mut self.calls, self.fails, &mut self.faults, Call::Sync)
    }

    fn start_new(&mut self) -> Result<(), Failed> {
        begin(
            &mut self.calls,
            self.fails,
            &mut self.faults,
            Call::StartNew,
        )?;
        self.draft.clear();
        Ok(())
    }

    fn add(&mut self, octets: &[u8]) -> Result<(), Failed> {
        begin(&mut self.calls, self.fails, &mut self.faults, Call::Add)?;
        match self.draft.extend_from_slice(octets) {
            Ok(()) => Ok(()),
            Err(AllocError) => Err(fail(&mut self.faults)),
        }
    }

    fn sync_new(&mut self) -> Result<(), Failed> {
        begin(&mut self.calls, self.fails, &mut self.faults, Call::SyncNew)
    }

    fn install(&mut self) -> Result<(), Failed> {
        begin(&mut self.calls, self.fails, &mut self.faults, Call::Install)?;
        match install(
            self.alloc,
            &mut self.octets,
            &mut self.past,
            self.draft.as_slice(),
        ) {
            Ok(()) => Ok(()),
            Err(AllocError) => Err(fail(&mut self.faults)),
        }
    }
}

/// A copy of other octets takes the place of those of a file, which are kept.
fn install(
    alloc: Global,
    file: &mut Vec<u8>,
    past: &mut Vec<Vec<u8>>,
    next: &[u8],
) -> Result<(), AllocError>
    ensures ok { OnOk result (file.new.items ≡ next.now) }
    ensures err { OnErr result (file.new.items ≡ file.old.items) }
    ensures past { OnOk result ((v : _) × (v.items ≡ file.old.items) × (past.new.items ≡ past.old.items ++ v ∷ [])) }
    ensures past_err { OnErr result (past.new.items ≡ past.old.items) }
{
    let next = next.to_vec(alloc)?;
    replace(alloc, file, past, next)
}
