//! A store in memory whose writes a crash tears.

ghost use Rattle.std.specs.Prelude.{◌≡◌, [], ◌∷◌, ◌++◌, ◌≤◌, ℕ, List, Bool, true, Some, length, map, take, drop, IfOk, OnOk, OnErr};
ghost use Rattle.edge_traits.specs.Faults.{count_after, one_more};
ghost use Rattle.store_traits.specs.Disk.{written};
ghost use Rattle.store_traits.specs.Torn.{MayBe, MayBeLeft, WasLeft, tear_of, first_tear, new_by, left_by, left_by_all, done_by_all};
ghost use Rattle.store_traits.specs.declared.torn.Change.TheVariants.{Wrote, Replaced, Synced};
ghost use Rattle.store_traits.specs.Moments.{counts_now, only_now};

use crate::fault::StoreFault;
use crate::memory::{Call, begin, copy, fail, written};
use crate::store::Store;
use edge_traits::Failed;
use std::alloc::{AllocError, Global};

/// What was done to a file.
#[derive(Debug, Drop)]
pub(crate) enum Change {
    /// Octets were written at a place.
    Wrote { at: usize, octets: Vec<u8> },
    /// A new file took its place, which was synced, or wasn't.
    Replaced { file: Vec<u8>, whole: bool },
    /// It was synced with these octets.
    Synced { file: Vec<u8> },
}

/// What a crash makes of a change.
#[derive(Clone, Copy, Debug)]
pub struct Tear<'a> {
    /// The octets that come to the disk in place of those of a write, as many of them as it has at most;
    /// or those of a new file that wasn't synced.
    pub octets: &'a [u8],
    /// Whether a new file takes the old one's place.
    pub replaced: bool,
}

/// A store in memory that knows what was done to its file. A crash leaves of each write any octets in
/// its range and any length between, until the file is synced, and of a new file anything, until that is
/// synced. One call may be told to fail; a write or a change of files is then torn.
#[derive(Drop)]
pub struct TornStore {
    alloc: Global,
    /// The octets of the file at the beginning, all of them on the disk.
    first: Vec<u8>,
    /// What was done to it since.
    log: Vec<Change>,
    octets: Vec<u8>,
    draft: Vec<u8>,
    /// Whether the new file was synced.
    whole: bool,
    calls: Vec<Call>,
    /// How many calls come before the one that is to fail.
    fails: Option<usize>,
    faults: u64,
    ghost done: { octets.items ≡ done_by_all log.items first.items },
}

impl TornStore {
    /// A store whose file has these octets, all of them on the disk. The call before which so many others
    /// come fails, where one is named.
    pub fn new(alloc: Global, octets: &[u8], fails: Option<usize>) -> Result<TornStore, AllocError>
        ensures seen { IfOk result (λ m. ⟦<TornStore as Store>⟧.seen m ≡ Some octets.now) }
        ensures faults { IfOk result (λ m. ⟦<TornStore as Store>⟧.faults m ≡ 0) }
        ensures left { IfOk result (λ m. (c : List ℕ) → ⟦<TornStore as Store>⟧.may_leave m c → c ≡ octets.now) }
    {
        let first = Vec::from_slice(alloc, octets)?;
        let octets = Vec::from_slice(alloc, octets)?;
        Ok(TornStore {
            alloc,
            first,
            log: Vec::new(alloc),
            octets,
            draft: Vec::new(alloc),
            whole: false,
            calls: Vec::new(alloc),
            fails,
            faults: 0,
        })
    }

    /// The octets of the file, as a read gives them.
    pub fn octets(&self) -> &[u8]
        ensures { Some result.now ≡ ⟦<TornStore as Store>⟧.seen self.now }
    {
        self.octets.as_slice()
    }

    /// The calls that were made, in order.
    pub fn calls(&self) -> &[Call] {
        self.calls.as_slice()
    }

    /// This moment: how many changes of the file there were.
    pub fn moment(&self) -> usize
        ensures { result ≡ ⟦<TornStore as Store>⟧.moment self.now }
    {
        self.log.len()
    }

    /// What a crash at a moment leaves, by a choice for each change before it, the earliest first. Past the
    /// last choice nothing comes to the disk.
    pub fn left(&self, alloc: Global, moment: usize, tears: &[Tear]) -> Result<Vec<u8>, AllocError>
        requires { moment ≤ ⟦<TornStore as Store>⟧.moment self.now }
        // It is one of those that might be left.
        ensures may { IfOk result (λ c. ⟦<TornStore as Store>⟧.left_since self.now moment c.items) }
        // Which of them the choice says.
        ensures chosen { IfOk result (λ c. c.items
            ≡ left_by_all (map tear_of tears.now) (take moment self.now.log.items) self.now.first.items) }
    {
        let mut file = self.first.to_vec(alloc)?;
        'changes: for at in 0..moment {
            let change = &self.log[at];
            file = left_after(alloc, file, change, tear_at(tears, at))?;
        }
        Ok(file)
    }
}

/// The choice at a place; nothing comes to the disk past the last one.
fn tear_at<'a>(tears: &[Tear<'a>], at: usize) -> Tear<'a>
    ensures { tear_of result ≡ first_tear (map tear_of (drop at tears.now)) }
{
    if at < tears.len() {
        return tears[at];
    }
    Tear {
        octets: &[],
        replaced: false,
    }
}

/// What is left of a file after a change, by a choice.
fn left_after(
    alloc: Global,
    file: Vec<u8>,
    change: &Change,
    tear: Tear,
) -> Result<Vec<u8>, AllocError>
    ensures { IfOk result (λ c. c.items ≡ left_by (tear_of tear.entry) change.now file.items) }
{
    match change {
        Change::Wrote { at, octets } => {
            if file.len() < *at {
                return Ok(file);
            }
            let count = tear.octets.len().min(octets.len());
            written(alloc, file.as_slice(), *at, &tear.octets[..count])
        }
        Change::Replaced { file: new, whole } => {
            if !tear.replaced {
                return Ok(file);
            }
            if *whole {
                return new.to_vec(alloc);
            }
            tear.octets.to_vec(alloc)
        }
        Change::Synced { file: new } => new.to_vec(alloc),
    }
}

/// Notes a call. Whether it is to be done, or to fail.
fn note(
    calls: &mut Vec<Call>,
    fails: Option<usize>,
    faults: &mut u64,
    call: Call,
) -> Result<bool, Failed>
    ensures count { faults.new ≡ count_after faults.old result }
{
    let at = calls.len();
    if calls.push(call).is_err() {
        return Err(fail(faults));
    }
    Ok(fails != Some(at))
}

/// A call that was to be done is, and else it fails.
fn answer(done: bool, faults: &mut u64) -> Result<(), Failed>
    ensures { faults.new ≡ count_after faults.old result }
{
    if done { Ok(()) } else { Err(fail(faults)) }
}

/// Writes over the octets of a file.
fn write(
    alloc: Global,
    file: &mut Vec<u8>,
    log: &mut Vec<Change>,
    at: usize,
    octets: &[u8],
) -> Result<(), AllocError>
    requires { at ≤ length file.old.items }
    ensures ok { OnOk result (file.new.items ≡ written at octets.now file.old.items) }
    ensures log { OnOk result ((v : _) × (v.items ≡ octets.now) × (log.new.items ≡ log.old.items ++ Wrote at v ∷ [])) }
    ensures err { OnErr result (file.new.items ≡ file.old.items) }
    ensures log_err { OnErr result (log.new.items ≡ log.old.items) }
{
    let next = written(alloc, file.as_slice(), at, octets)?;
    let kept = octets.to_vec(alloc)?;
    log.push(Change::Wrote { at, octets: kept })?;
    *file = next;
    Ok(())
}

/// A new file takes the place of the old one.
fn exchange(
    alloc: Global,
    file: &mut Vec<u8>,
    log: &mut Vec<Change>,
    new: &[u8],
    whole: bool,
) -> Result<(), AllocError>
    ensures ok { OnOk result (file.new.items ≡ new.now) }
    ensures log { OnOk result ((v : _) × (v.items ≡ new.now) × (log.new.items ≡ log.old.items ++ Replaced v whole ∷ [])) }
    ensures err { OnErr result (file.new.items ≡ file.old.items) }
    ensures log_err { OnErr result (log.new.items ≡ log.old.items) }
{
    let next = new.to_vec(alloc)?;
    let kept = new.to_vec(alloc)?;
    log.push(Change::Replaced { file: kept, whole })?;
    *file = next;
    Ok(())
}

/// The file is synced.
fn settle(alloc: Global, file: &[u8], log: &mut Vec<Change>) -> Result<(), AllocError>
    ensures log { OnOk result ((v : _) × (v.items ≡ file.now) × (log.new.items ≡ log.old.items ++ Synced v ∷ [])) }
    ensures log_err { OnErr result (log.new.items ≡ log.old.items) }
{
    let kept = file.to_vec(alloc)?;
    log.push(Change::Synced { file: kept })?;
    Ok(())
}

impl Store for TornStore {
    ghost seen = { λ m. Some m.octets.items };

    ghost may_leave = { λ m c. MayBeLeft m.first.items m.log.items c };

    ghost moment = { λ m. length m.log.items };

    ghost left_since = { λ m t c. WasLeft m.first.items m.log.items t c };

    ghost draft = { λ m. m.draft.items };

    ghost draft_may_leave = { λ m c. MayBe m.whole m.draft.items c };

    ghost faults = { λ m. m.faults };

    ghost counts_now = { λ m t c le now. counts_now m.first.items m.log.items t c le now };

    ghost only_now = { λ m c left. only_now m.first.items m.log.items c left };

    fn read(&mut self, alloc: Global) -> Result<Vec<u8>, StoreFault> {
        begin(&mut self.calls, self.fails, &mut self.faults, Call::Read)?;
        copy(alloc, self.octets.as_slice())
    }

    fn write_at(&mut self, at: usize, octets: &[u8]) -> Result<(), Failed> {
        let done = note(&mut self.calls, self.fails, &mut self.faults, Call::Write)?;
        if at > self.octets.len() {
            return Err(fail(&mut self.faults));
        }
        match write(self.alloc, &mut self.octets, &mut self.log, at, octets) {
            Ok(()) => answer(done, &mut self.faults),
            Err(AllocError) => Err(fail(&mut self.faults)),
        }
    }

    fn sync(&mut self) -> Result<(), Failed> {
        begin(&mut self.calls, self.fails, &mut self.faults, Call::Sync)?;
        match settle(self.alloc, self.octets.as_slice(), &mut self.log) {
            Ok(()) => Ok(()),
            Err(AllocError) => Err(fail(&mut self.faults)),
        }
    }

    fn start_new(&mut self) -> Result<(), Failed> {
        begin(
            &mut self.calls,
            self.fails,
            &mut self.faults,
            Call::StartNew,
        )?;
        self.draft.clear();
        self.whole = false;
        Ok(())
    }

    fn add(&mut self, octets: &[u8]) -> Result<(), Failed> {
        begin(&mut self.calls, self.fails, &mut self.faults, Call::Add)?;
        self.whole = false;
        match self.draft.extend_from_slice(octets) {
            Ok(()) => Ok(()),
            Err(AllocError) => Err(fail(&mut self.faults)),
        }
    }

    fn sync_new(&mut self) -> Result<(), Failed> {
        begin(&mut self.calls, self.fails, &mut self.faults, Call::SyncNew)?;
        self.whole = true;
        Ok(())
    }

    fn install(&mut self) -> Result<(), Failed> {
        let done = note(&mut self.calls, self.fails, &mut self.faults, Call::Install)?;
        match exchange(
            self.alloc,
            &mut self.octets,
            &mut self.log,
            self.draft.as_slice(),
            self.whole,
        ) {
            Ok(()) => answer(done, &mut self.faults),
            Err(AllocError) => Err(fail(&mut self.faults)),
        }
    }
}
