//! Joining fragments.

ghost use Rattle.std.specs.Prelude.{◌≡◌, ◌≤◌, ◌<◌, ◌++◌, ◌∷◌, [], true, false, length, get_or, Ok, Err, Some, None, IfOk, OnErr};
ghost use Rattle.std.specs.List.{All, remove};
ghost use Rattle.fragments.specs.declared.join.Join.{Join};
ghost use Rattle.bundle_meaning.specs.Valid.{IsValid};
ghost use Rattle.fragments.specs.declared.limits.TheConstants.{TOTAL_MAX};
ghost use Rattle.cells.specs.Cells.{stop_of};
ghost use Rattle.fragments.specs.Cutting.{octets_of};
ghost use Rattle.fragments.specs.Again.{JoinsAgain, IsBounded};
ghost use Rattle.fragments.specs.declared.fault.JoinRefused.TheVariants as refusals;
ghost use Rattle.fragments.specs.Joining.{index_of, open_join, others, open_total, accepted, is_repeat, brings_new, started, Adds, BringsNew, IsOpen, TakesIn};

use crate::cutting::octets_of;
use crate::fault::JoinRefused;
use crate::join::{Finished, Join, is_named};
use crate::limits::{NAMES_MAX, TOTAL_MAX};
use bundle_meaning::{Full, Shared};
use endpoint::Fragment;
use std::alloc::{AllocError, Global};
use std::marker::Model;

/// What a fragment came to.
#[derive(Debug, Drop)]
pub enum Joined {
    /// Octets of the whole are still missing.
    Waiting,
    /// So they are, and for each place of this fragment an octet had come before.
    Repeat,
    /// Each octet of the whole is there. The joiner has forgotten its name.
    Whole(Full),
}

/// Joins the fragments of bundles, whichever version they came in. Fragments belong together where
/// source and creation timestamp are equal (RFC 5050, section 5.9; RFC 9171, section 5.9).
///
/// It keeps each octet that came once, in the order in which they came, and lays them out when all are
/// there: memory goes with the octets, and not with the totals that strangers name. At most
/// [`NAMES_MAX`] names are kept, with totals to [`TOTAL_MAX`].
#[derive(Debug, Drop)]
pub struct Joiner {
    joins: Vec<Join>,
    spent: bool,
    alloc: Global,
}

impl Model for Joiner {
    ghost use Rattle.fragments.specs.Joining.{Joining};
    ghost use Rattle.fragments.specs.Again.{AreKept};

    ghost Value = { Joining };

    ghost view = { λ j. record { joins = j.joins.items; spent = j.spent } };

    ghost invariant = { λ j. AreKept j.joins.items };
}

impl Joiner {
    /// A joiner to which nothing came. It takes no memory.
    pub fn new(alloc: Global) -> Joiner
        ensures empty { result ≡ record { joins = []; spent = false } }
        ensures bounded { IsBounded result.joins }
    {
        Joiner {
            joins: Vec::new(alloc),
            spent: false,
            alloc,
        }
    }

    /// Takes a fragment. After want of memory the joiner may only be dropped.
    ///
    /// Own rule: the whole is the first fragment that came with offset 0, with the payload that all have
    /// together, so that it has the extension blocks of that fragment.
    pub fn add(&mut self, full: &Full) -> Result<Joined, JoinRefused>
        requires whole { self.old.spent ≡ false }
        requires valid { IsValid full.now }

        // What is answered, and what is kept then. A refusal leaves all as it was.
        ensures adds { Adds self.old.joins full.now result self.new }

        // The pieces of a record, in any order and with repeats, give it with the last that was missing.
        ensures joins_again { JoinsAgain self.old.joins full.now result }

        // Memory is wanted only where the fragment brings what isn't kept yet: its name, an octet, or what
        // the first with offset 0 says. For a refusal and for the same fragment again it isn't.
        ensures memory { result ≡ Err refusals.Memory → BringsNew self.old.joins full.now }

        // Whatever came, and after want of memory too: at most [`NAMES_MAX`] names are kept, and no
        // total above [`TOTAL_MAX`].
        ensures bounded { IsBounded self.new.joins }
    {
        self.added(full)
    }

    /// The same, of which the law of pieces is a consequence.
    fn added(&mut self, full: &Full) -> Result<Joined, JoinRefused>
        requires whole { self.old.spent ≡ false }
        requires valid { IsValid full.now }
        ensures adds { Adds self.old.joins full.now result self.new }
        ensures memory { result ≡ Err refusals.Memory → BringsNew self.old.joins full.now }
        ensures bounded { IsBounded self.new.joins }
    {
        let part = accepted(self.joins.as_slice(), &full.shared)?;
        match take_in(self.alloc, &mut self.joins, full, part) {
            Ok(joined) => Ok(joined),
            Err(AllocError) => {
                self.spent = true;
                Err(JoinRefused::Memory)
            }
        }
    }
}

/// Where a record's payload lies in the whole, if it is taken beside these joins.
fn accepted(joins: &[Join], shared: &Shared) -> Result<Fragment, JoinRefused>
    ensures { result ≡ accepted joins.now shared.now }
{
    let Some(part) = shared.fragment else {
        return Err(JoinRefused::NotFragment);
    };
    if part.total > TOTAL_MAX {
        return Err(JoinRefused::TooLarge);
    }
    match open_total(joins, shared) {
        Some(total) if total != part.total => Err(JoinRefused::TotalDiffers),
        None if joins.len() >= NAMES_MAX => Err(JoinRefused::NoRoom),
        _ => Ok(part),
    }
}

/// How many octets the whole with a record's name has, where one is open.
fn open_total(joins: &[Join], shared: &Shared) -> Option<u64>
    ensures { result ≡ open_total shared.now joins.now }
{
    match joins.get(index_of(joins, shared)) {
        Some(join) => Some(join.total),
        None => None,
    }
}

/// The place of the join with a record's name, or how many joins there are.
fn index_of(joins: &[Join], shared: &Shared) -> usize
    ensures { result ≡ index_of shared.now joins.now }
{
    'looking: for at in 0..joins.len() {
        if is_named(shared, &joins[at]) {
            return at;
        }
    }
    joins.len()
}

/// Takes out the join with a record's name, where one is open.
fn take_out(joins: &mut Vec<Join>, shared: &Shared) -> Option<Join>
    ensures found { result ≡ open_join shared.now joins.old.items }
    ensures left { joins.new.items ≡ others shared.now joins.old.items }
{
    let at = index_of(joins.as_slice(), shared);
    if at < joins.as_slice().len() {
        Some(joins.remove(at))
    } else {
        None
    }
}

/// Takes a fragment that is accepted. One that brings nothing new wants no memory.
fn take_in(
    alloc: Global,
    joins: &mut Vec<Join>,
    full: &Full,
    part: Fragment,
) -> Result<Joined, AllocError>
    requires accepted { accepted joins.old.items full.now.shared ≡ Ok part }
    requires unfinished { All IsOpen joins.old.items }
    requires valid { IsValid full.now }
    ensures taken { IfOk result (λ joined. TakesIn joins.old.items full.now part joined joins.new.items) }
    ensures lost { OnErr result (joins.new.items ≡ others full.now.shared joins.old.items) }
    ensures memory { OnErr result
        (brings_new (open_join full.now.shared joins.old.items) part.offset (octets_of full.now.shared.content) ≡ true) }
{
    let at = index_of(joins.as_slice(), &full.shared);
    if brings_new(joins.as_slice(), full, part.offset) {
        keep(alloc, joins, full, part)
    } else {
        put_last(joins.as_mut_slice(), at);
        Ok(Joined::Repeat)
    }
}

/// Puts a join behind the others, in the room that there is.
fn put_last(joins: &mut [Join], at: usize)
    requires { at < length joins.old }
    ensures last { (d : Join) → joins.new ≡ remove joins.old at ++ get_or joins.old at d ∷ [] }
    ensures size { length joins.new ≡ length joins.old }
{
    joins[at..].rotate_left(1);
}

/// Whether a fragment brings what the join with its name hasn't.
fn brings_new(joins: &[Join], full: &Full, offset: u64) -> bool
    requires { stop_of offset (octets_of full.now.shared.content) ≤ TOTAL_MAX }
    ensures { result ≡ brings_new (open_join full.now.shared joins.now) offset (octets_of full.now.shared.content) }
{
    match joins.get(index_of(joins, &full.shared)) {
        Some(join) => {
            !join.has_all(offset, octets_of(&full.shared.content))
                || offset == 0 && join.head.is_none()
        }
        None => true,
    }
}

/// Takes a fragment that is accepted, and keeps what it brings.
fn keep(
    alloc: Global,
    joins: &mut Vec<Join>,
    full: &Full,
    part: Fragment,
) -> Result<Joined, AllocError>
    requires accepted { accepted joins.old.items full.now.shared ≡ Ok part }
    requires valid { IsValid full.now }
    ensures taken { IfOk result (λ joined. TakesIn joins.old.items full.now part joined joins.new.items) }
    ensures lost { OnErr result (joins.new.items ≡ others full.now.shared joins.old.items) }
{
    let octets = octets_of(&full.shared.content);
    let begun = take_out(joins, &full.shared);
    let repeats = is_repeat(&begun, part.offset, octets);
    let join = started(alloc, begun, &full.shared, part.total)?.with(alloc, full, part.offset)?;
    match join.finished(alloc)? {
        Finished::Whole(whole) => Ok(Joined::Whole(whole)),
        Finished::Open(join) => {
            joins.push(join)?;
            Ok(if repeats {
                Joined::Repeat
            } else {
                Joined::Waiting
            })
        }
    }
}

/// Whether a name is open and no octet of a fragment is new.
fn is_repeat(begun: &Option<Join>, offset: u64, octets: &[u8]) -> bool
    requires { stop_of offset octets.now ≤ TOTAL_MAX }
    ensures { result ≡ is_repeat begun.now offset octets.now }
{
    match begun {
        Some(join) => join.has_all(offset, octets),
        None => false,
    }
}

/// The join that is open, or a new one.
fn started(
    alloc: Global,
    begun: Option<Join>,
    shared: &Shared,
    total: u64,
) -> Result<Join, AllocError>
    ensures { IfOk result (λ join. join ≡ started begun shared.now total) }
{
    match begun {
        Some(join) => Ok(join),
        None => Join::new(alloc, shared, total),
    }
}
