//! A run over an outside in memory of which calls fail, with its journal on a store.

ghost use Rattle.std.specs.Prelude.{◌≡◌, [], IfOk, IfSome};
ghost use Rattle.journal_file.specs.Legal.{IsLegal};
ghost use Rattle.journal_file.specs.Ties.{kept_of};

use crate::acts::{Given, given_at};
use crate::outside::{Over, go, octets, put, tell};
use gate_cases::Face;
use gate_edges::{MemAct, MemFace, MemOutside, Outside};
use gate_journal::{Journal, RecoverFault, recover};
use gate_journaled::Journaled;
use gate_run::GateStatus;
use journal_file::Kept;
use outbox::Reading;
use std::alloc::Global;
use std::test::Fail;
use store_traits::TornStore;

/// The gateway's configuration. Its journal and its board are those of the outside.
const FILE: &str = "[gateway]\nendpoint = \"ipn:9.0\"\njournal = \"j\"\nmetrics = \"m\"\n\
[old]\nbind = \"a\"\npeer = \"b\"\nfirst_session = 1\n\
[new]\nbind = \"c\"\npeer = \"d\"\nfirst_session = 1\n";

/// What both clocks show at each reading.
const READING: Reading = Reading {
    wall: 1_010_000,
    monotonic: 1_010_000,
};

/// Which calls fail: polls and sends of each face in one list, the old face first, writes of lines, texts
/// that are shown, and the call on the journal's store before which so many others come.
#[derive(Clone, Copy)]
pub(crate) struct Failing {
    pub(crate) links: [&'static [bool]; 2],
    pub(crate) writing: &'static [bool],
    pub(crate) showing: &'static [bool],
    pub(crate) storing: Option<usize>,
}

/// How a run went: how it ended, or none where the journal can't be read; and what it made, as a text.
#[derive(Drop)]
pub(crate) struct Went {
    pub(crate) status: Option<GateStatus>,
    pub(crate) made: String,
    /// The file that a crash leaves with nothing of the last change.
    pub(crate) left: Vec<u8>,
}

/// Two turns over a store without a file, in which the polls of each face give this.
pub(crate) fn turns(alloc: Global, gives: &[&[Given]; 2], failing: &Failing) -> Result<Went, Fail> {
    let mut store = TornStore::new(alloc, &[], failing.storing)?;
    match recover(alloc, &mut store) {
        Ok(kept) => turns_of(alloc, store, kept, outside(alloc, gives, failing)?),
        Err(RecoverFault::Failed) => Ok(unread(alloc)),
        Err(_) => Err(Fail::new("no file is damaged")),
    }
}

/// Two turns of what goes on from what is kept.
fn turns_of(alloc: Global, store: TornStore, kept: Kept, outside: MemOutside) -> Result<Went, Fail>
    requires made { IfSome (⟦<MemOutside as Outside>⟧.made outside) (λ acts. acts ≡ []) }
    requires kept { IsLegal (kept_of kept) }
{
    let mut over = Journaled::new(alloc, outside, Journal { store, gate: 0 });
    let status = go(alloc, FILE, kept, 2, &mut over)?;
    ended(alloc, status, &over)
}

/// A run whose journal can't be read isn't begun.
fn unread(alloc: Global) -> Went {
    Went {
        status: None,
        made: String::new(alloc),
        left: Vec::new(alloc),
    }
}

/// How a run went that ended so.
fn ended(alloc: Global, status: GateStatus, over: &Over) -> Result<Went, Fail> {
    let store = &over.journal.store;
    let made = told(alloc, over.outside.acts())?;
    let left = store.left(alloc, store.moment(), &[])?;
    Ok(Went {
        status: Some(status),
        made,
        left,
    })
}

/// What is outside of a run but for its journal.
fn outside(alloc: Global, gives: &[&[Given]; 2], failing: &Failing) -> Result<MemOutside, Fail>
    ensures { IfOk result (λ o. IfSome (⟦<MemOutside as Outside>⟧.made o) (λ acts. acts ≡ [])) }
{
    let old = link(alloc, Face::Old, gives[0], failing.links[0])?;
    let new = link(alloc, Face::New, gives[1], failing.links[1])?;
    let (writing, showing) = (failing.writing, failing.showing);
    let outside = MemOutside::new(alloc, &[READING], old, new, writing, showing, &[])?;
    Ok(outside)
}

/// A face's link, of which each poll gives this.
fn link(alloc: Global, face: Face, gives: &[Given], failing: &[bool]) -> Result<MemFace, Fail> {
    let mut link = MemFace::new(alloc, failing)?;
    for given in gives {
        match given_at(face, *given) {
            Some(digits) => put(&mut link, octets(alloc, digits)?.as_slice())?,
            None => link.put_none()?,
        }
    }
    Ok(link)
}

/// What was made, as a text: a line for each datagram, for each call on the journal and for the metrics,
/// and the lines as they were written.
fn told(alloc: Global, acts: &[MemAct]) -> Result<String, Fail> {
    let mut text = String::new(alloc);
    for act in acts {
        tell(alloc, &mut text, act)?;
    }
    Ok(text)
}
