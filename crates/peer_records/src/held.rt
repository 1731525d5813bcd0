//! Where the pieces are that have ids.

ghost use Rattle.std.specs.Prelude.{◌≡◌, ◌+◌, [], map, take, drop, IfOk, OnOk, OnErr};
ghost use Rattle.gateway_core.specs.Gate.{at_face, with_face};
ghost use Rattle.peer_gateway.specs.Answers.{added_seen, begun_seen};
ghost use Rattle.peer_records.specs.Keeping.{ids_in};
ghost use Rattle.peer_records.specs.Records.{ids_of, others_than, waits_at, waiting_again, goes_with};
ghost use Rattle.peer_records.specs.Ties.{with_waiting, with_named, id_with, greatest_with, added_all, begun_all};

use crate::sending::{Sending, ids_of, push, remove, taken};
use gate_cases::Face;
use peer_gateway::{Added, BlockBegun};
use std::alloc::{AllocError, Global};
use std::collections::VecDeque;
use std::marker::Model;

/// Where the pieces of a run are: which wait at each face, in order, and which are in a session. A piece is
/// known by the id that it has in the journal; a report waits without one.
///
/// After want of memory the value may only be dropped.
#[derive(Debug, Drop)]
pub struct Held {
    pub(crate) at_old: VecDeque<Option<u64>>,
    pub(crate) at_new: VecDeque<Option<u64>>,
    pub(crate) sessions: Vec<Sending>,
}

impl Model for Held {
    ghost use Rattle.peer_records.specs.Records.{Going};
    ghost use Rattle.peer_records.specs.Ties.{named_all};

    ghost Value = { Going };

    ghost view = { λ h. record {
      waiting = (h.at_old.items, h.at_new.items);
      named = named_all h.sessions.items;
    } };
}

impl Held {
    /// Nothing waits, and no session has a piece. It takes no memory.
    pub fn new(alloc: Global) -> Held
        ensures { result ≡ record { waiting = ([], []); named = [] } }
    {
        Held {
            at_old: VecDeque::new(alloc),
            at_new: VecDeque::new(alloc),
            sessions: Vec::new(alloc),
        }
    }

    // ---- pieces that are added

    /// Pieces are added at their faces, in order, where this is the greatest id that was given: each has the
    /// next one, and a report none.
    pub fn add_all(&mut self, greatest: u64, added: &[Added]) -> Result<(), AllocError>
        ensures ok { OnOk result (self.new ≡ added_all greatest added.now self.old) }
        ensures wanted { OnErr result (added.now ≡ [] → ⊥) }
    {
        let mut last = greatest;
        'added: for one in added {
            last = self.add(last, one)?;
        }
        Ok(())
    }

    /// One of them. Answers the greatest id that is given then.
    fn add(&mut self, greatest: u64, added: &Added) -> Result<u64, AllocError>
        ensures waits { OnOk result (self.new ≡ with_waiting self.old
            (waits_at (added.now).face (id_with greatest (added.now).is_report) (self.old).waiting)) }
        ensures greatest { IfOk result (λ last. last ≡ greatest_with greatest (added.now).is_report) }
    {
        if added.is_report {
            self.wait(added.face, None)?;
            return Ok(greatest);
        }
        let id = next_id(greatest)?;
        self.wait(added.face, Some(id))?;
        Ok(id)
    }

    /// A piece of an earlier run has its id from before, and is added where there was room for it.
    pub fn add_again(&mut self, id: u64, added: &[Added]) -> Result<(), AllocError>
        ensures ok { OnOk result (self.new ≡ with_waiting self.old
            (waiting_again id (map added_seen added.now) (self.old).waiting)) }
        ensures wanted { OnErr result (added.now ≡ [] → ⊥) }
    {
        match added.first() {
            None => Ok(()),
            Some(one) => self.wait(one.face, Some(id)),
        }
    }

    /// A piece, or a report, waits at a face after the others.
    fn wait(&mut self, face: Face, id: Option<u64>) -> Result<(), AllocError>
        ensures { OnOk result (self.new ≡ with_waiting self.old (waits_at face id (self.old).waiting)) }
    {
        match face {
            Face::Old => push(&mut self.at_old, id),
            Face::New => push(&mut self.at_new, id),
        }
    }

    // ---- blocks that begin, and sessions that end

    /// Blocks begin, in order: each takes so many pieces from the front of those that wait at its face.
    pub fn begin_all(&mut self, alloc: Global, begun: &[BlockBegun]) -> Result<(), AllocError>
        ensures ok { OnOk result (self.new ≡ begun_all begun.now self.old) }
        ensures wanted { OnErr result (begun.now ≡ [] → ⊥) }
    {
        'begun: for one in begun {
            self.begin(alloc, one)?;
        }
        Ok(())
    }

    /// One of them.
    fn begin(&mut self, alloc: Global, begun: &BlockBegun) -> Result<(), AllocError>
        ensures { OnOk result (self.new ≡ goes_with (begun_seen begun.now) self.old) }
    {
        let ids = self.take(alloc, begun.face, begun.pieces)?;
        self.sessions.push(Sending {
            face: begun.face,
            session: begun.session,
            ids,
        })?;
        Ok(())
    }

    /// Takes so many pieces from the front of those that wait at a face, and answers their ids.
    fn take(&mut self, alloc: Global, face: Face, count: usize) -> Result<Vec<u64>, AllocError>
        ensures ids { IfOk result (λ ids. ids.items ≡ ids_in (take count (at_face (self.old).waiting face))) }
        ensures left { OnOk result (self.new ≡ with_waiting self.old
            (with_face (self.old).waiting face (drop count (at_face (self.old).waiting face)))) }
    {
        match face {
            Face::Old => taken(alloc, &mut self.at_old, count),
            Face::New => taken(alloc, &mut self.at_new, count),
        }
    }

    /// A session is over. Answers the ids of its pieces, in order. Memory is wanted only where it has some.
    pub fn end(&mut self, alloc: Global, face: Face, session: u64) -> Result<Vec<u64>, AllocError>
        ensures ids { IfOk result (λ ids. ids.items ≡ ids_of face session (self.old).named) }
        ensures left { OnOk result (self.new ≡ with_named self.old (others_than face session (self.old).named)) }
        ensures wanted { OnErr result (ids_of face session (self.old).named ≡ [] → ⊥) }
    {
        let ids = ids_of(alloc, self.sessions.as_slice(), face, session)?;
        remove(&mut self.sessions, face, session);
        Ok(ids)
    }
}

/// The next id, where there is one below 2^64: no memory has so many pieces.
fn next_id(greatest: u64) -> Result<u64, AllocError>
    ensures { IfOk result (λ id. id ≡ greatest + 1) }
{
    match greatest.checked_add(1) {
        Some(id) => Ok(id),
        None => Err(AllocError),
    }
}
