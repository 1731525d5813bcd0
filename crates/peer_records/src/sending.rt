//! The own sessions with a block, and which pieces each has.

ghost use Rattle.std.specs.Prelude.{◌≡◌, ◌++◌, ◌∷◌, [], ◌==◌, false, not, take, drop, IfOk, OnOk, OnErr};
ghost use Rattle.std.specs.List.{filter};
ghost use Rattle.gateway_core.specs.Gate.{if_same};
ghost use Rattle.peer_records.specs.Keeping.{ids_in};
ghost use Rattle.peer_records.specs.Records.{ids_of, others_than};
ghost use Rattle.peer_records.specs.Ties.{named_of, named_all};

use gate_cases::Face;
use std::alloc::{AllocError, Global};
use std::collections::VecDeque;

/// A session that the gateway began, and the ids of the pieces in its block, in order. A report has none.
#[derive(Debug, Drop)]
pub(crate) struct Sending {
    pub face: Face,
    pub session: u64,
    pub ids: Vec<u64>,
}

impl Sending {
    /// Whether it is the session of a face with this number.
    fn is_of(&self, face: Face, session: u64) -> bool
        ensures { result ≡ if_same (self.now).face face ((self.now).session == session) false }
    {
        self.face == face && self.session == session
    }

    /// Its ids are added to others, where it is the session of a face with this number.
    fn add_if(&self, face: Face, session: u64, ids: &mut Vec<u64>) -> Result<(), AllocError>
        ensures ids { OnOk result (ids.new.items ≡ ids.old.items ++ ids_of face session (named_of self.now)) }
        ensures wanted { OnErr result (ids_of face session (named_of self.now) ≡ [] → ⊥) }
    {
        if !self.is_of(face, session) {
            return Ok(());
        }
        ids.extend_from_slice(self.ids.as_slice())?;
        Ok(())
    }
}

/// The ids of a session's pieces, in order. Memory is wanted only where it has some.
pub(crate) fn ids_of(
    alloc: Global,
    sessions: &[Sending],
    face: Face,
    session: u64,
) -> Result<Vec<u64>, AllocError>
    ensures ids { IfOk result (λ ids. ids.items ≡ ids_of face session (named_all sessions.now)) }
    ensures wanted { OnErr result (ids_of face session (named_all sessions.now) ≡ [] → ⊥) }
{
    let mut ids = Vec::new(alloc);
    'sessions: for one in sessions {
        one.add_if(face, session, &mut ids)?;
    }
    Ok(ids)
}

/// A session is over.
pub(crate) fn remove(sessions: &mut Vec<Sending>, face: Face, session: u64)
    ensures { named_all sessions.new.items ≡ others_than face session (named_all sessions.old.items) }
{
    sessions.retain(|one| !one.is_of(face, session));
}

/// A piece waits after the others.
pub(crate) fn push(waiting: &mut VecDeque<Option<u64>>, id: Option<u64>) -> Result<(), AllocError>
    ensures { OnOk result (waiting.new.items ≡ waiting.old.items ++ id ∷ []) }
{
    waiting.push_back(id)?;
    Ok(())
}

/// Takes so many pieces from the front of those that wait, and answers their ids.
pub(crate) fn taken(
    alloc: Global,
    waiting: &mut VecDeque<Option<u64>>,
    count: usize,
) -> Result<Vec<u64>, AllocError>
    ensures ids { IfOk result (λ ids. ids.items ≡ ids_in (take count waiting.old.items)) }
    ensures left { OnOk result (waiting.new.items ≡ drop count waiting.old.items) }
{
    let mut ids = Vec::new(alloc);
    take_front(waiting, count, &mut ids)?;
    Ok(ids)
}

/// The same, and their ids are added to others.
fn take_front(
    waiting: &mut VecDeque<Option<u64>>,
    count: usize,
    ids: &mut Vec<u64>,
) -> Result<(), AllocError>
    ensures taken { OnOk result (ids.new.items ≡ ids.old.items ++ ids_in (take count waiting.old.items)) }
    ensures left { OnOk result (waiting.new.items ≡ drop count waiting.old.items) }
{
    'taking: for _ in 0..count {
        take_one(waiting, ids)?;
    }
    Ok(())
}

/// The same for the first piece, if one waits.
fn take_one(waiting: &mut VecDeque<Option<u64>>, ids: &mut Vec<u64>) -> Result<(), AllocError>
    ensures taken { OnOk result (ids.new.items ≡ ids.old.items ++ ids_in (take 1 waiting.old.items)) }
    ensures left { OnOk result (waiting.new.items ≡ drop 1 waiting.old.items) }
{
    if let Some(Some(id)) = waiting.pop_front() {
        ids.push(id)?;
    }
    Ok(())
}
