//! The sessions of the gateway's own, each with its block.

ghost use Rattle.std.specs.Prelude.{◌≡◌, ◌∷◌, ◌++◌, [], IfOk, IfSome, OnOk};
ghost use Rattle.peer_gateway.specs.Answers.{begun_seen};
ghost use Rattle.peer_events.specs.Kept.{StandsAt};
ghost use Rattle.peer_events.specs.Own.{IsNamedOwn, own_with, is_of, find_own, without_own};

use gate_cases::Face;
use gate_log::{Subject, subject_of};
use peer_gateway::BlockBegun;
use std::alloc::{AllocError, Global};
use std::marker::Model;

/// A session that the gateway began.
#[derive(Debug, Drop)]
pub struct OwnBlock {
    /// The face at which it sends.
    pub face: Face,
    /// Its number there.
    pub session: u64,
    /// The first bundle of the block that it carries; none where there is none.
    pub subject: Option<Subject>,
    /// Of how many pieces the block is.
    pub pieces: usize,
}

impl OwnBlock {
    /// A session that begins.
    pub fn new(alloc: Global, begun: &BlockBegun) -> Result<OwnBlock, AllocError>
        ensures own { IfOk result (λ own. own ≡ own_with (begun_seen begun.now)) }
        ensures named { IfOk result IsNamedOwn }
    {
        let subject = subject_of(alloc, begun.block.as_slice())?;
        Ok(OwnBlock {
            face: begun.face,
            session: begun.session,
            subject,
            pieces: begun.pieces,
        })
    }

    /// Whether it is the session of a face with this number.
    fn is_of(&self, face: Face, session: u64) -> bool
        ensures { result ≡ is_of face session self.now }
    {
        self.face == face && self.session == session
    }
}

/// Sessions that the gateway began, the oldest first.
///
/// A contract sees them as a list.
#[derive(Debug, Drop)]
pub struct OwnBlocks {
    items: Vec<OwnBlock>,
}

impl Model for OwnBlocks {
    ghost use Rattle.std.specs.Prelude.{List};
    ghost use Rattle.std.specs.List.{All};
    ghost use Rattle.peer_events.specs.Own.{IsNamedOwn};
    ghost use Rattle.peer_events.specs.declared.own.OwnBlock.{OwnBlock};

    ghost Value = { List OwnBlock };

    ghost view = { λ own. own.items.items };

    ghost invariant = { λ own. All IsNamedOwn own.items.items };
}

impl OwnBlocks {
    ghost use Rattle.std.specs.List.{All};

    /// None yet. It takes no memory.
    pub fn new(alloc: Global) -> OwnBlocks
        ensures { result ≡ [] }
    {
        OwnBlocks {
            items: Vec::new(alloc),
        }
    }

    /// The sessions, lent.
    pub fn as_slice(&self) -> &[OwnBlock]
        ensures own { result.now ≡ self.now }
        ensures named { All IsNamedOwn result.now }
    {
        self.items.as_slice()
    }

    /// A session more begins.
    pub(crate) fn push(&mut self, own: OwnBlock) -> Result<(), AllocError>
        requires { IsNamedOwn own }
        ensures { OnOk result (self.new ≡ self.old ++ own ∷ []) }
    {
        self.items.push(own)?;
        Ok(())
    }

    /// Takes out the session of a face with this number, where it is among them.
    pub(crate) fn take(&mut self, face: Face, session: u64) -> Option<OwnBlock>
        ensures taken { result ≡ find_own face session self.old }
        ensures named { IfSome result IsNamedOwn }
        ensures left { self.new ≡ without_own face session self.old }
    {
        match place_of(self.items.as_slice(), face, session) {
            Some(index) => Some(self.items.remove(index)),
            None => None,
        }
    }
}

/// The place of the session of a face with this number.
fn place_of(own: &[OwnBlock], face: Face, session: u64) -> Option<usize>
    ensures { StandsAt face session own.now result }
{
    'looking: for place in 0..own.len() {
        if own[place].is_of(face, session) {
            return Some(place);
        }
    }
    None
}
