//! A face at its beginning.

ghost use Rattle.std.specs.Prelude.{◌≡◌, map, IfOk};
ghost use Rattle.ltp_segment.specs.Spelling.{segment_octets};
ghost use Rattle.face_room.specs.Bounds.{AreBounds};
ghost use Rattle.peer_sessions.specs.Views.{face_keys, AreFit};
ghost use Rattle.peer_gateway.specs.Keys.{AreKeys};
ghost use Rattle.peer_gateway.specs.Views.{cancels_of};

use crate::answer::PeerAnswer;
use crate::faces::FaceParts;
use crate::waits::Waits;
use gate_cases::Face;
use ltp_segment::{Outs, write_cancel};
use ltp_session::BY_SYSTEM;
use peer_cases::PeerSettings;
use peer_sessions::{Keys, PeerSessions};
use piece_gathering::Gathering;
use std::alloc::{AllocError, Global};

impl FaceParts {
    ghost use Rattle.peer_gateway.specs.Faces.{IsEmpty, Starts};

    /// A face at its beginning, at a moment, with the sessions of the peer that were acknowledged in an
    /// earlier run: each is cancelled.
    pub fn new(
        alloc: Global,
        face: Face,
        settings: PeerSettings,
        keys: Keys,
        marks: &[u64],
        now: u64,
        answer: &mut PeerAnswer,
    ) -> Result<FaceParts, AllocError>
        requires fit { AreFit keys }
        requires keys { AreKeys (face_keys keys) }
        requires bounds { AreBounds keys.bounds }
        ensures { IfOk result (Starts face settings (face_keys keys) now marks.now answer.old answer.new) }
    {
        let mut parts = FaceParts::empty(alloc, face, settings, keys, marks, now)?;
        let out = cancels(alloc, keys.peer, marks)?;
        parts.put(out, answer)?;
        Ok(parts)
    }

    /// The same before they are cancelled.
    fn empty(
        alloc: Global,
        face: Face,
        settings: PeerSettings,
        keys: Keys,
        marks: &[u64],
        now: u64,
    ) -> Result<FaceParts, AllocError>
        requires fit { AreFit keys }
        requires keys { AreKeys (face_keys keys) }
        requires bounds { AreBounds keys.bounds }
        ensures { IfOk result (IsEmpty face settings (face_keys keys) now marks.now) }
    {
        Ok(FaceParts {
            alloc,
            face,
            settings,
            bounds: keys.bounds,
            sessions: PeerSessions::new(alloc, keys, marks, now)?,
            gathering: Gathering::new(alloc, keys.bounds.wanted, keys.wait_ms),
            queued: 0,
            waits: Waits::none(),
        })
    }
}

/// A cancel of each of these sessions of the peer, in order.
fn cancels(alloc: Global, peer: u64, marks: &[u64]) -> Result<Outs, AllocError>
    ensures { IfOk result (λ out. out ≡ map segment_octets (cancels_of peer marks.now)) }
{
    let mut out = Outs::new(alloc);
    'each: for mark in marks {
        out.push(write_cancel(alloc, peer, *mark, false, BY_SYSTEM)?)?;
    }
    Ok(out)
}
