//! The case of a record that is to go on, and its pieces.

ghost use Rattle.std.specs.Prelude.{◌≡◌, ◌<◌, [], None, IfOk};
ghost use Rattle.translate.specs.Sound.{IsSound};
ghost use Rattle.gate_cases.specs.Faces.{fits_at};
ghost use Rattle.gate_cases.specs.Passage.{pieces_on};
ghost use Rattle.face_room.specs.Bounds.{AreBounds};
ghost use Rattle.peer_cases.specs.Sending.{sent_full, sent_records};

use crate::cutting::sized_pieces;
use crate::onward::Onward;
use crate::pieces::SizedPieces;
use crate::room::FaceRoom;
use crate::settings::PeerSettings;
use block_types::LeftOut;
use bundle_meaning::{Full, expiry_ms};
use gate_cases::{Face, GateCase, has_no_hop_left, passage};
use std::alloc::{AllocError, Global};
use translate::{Refused, fits6, fits7};

/// The case of a bundle; the pieces that go on, and what they lack.
#[derive(Debug, Drop)]
pub(crate) struct Sent {
    pub case: GateCase,
    pub pieces: SizedPieces,
    pub left: Option<LeftOut>,
}

/// A piece has too many blocks for the version of its face.
const TOO_MANY: GateCase = GateCase::Untranslated {
    cause: Refused::TooManyBlocks,
};

/// What is decided about a record on its way to a face, at this moment.
pub(crate) fn send(
    alloc: Global,
    settings: PeerSettings,
    to: Face,
    onward: Onward,
    now: u64,
    cut: u64,
    room: FaceRoom,
) -> Result<Sent, AllocError>
    requires some { 0 < cut }
    requires bounds { AreBounds room.bounds }
    requires sound { IsSound onward.full }
    ensures { IfOk result (λ sent. sent ≡ sent_full settings to onward.full onward.left now cut room) }
{
    let Onward { full, left } = onward;
    if expiry_ms(&full) < u128::from(now) {
        return Ok(stopped(alloc, GateCase::Expired));
    }
    if has_no_hop_left(full.exts.as_slice()) {
        return Ok(stopped(alloc, GateCase::HopLimit));
    }
    let passed = Onward {
        full: passage(alloc, full)?,
        left,
    };
    send_passed(alloc, settings, to, passed, cut, room)
}

/// A case in which nothing goes on.
pub(crate) fn stopped(alloc: Global, case: GateCase) -> Sent
    ensures { result ≡ record { case = case; pieces = []; left = None } }
{
    Sent {
        case,
        pieces: SizedPieces::new(alloc),
        left: None,
    }
}

/// The same of a record that made its hop.
fn send_passed(
    alloc: Global,
    settings: PeerSettings,
    to: Face,
    passed: Onward,
    cut: u64,
    room: FaceRoom,
) -> Result<Sent, AllocError>
    requires some { 0 < cut }
    requires bounds { AreBounds room.bounds }
    requires sound { IsSound passed.full }
    ensures { IfOk result (λ sent. sent
        ≡ sent_records settings to (pieces_on passed.full cut) passed.left room) }
{
    let Onward { full, left } = passed;
    if !fits(to, &full) {
        return Ok(stopped(alloc, TOO_MANY));
    }
    match sized_pieces(alloc, settings, to, full, cut, room)? {
        None => Ok(stopped(alloc, GateCase::Storage)),
        Some(pieces) => Ok(Sent {
            case: GateCase::Passed,
            pieces,
            left,
        }),
    }
}

/// Whether there is room for the blocks of a record in its bundle at a face.
fn fits(to: Face, full: &Full) -> bool
    requires { IsSound full.now }
    ensures { result ≡ fits_at to full.now }
{
    match to {
        Face::Old => fits6(full),
        Face::New => fits7(full),
    }
}
