//! What is decided about the bundle that octets spell.

ghost use Rattle.std.specs.Prelude.{◌≡◌, ◌<◌, false, Some, IfOk};
ghost use Rattle.bundle6.specs.Legal.{IsLegal};
ghost use Rattle.bundle7.specs.Legal.{IsLegal7};
ghost use Rattle.gate_cases.specs.Blocks.{arrival6, arrival7};
ghost use Rattle.gate_cases.specs.Promises.{AreAskable};
ghost use Rattle.bundle_rows.specs.Standing.{IsBundle};
ghost use Rattle.face_room.specs.Bounds.{AreBounds};
ghost use Rattle.peer_cases.specs.Arrivals.{came_as};
ghost use Rattle.peer_cases.specs.Cases.{decided};
ghost use Rattle.peer_cases.specs.Promises.{IsSendable};
ghost use Rattle.peer_cases.specs.Rows.{decided_in};
ghost use Rattle.peer_cases.specs.Sending.{sent_came};

use crate::decision::Decision;
use crate::onward::{Onward, goes_on};
use crate::room::FaceRoom;
use crate::sending::{Sent, send, stopped};
use crate::settings::PeerSettings;
use block_types::{relabel6, relabel7};
use bundle6::{Bundle6, decode6};
use bundle7::{Bundle7, decode7};
use gate_cases::{Face, GateCase, asked6, asked7, read6, read7};
use std::alloc::{AllocError, Global};

/// What is decided about a bundle of a row that came at a face, by its octets.
///
/// `now` is this moment, in milliseconds since the start of the year 2000 UTC; `cut` is the most octets
/// of a payload that one piece has; and `room` is that at the other face, as the bundle before left it.
///
/// Memory is wanted for the bundle, for its record, for the report, and for the pieces one after the
/// other, as long as there is room for them.
pub fn decide(
    alloc: Global,
    settings: PeerSettings,
    face: Face,
    octets: &[u8],
    now: u64,
    cut: u64,
    room: FaceRoom,
) -> Result<Decision, AllocError>
    requires some { 0 < cut }
    requires bounds { AreBounds room.bounds }
    requires bundle { IsBundle face octets.now }
    ensures exact { IfOk result (λ decision. decided_in settings face octets.now now cut room ≡ Some decision) }

    // What goes on has room, a session carries each piece, and a report that is asked for can be spelled.
    ensures sendable { IfOk result (IsSendable room) }
    ensures askable { IfOk result (λ decision. AreAskable decision.report) }
{
    match face {
        Face::Old => decide_old(alloc, settings, octets, now, cut, room),
        Face::New => decide_new(alloc, settings, octets, now, cut, room),
    }
}

/// The same at the old face.
fn decide_old(
    alloc: Global,
    settings: PeerSettings,
    octets: &[u8],
    now: u64,
    cut: u64,
    room: FaceRoom,
) -> Result<Decision, AllocError>
    requires some { 0 < cut }
    requires bounds { AreBounds room.bounds }
    requires bundle { IsBundle Face.Old octets.now }
    ensures exact { IfOk result (λ decision. decided_in settings Face.Old octets.now now cut room ≡ Some decision) }
    ensures askable { IfOk result (λ decision. AreAskable decision.report) }
{
    match decode6(alloc, octets) {
        Ok((bundle, _)) => {
            let bundle = relabel6(alloc, settings.types, bundle);
            decided6(alloc, settings, &bundle, now, cut, room)
        }
        Err(_) => Err(AllocError),
    }
}

/// The same at the new face.
fn decide_new(
    alloc: Global,
    settings: PeerSettings,
    octets: &[u8],
    now: u64,
    cut: u64,
    room: FaceRoom,
) -> Result<Decision, AllocError>
    requires some { 0 < cut }
    requires bounds { AreBounds room.bounds }
    requires bundle { IsBundle Face.New octets.now }
    ensures exact { IfOk result (λ decision. decided_in settings Face.New octets.now now cut room ≡ Some decision) }
    ensures askable { IfOk result (λ decision. AreAskable decision.report) }
{
    match decode7(alloc, octets) {
        Ok((bundle, _)) => {
            let bundle = relabel7(settings.types, bundle);
            decided7(alloc, settings, &bundle, now, cut, room)
        }
        Err(_) => Err(AllocError),
    }
}

/// What is decided about a version 6 bundle with the gateway's own types.
fn decided6(
    alloc: Global,
    settings: PeerSettings,
    bundle: &Bundle6,
    now: u64,
    cut: u64,
    room: FaceRoom,
) -> Result<Decision, AllocError>
    requires some { 0 < cut }
    requires bounds { AreBounds room.bounds }
    requires legal { IsLegal bundle.now }
    ensures exact { IfOk result (λ decision. decision
        ≡ decided settings Face.Old (came_as settings.bare (arrival6 bundle.now)) now cut room) }
    ensures askable { IfOk result (λ decision. AreAskable decision.report) }
{
    let sent = sent6(alloc, settings, bundle, now, cut, room)?;
    Ok(Decision {
        case: sent.case,
        report: asked6(alloc, bundle, sent.case)?,
        pieces: sent.pieces,
        left: sent.left,
    })
}

/// What is decided about a version 7 bundle with the gateway's own types.
fn decided7(
    alloc: Global,
    settings: PeerSettings,
    bundle: &Bundle7,
    now: u64,
    cut: u64,
    room: FaceRoom,
) -> Result<Decision, AllocError>
    requires some { 0 < cut }
    requires bounds { AreBounds room.bounds }
    requires legal { IsLegal7 bundle.now }
    ensures exact { IfOk result (λ decision. decision
        ≡ decided settings Face.New (came_as false (arrival7 bundle.now)) now cut room) }
    ensures askable { IfOk result (λ decision. AreAskable decision.report) }
{
    let sent = sent7(alloc, settings, bundle, now, cut, room)?;
    Ok(Decision {
        case: sent.case,
        report: asked7(alloc, bundle, sent.case)?,
        pieces: sent.pieces,
        left: sent.left,
    })
}

/// The case of a version 6 bundle, and what goes on.
fn sent6(
    alloc: Global,
    settings: PeerSettings,
    bundle: &Bundle6,
    now: u64,
    cut: u64,
    room: FaceRoom,
) -> Result<Sent, AllocError>
    requires some { 0 < cut }
    requires bounds { AreBounds room.bounds }
    requires legal { IsLegal bundle.now }
    ensures { IfOk result (λ sent. sent
        ≡ sent_came settings Face.New (came_as settings.bare (arrival6 bundle.now)) now cut room) }
{
    match read6(alloc, bundle)? {
        Ok(full) => {
            let onward = goes_on(alloc, settings.bare, full)?;
            send(alloc, settings, Face::New, onward, now, cut, room)
        }
        Err(cause) => Ok(stopped(alloc, GateCase::Untranslated { cause })),
    }
}

/// The case of a version 7 bundle, and what goes on: it goes on whole.
fn sent7(
    alloc: Global,
    settings: PeerSettings,
    bundle: &Bundle7,
    now: u64,
    cut: u64,
    room: FaceRoom,
) -> Result<Sent, AllocError>
    requires some { 0 < cut }
    requires bounds { AreBounds room.bounds }
    requires legal { IsLegal7 bundle.now }
    ensures { IfOk result (λ sent. sent
        ≡ sent_came settings Face.Old (came_as false (arrival7 bundle.now)) now cut room) }
{
    match read7(alloc, bundle)? {
        Ok(full) => {
            let onward = Onward { full, left: None };
            send(alloc, settings, Face::Old, onward, now, cut, room)
        }
        Err(cause) => Ok(stopped(alloc, GateCase::Untranslated { cause })),
    }
}
