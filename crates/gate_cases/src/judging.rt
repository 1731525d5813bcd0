//! What is decided about a block.

ghost use Rattle.std.specs.Prelude.{◌≡◌, ◌<◌, ℕ, length, IfOk, OnErr, Ok, None, []};
ghost use Rattle.wire_fields.specs.Reading.{read};
ghost use Rattle.bundle6.specs.Legal.{IsLegal};
ghost use Rattle.bundle6.specs.Table as table6;
ghost use Rattle.bundle7.specs.Legal.{IsLegal7};
ghost use Rattle.bundle7.specs.Table as table7;
ghost use Rattle.translate.specs.Reading6.{refusals6};
ghost use Rattle.translate.specs.Reading7.{refusals7};
ghost use Rattle.translate.specs.Refusals.{first_that_holds};
ghost use Rattle.gate_cases.specs.Blocks.{arrival6, arrival7, one};
ghost use Rattle.gate_cases.specs.Cases.{judged, judgement_of, case_of};
ghost use Rattle.gate_cases.specs.Promises.{AreAskable, HaveRoom};
ghost use Rattle.gate_cases.specs.Sending.{sent_arrival};

use crate::asking::{asked6, asked7};
use crate::case::{GateCase, Room};
use crate::cause::BadCause;
use crate::face::Face;
use crate::judged::{Judged, Pieces};
use crate::reading::{read6, read7};
use crate::sending::{Sent, send, stopped};
use bundle6::{Bundle6, decode6, judge6};
use bundle7::{Bundle7, decode7, judge7};
use std::alloc::{AllocError, Global};

/// What is decided about a block that was handed up at a face.
///
/// `now` is this moment, in milliseconds since the start of the year 2000 UTC; `cut` is the most octets
/// of a payload that one piece has; and `room` is that at the other face.
///
/// A block that isn't exactly one bundle of the face's version takes no memory.
pub fn judge(
    alloc: Global,
    face: Face,
    block: &[u8],
    now: u64,
    cut: u64,
    room: Room,
) -> Result<Judged, AllocError>
    requires some { 0 < cut }
    ensures exact { IfOk result (λ given. given ≡ judged face block.now now cut room) }

    // Memory is wanted only where the block is exactly one bundle.
    ensures memory { OnErr result ((at : ℕ) (cause : BadCause)
        → (judged face block.now now cut room).case ≡ GateCase.BadBundle at cause → ⊥) }

    // What goes on can be sent, and a report that is asked for can be spelled.
    ensures room { IfOk result (λ given. given.case ≡ GateCase.Passed → HaveRoom room given.pieces) }
    ensures askable { IfOk result (λ given. AreAskable given.report) }
{
    match face {
        Face::Old => judge_old(alloc, block, now, cut, room),
        Face::New => judge_new(alloc, block, now, cut, room),
    }
}

/// What is decided about a block that was handed up at the old face.
fn judge_old(
    alloc: Global,
    block: &[u8],
    now: u64,
    size: u64,
    room: Room,
) -> Result<Judged, AllocError>
    requires some { 0 < size }
    ensures exact { IfOk result (λ given. given ≡ judged Face.Old block.now now size room) }
    ensures memory { OnErr result ((at : ℕ) (cause : BadCause)
        → (judged Face.Old block.now now size room).case ≡ GateCase.BadBundle at cause → ⊥) }
    ensures askable { IfOk result (λ given. AreAskable given.report) }
{
    match judge6(block) {
        Ok(end) if end == block.len() => judge_bundle6(alloc, block, now, size, room),
        Ok(end) => Ok(bad(alloc, end, BadCause::Trailing)),
        Err(refused) => Ok(bad(
            alloc,
            refused.at,
            BadCause::Six {
                cause: refused.cause,
            },
        )),
    }
}

/// What is decided about a block that was handed up at the new face.
fn judge_new(
    alloc: Global,
    block: &[u8],
    now: u64,
    size: u64,
    room: Room,
) -> Result<Judged, AllocError>
    requires some { 0 < size }
    ensures exact { IfOk result (λ given. given ≡ judged Face.New block.now now size room) }
    ensures memory { OnErr result ((at : ℕ) (cause : BadCause)
        → (judged Face.New block.now now size room).case ≡ GateCase.BadBundle at cause → ⊥) }
    ensures askable { IfOk result (λ given. AreAskable given.report) }
{
    match judge7(block) {
        Ok(end) if end == block.len() => judge_bundle7(alloc, block, now, size, room),
        Ok(end) => Ok(bad(alloc, end, BadCause::Trailing)),
        Err(refused) => Ok(bad(
            alloc,
            refused.at,
            BadCause::Seven {
                cause: refused.cause,
            },
        )),
    }
}

/// Of a block that isn't exactly one bundle nothing goes on, and no report is asked for.
fn bad(alloc: Global, at: usize, cause: BadCause) -> Judged
    ensures { result ≡ record { case = GateCase.BadBundle at cause; pieces = []; report = None } }
{
    Judged {
        case: GateCase::BadBundle { at, cause },
        pieces: Pieces::new(alloc),
        report: None,
    }
}

/// What is decided about a block that is one version 6 bundle.
fn judge_bundle6(
    alloc: Global,
    block: &[u8],
    now: u64,
    size: u64,
    room: Room,
) -> Result<Judged, AllocError>
    requires some { 0 < size }
    requires one { (b : Bundle6) × (read (table6.bundle 64) block.now 0 ≡ Ok (b, length block.now)) }
    ensures exact { IfOk result (λ given. given ≡ judged Face.Old block.now now size room) }
    ensures askable { IfOk result (λ given. AreAskable given.report) }
{
    match decode6(alloc, block) {
        Ok((bundle, _)) => decided6(alloc, &bundle, now, size, room),
        Err(_) => Err(AllocError),
    }
}

/// What is decided about a block that is one version 7 bundle.
fn judge_bundle7(
    alloc: Global,
    block: &[u8],
    now: u64,
    size: u64,
    room: Room,
) -> Result<Judged, AllocError>
    requires some { 0 < size }
    requires one { (b : Bundle7) × (read (table7.bundle 64) block.now 0 ≡ Ok (b, length block.now)) }
    ensures exact { IfOk result (λ given. given ≡ judged Face.New block.now now size room) }
    ensures askable { IfOk result (λ given. AreAskable given.report) }
{
    match decode7(alloc, block) {
        Ok((bundle, _)) => decided7(alloc, &bundle, now, size, room),
        Err(_) => Err(AllocError),
    }
}

/// What is decided about a version 6 bundle.
fn decided6(
    alloc: Global,
    bundle: &Bundle6,
    now: u64,
    size: u64,
    room: Room,
) -> Result<Judged, AllocError>
    requires some { 0 < size }
    requires legal { IsLegal bundle.now }
    ensures exact { IfOk result (λ given. given ≡ judgement_of Face.Old (one (arrival6 bundle.now)) size
        (case_of Face.Old (one (arrival6 bundle.now)) now size room)) }
    ensures askable { IfOk result (λ given. AreAskable given.report) }
{
    let sent = sent6(alloc, bundle, now, size, room)?;
    Ok(Judged {
        case: sent.case,
        report: asked6(alloc, bundle, sent.case)?,
        pieces: sent.pieces,
    })
}

/// What is decided about a version 7 bundle.
fn decided7(
    alloc: Global,
    bundle: &Bundle7,
    now: u64,
    size: u64,
    room: Room,
) -> Result<Judged, AllocError>
    requires some { 0 < size }
    requires legal { IsLegal7 bundle.now }
    ensures exact { IfOk result (λ given. given ≡ judgement_of Face.New (one (arrival7 bundle.now)) size
        (case_of Face.New (one (arrival7 bundle.now)) now size room)) }
    ensures askable { IfOk result (λ given. AreAskable given.report) }
{
    let sent = sent7(alloc, bundle, now, size, room)?;
    Ok(Judged {
        case: sent.case,
        report: asked7(alloc, bundle, sent.case)?,
        pieces: sent.pieces,
    })
}

/// The case of a version 6 bundle, and what goes on. Memory is wanted only where it is translated.
fn sent6(
    alloc: Global,
    bundle: &Bundle6,
    now: u64,
    size: u64,
    room: Room,
) -> Result<Sent, AllocError>
    requires some { 0 < size }
    requires legal { IsLegal bundle.now }
    ensures exact { IfOk result (λ sent. sent ≡ sent_arrival Face.New (arrival6 bundle.now) now size room) }
    ensures memory { OnErr result (first_that_holds (refusals6 bundle.now) ≡ None) }
{
    match read6(alloc, bundle)? {
        Ok(full) => send(alloc, Face::New, full, now, size, room),
        Err(cause) => Ok(stopped(alloc, GateCase::Untranslated { cause })),
    }
}

/// The case of a version 7 bundle, and what goes on. Memory is wanted only where it is translated.
fn sent7(
    alloc: Global,
    bundle: &Bundle7,
    now: u64,
    size: u64,
    room: Room,
) -> Result<Sent, AllocError>
    requires some { 0 < size }
    requires legal { IsLegal7 bundle.now }
    ensures exact { IfOk result (λ sent. sent ≡ sent_arrival Face.Old (arrival7 bundle.now) now size room) }
    ensures memory { OnErr result (first_that_holds (refusals7 bundle.now) ≡ None) }
{
    match read7(alloc, bundle)? {
        Ok(full) => send(alloc, Face::Old, full, now, size, room),
        Err(cause) => Ok(stopped(alloc, GateCase::Untranslated { cause })),
    }
}
