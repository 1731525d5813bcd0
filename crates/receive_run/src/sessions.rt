//! The sessions of `receive`, by originator and number.
ghost use Rattle.std.specs.Prelude.{◌≡◌, ◌&&◌, ◌==◌, ℕ, ◌+◌, ◌<◌, ◌≤◌, ◌^◌, List, [], Option, None, true, false, nat_lt, OnOk, OnErr, IfOk};
ghost use Rattle.ltp_segment.specs.declared.session.TheConstants.{BLOCK_MAX};
ghost use Rattle.ltp_session.specs.Cells.{reach_of};
ghost use Rattle.receive_run.specs.KeptSessions.{Kept, session_in, with_session, is_unfinished, unfinished};
ghost use Rattle.receive_run.specs.Session.{meets, fresh, is_out_of_bounds as bounds};
ghost use Rattle.receive_run.specs.Views.{named_piece, red_piece};
ghost use Rattle.receive_run.specs.Table.{Shows, LacksFirst, LacksOpen, Puts, Meets, IsTaken, key_cmp, found_at};
ghost use Rattle.std.specs.BTreeMap.{get};

use crate::open_part::{empty_part, is_out_of_bounds, take, whole};
use crate::part::OpenPart;
use crate::piece::Piece;
use crate::table::{Found, Reply, Sessions, Standing, Whole};
use std::alloc::{AllocError, Global};
use std::collections::BTreeMap;

/// No session yet.
pub fn no_sessions(alloc: Global) -> Sessions
    ensures { Shows result [] }
{
    Sessions {
        table: BTreeMap::new(alloc),
        unfinished: 0,
    }
}

/// Whether the piece would leave more than `most` sessions unfinished, where there are no more yet.
/// No memory is taken. The session is looked for only where so many are unfinished.
pub fn is_one_too_many(sessions: &Sessions, piece: &Piece<'_>, most: usize) -> bool
    ensures { (kept : List Kept) → Shows sessions.now kept → sessions.now.unfinished ≤ most → result ≡ nat_lt most (unfinished
        (with_session piece.now.name (meets BLOCK_MAX (session_in piece.now.name kept) (named_piece piece.now)).1 kept)) }
{
    if sessions.unfinished < most {
        return false;
    }
    match find(sessions, (piece.name.originator, piece.name.number)) {
        Found::Fresh => opens(piece),
        Found::Open(..) => false,
        Found::HandedUp => false,
    }
}

/// Whether a session of which nothing came is unfinished after the piece.
fn opens(piece: &Piece<'_>) -> bool
    ensures { result ≡ is_unfinished (meets BLOCK_MAX fresh (named_piece piece.now)).1 }
{
    !is_out_of_bounds(0, None, piece) && !is_alone(piece)
}

/// A piece meets its session. Memory is wanted only where the piece is one of the red part.
pub fn meet<'a>(
    alloc: Global,
    sessions: &mut Sessions,
    piece: &Piece<'a>,
) -> Result<Reply<'a>, AllocError>
    ensures met { (kept : List Kept) → Shows sessions.old kept → sessions.old.unfinished < 2 ^ 32
        → IfOk result (λ reply. Meets kept (named_piece piece.now) reply sessions.new) }
    ensures memory { (kept : List Kept) → Shows sessions.old kept
        → OnErr result (IsTaken (meets BLOCK_MAX (session_in piece.now.name kept) (named_piece piece.now)).0) }
{
    let key = (piece.name.originator, piece.name.number);
    match find(sessions, key) {
        Found::HandedUp => Ok(Reply::Skip),
        Found::Fresh => meet_first(alloc, sessions, piece),
        Found::Open(reach, length) => {
            if is_out_of_bounds(reach, length, piece) {
                return Ok(Reply::Note);
            }
            match sessions.table.remove(&key) {
                Some(Standing::Open(part)) => meet_open(alloc, sessions, part, piece),
                _ => Ok(Reply::Nothing),
            }
        }
    }
}

/// How the session stands in the table.
fn find(sessions: &Sessions, key: (u64, u64)) -> Found
    ensures { result ≡ found_at (get key_cmp sessions.now.table key) }
{
    match sessions.table.get(&key) {
        Some(Standing::Open(part)) => Found::Open(part.cells.reach(), part.length),
        Some(Standing::HandedUp) => Found::HandedUp,
        None => Found::Fresh,
    }
}

/// The first piece of its session, which the table doesn't have.
fn meet_first<'a>(
    alloc: Global,
    sessions: &mut Sessions,
    piece: &Piece<'a>,
) -> Result<Reply<'a>, AllocError>
    ensures met { (kept : List Kept) → LacksFirst sessions.old kept piece.now.name → sessions.old.unfinished < 2 ^ 32
        → IfOk result (λ reply. Meets kept (named_piece piece.now) reply sessions.new) }
    ensures memory { OnErr result (bounds BLOCK_MAX 0 None (red_piece piece.now) ≡ false) }
{
    if is_out_of_bounds(0, None, piece) {
        return Ok(Reply::Note);
    }
    if is_alone(piece) {
        put(sessions, piece, Standing::HandedUp)?;
        return Ok(Reply::Up(Whole::Lent(piece.body)));
    }
    let mut part = empty_part(alloc);
    take(alloc, &mut part, piece)?;
    let part = Box::new(alloc, part)?;
    put(sessions, piece, Standing::Open(part))?;
    sessions.unfinished = sessions.unfinished.saturating_add(1);
    Ok(Reply::Nothing)
}

/// Whether the piece is all of a red part.
fn is_alone(piece: &Piece<'_>) -> bool
    ensures { result ≡ (piece.now.ends && (piece.now.offset == 0)) }
{
    piece.ends && piece.offset == 0
}

/// A piece within the bounds of an open session, which was taken out of the table.
fn meet_open<'a>(
    alloc: Global,
    sessions: &mut Sessions,
    mut part: Box<OpenPart>,
    piece: &Piece<'a>,
) -> Result<Reply<'a>, AllocError>
    requires { bounds BLOCK_MAX (reach_of part.value.cells) part.value.length (red_piece piece.now) ≡ false }
    ensures { (kept : List Kept) (cells : List (Option ℕ)) (length : Option ℕ)
        → LacksOpen sessions.old kept piece.now.name part.value cells length
        → IfOk result (λ reply. Meets kept (named_piece piece.now) reply sessions.new) }
{
    take(alloc, &mut part, piece)?;
    match whole(alloc, &part)? {
        Some(body) => {
            put(sessions, piece, Standing::HandedUp)?;
            sessions.unfinished = sessions.unfinished.saturating_sub(1);
            Ok(Reply::Up(Whole::Built(body)))
        }
        None => {
            put(sessions, piece, Standing::Open(part))?;
            Ok(Reply::Nothing)
        }
    }
}

/// Puts how the piece's session stands.
fn put(sessions: &mut Sessions, piece: &Piece<'_>, standing: Standing) -> Result<(), AllocError>
    ensures { OnOk result (Puts sessions.old sessions.new piece.now.name standing) }
{
    sessions
        .table
        .insert((piece.name.originator, piece.name.number), standing)?;
    Ok(())
}
