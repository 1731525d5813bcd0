//! What is kept of a session that isn't over, and its steps.

ghost use Rattle.std.specs.Prelude.{◌≡◌, ℕ, ◌+◌, ◌^◌, ◌<◌, ◌≤◌, false, None, Some, length};
ghost use Rattle.std.specs.Prelude.{IfOk, OnErr, IsSomeAnd, is_some, true, ◌||◌};
ghost use Rattle.std.specs.Option.{option_map};
ghost use Rattle.ltp_segment.specs.declared.session.TheConstants.{BLOCK_MAX};
ghost use Rattle.ltp_segment.specs.Views.{piece_value};
ghost use Rattle.ltp_segment.specs.PolicyViews.{policy_value};
ghost use Rattle.ltp_segment.specs.Kinds.{is_checkpoint};
ghost use Rattle.ltp_session.specs.Cells.{stop_of, whole_part};
ghost use Rattle.cells.specs.Cells.{filled};
ghost use Rattle.ltp_session.specs.Step.{after};
ghost use Rattle.ltp_session.specs.Receiver.{fresh, receiver_deadline, rejects, is_outside};
ghost use Rattle.ltp_session.specs.Receiver.{is_miscoloured, takes_green, with_red, report_of};
ghost use Rattle.ltp_session.specs.Receiver.{red_part, with_handed_up, takes_red, piece_step};
ghost use Rattle.ltp_session.specs.Receiver.{acknowledged, receiver_tick};

use crate::bounds::{bound_of, is_below, is_misplaced, is_past, length_after, lowest};
use crate::phase::{Pending, Phase};
use crate::report::Report;
use cells::Cells;
use endpoint::Octets;
use ltp_segment::{Green, Note, Outs, PieceView, Policy, Step, write_cancel};
use ltp_session::{
    BY_SYSTEM, MISCOLOURED, SENT_TOO_OFTEN, SERIALS, SessionName, Timer, first_serial,
};
use std::alloc::{AllocError, Global};

/// What never changes in a session.
#[derive(Clone, Copy, Debug)]
pub(crate) struct Terms {
    pub alloc: Global,
    pub name: SessionName,
    pub policy: Policy,
}

/// What is kept of a session that isn't over.
#[derive(Debug, Drop)]
pub(crate) struct Kept {
    /// The red octets that came.
    pub cells: Cells,
    /// The length of the red part, once an end of it came.
    pub length: Option<u64>,
    /// The lowest offset of green data.
    pub green: Option<u64>,
    /// Whether the red part was handed up.
    pub handed_up: bool,
    /// The serial number of the next report.
    pub serial: u64,
    pub phase: Phase,
    ghost named: { 0 < serial },
    ghost serial_within: { serial ≤ 2 ^ 32 },
    ghost some: { (n : ℕ) → length ≡ Some n → 0 < n },
    ghost within: { (n : ℕ) → length ≡ Some n → n ≤ BLOCK_MAX },
}

/// A session after a step, where it isn't over, and what it answers.
type Answer = Result<(Option<Kept>, Step), AllocError>;

/// An answer that sends, and hands up the red part where it is whole.
fn handing_up(out: Outs, up: Option<Octets>) -> Step
    ensures { result ≡ record { out = out; up = up; green = None; note = None } }
{
    Step {
        out,
        up,
        green: None,
        note: None,
    }
}

impl Kept {
    ghost use Rattle.ltp_receiver.specs.Kept.{receiving_of, Did, reported, is_claimed};
    ghost use Rattle.ltp_receiver.specs.Kept.{with_timer, exhausted};
    ghost use Rattle.ltp_receiver.specs.Quiet.{IsQuietStep};

    /// A session of which nothing came yet. It takes no memory.
    pub fn fresh(alloc: Global, session: u64) -> Kept
        ensures { receiving_of result ≡ fresh session }
    {
        Kept {
            cells: Cells::new(alloc),
            length: None,
            green: None,
            handed_up: false,
            serial: first_serial(session),
            phase: Phase::Open(None),
        }
    }

    /// Gives the session up: its cancel is sent.
    fn reject(self, terms: Terms, reason: u8, now: u64, up: Option<Octets>) -> Answer
        requires { now < 2 ^ 62 }
        ensures { IfOk result (Did terms.name (receiving_of self)
            (rejects (policy_value terms.policy) (receiving_of self) reason now up)) }
    {
        let Terms {
            alloc,
            name,
            policy,
        } = terms;
        let mut kept = self;
        let mut out = Outs::new(alloc);
        out.push(write_cancel(alloc, name.originator, name.number, false, reason)?)?;
        let timer = Timer::first(&policy, now);
        kept.phase = Phase::Cancelling { reason, timer };
        let note = Note::Failed {
            session: name.number,
            reason,
        };
        let step = Step {
            out,
            up,
            green: None,
            note: Some(note),
        };
        Ok((Some(kept), step))
    }

    /// Whether a red piece can't be one of this red part.
    fn is_outside(&self, piece: &PieceView<'_>) -> bool
        requires { stop_of piece.now.offset piece.now.body.now ≤ BLOCK_MAX }
        ensures { result ≡ is_outside (receiving_of self.now) (piece_value piece.now) }
    {
        let stop = piece.offset + piece.body.len() as u64;
        piece.kind.is_red()
            && is_misplaced(
                self.cells.reach(),
                self.length,
                piece.kind.ends_red_part(),
                stop,
            )
    }

    /// Whether red octets come after green ones in the block, or green ones before red ones.
    fn is_miscoloured(&self, piece: &PieceView<'_>) -> bool
        requires { stop_of piece.now.offset piece.now.body.now ≤ BLOCK_MAX }
        ensures { result ≡ is_miscoloured (receiving_of self.now) (piece_value piece.now) }
    {
        if piece.kind.is_red() {
            is_past(self.green, piece.offset + piece.body.len() as u64)
        } else {
            piece.offset < self.cells.reach() || is_below(self.length, piece.offset)
        }
    }

    /// A green piece came: it is handed up as it is.
    fn take_green(self, terms: Terms, piece: &PieceView<'_>) -> Answer
        ensures { IfOk result (Did terms.name (receiving_of self)
            (takes_green (receiving_of self) (piece_value piece.now))) }
    {
        let mut kept = self;
        let green = Green {
            session: terms.name.number,
            offset: piece.offset,
            last: piece.kind.ends_block(),
            body: Octets::from_slice(terms.alloc, piece.body)?,
        };
        kept.green = lowest(kept.green, piece.offset);
        let step = Step {
            out: Outs::new(terms.alloc),
            up: None,
            green: Some(green),
            note: None,
        };
        Ok((Some(kept), step))
    }

    /// The session with a red piece's octets where none were yet, and the length, where the red
    /// part ends with the piece.
    fn with_red(self, piece: &PieceView<'_>) -> Result<Kept, AllocError>
        requires some { 0 < length piece.now.body.now }
        requires fits { stop_of piece.now.offset piece.now.body.now ≤ BLOCK_MAX }
        ensures red { IfOk result (λ kept. receiving_of kept
            ≡ with_red (receiving_of self) (piece_value piece.now)) }
        ensures wanted { OnErr result
            (filled self.cells piece.now.offset piece.now.body.now ≡ self.cells → ⊥) }
    {
        let Kept {
            cells,
            length,
            green,
            handed_up,
            serial,
            phase,
        } = self;
        let stop = piece.offset + piece.body.len() as u64;
        let cells = with_octets(cells, piece)?;
        Ok(Kept {
            cells,
            length: length_after(length, piece.kind.ends_red_part(), stop),
            green,
            handed_up,
            serial,
            phase,
        })
    }

    /// Whether the length of the red part is known, and each octet of it came.
    fn is_whole(&self) -> bool
        ensures { result ≡ is_some (whole_part self.now.cells self.now.length) }
    {
        let reach = self.cells.reach();
        self.length == Some(reach) && self.cells.places().is_whole(reach)
    }

    /// The red part, where it is whole and wasn't handed up.
    fn red_part(&self, alloc: Global) -> Result<Option<Octets>, AllocError>
        ensures part { IfOk result (λ part. part ≡ red_part (receiving_of self.now)) }
        ensures wanted { OnErr result (is_some (red_part (receiving_of self.now)) ≡ true) }
    {
        if self.handed_up || !self.is_whole() {
            return Ok(None);
        }
        let part = self.cells.whole_part(alloc, self.length)?;
        Ok(part.map(Octets::from_vec))
    }

    /// The session once its red part is handed up, where there is one.
    fn with_handed_up(self, up: &Option<Octets>) -> Kept
        requires { up.now ≡ red_part (receiving_of self) }
        ensures { receiving_of result ≡ with_handed_up (receiving_of self) }
    {
        let mut kept = self;
        if up.is_some() {
            kept.handed_up = true;
        }
        kept
    }

    /// A report on the octets that came up to the length, where it is known, else to the stop of
    /// the checkpoint.
    fn report_on(&self, alloc: Global, piece: &PieceView<'_>) -> Result<Report, AllocError>
        requires some { 0 < length piece.now.body.now }
        requires fits { stop_of piece.now.offset piece.now.body.now ≤ BLOCK_MAX }
        ensures { IfOk result (λ report. report
            ≡ report_of (receiving_of self.now) (piece_value piece.now)) }
    {
        let upper = bound_of(self.length, piece.offset + piece.body.len() as u64);
        Report::on(
            alloc,
            self.cells.places(),
            self.serial,
            piece.checkpoint,
            upper,
        )
    }

    /// A report is made, and is pending in place of an earlier one.
    fn report(self, terms: Terms, piece: &PieceView<'_>, now: u64, up: Option<Octets>) -> Answer
        requires some { 0 < length piece.now.body.now }
        requires fits { stop_of piece.now.offset piece.now.body.now ≤ BLOCK_MAX }
        requires moment { now < 2 ^ 62 }
        requires last { self.serial < 2 ^ 32 }
        ensures { IfOk result (Did terms.name (receiving_of self)
            (reported (policy_value terms.policy) (receiving_of self)
            (report_of (receiving_of self) (piece_value piece.now)) now up)) }
    {
        let Terms {
            alloc,
            name,
            policy,
        } = terms;
        let mut kept = self;
        let report = kept.report_on(alloc, piece)?;
        let mut out = Outs::new(alloc);
        out.push(report.datagram(alloc, name)?)?;
        let timer = Timer::first(&policy, now);
        kept.serial += 1;
        kept.phase = Phase::Open(Some(Pending { report, timer }));
        Ok((Some(kept), handing_up(out, up)))
    }

    /// A red piece's octets are there. The red part is handed up where it is whole, and a
    /// checkpoint is answered.
    fn take_red(self, terms: Terms, piece: &PieceView<'_>, now: u64) -> Answer
        requires some { 0 < length piece.now.body.now }
        requires fits { stop_of piece.now.offset piece.now.body.now ≤ BLOCK_MAX }
        requires moment { now < 2 ^ 62 }
        ensures did { IfOk result (Did terms.name (receiving_of self)
            (takes_red (policy_value terms.policy) (receiving_of self)
            (piece_value piece.now) now)) }
        ensures wanted { OnErr result
            ((is_checkpoint piece.now.kind || is_some (red_part (receiving_of self))) ≡ true) }
    {
        let up = self.red_part(terms.alloc)?;
        let kept = self.with_handed_up(&up);
        if !piece.kind.is_checkpoint() {
            return Ok((Some(kept), handing_up(Outs::new(terms.alloc), up)));
        }
        if kept.serial == SERIALS {
            return kept.reject(terms, BY_SYSTEM, now, up);
        }
        kept.report(terms, piece, now, up)
    }

    /// A piece came. Memory is wanted only where something is sent or handed up, or a place gets
    /// its octet.
    pub fn piece(self, terms: Terms, piece: &PieceView<'_>, now: u64) -> Answer
        requires some { 0 < length piece.now.body.now }
        requires fits { stop_of piece.now.offset piece.now.body.now ≤ BLOCK_MAX }
        requires moment { now < 2 ^ 62 }
        ensures wanted { OnErr result (IsQuietStep (Some (receiving_of self))
            (piece_step (policy_value terms.policy) (receiving_of self)
            (piece_value piece.now) now) → ⊥) }
        ensures did { IfOk result (Did terms.name (receiving_of self)
            (piece_step (policy_value terms.policy) (receiving_of self)
            (piece_value piece.now) now)) }
    {
        if self.is_outside(piece) {
            let note = Note::BadBounds {
                session: terms.name.number,
            };
            return Ok((Some(self), Step::noting(Outs::new(terms.alloc), note)));
        }
        if self.is_miscoloured(piece) {
            return self.reject(terms, MISCOLOURED, now, None);
        }
        if piece.kind.is_red() {
            self.with_red(piece)?.take_red(terms, piece, now)
        } else {
            self.take_green(terms, piece)
        }
    }

    /// Whether its pending report claims the whole red part.
    fn is_claimed(&self) -> bool
        ensures { result
            ≡ is_claimed (receiving_of self.now).length (receiving_of self.now).phase }
    {
        match &self.phase {
            Phase::Open(Some(pending)) => pending.report.claims_all(self.length),
            _ => false,
        }
    }

    /// A report was acknowledged. Where it is the pending one, that is pending no more, and where
    /// it claimed the whole red part the session is over.
    pub fn acknowledged(self, serial: u64) -> Option<Kept>
        ensures { option_map receiving_of result
            ≡ after (acknowledged (receiving_of self) serial).next (Some (receiving_of self)) }
    {
        if !self.phase.awaits(serial) {
            return Some(self);
        }
        if self.is_claimed() {
            return None;
        }
        let mut kept = self;
        kept.phase = Phase::Open(None);
        Some(kept)
    }

    /// When the timer of what the session waits for is due.
    pub fn deadline(&self) -> Option<u64>
        ensures { result ≡ receiver_deadline (receiving_of self.now) }
    {
        match self.phase.timer() {
            None => None,
            Some(timer) => Some(timer.deadline),
        }
    }

    /// The session with its timer set anew.
    fn with_timer(self, timer: Timer) -> Kept
        ensures { receiving_of result ≡ with_timer (receiving_of self) timer }
    {
        let Kept {
            cells,
            length,
            green,
            handed_up,
            serial,
            phase,
        } = self;
        Kept {
            cells,
            length,
            green,
            handed_up,
            serial,
            phase: phase.with_timer(timer),
        }
    }

    /// What it waits for was sent too often: the session is over where it is cancelling or its red
    /// part was handed up, and is given up otherwise.
    fn exhausted(self, terms: Terms, now: u64) -> Answer
        requires { now < 2 ^ 62 }
        ensures { IfOk result (Did terms.name (receiving_of self)
            (exhausted (policy_value terms.policy) (receiving_of self)
            (receiving_of self).phase now)) }
    {
        if self.handed_up || self.phase.is_cancelling() {
            return Ok((None, Step::sending(Outs::new(terms.alloc))));
        }
        self.reject(terms, SENT_TOO_OFTEN, now, None)
    }

    /// Time has passed. Memory is wanted only where the timer is due.
    pub fn tick(self, terms: Terms, now: u64) -> Answer
        requires { now < 2 ^ 62 }
        ensures wanted { OnErr result
            (IsSomeAnd (receiver_deadline (receiving_of self)) (λ deadline. deadline ≤ now)) }
        ensures did { IfOk result (Did terms.name (receiving_of self)
            (receiver_tick (policy_value terms.policy) (receiving_of self) now)) }
    {
        let Some(timer) = self.phase.timer() else {
            return Ok((Some(self), Step::sending(Outs::new(terms.alloc))));
        };
        if !timer.is_due(now) {
            return Ok((Some(self), Step::sending(Outs::new(terms.alloc))));
        }
        if !timer.may_repeat(&terms.policy) {
            return self.exhausted(terms, now);
        }
        let out = self.phase.awaited(terms.alloc, terms.name)?;
        let next = timer.next(&terms.policy, now);
        Ok((Some(self.with_timer(next)), Step::sending(out)))
    }
}

/// The cells, with a piece's octets where none is yet. Memory is wanted only where there is such a
/// place.
fn with_octets(cells: Cells, piece: &PieceView<'_>) -> Result<Cells, AllocError>
    requires some { 0 < length piece.now.body.now }
    requires fits { stop_of piece.now.offset piece.now.body.now ≤ BLOCK_MAX }
    ensures now { IfOk result (λ now. now
        ≡ filled cells piece.now.offset piece.now.body.now) }
    ensures wanted { OnErr result
        (filled cells piece.now.offset piece.now.body.now ≡ cells → ⊥) }
{
    let stop = piece.offset + piece.body.len() as u64;
    if cells.places().covers(piece.offset, stop) {
        return Ok(cells);
    }
    cells.with(piece.offset, piece.body)
}
