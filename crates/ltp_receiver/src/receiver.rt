//! One session of a receiver.

ghost use Rattle.std.specs.Prelude.{◌≡◌, ◌^◌, ◌<◌, ◌≤◌, false, true, not, is_some, length, IfOk};
ghost use Rattle.std.specs.Prelude.{OnOk, OnErr, IsSomeAnd};
ghost use Rattle.spans.specs.Places.{uncovered};
ghost use Rattle.ltp_segment.specs.declared.session.TheConstants.{BLOCK_MAX};
ghost use Rattle.ltp_segment.specs.PolicyViews.{policy_value};
ghost use Rattle.ltp_segment.specs.Views.{piece_value};
ghost use Rattle.cells.specs.Covers.{Covers};
ghost use Rattle.ltp_session.specs.Cells.{stop_of};
ghost use Rattle.ltp_session.specs.Receiver.{on_report_ack, on_receiver_cancel_ack};
ghost use Rattle.ltp_session.specs.Receiver.{on_receiver_tick};
ghost use Rattle.ltp_session.specs.Views.{answer_of, changed};
ghost use Rattle.ltp_receiver.specs.Quiet.{IsQuietStep};
ghost use Rattle.ltp_receiver.specs.Receiver.{new_session, IsOpen, on_open_piece};
ghost use Rattle.ltp_receiver.specs.Receiver.{is_kept_cancelling, is_kept_handed_up, deadline_of};
ghost use Rattle.ltp_receiver.specs.Receiver.{cells_of};

use crate::kept::{Kept, Terms};
use ltp_segment::{BLOCK_MAX, Outs, PieceView, Policy, Step};
use ltp_session::SessionName;
use spans::Spans;
use std::alloc::{AllocError, Global};
use std::marker::Model;

/// A session that receives one block (RFC 5326, section 8.2). It is open until a report that claims
/// its whole red part is acknowledged, then over; where it is given up it is cancelling in between.
///
/// After want of memory the value may only be dropped.
#[derive(Debug, Drop)]
pub struct Receiver {
    terms: Terms,
    kept: Option<Kept>,
    nothing: Spans,
    spent: bool,
    ghost empty: { nothing ≡ uncovered BLOCK_MAX },
}

impl Model for Receiver {
    ghost use Rattle.std.specs.Option.{option_map};
    ghost use Rattle.ltp_segment.specs.PolicyViews.{policy_value};
    ghost use Rattle.ltp_session.specs.Receiver.{Receiving};
    ghost use Rattle.ltp_session.specs.Views.{SessionValue};
    ghost use Rattle.ltp_receiver.specs.Kept.{receiving_of};

    ghost Value = { SessionValue Receiving };

    ghost view = { λ r. record {
      spent = r.spent;
      name = (r.terms).name;
      policy = policy_value (r.terms).policy;
      kept = option_map receiving_of r.kept;
    } };
}

impl Receiver {
    /// A session of which nothing came yet, of this originator and with this number. It takes no
    /// memory.
    pub fn new(alloc: Global, originator: u64, session: u64, policy: &Policy) -> Receiver
        ensures { result ≡ new_session (record { originator = originator; number = session })
            (policy_value policy.now) }
    {
        let name = SessionName {
            originator,
            number: session,
        };
        Receiver {
            terms: Terms {
                alloc,
                name,
                policy: *policy,
            },
            kept: Some(Kept::fresh(alloc, session)),
            nothing: Spans::new(alloc, BLOCK_MAX),
            spent: false,
        }
    }

    /// A piece came, for a session that is neither over nor cancelling. It has an octet at least,
    /// and stops within the greatest block.
    ///
    /// Green data is handed up at once (RFC 5326, section 6.10). Red data fills the places that
    /// have no octet yet, and a checkpoint is answered by one report (section 6.11). The red part
    /// is handed up once, as soon as its length is known and all of it came (section 6.9). A red
    /// piece that doesn't fit what came before is only noted. That takes no memory, and neither
    /// does a red piece that is no checkpoint and brings no octet to an empty place.
    pub fn piece(&mut self, piece: &PieceView<'_>, now: u64) -> Result<Step, AllocError>
        requires whole { self.old.spent ≡ false }
        requires open { IsOpen self.old.kept }
        requires some { 0 < length piece.now.body.now }
        requires fits { stop_of piece.now.offset piece.now.body.now ≤ BLOCK_MAX }
        requires moment { now < 2 ^ 62 }
        ensures next { OnOk result (self.new ≡ changed self.old
            (on_open_piece self.old.policy self.old.kept (piece_value piece.now) now).next) }
        ensures answer { IfOk result (λ step. step ≡ answer_of self.old.name
            (on_open_piece self.old.policy self.old.kept (piece_value piece.now) now)) }
        ensures err { OnErr result (self.new.spent ≡ true) }
        // Memory is wanted only where something is sent or handed up, or a place gets its octet.
        ensures wanted { OnErr result (IsQuietStep self.old.kept
            (on_open_piece self.old.policy self.old.kept (piece_value piece.now) now) → ⊥) }
    {
        self.spent = true;
        let (kept, step) = match self.kept.take() {
            None => (None, Step::sending(Outs::new(self.terms.alloc))),
            Some(kept) => kept.piece(self.terms, piece, now)?,
        };
        self.kept = kept;
        self.spent = false;
        Ok(step)
    }

    /// The acknowledgement of a report came (RFC 5326, section 6.14). Where it names the pending
    /// report, that is pending no more, and where it claimed the whole red part the session is
    /// over. It takes no memory.
    pub fn acknowledged(&mut self, serial: u64)
        requires whole { self.old.spent ≡ false }
        ensures { self.new ≡ changed self.old (on_report_ack self.old.kept serial).next }
    {
        self.kept = match self.kept.take() {
            None => None,
            Some(kept) => kept.acknowledged(serial),
        };
    }

    /// Time has passed. What waited long enough for its answer is sent again, and once it was sent
    /// as often as the policy allows, the session is over or is given up. Before the deadline
    /// nothing happens, and no memory is taken.
    pub fn tick(&mut self, now: u64) -> Result<Step, AllocError>
        requires whole { self.old.spent ≡ false }
        requires moment { now < 2 ^ 62 }
        ensures next { OnOk result (self.new ≡ changed self.old
            (on_receiver_tick self.old.policy self.old.kept now).next) }
        ensures answer { IfOk result (λ step. step ≡ answer_of self.old.name
            (on_receiver_tick self.old.policy self.old.kept now)) }
        ensures err { OnErr result (self.new.spent ≡ true) }
        ensures wanted { OnErr result
            (IsSomeAnd (deadline_of self.old.kept) (λ deadline. deadline ≤ now)) }
    {
        self.spent = true;
        let (kept, step) = match self.kept.take() {
            None => (None, Step::sending(Outs::new(self.terms.alloc))),
            Some(kept) => kept.tick(self.terms, now)?,
        };
        self.kept = kept;
        self.spent = false;
        Ok(step)
    }

    /// The acknowledgement of a cancel came: where the session is cancelling it is over. It takes
    /// no memory.
    pub fn cancel_acknowledged(&mut self)
        requires whole { self.old.spent ≡ false }
        ensures { self.new ≡ changed self.old (on_receiver_cancel_ack self.old.kept).next }
    {
        if self.is_cancelling() {
            self.kept = None;
        }
    }

    /// When the session's timer is due. None runs where no report is pending, nor once it is over.
    pub fn deadline(&self) -> Option<u64>
        requires whole { self.now.spent ≡ false }
        ensures { result ≡ deadline_of self.now.kept }
    {
        match &self.kept {
            None => None,
            Some(kept) => kept.deadline(),
        }
    }

    /// Whether the session is over.
    pub fn is_over(&self) -> bool
        requires whole { self.now.spent ≡ false }
        ensures { result ≡ not (is_some self.now.kept) }
    {
        self.kept.is_none()
    }

    /// Whether the session is cancelling.
    pub fn is_cancelling(&self) -> bool
        requires whole { self.now.spent ≡ false }
        ensures { result ≡ is_kept_cancelling self.now.kept }
    {
        match &self.kept {
            None => false,
            Some(kept) => kept.phase.is_cancelling(),
        }
    }

    /// Whether the red part was handed up, and the session isn't over. It takes no memory.
    pub fn is_handed_up(&self) -> bool
        requires whole { self.now.spent ≡ false }
        ensures { result ≡ is_kept_handed_up self.now.kept }
    {
        match &self.kept {
            None => false,
            Some(kept) => kept.handed_up,
        }
    }

    /// Which octets of the red part came, below the greatest length of a block. Once the session
    /// is over there are none.
    pub fn filled(&self) -> &Spans
        requires whole { self.now.spent ≡ false }
        ensures { Covers BLOCK_MAX result.now (cells_of self.now.kept) }
    {
        match &self.kept {
            None => &self.nothing,
            Some(kept) => kept.cells.places(),
        }
    }
}
