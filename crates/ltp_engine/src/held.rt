//! A receiving session on the heap, so that a change of the order moves its address alone.

ghost use Rattle.std.specs.Prelude.{◌≡◌, ◌<◌, ◌≤◌, ◌^◌, false, not, is_some, length, IfOk, OnOk, OnErr};
ghost use Rattle.std.specs.List.{count_by};
ghost use Rattle.spans.specs.Places.{covered_count};
ghost use Rattle.ltp_segment.specs.declared.session.TheConstants.{BLOCK_MAX};
ghost use Rattle.ltp_segment.specs.Views.{piece_value};
ghost use Rattle.ltp_session.specs.Cells.{stop_of};
ghost use Rattle.ltp_session.specs.Receiver.{on_report_ack, on_receiver_cancel_ack};
ghost use Rattle.ltp_session.specs.Receiver.{on_receiver_tick};
ghost use Rattle.ltp_session.specs.Views.{changed, answer_of};
ghost use Rattle.ltp_receiver.specs.Quiet.{IsQuietStep};
ghost use Rattle.ltp_receiver.specs.Receiver.{on_open_piece, is_kept_cancelling, deadline_of, IsOpen};
ghost use Rattle.ltp_receiver.specs.Receiver.{is_kept_handed_up, cells_of};

use ltp_receiver::Receiver;
use ltp_segment::{PieceView, Step};
use spans::Spans;
use std::alloc::{AllocError, Global};
use std::marker::Model;

/// A receiving session, whose calls are those of [`Receiver`].
#[derive(Debug, Drop)]
pub(crate) struct Held {
    receiver: Box<Receiver>,
}

impl Model for Held {
    ghost use Rattle.ltp_session.specs.Receiver.{Receiving};
    ghost use Rattle.ltp_session.specs.Views.{SessionValue};

    ghost Value = { SessionValue Receiving };

    ghost view = { λ h. (h.receiver).value };
}

impl Held {
    /// The session, put on the heap.
    pub fn new(alloc: Global, receiver: Receiver) -> Result<Held, AllocError>
        ensures { IfOk result (λ held. held ≡ receiver) }
    {
        match Box::new(alloc, receiver) {
            Ok(receiver) => Ok(Held { receiver }),
            Err(_) => Err(AllocError),
        }
    }

    pub fn piece(&mut self, piece: &PieceView<'_>, now: u64) -> Result<Step, AllocError>
        requires whole { self.old.spent ≡ false }
        requires open { IsOpen self.old.kept }
        requires some { 0 < length piece.now.body.now }
        requires fits { stop_of piece.now.offset piece.now.body.now ≤ BLOCK_MAX }
        requires moment { now < 2 ^ 62 }
        ensures next { OnOk result (self.new ≡ changed self.old
            (on_open_piece self.old.policy self.old.kept (piece_value piece.now) now).next) }
        ensures answer { IfOk result (λ step. step ≡ answer_of self.old.name
            (on_open_piece self.old.policy self.old.kept (piece_value piece.now) now)) }
        ensures wanted { OnErr result (IsQuietStep self.old.kept
            (on_open_piece self.old.policy self.old.kept (piece_value piece.now) now) → ⊥) }
    {
        self.receiver.piece(piece, now)
    }

    pub fn acknowledged(&mut self, serial: u64)
        requires whole { self.old.spent ≡ false }
        ensures { self.new ≡ changed self.old (on_report_ack self.old.kept serial).next }
    {
        self.receiver.acknowledged(serial);
    }

    pub fn tick(&mut self, now: u64) -> Result<Step, AllocError>
        requires whole { self.old.spent ≡ false }
        requires moment { now < 2 ^ 62 }
        ensures next { OnOk result (self.new ≡ changed self.old
            (on_receiver_tick self.old.policy self.old.kept now).next) }
        ensures answer { IfOk result (λ step. step ≡ answer_of self.old.name
            (on_receiver_tick self.old.policy self.old.kept now)) }
    {
        self.receiver.tick(now)
    }

    pub fn cancel_acknowledged(&mut self)
        requires whole { self.old.spent ≡ false }
        ensures { self.new ≡ changed self.old (on_receiver_cancel_ack self.old.kept).next }
    {
        self.receiver.cancel_acknowledged();
    }

    pub fn deadline(&self) -> Option<u64>
        requires whole { self.now.spent ≡ false }
        ensures { result ≡ deadline_of self.now.kept }
    {
        self.receiver.deadline()
    }

    pub fn is_over(&self) -> bool
        requires whole { self.now.spent ≡ false }
        ensures { result ≡ not (is_some self.now.kept) }
    {
        self.receiver.is_over()
    }

    pub fn is_cancelling(&self) -> bool
        requires whole { self.now.spent ≡ false }
        ensures { result ≡ is_kept_cancelling self.now.kept }
    {
        self.receiver.is_cancelling()
    }

    pub fn is_handed_up(&self) -> bool
        requires whole { self.now.spent ≡ false }
        ensures { result ≡ is_kept_handed_up self.now.kept }
    {
        self.receiver.is_handed_up()
    }

    /// How many red octets came.
    pub fn octets(&self) -> u64
        requires whole { self.now.spent ≡ false }
        ensures { result ≡ count_by is_some (cells_of self.now.kept) }
    {
        covered(self.receiver.filled())
    }
}

/// How many places are covered.
fn covered(places: &Spans) -> u64
    requires { length places.now ≡ BLOCK_MAX }
    ensures { result ≡ covered_count places.now }
{
    let mut count = 0;
    'runs: for run in places.runs() {
        count += run.to.saturating_sub(run.from);
    }
    count
}
