//! One session of a sender.

ghost use Rattle.std.specs.Prelude.{◌≡◌, ◌<◌, ◌≤◌, ◌^◌, Bool, false, true, not, is_some, length, [], IfOk, OnOk, OnErr};
ghost use Rattle.ltp_segment.specs.Legal.{IsReport};
ghost use Rattle.ltp_segment.specs.PolicyViews.{policy_value};
ghost use Rattle.ltp_segment.specs.Views.{report_value};
ghost use Rattle.ltp_session.specs.Sender.{begin, on_report, on_sender_tick, on_receiver_cancel, on_sender_cancel_ack};
ghost use Rattle.ltp_session.specs.Step.{Sends};
ghost use Rattle.ltp_session.specs.Views.{datagrams_of, answer_of, changed};
ghost use Rattle.ltp_sender.specs.Sender.{is_kept_cancelling, is_kept_open, begun_with, deadline_of, claimed_of};

use crate::kept::{Kept, Terms};
use crate::pieces::{send_green, send_red};
use crate::segments::unclaimed;
use crate::steps::acknowledgement;
use ltp_segment::{Note, Outs, Policy, ReportView, Step, write_cancel_ack};
use ltp_session::{SessionName, Timer, first_serial};
use spans::Spans;
use std::alloc::{AllocError, Global};
use std::marker::Model;

/// A session that sends one block (RFC 5326, section 8.1). It is open until its red part is
/// claimed, then over; where it is given up it is cancelling in between.
#[derive(Debug, Drop)]
pub struct Sender {
    terms: Terms,
    kept: Option<Kept>,
    nothing: Spans,
    spent: bool,
    ghost empty: { nothing ≡ [] },
}

impl Model for Sender {
    ghost use Rattle.std.specs.Option.{option_map};
    ghost use Rattle.ltp_segment.specs.PolicyViews.{policy_value};
    ghost use Rattle.ltp_session.specs.Sender.{Sending};
    ghost use Rattle.ltp_session.specs.Views.{SessionValue};
    ghost use Rattle.ltp_sender.specs.Kept.{sending_of};

    ghost Value = { SessionValue Sending };

    ghost view = { λ s. record {
      spent = s.spent;
      name = (s.terms).name;
      policy = policy_value (s.terms).policy;
      kept = option_map sending_of s.kept;
    } };
}

/// A session that has begun, and the segments of its block.
#[derive(Debug, Drop)]
pub struct Begun {
    /// The session.
    pub sender: Sender,

    /// All segments of the block, in order.
    pub out: Outs,
}

impl Sender {
    /// Begins a session of engine `own`, whose number is `session`: the first `red` octets of the
    /// block are its red part. The block is copied once. A block without a red part is sent, and
    /// its session is over at once.
    pub fn begin(
        alloc: Global,
        own: u64,
        session: u64,
        block: &[u8],
        red: u64,
        now: u64,
        policy: &Policy,
    ) -> Result<Begun, AllocError>
        requires red { red ≤ length block.now }
        requires moment { now < 2 ^ 62 }
        ensures sender { IfOk result (λ begun. begun.sender
            ≡ begun_with (record { originator = own; number = session }) (policy_value policy.now)
            (begin (policy_value policy.now) session block.now red now)) }
        ensures out { IfOk result (λ begun. begun.out
            ≡ datagrams_of (record { originator = own; number = session })
            (begin (policy_value policy.now) session block.now red now).out) }
        // Memory is wanted only where the block has an octet.
        ensures wanted { OnErr result (0 < length block.now) }
    {
        let name = SessionName {
            originator: own,
            number: session,
        };
        let terms = Terms {
            alloc,
            name,
            policy: *policy,
        };
        let claimed = Spans::new(alloc, red);
        let red = red as usize;
        let size = policy.segment as usize;
        let mut out = Outs::new(alloc);
        let part = &block[..red];
        let segments = unclaimed(alloc, &claimed, part, size)?;
        let serial = first_serial(session);
        let last = send_red(
            alloc,
            &mut out,
            name,
            block.len(),
            part,
            &segments,
            serial,
            0,
        )?;
        send_green(alloc, &mut out, name, block, red, size)?;
        let timer = Timer::first(policy, now);
        let kept = Kept::opened(alloc, block, red, claimed, last, timer)?;
        let sender = Sender {
            terms,
            kept,
            nothing: Spans::new(alloc, 0),
            spent: false,
        };
        Ok(Begun { sender, out })
    }

    /// A report came. It is acknowledged, and each segment that it leaves open is sent again
    /// (RFC 5326, section 6.13); where it is on more octets than the red part has it is only noted.
    /// Once all is claimed the session is over.
    pub fn report(&mut self, report: ReportView<'_>, now: u64) -> Result<Step, AllocError>
        requires whole { self.old.spent ≡ false }
        requires legal { IsReport (report_value report) }
        requires moment { now < 2 ^ 62 }
        ensures next { OnOk result (self.new ≡ changed self.old
            (on_report self.old.policy self.old.kept (report_value report.entry) now).next) }
        ensures answer { IfOk result (λ step. step ≡ answer_of self.old.name
            (on_report self.old.policy self.old.kept (report_value report.entry) now)) }
        ensures err { OnErr result (self.new.spent ≡ true) }

        // Memory is wanted only where something is to be sent.
        ensures wanted { OnErr result (Sends
            (on_report self.old.policy self.old.kept (report_value report.entry) now)) }
    {
        self.spent = true;
        let (kept, step) = match self.kept.take() {
            None => (
                None,
                Step::sending(acknowledgement(self.terms, report.serial)?),
            ),
            Some(kept) => kept.report(self.terms, report, now)?,
        };
        self.kept = kept;
        self.spent = false;
        Ok(step)
    }

    /// Time has passed. What waited long enough for its answer is sent again, and once it was sent
    /// as often as the policy allows, the session is given up.
    pub fn tick(&mut self, now: u64) -> Result<Step, AllocError>
        requires whole { self.old.spent ≡ false }
        requires moment { now < 2 ^ 62 }
        ensures next { OnOk result (self.new ≡ changed self.old
            (on_sender_tick self.old.policy self.old.kept now).next) }
        ensures answer { IfOk result (λ step. step ≡ answer_of self.old.name
            (on_sender_tick self.old.policy self.old.kept now)) }
        ensures err { OnErr result (self.new.spent ≡ true) }

        // Memory is wanted only where something is to be sent.
        ensures wanted { OnErr result (Sends
            (on_sender_tick self.old.policy self.old.kept now)) }
    {
        self.spent = true;
        let (kept, step) = match self.kept.take() {
            None => (None, Step::sending(Outs::new(self.terms.alloc))),
            Some(kept) => kept.tick(self.terms, now)?,
        };
        self.kept = kept;
        self.spent = false;
        Ok(step)
    }

    /// The receiver's cancel came: it is acknowledged, and the session is over.
    pub fn cancelled(&mut self, reason: u8) -> Result<Step, AllocError>
        requires whole { self.old.spent ≡ false }
        ensures next { OnOk result (self.new ≡ changed self.old
            (on_receiver_cancel self.old.kept reason).next) }
        ensures answer { IfOk result (λ step. step ≡ answer_of self.old.name
            (on_receiver_cancel self.old.kept reason)) }
        ensures err { OnErr result (self.new.spent ≡ true) }
    {
        self.spent = true;
        let Terms { alloc, name, .. } = self.terms;
        let mut out = Outs::new(alloc);
        out.push(write_cancel_ack(alloc, name.originator, name.number, false)?)?;
        let step = match self.kept.take() {
            None => Step::sending(out),
            Some(_) => Step::noting(
                out,
                Note::Cancelled {
                    session: name.number,
                    reason,
                },
            ),
        };
        self.spent = false;
        Ok(step)
    }

    /// The acknowledgement of a cancel came: where the session is cancelling it is over.
    pub fn cancel_acknowledged(&mut self)
        requires whole { self.old.spent ≡ false }
        ensures { self.new ≡ changed self.old (on_sender_cancel_ack self.old.kept).next }
    {
        if self.is_cancelling() {
            self.kept = None;
        }
    }

    /// When the session's timer is due. It has none once it is over.
    pub fn deadline(&self) -> Option<u64>
        requires whole { self.now.spent ≡ false }
        ensures { result ≡ deadline_of self.now.kept }
    {
        match &self.kept {
            None => None,
            Some(kept) => Some(kept.timer().deadline),
        }
    }

    /// Whether the session is over.
    pub fn is_over(&self) -> bool
        requires whole { self.now.spent ≡ false }
        ensures { result ≡ not (is_some self.now.kept) }
    {
        self.kept.is_none()
    }

    /// Whether the session is open: neither over nor cancelling. It takes no memory.
    pub fn is_open(&self) -> bool
        requires whole { self.now.spent ≡ false }
        ensures { result ≡ is_kept_open self.now.kept }
    {
        match &self.kept {
            None => false,
            Some(kept) => !kept.is_cancelling(),
        }
    }

    /// Which octets of the red part were claimed, below its length. Once the session is over there
    /// are none.
    pub fn claimed(&self) -> &Spans
        requires whole { self.now.spent ≡ false }
        ensures { result.now ≡ claimed_of self.now.kept }
    {
        match &self.kept {
            None => &self.nothing,
            Some(kept) => &kept.claimed,
        }
    }

    /// Whether the session is cancelling.
    fn is_cancelling(&self) -> bool
        ensures { result ≡ is_kept_cancelling self.now.kept }
    {
        match &self.kept {
            None => false,
            Some(kept) => kept.is_cancelling(),
        }
    }
}
