//! The steps of a session that isn't over.

ghost use Rattle.std.specs.Prelude.{◌≡◌, ◌<◌, ◌≤◌, ◌^◌, ◌++◌, ◌∷◌, [], List, length, take};
ghost use Rattle.std.specs.Prelude.{IfOk, OnErr, Some, None};
ghost use Rattle.ltp_segment.specs.Legal.{IsReport};
ghost use Rattle.ltp_segment.specs.PolicyViews.{policy_value};
ghost use Rattle.ltp_segment.specs.Views.{report_value};
ghost use Rattle.ltp_segment.specs.Values.{ContentValue, a_report_ack};
ghost use Rattle.ltp_session.specs.Step.{Sends};
ghost use Rattle.ltp_session.specs.Sender.{Sending, gives_up, next_round, goes_on};
ghost use Rattle.ltp_session.specs.Sender.{report_step, sender_tick};
ghost use Rattle.ltp_session.specs.Views.{datagrams_of};
ghost use Rattle.ltp_sender.specs.Segments.{checkpoint_value};

use crate::kept::{Kept, Phase, Terms};
use crate::pieces::send_red;
use crate::segments::{Checkpoint, unclaimed};
use ltp_segment::{Note, Outs, ReportView, Step, write_ack, write_cancel};
use ltp_session::{BY_SYSTEM, SENT_TOO_OFTEN, SERIALS, Timer};
use std::alloc::AllocError;

/// A session after a step, where it isn't over, and what it answers.
type Answer = Result<(Option<Kept>, Step), AllocError>;

/// The acknowledgement of a report.
pub(crate) fn acknowledgement(terms: Terms, serial: u64) -> Result<Outs, AllocError>
    ensures { IfOk result (λ out. out ≡ datagrams_of terms.name (a_report_ack serial ∷ [])) }
{
    let Terms { alloc, name, .. } = terms;
    let mut out = Outs::new(alloc);
    out.push(write_ack(alloc, name.originator, name.number, serial)?)?;
    Ok(out)
}

impl Kept {
    ghost use Rattle.ltp_sender.specs.Kept.{sending_of, Did, exhausted};

    /// Gives the session up: its cancel is sent after what goes before.
    fn give_up(self, terms: Terms, reason: u8, now: u64, before: Outs) -> Answer
        requires { now < 2 ^ 62 }
        ensures { (was : Sending) (earlier : List ContentValue)
            → before ≡ datagrams_of terms.name earlier → IfOk result (Did terms.name was
            (gives_up (policy_value terms.policy) (sending_of self) reason now earlier)) }
    {
        let Terms {
            alloc,
            name,
            policy,
        } = terms;
        let mut out = before;
        out.push(write_cancel(alloc, name.originator, name.number, true, reason)?)?;
        let timer = Timer::first(&policy, now);
        let phase = Phase::Cancelling { reason, timer };
        let note = Note::Failed {
            session: name.number,
            reason,
        };
        Ok((Some(self.with_phase(phase)), Step::noting(out, note)))
    }

    /// Sends each red segment that isn't wholly claimed once more.
    fn next_round(self, terms: Terms, serial: u64, report: u64, now: u64, before: Outs) -> Answer
        requires moment { now < 2 ^ 62 }
        requires last { serial < 2 ^ 32 }
        ensures { (was : Sending) (earlier : List ContentValue)
            → before ≡ datagrams_of terms.name earlier → IfOk result (Did terms.name was
            (next_round (policy_value terms.policy) (sending_of self) serial report now earlier)) }
    {
        if serial + 1 == SERIALS {
            return self.give_up(terms, BY_SYSTEM, now, before);
        }
        let Terms {
            alloc,
            name,
            policy,
        } = terms;
        let mut out = before;
        let part = self.red_part();
        let segments = unclaimed(alloc, &self.claimed, part, policy.segment as usize)?;
        let size = self.block.len();
        let last = send_red(
            alloc,
            &mut out,
            name,
            size,
            part,
            &segments,
            serial + 1,
            report,
        )?;
        let Some(checkpoint) = last else {
            return Ok((Some(self), Step::sending(out)));
        };
        let timer = Timer::first(&policy, now);
        let phase = Phase::Open { checkpoint, timer };
        Ok((Some(self.with_phase(phase)), Step::sending(out)))
    }

    /// Goes on once the claims of a report are added: the session is over where the red part is
    /// claimed whole, and a report on the current checkpoint begins another round.
    fn go_on(
        self,
        terms: Terms,
        checkpoint: Checkpoint,
        report: ReportView<'_>,
        now: u64,
        acks: Outs,
    ) -> Answer
        requires moment { now < 2 ^ 62 }
        requires last { checkpoint.serial < 2 ^ 32 }
        ensures { (was : Sending) (earlier : List ContentValue)
            → acks ≡ datagrams_of terms.name earlier → IfOk result (Did terms.name was
            (goes_on (policy_value terms.policy) (sending_of self)
            (checkpoint_value (length (self.block)) (take (self.red) (self.block)) checkpoint)
            (report_value report.entry) now earlier)) }
    {
        if self.claimed.is_whole(self.red as u64) {
            let note = Note::Sent {
                session: terms.name.number,
            };
            return Ok((None, Step::noting(acks, note)));
        }
        if report.checkpoint != checkpoint.serial {
            return Ok((Some(self), Step::sending(acks)));
        }
        self.next_round(terms, checkpoint.serial, report.serial, now, acks)
    }

    /// A report came.
    pub(crate) fn report(self, terms: Terms, report: ReportView<'_>, now: u64) -> Answer
        requires moment { now < 2 ^ 62 }
        requires legal { IsReport (report_value report) }
        ensures done { IfOk result (Did terms.name (sending_of self)
            (report_step (policy_value terms.policy) (sending_of self) (report_value report.entry)
            now)) }
        ensures wanted { OnErr result (Sends
            (report_step (policy_value terms.policy) (sending_of self) (report_value report.entry)
            now)) }
    {
        if report.upper > self.red as u64 {
            let note = Note::BadBounds {
                session: terms.name.number,
            };
            return Ok((Some(self), Step::noting(Outs::new(terms.alloc), note)));
        }
        let acks = acknowledgement(terms, report.serial)?;
        match self.phase {
            Phase::Open { checkpoint, .. } => {
                self.add(report)?
                    .go_on(terms, checkpoint, report, now, acks)
            }
            Phase::Cancelling { .. } => Ok((Some(self), Step::sending(acks))),
        }
    }

    /// What it waits for was sent too often.
    fn exhausted(self, terms: Terms, now: u64) -> Answer
        requires { now < 2 ^ 62 }
        ensures done { IfOk result (Did terms.name (sending_of self)
            (exhausted (policy_value terms.policy) (sending_of self) (sending_of self).phase now)) }
        ensures wanted { OnErr result (Sends
            (exhausted (policy_value terms.policy) (sending_of self) (sending_of self).phase now)) }
    {
        let out = Outs::new(terms.alloc);
        match self.phase {
            Phase::Open { .. } => self.give_up(terms, SENT_TOO_OFTEN, now, out),
            Phase::Cancelling { .. } => Ok((None, Step::sending(out))),
        }
    }

    /// Time has passed.
    pub(crate) fn tick(self, terms: Terms, now: u64) -> Answer
        requires { now < 2 ^ 62 }
        ensures done { IfOk result (Did terms.name (sending_of self)
            (sender_tick (policy_value terms.policy) (sending_of self) now)) }
        ensures wanted { OnErr result (Sends
            (sender_tick (policy_value terms.policy) (sending_of self) now)) }
    {
        let timer = self.timer();
        if !timer.is_due(now) {
            return Ok((Some(self), Step::sending(Outs::new(terms.alloc))));
        }
        if !timer.may_repeat(&terms.policy) {
            return self.exhausted(terms, now);
        }
        let out = self.awaited(terms)?;
        let next = timer.next(&terms.policy, now);
        Ok((Some(self.with_timer(next)), Step::sending(out)))
    }
}
