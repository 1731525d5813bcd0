//! What is kept of a session that isn't over.

ghost use Rattle.std.specs.Prelude.{◌≡◌, ◌≤◌, ◌∷◌, [], length, take, IfOk, OnErr, ◌<◌, Some};
ghost use Rattle.std.specs.Option.{option_map};
ghost use Rattle.ltp_segment.specs.Legal.{IsReport};
ghost use Rattle.ltp_segment.specs.Views.{report_value};
ghost use Rattle.ltp_session.specs.Sender.{sending_timer, with_report};
ghost use Rattle.ltp_session.specs.Views.{datagrams_of};
ghost use Rattle.ltp_sender.specs.declared.segments.Checkpoint.{Checkpoint as Checkpoints};
ghost use Rattle.ltp_sender.specs.Sender.{is_cancelling};
ghost use Rattle.ltp_sender.specs.Segments.{IsCheckpoint};
ghost use Rattle.ltp_sender.specs.Phases.{IsPhase};

use crate::claims::add_claims;
use crate::pieces::write_checkpoint;
use crate::segments::Checkpoint;
use endpoint::Octets;
use ltp_segment::{Outs, Policy, ReportView, write_cancel};
use ltp_session::{SessionName, Timer};
use spans::Spans;
use std::alloc::{AllocError, Global};

/// What never changes in a session.
#[derive(Clone, Copy, Debug)]
pub(crate) struct Terms {
    pub alloc: Global,
    pub name: SessionName,
    pub policy: Policy,
}

/// What a session waits for.
#[derive(Clone, Copy, Debug)]
pub(crate) enum Phase {
    /// A report on its current checkpoint.
    Open {
        checkpoint: Checkpoint,
        timer: Timer,
    },
    /// The acknowledgement of its cancel.
    Cancelling {
        reason: u8,
        timer: Timer,
    },
}

/// What is kept of a session that isn't over.
#[derive(Debug, Drop)]
pub(crate) struct Kept {
    pub block: Octets,
    /// The length of the block's red part.
    pub red: usize,
    /// Which octets of the red part were claimed.
    pub claimed: Spans,
    pub phase: Phase,
    ghost red_within: { red ≤ length block },
    ghost limit: { length claimed ≡ red },
    ghost sound: { IsPhase red phase },
}

impl Kept {
    ghost use Rattle.ltp_sender.specs.Kept.{phase_value, sending_of, opened_by, awaited};
    ghost use Rattle.ltp_sender.specs.Kept.{with_timer};

    /// What is kept of a session that begins: nothing where no checkpoint was sent. The block is
    /// copied.
    pub(crate) fn opened(
        alloc: Global,
        block: &[u8],
        red: usize,
        claimed: Spans,
        checkpoint: Option<Checkpoint>,
        timer: Timer,
    ) -> Result<Option<Kept>, AllocError>
        requires red { red ≤ length block.now }
        requires limit { length claimed ≡ red }
        requires checkpoint { (c : Checkpoints) → checkpoint ≡ Some c → IsCheckpoint red c }
        ensures kept { IfOk result (λ kept. option_map sending_of kept
            ≡ opened_by block.now red claimed timer checkpoint) }
        ensures wanted { OnErr result (0 < length block.now) }
    {
        let Some(checkpoint) = checkpoint else {
            return Ok(None);
        };
        Ok(Some(Kept {
            block: Octets::from_slice(alloc, block)?,
            red,
            claimed,
            phase: Phase::Open { checkpoint, timer },
        }))
    }

    /// The octets of the red part.
    pub(crate) fn red_part(&self) -> &[u8]
        ensures { result.now ≡ take self.now.red self.now.block }
    {
        &self.block.as_slice()[..self.red]
    }

    /// The session with another phase.
    pub(crate) fn with_phase(self, phase: Phase) -> Kept
        requires { IsPhase self.red phase }
        ensures { sending_of result ≡ record (sending_of self) {
          phase = phase_value (length self.block) (take self.red self.block) phase;
        } }
    {
        let Kept {
            block,
            red,
            claimed,
            ..
        } = self;
        Kept {
            block,
            red,
            claimed,
            phase,
        }
    }

    /// Adds the claims of a report.
    pub(crate) fn add(self, report: ReportView<'_>) -> Result<Kept, AllocError>
        requires legal { IsReport (report_value report) }
        requires within { report.upper ≤ self.red }
        ensures { IfOk result (λ kept. sending_of kept
            ≡ with_report (sending_of self) (report_value report.entry)) }
    {
        let Kept {
            block,
            red,
            mut claimed,
            phase,
        } = self;
        add_claims(&mut claimed, report.lower, report.upper, report.claims)?;
        Ok(Kept {
            block,
            red,
            claimed,
            phase,
        })
    }

    /// The timer of what the session waits for.
    pub(crate) fn timer(&self) -> Timer
        ensures { result ≡ sending_timer (sending_of self.now).phase }
    {
        match self.phase {
            Phase::Open { timer, .. } => timer,
            Phase::Cancelling { timer, .. } => timer,
        }
    }

    /// The datagram that waits for an answer.
    pub(crate) fn awaited(&self, terms: Terms) -> Result<Outs, AllocError>
        ensures { IfOk result (λ out. out
            ≡ datagrams_of terms.name (awaited (sending_of self.now).phase ∷ [])) }
    {
        let Terms { alloc, name, .. } = terms;
        let mut out = Outs::new(alloc);
        let datagram = match self.phase {
            Phase::Open { checkpoint, .. } => {
                write_checkpoint(alloc, name, self.block.len(), self.red_part(), checkpoint)?
            }
            Phase::Cancelling { reason, .. } => {
                write_cancel(alloc, name.originator, name.number, true, reason)?
            }
        };
        out.push(datagram)?;
        Ok(out)
    }

    /// The session with its timer set anew.
    pub(crate) fn with_timer(self, timer: Timer) -> Kept
        ensures { sending_of result ≡ with_timer (sending_of self) timer }
    {
        let phase = match self.phase {
            Phase::Open { checkpoint, .. } => Phase::Open { checkpoint, timer },
            Phase::Cancelling { reason, .. } => Phase::Cancelling { reason, timer },
        };
        self.with_phase(phase)
    }

    /// Whether the session is cancelling.
    pub(crate) fn is_cancelling(&self) -> bool
        ensures { result ≡ is_cancelling (sending_of self.now).phase }
    {
        match self.phase {
            Phase::Open { .. } => false,
            Phase::Cancelling { .. } => true,
        }
    }
}
