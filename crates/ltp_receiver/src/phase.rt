//! What a session waits for.

ghost use Rattle.std.specs.Prelude.{◌≡◌, IfOk};
ghost use Rattle.ltp_session.specs.Receiver.{is_cancelling, receiving_timer};
ghost use Rattle.ltp_session.specs.Views.{datagrams_of};

use crate::report::Report;
use ltp_segment::{Outs, write_cancel};
use ltp_session::{SessionName, Timer};
use std::alloc::{AllocError, Global};

/// A report that isn't acknowledged yet.
#[derive(Debug, Drop)]
pub(crate) struct Pending {
    pub report: Report,
    pub timer: Timer,
}

/// What a session waits for.
#[derive(Debug, Drop)]
pub(crate) enum Phase {
    /// Pieces, and the acknowledgement of its last report.
    Open(Option<Pending>),
    /// The acknowledgement of its cancel.
    Cancelling { reason: u8, timer: Timer },
}

impl Phase {
    ghost use Rattle.ltp_receiver.specs.Phases.{phase_value, awaits, awaited, renewed};

    /// Whether the pending report has this serial number.
    pub fn awaits(&self, serial: u64) -> bool
        ensures { result ≡ awaits (phase_value self.now) serial }
    {
        match self {
            Phase::Open(Some(pending)) => pending.report.serial() == serial,
            _ => false,
        }
    }

    /// Whether the session is cancelling.
    pub fn is_cancelling(&self) -> bool
        ensures { result ≡ is_cancelling (phase_value self.now) }
    {
        match self {
            Phase::Open(_) => false,
            Phase::Cancelling { .. } => true,
        }
    }

    /// The timer of what the session waits for, where there is such.
    pub fn timer(&self) -> Option<Timer>
        ensures { result ≡ receiving_timer (phase_value self.now) }
    {
        match self {
            Phase::Open(None) => None,
            Phase::Open(Some(pending)) => Some(pending.timer),
            Phase::Cancelling { timer, .. } => Some(*timer),
        }
    }

    /// The datagram that waits for an answer, where there is one.
    pub fn awaited(&self, alloc: Global, name: SessionName) -> Result<Outs, AllocError>
        ensures { IfOk result (λ out. out ≡ datagrams_of name (awaited (phase_value self.now))) }
    {
        let mut out = Outs::new(alloc);
        match self {
            Phase::Open(None) => {}
            Phase::Open(Some(pending)) => out.push(pending.report.datagram(alloc, name)?)?,
            Phase::Cancelling { reason, .. } => {
                out.push(write_cancel(alloc, name.originator, name.number, false, *reason)?)?
            }
        }
        Ok(out)
    }

    /// The phase with its timer set anew, where it has one.
    pub fn with_timer(self, timer: Timer) -> Phase
        ensures { phase_value result ≡ renewed (phase_value self) timer }
    {
        match self {
            Phase::Open(None) => Phase::Open(None),
            Phase::Open(Some(pending)) => Phase::Open(Some(Pending {
                report: pending.report,
                timer,
            })),
            Phase::Cancelling { reason, .. } => Phase::Cancelling { reason, timer },
        }
    }
}
