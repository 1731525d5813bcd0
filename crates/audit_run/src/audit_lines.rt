//! A recording, line by line.

ghost use Rattle.std.specs.Prelude.{◌≡◌, ◌≢◌, ◌++◌, Some, IfOk, IfSome, OnOk};
ghost use Rattle.std.specs.String.{string_bytes};
ghost use Rattle.command_frame.specs.Stops.{IsStop};
ghost use Rattle.command_frame.specs.Lines.{TurnsAs};
ghost use Rattle.ltp_audit.specs.Rules.{fault_of};
ghost use Rattle.audit_run.specs.Audited.{Audited, audit_rules, begins, judges, fault_line};
ghost use Rattle.audit_run.specs.Shows.{ShowsAudited};

use crate::entry_line::read_entry;
use crate::written_lines::{write_fault, write_ok, write_refusal};
use command_frame::{LineStep, MOST_LINES, MOST_OCTETS};
use edge_traits::Status;
use ltp_audit::{Audit, AuditFault, Entry};
use replay_script::LineFault;
use std::alloc::{AllocError, Global};

/// What `audit` keeps from line to line: the audit, and the number of the last line.
#[derive(Debug, Drop)]
pub struct AuditLines {
    alloc: Global,
    audit: Audit,
    last: u64,
}

impl AuditLines {
    /// The audit of what the engine with the number `own` exchanged with its peer. No line came
    /// yet.
    pub fn new(alloc: Global, own: u64, peer: u64) -> AuditLines
        requires { own ≢ peer }
        ensures { ⟦<AuditLines as LineStep>⟧.Shows result (begins own peer) }
    {
        AuditLines {
            alloc,
            audit: Audit::new(alloc, own, peer),
            last: 0,
        }
    }

    /// Judges an entry, which line `number` says.
    fn judge(
        &mut self,
        number: u64,
        entry: Entry,
        text: &mut String,
    ) -> Result<Option<Status>, AllocError>
        ensures stops { IfOk result (λ ends. IfSome ends IsStop) }
        ensures turn { (a : Audited) → ShowsAudited self.old a
            → IfOk result (TurnsAs (ShowsAudited self.new)
            (judges number a entry (fault_of a.own a.peer a.history entry))
            (string_bytes text.old) (string_bytes text.new)) }
    {
        match self.audit.add(entry.out, entry.datagram.as_slice()) {
            Ok(()) => {
                self.last = number;
                Ok(None)
            }
            Err(AuditFault::Memory) => Err(AllocError),
            Err(AuditFault::Form { at, cause }) => {
                self.refuse(number, AuditFault::Form { at, cause }, text)
            }
            Err(AuditFault::Broken { rule }) => {
                self.refuse(number, AuditFault::Broken { rule }, text)
            }
        }
    }

    /// Refuses the entry of line `number`.
    fn refuse(
        &self,
        number: u64,
        fault: AuditFault,
        text: &mut String,
    ) -> Result<Option<Status>, AllocError>
        ensures ends { IfOk result (λ ends. ends ≡ Some Status.Refused) }
        ensures text { OnOk result (string_bytes text.new
            ≡ string_bytes text.old ++ fault_line number fault) }
    {
        write_fault(self.alloc, text, number, fault)?;
        Ok(Some(Status::Refused))
    }
}

impl LineStep for AuditLines {
    ghost State = { Audited };

    ghost Shows = { ShowsAudited };

    ghost rules = { audit_rules };

    ghost Began = { λ lines. Unit {0} };

    fn most_lines(&self) -> u32 {
        MOST_LINES
    }

    fn most_octets(&self) -> u32 {
        MOST_OCTETS
    }

    fn line(
        &mut self,
        number: u64,
        line: &[u8],
        text: &mut String,
    ) -> Result<Option<Status>, AllocError> {
        match read_entry(self.alloc, line) {
            Ok(entry) => self.judge(number, entry, text),
            Err(LineFault::Memory) => Err(AllocError),
            Err(fault) => {
                write_refusal(self.alloc, text, number, fault)?;
                Ok(Some(Status::Refused))
            }
        }
    }

    fn finish(&mut self, text: &mut String) -> Result<Status, AllocError> {
        write_ok(text, self.last)?;
        Ok(Status::Done)
    }
}
