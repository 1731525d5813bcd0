//! The lines that `audit` writes.

ghost use Rattle.std.specs.Prelude.{◌≡◌, ◌++◌, OnOk};
ghost use Rattle.std.specs.String.{string_bytes};
ghost use Rattle.audit_run.specs.Audited.{refusal_line, fault_line, ok_line};

use ltp_audit::AuditFault;
use replay_script::{Line, LineFault, push_line};
use std::alloc::{AllocError, Global};

/// Writes that line `number` is refused for what it says.
#[tactic(auto, unfolding(replay_script::specs::Lines::line_text))]
pub(crate) fn write_refusal(
    alloc: Global,
    text: &mut String,
    number: u64,
    fault: LineFault,
) -> Result<(), AllocError>
    ensures { OnOk result (string_bytes text.new ≡ string_bytes text.old ++ refusal_line number fault) }
{
    let line = Line::RefusedLine {
        line: number,
        at: None,
        cause: fault.word(),
    };
    push_line(alloc, &line, text)
}

/// Writes that the entry of line `number` isn't accepted.
#[tactic(auto, unfolding(replay_script::specs::Lines::line_text))]
pub(crate) fn write_fault(
    alloc: Global,
    text: &mut String,
    number: u64,
    fault: AuditFault,
) -> Result<(), AllocError>
    ensures { OnOk result (string_bytes text.new ≡ string_bytes text.old ++ fault_line number fault) }
{
    let (at, cause) = match fault {
        AuditFault::Form { at, cause } => (Some(at as u64), cause.word()),
        AuditFault::Broken { rule } => (None, rule.word()),
        AuditFault::Memory => (None, "Memory"),
    };
    let line = Line::RefusedLine {
        line: number,
        at,
        cause,
    };
    push_line(alloc, &line, text)
}

/// Writes how many lines were accepted.
pub(crate) fn write_ok(text: &mut String, count: u64) -> Result<(), AllocError>
    ensures { OnOk result (string_bytes text.new ≡ string_bytes text.old ++ ok_line count) }
{
    write!(text, "ok {count}\n")
}
