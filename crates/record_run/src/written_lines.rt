//! The lines that `record` writes.

ghost use Rattle.std.specs.Prelude.{◌≡◌, ◌++◌, OnOk};
ghost use Rattle.std.specs.List.{flat_map};
ghost use Rattle.std.specs.String.{string_bytes};
ghost use Rattle.node_run.specs.WrittenLines.{refusal_line};
ghost use Rattle.record_run.specs.Record.{side_word, entry_line};

use ltp_audit::Entry;
use replay_script::{Line, LineFault, push_line};
use std::alloc::{AllocError, Global};

/// Writes entries of a recording.
pub(crate) fn write_entries(text: &mut String, entries: &[Entry]) -> Result<(), AllocError>
    ensures { OnOk result (string_bytes text.new
        ≡ string_bytes text.old ++ flat_map entry_line entries.now) }
{
    'each: for entry in entries {
        write_entry(text, entry)?;
    }
    Ok(())
}

/// Writes an entry, as `audit` reads it.
fn write_entry(text: &mut String, entry: &Entry) -> Result<(), AllocError>
    ensures { OnOk result (string_bytes text.new ≡ string_bytes text.old ++ entry_line entry.now) }
{
    text.push_str(side_of(entry))?;
    text.push_str(" ")?;
    hex_text::write_hex(text, entry.datagram.as_slice())?;
    text.push_str("\n")
}

/// Which way an entry went.
fn side_of(entry: &Entry) -> &'static str
    ensures { result.now ≡ side_word entry.now.out }
{
    if entry.out { "out" } else { "in" }
}

/// Writes that line `number` is refused.
#[tactic(auto, unfolding(replay_script::specs::Lines::line_text))]
pub(crate) fn write_refusal(
    alloc: Global,
    text: &mut String,
    number: u64,
    fault: LineFault,
) -> Result<(), AllocError>
    ensures { OnOk result (string_bytes text.new ≡ string_bytes text.old ++ refusal_line number fault) }
{
    let line = Line::RefusedLine {
        line: number,
        at: None,
        cause: fault.word(),
    };
    push_line(alloc, &line, text)
}
