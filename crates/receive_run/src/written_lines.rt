//! The lines that `receive` writes.
ghost use Rattle.std.specs.Prelude.{◌≡◌, ◌++◌, OnOk};
ghost use Rattle.std.specs.String.{string_bytes};
ghost use Rattle.receive_run.specs.WrittenLines.{up_line, note_line, skip_line, hex_line, refusal_line, cause_line};

use ltp_segment::SegmentFault;
use ltp_session::SessionName;
use std::alloc::AllocError;

/// A red part is handed up.
pub fn write_up(text: &mut String, name: SessionName, body: &[u8]) -> Result<(), AllocError>
    ensures { OnOk result (string_bytes text.new ≡ string_bytes text.old ++ up_line name body.now) }
{
    let SessionName { originator, number } = name;
    write!(text, "up {originator} {number} ")?;
    hex_text::write_hex(text, body)?;
    text.push_str("\n")
}

/// The piece of line `number` can't be one of its red part.
pub fn write_note(text: &mut String, number: u64) -> Result<(), AllocError>
    ensures { OnOk result (string_bytes text.new ≡ string_bytes text.old ++ note_line number) }
{
    write!(text, "note {number} BadBounds\n")
}

/// Line `number` is skipped.
pub fn write_skip(text: &mut String, number: u64) -> Result<(), AllocError>
    ensures { OnOk result (string_bytes text.new ≡ string_bytes text.old ++ skip_line number) }
{
    write!(text, "skip {number}\n")
}

/// Line `number` is no hex.
pub fn write_no_hex(text: &mut String, number: u64) -> Result<(), AllocError>
    ensures { OnOk result (string_bytes text.new ≡ string_bytes text.old ++ hex_line number) }
{
    write!(text, "refused line {number} Hex\n")
}

/// The datagram of line `number` is no segment.
pub fn write_fault(text: &mut String, number: u64, fault: SegmentFault) -> Result<(), AllocError>
    ensures { OnOk result (string_bytes text.new ≡ string_bytes text.old ++ cause_line number fault.at fault.cause) }
{
    write_refusal(text, number, fault.at, fault.cause.word())
}

/// Line `number` is refused at a place, for the cause of this name.
fn write_refusal(text: &mut String, number: u64, at: usize, word: &str) -> Result<(), AllocError>
    ensures { OnOk result (string_bytes text.new ≡ string_bytes text.old ++ refusal_line number at word.now) }
{
    write!(text, "refused line {number} {at} {word}\n")
}
