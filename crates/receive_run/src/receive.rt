//! `receive`: each line is a datagram of recorded traffic.
ghost use Rattle.std.specs.Prelude.{◌≡◌, ◌++◌, List, [], Ok, IfOk, IfSome, OnOk, OnErr};
ghost use Rattle.std.specs.String.{string_bytes};
ghost use Rattle.ltp_segment.specs.Reading.{segment_of};
ghost use Rattle.command_frame.specs.Stops.{IsStop};
ghost use Rattle.command_frame.specs.Lines.{TurnsAs};
ghost use Rattle.receive_run.specs.LineContent.{segment_content, content_of as content_of_line, red};
ghost use Rattle.receive_run.specs.KeptSessions.{Kept};
ghost use Rattle.receive_run.specs.WrittenLines.{reply_line};
ghost use Rattle.receive_run.specs.Receive.{the_limits, receive_rules, content_turn};
ghost use Rattle.receive_run.specs.Views.{named_piece, reply as replied};
ghost use Rattle.receive_run.specs.Turns.{ShowsFew, WantsMemory};

use crate::line_content::{LineContent, content_of};
use crate::piece::Piece;
use crate::sessions::{is_one_too_many, meet, no_sessions};
use crate::table::{Reply, Sessions, Whole};
use crate::written_lines::{write_fault, write_no_hex, write_note, write_skip, write_up};
use command_frame::{LineStep, MOST_LINES, MOST_OCTETS};
use edge_traits::Status;
use hex_text::{is_hex, octets_of};
use std::alloc::{AllocError, Global};

/// The most sessions that may be unfinished at a time.
const MOST_SESSIONS: usize = 64;

/// What `receive` keeps from line to line.
#[derive(Drop)]
pub struct Receive {
    alloc: Global,
    sessions: Sessions,
}

impl Receive {
    /// No line came yet.
    pub fn new(alloc: Global) -> Receive
        ensures { ⟦<Receive as LineStep>⟧.Shows result [] }
    {
        Receive {
            alloc,
            sessions: no_sessions(alloc),
        }
    }

    /// Answers line `number`, which is within the limits. One that ends the run leaves what is kept
    /// as it was.
    pub fn answer(
        &mut self,
        number: u64,
        line: &[u8],
        text: &mut String,
    ) -> Result<Option<Status>, AllocError>
        ensures status { IfOk result (λ ends. IfSome ends IsStop) }
        ensures turn { (kept : List Kept) → ShowsFew self.old.sessions kept
            → IfOk result (TurnsAs (ShowsFew self.new.sessions) (content_turn the_limits number kept (content_of_line line.now))
            (string_bytes text.old) (string_bytes text.new)) }
        ensures left { IfOk result (λ ends. IfSome ends (λ status. self.new ≡ self.old)) }
    {
        answer_content(self.alloc, number, line, &mut self.sessions, text)
    }
}

impl LineStep for Receive {
    ghost State = { List Kept };

    ghost Shows = { λ r. ShowsFew r.sessions };

    ghost rules = { receive_rules the_limits };

    ghost Began = { λ r. ⊥ };

    fn most_lines(&self) -> u32 {
        MOST_LINES
    }

    fn most_octets(&self) -> u32 {
        MOST_OCTETS
    }

    fn line(
        &mut self,
        number: u64,
        line: &[u8],
        text: &mut String,
    ) -> Result<Option<Status>, AllocError> {
        self.answer(number, line, text)
    }

    fn finish(&mut self, _text: &mut String) -> Result<Status, AllocError> {
        Ok(Status::Done)
    }
}

/// Answers line `number`, which is within the limits.
#[tactic(auto, unfolding(crate::specs::LineContent::content_of))]
fn answer_content(
    alloc: Global,
    number: u64,
    line: &[u8],
    sessions: &mut Sessions,
    text: &mut String,
) -> Result<Option<Status>, AllocError>
    ensures status { IfOk result (λ ends. IfSome ends IsStop) }
    ensures turn { (kept : List Kept) → ShowsFew sessions.old kept
        → IfOk result (TurnsAs (ShowsFew sessions.new) (content_turn the_limits number kept (content_of_line line.now))
        (string_bytes text.old) (string_bytes text.new)) }
    ensures left { IfOk result (λ ends. IfSome ends (λ status. sessions.new ≡ sessions.old)) }
{
    if !is_hex(line) {
        write_no_hex(text, number)?;
        return Ok(Some(Status::Refused));
    }
    let datagram = octets_of(alloc, line)?;
    answer_datagram(alloc, number, &datagram, sessions, text)
}

/// Answers the datagram of line `number`. One that leaves too many sessions unfinished is answered
/// without memory.
fn answer_datagram(
    alloc: Global,
    number: u64,
    datagram: &[u8],
    sessions: &mut Sessions,
    text: &mut String,
) -> Result<Option<Status>, AllocError>
    ensures status { IfOk result (λ ends. IfSome ends IsStop) }
    ensures turn { (kept : List Kept) → ShowsFew sessions.old kept
        → IfOk result (TurnsAs (ShowsFew sessions.new) (content_turn the_limits number kept (segment_content (segment_of datagram.now)))
        (string_bytes text.old) (string_bytes text.new)) }
    ensures memory { (kept : List Kept) → ShowsFew sessions.old kept
        → OnErr result (WantsMemory (content_turn the_limits number kept (segment_content (segment_of datagram.now)))) }
    ensures left { IfOk result (λ ends. IfSome ends (λ status. sessions.new ≡ sessions.old)) }
{
    match content_of(datagram) {
        LineContent::NoSegment(fault) => {
            write_fault(text, number, fault)?;
            Ok(Some(Status::Refused))
        }
        LineContent::Other => {
            write_skip(text, number)?;
            Ok(None)
        }
        LineContent::Red(piece) => answer_piece(alloc, number, &piece, sessions, text),
    }
}

/// Answers the red piece of line `number`.
fn answer_piece(
    alloc: Global,
    number: u64,
    piece: &Piece<'_>,
    sessions: &mut Sessions,
    text: &mut String,
) -> Result<Option<Status>, AllocError>
    ensures status { IfOk result (λ ends. IfSome ends IsStop) }
    ensures turn { (kept : List Kept) → ShowsFew sessions.old kept
        → IfOk result (TurnsAs (ShowsFew sessions.new) (content_turn the_limits number kept (red (named_piece piece.now)))
        (string_bytes text.old) (string_bytes text.new)) }
    ensures memory { (kept : List Kept) → ShowsFew sessions.old kept
        → OnErr result (WantsMemory (content_turn the_limits number kept (red (named_piece piece.now)))) }
    ensures left { IfOk result (λ ends. IfSome ends (λ status. sessions.new ≡ sessions.old)) }
{
    if is_one_too_many(sessions, piece, MOST_SESSIONS) {
        return Ok(Some(Status::Limit));
    }
    let reply = meet(alloc, sessions, piece)?;
    write_reply(text, number, piece, &reply)?;
    Ok(None)
}

/// Writes the line for what the piece of line `number` brought about, where one is due.
fn write_reply(
    text: &mut String,
    number: u64,
    piece: &Piece<'_>,
    reply: &Reply<'_>,
) -> Result<(), AllocError>
    ensures { OnOk result (string_bytes text.new ≡ string_bytes text.old
        ++ reply_line number (replied piece.now.name reply.now)) }
{
    match reply {
        Reply::Nothing => Ok(()),
        Reply::Up(Whole::Lent(body)) => write_up(text, piece.name, body),
        Reply::Up(Whole::Built(body)) => write_up(text, piece.name, body),
        Reply::Note => write_note(text, number),
        Reply::Skip => write_skip(text, number),
    }
}
