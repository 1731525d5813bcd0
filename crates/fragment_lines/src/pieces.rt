//! What is left of a text that is told in parts.

ghost use Rattle.std.specs.Prelude.{◌≡◌, ◌<◌, ◌++◌, [], true, false, length, None, Some, IfOk, OnOk};
ghost use Rattle.std.specs.String.{string_bytes};
ghost use Rattle.fragment_lines.specs.Tells.{line_left, lines_left, IsInside, HaveRoom, TakesLine, BeginsLine, TellsText};

use crate::lines::write_hex_line;
use crate::views::{spelled_new, spelled_old};
use endpoint::Octets;
use fragments::Cutter;
use hex_text::write_hex;
use std::alloc::{AllocError, Global};

/// How many octets of a line are told at a time.
const PIECE: usize = 4096;

/// A line of octets in hex, of which those before a place were told.
#[derive(Drop)]
pub(crate) struct Line {
    octets: Octets,
    at: usize,
}

impl Line {
    /// The line of these octets, of which none was told.
    pub(crate) fn of(octets: Octets) -> Line
        ensures { result ≡ record { octets = octets; at = 0 } }
    {
        Line { octets, at: 0 }
    }
}

/// Pieces of a record that are still to be made, each a bundle of a version.
#[derive(Drop)]
pub(crate) enum Pieces {
    /// Of version 6.
    Six(Cutter),
    /// Of version 7.
    Seven(Cutter),
}

/// Whether nothing is left of a line, and no piece.
pub(crate) fn is_over(line: &Option<Line>, pieces: &Option<Pieces>) -> bool
    ensures over { result ≡ true → line_left line.now ++ lines_left pieces.now ≡ [] }
    ensures some { result ≡ false → 0 < length (line_left line.now ++ lines_left pieces.now) }
{
    match line {
        Some(_) => false,
        None => are_none(pieces),
    }
}

/// Whether no piece is left.
fn are_none(pieces: &Option<Pieces>) -> bool
    ensures over { result ≡ true → lines_left pieces.now ≡ [] }
    ensures some { result ≡ false → 0 < length (lines_left pieces.now) }
{
    match pieces {
        Some(pieces) => pieces.len() == 0,
        None => true,
    }
}

impl Pieces {
    /// How many are left.
    fn len(&self) -> usize
        ensures over { result ≡ 0 → lines_left (Some self.now) ≡ [] }
        ensures some { (result ≡ 0 → ⊥) → 0 < length (lines_left (Some self.now)) }
    {
        match self {
            Pieces::Six(cutter) => cutter.len(),
            Pieces::Seven(cutter) => cutter.len(),
        }
    }
}

/// Begins the line of the next piece, where none was begun.
pub(crate) fn begin_line(
    alloc: Global,
    line: &mut Option<Line>,
    pieces: &mut Option<Pieces>,
) -> Result<(), AllocError>
    requires inside { IsInside line.old }
    requires room { HaveRoom pieces.old }
    requires some { 0 < length (line_left line.old ++ lines_left pieces.old) }
    ensures inside { IsInside line.new }
    ensures room { HaveRoom pieces.new }
    ensures begun { OnOk result (BeginsLine (line_left line.old ++ lines_left pieces.old) line.new pieces.new) }
{
    if line.is_some() {
        return Ok(());
    }
    if let Some(octets) = next_octets(alloc, pieces)? {
        *line = Some(Line::of(octets));
        let_go(pieces);
    }
    Ok(())
}

/// The octets of the next piece, where one is left.
fn next_octets(alloc: Global, pieces: &mut Option<Pieces>) -> Result<Option<Octets>, AllocError>
    requires { HaveRoom pieces.old }
    ensures room { HaveRoom pieces.new }
    ensures next { IfOk result (TakesLine (lines_left pieces.old) (lines_left pieces.new)) }
{
    match pieces {
        Some(Pieces::Six(cutter)) => match cutter.next_piece(alloc)? {
            Some(piece) => spelled_old(alloc, piece),
            None => Ok(None),
        },
        Some(Pieces::Seven(cutter)) => match cutter.next_piece(alloc)? {
            Some(piece) => spelled_new(alloc, piece),
            None => Ok(None),
        },
        None => Ok(None),
    }
}

/// Lets go of the record once no piece is left.
fn let_go(pieces: &mut Option<Pieces>)
    requires { HaveRoom pieces.old }
    ensures room { HaveRoom pieces.new }
    ensures same { lines_left pieces.new ≡ lines_left pieces.old }
{
    if are_none(pieces) {
        *pieces = None;
    }
}

/// Tells octets of a line that was begun.
pub(crate) fn tell_line(line: &mut Option<Line>, text: &mut String) -> Result<(), AllocError>
    requires inside { IsInside line.old }
    requires some { line.old ≡ None → ⊥ }
    ensures inside { IsInside line.new }
    ensures told { OnOk result (TellsText (line_left line.old) (line_left line.new) (string_bytes text.old) (string_bytes text.new)) }
{
    let Some(begun) = line else {
        return Ok(());
    };
    let left = &begun.octets.as_slice()[begun.at..];
    if left.len() > PIECE {
        let (piece, _) = left.split_at(PIECE);
        write_hex(text, piece)?;
        begun.at += PIECE;
        return Ok(());
    }
    write_hex_line(text, left)?;
    *line = None;
    Ok(())
}
