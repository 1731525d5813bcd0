//! Lines that are told in parts.

ghost use Rattle.std.specs.Prelude.{◌≡◌, ◌<◌, [], true, false, length, OnOk};
ghost use Rattle.std.specs.List.{All};
ghost use Rattle.std.specs.String.{string_bytes};
ghost use Rattle.fragment_lines.specs.Cut.{lines_of};
ghost use Rattle.fragment_lines.specs.Lines.{hex_line, octets_old, octets_new};
ghost use Rattle.fragment_lines.specs.Tells.{TellsText};
ghost use Rattle.fragment_lines.specs.Writable.{HasRoom6, HasRoom7};

use crate::pieces::{Line, Pieces, begin_line, is_over, tell_line};
use endpoint::Octets;
use fragments::Cutter;
use std::alloc::AllocError;
use std::marker::Model;

/// After how many octets of text a part ends, or after how many steps.
const PART: usize = 32_768;

/// Text that is due, and is told in parts: a line of octets in hex, or a line for each piece of a record.
/// It keeps the octets of one line, and the record while a piece of it is still to be made.
#[derive(Drop)]
pub struct Telling {
    line: Option<Line>,
    pieces: Option<Pieces>,
}

impl Model for Telling {
    ghost use Rattle.std.specs.Prelude.{List, ℕ, ◌++◌};
    ghost use Rattle.fragment_lines.specs.Tells.{line_left, lines_left, IsInside, HaveRoom};

    ghost Value = { List ℕ };

    ghost view = { λ t. line_left t.line ++ lines_left t.pieces };

    ghost invariant = { λ t. IsInside t.line × HaveRoom t.pieces };
}

impl Telling {
    /// No text.
    pub fn nothing() -> Telling
        ensures { result ≡ [] }
    {
        Telling {
            line: None,
            pieces: None,
        }
    }

    /// The line of these octets in hex.
    pub fn line(octets: Octets) -> Telling
        ensures { result ≡ hex_line octets }
    {
        Telling {
            line: Some(Line::of(octets)),
            pieces: None,
        }
    }

    /// The lines of these pieces as version 6 bundles.
    pub(crate) fn pieces6(cutter: Cutter) -> Telling
        requires { All HasRoom6 cutter }
        ensures { result ≡ lines_of octets_old cutter }
    {
        Telling {
            line: None,
            pieces: Some(Pieces::Six(cutter)),
        }
    }

    /// The lines of these pieces as version 7 bundles.
    pub(crate) fn pieces7(cutter: Cutter) -> Telling
        requires { All HasRoom7 cutter }
        ensures { result ≡ lines_of octets_new cutter }
    {
        Telling {
            line: None,
            pieces: Some(Pieces::Seven(cutter)),
        }
    }

    /// Whether no text is left.
    pub fn is_over(&self) -> bool
        ensures over { result ≡ true → self.now ≡ [] }
        ensures some { result ≡ false → 0 < length self.now }
    {
        is_over(&self.line, &self.pieces)
    }

    /// Appends the next part of the text that is left, an octet at least. After want of memory text may
    /// be lost.
    pub fn tell(&mut self, text: &mut String) -> Result<(), AllocError>
        requires { 0 < length self.old }
        ensures { OnOk result (TellsText self.old self.new (string_bytes text.old) (string_bytes text.new)) }
    {
        self.step(text)?;
        'steps: for _ in 0..PART {
            if text.len() >= PART || self.is_over() {
                return Ok(());
            }
            self.step(text)?;
        }
        Ok(())
    }

    /// A few octets of text more.
    fn step(&mut self, text: &mut String) -> Result<(), AllocError>
        requires { 0 < length self.old }
        ensures { OnOk result (TellsText self.old self.new (string_bytes text.old) (string_bytes text.new)) }
    {
        begin_line(*text.allocator(), &mut self.line, &mut self.pieces)?;
        tell_line(&mut self.line, text)
    }
}
