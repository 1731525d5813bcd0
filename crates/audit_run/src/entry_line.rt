//! A line of a recording.

ghost use Rattle.std.specs.Prelude.{◌≡◌, Bool, List, ℕ, true, is_some, Some, IfOk, IsOk};
ghost use Rattle.std.specs.Option.{option_map};
ghost use Rattle.std.specs.List.{position};
ghost use Rattle.replay_script.specs.Words.{is_space, words_of};
ghost use Rattle.replay_script.specs.Events.{hex_of, Reads};
ghost use Rattle.audit_run.specs.EntryLine.{entry_of, two_words, side_of};
ghost use Rattle.audit_run.specs.Seen.{seen, pair_seen};

use endpoint::Octets;
use ltp_audit::Entry;
use replay_script::LineFault;
use std::alloc::{AllocError, Global};

/// What a line says, with what it lends.
#[derive(Clone, Copy, Debug)]
pub(crate) struct Said<'a> {
    pub out: bool,
    pub hex: &'a [u8],
}

/// The entry that a line says. The line is given without its LF.
pub(crate) fn read_entry(alloc: Global, line: &[u8]) -> Result<Entry, LineFault>
    // Memory is wanted only where the line says an entry.
    ensures exact { Reads (entry_of line.now) result }
{
    let said = judge(line)?;
    match octets_in(alloc, said.hex) {
        Ok(datagram) => Ok(Entry {
            out: said.out,
            datagram,
        }),
        Err(AllocError) => Err(LineFault::Memory),
    }
}

/// What a line says, judged without memory.
#[tactic(auto, unfolding(crate::specs::EntryLine::entry_of))]
fn judge(line: &[u8]) -> Result<Said<'_>, LineFault>
    ensures exact { seen result ≡ entry_of line.now }
    ensures hex { IfOk result (λ said. is_some (hex_of said.hex.now) ≡ true) }
{
    let Some((side, hex)) = two_words(line) else {
        return Err(LineFault::Word);
    };
    let Some(out) = side_of(side) else {
        return Err(LineFault::Word);
    };
    if !is_hex(hex) {
        return Err(LineFault::Hex);
    }
    Ok(Said { out, hex })
}

/// Whether a datagram left the engine, by the first word of its line.
fn side_of(word: &[u8]) -> Option<bool>
    ensures { result ≡ side_of word.now }
{
    if word == b"in".as_slice() {
        Some(false)
    } else if word == b"out".as_slice() {
        Some(true)
    } else {
        None
    }
}

/// The two words of a line, where there are just so many.
fn two_words(line: &[u8]) -> Option<(&[u8], &[u8])>
    ensures { pair_seen result ≡ two_words (words_of line.now) }
{
    let at = space_in(line)?;
    let rest = &line[at + 1..];
    if space_in(rest).is_some() {
        return None;
    }
    Some((&line[..at], rest))
}

/// The place of the first space.
fn space_in(text: &[u8]) -> Option<usize>
    ensures { result ≡ position is_space text.now }
{
    text.iter().position(|octet| *octet == b' ')
}

/// Whether a text is hex: an even number of digits.
fn is_hex(text: &[u8]) -> bool
    ensures { result ≡ is_some (hex_of text.now) }
{
    hex_text::is_hex(text)
}

/// The octets of a text that is hex.
fn octets_in(alloc: Global, text: &[u8]) -> Result<Octets, AllocError>
    requires { is_some (hex_of text.now) ≡ true }
    ensures { IfOk result (λ octets. hex_of text.now ≡ Some octets) }
{
    let octets = hex_text::octets_of(alloc, text)?;
    Ok(Octets::from_vec(octets))
}
