//! What a line says, judged without memory.

ghost use Rattle.std.specs.Prelude.{◌≡◌, true, is_some, IfOk, IsOk};
ghost use Rattle.std.specs.Option.{option_map};
ghost use Rattle.replay_script.specs.Events.{event_of, node_event_of, path_line, send_line};
ghost use Rattle.replay_script.specs.Events.{send_words, side_of, block_word, drain_line, hex_of};
ghost use Rattle.replay_script.specs.Events.{number_word, hex_word};
ghost use Rattle.replay_script.specs.Ties.{event_in, seen, node_event_in, node_seen, send_value};
ghost use Rattle.replay_script.specs.Ties.{hex_seen};

use crate::fault::LineFault;
use crate::hexadecimal::is_hex;
use crate::numeral::number;
use crate::path::{PathNumbers, PathTexts, is_gate};
use crate::words::Words;

/// What a line of a script says, with what it lends.
#[derive(Clone, Copy, Debug)]
pub(crate) enum Said<'a> {
    Path {
        gate: &'a [u8],
        numbers: PathNumbers,
    },
    Send {
        old: bool,
        hex: &'a [u8],
    },
    Deliver {
        k: u64,
    },
    Clock {
        now: u64,
    },
    Drain,
}

/// What a line of a script for one engine says, with what it lends.
#[derive(Clone, Copy, Debug)]
pub(crate) enum NodeSaid<'a> {
    In { hex: &'a [u8] },
    Send { hex: &'a [u8] },
    Clock { now: u64 },
}

/// What a line of a script says.
#[tactic(auto, unfolding(crate::specs::Events::event_of))]
pub(crate) fn judge(line: &[u8]) -> Result<Said<'_>, LineFault>
    ensures exact { seen result ≡ event_of line.now }
    ensures said { IfOk result (λ said. IsOk (event_in said)) }
{
    let mut words = Words::of(line);
    let Some(first) = words.next() else {
        return Err(LineFault::Word);
    };
    if first == b"path".as_slice() {
        path(words)
    } else if first == b"send".as_slice() {
        send(words)
    } else if first == b"deliver".as_slice() {
        Ok(Said::Deliver {
            k: number_word(words)?,
        })
    } else if first == b"clock".as_slice() {
        Ok(Said::Clock {
            now: number_word(words)?,
        })
    } else if first == b"drain".as_slice() {
        drain(words)
    } else {
        Err(LineFault::Word)
    }
}

/// A line `path`, by its words after the first.
fn path(words: Words<'_>) -> Result<Said<'_>, LineFault>
    ensures exact { seen result ≡ path_line words.entry }
    ensures said { IfOk result (λ said. IsOk (event_in said)) }
{
    let path = PathTexts::of(words).ok_or(LineFault::Word)?;
    if !is_gate(path.gate) {
        return Err(LineFault::Name);
    }
    let numbers = path.numbers().ok_or(LineFault::Number)?;
    Ok(Said::Path {
        gate: path.gate,
        numbers,
    })
}

/// The side of the gate that a word names.
fn side(word: &[u8]) -> Option<bool>
    ensures { result ≡ side_of word.now }
{
    if word == b"old".as_slice() {
        Some(true)
    } else if word == b"new".as_slice() {
        Some(false)
    } else {
        None
    }
}

/// The side and the hex of a line `send`, by its words after the first.
fn send_words(words: Words<'_>) -> Option<(bool, &[u8])>
    ensures { send_value result ≡ send_words words.entry }
{
    let mut words = words;
    let old = side(words.next()?)?;
    let Some(hex) = words.next() else {
        return Some((old, b"".as_slice()));
    };
    if words.next().is_some() {
        return None;
    }
    Some((old, hex))
}

/// A line `send`, by its words after the first.
fn send(words: Words<'_>) -> Result<Said<'_>, LineFault>
    ensures exact { seen result ≡ send_line words.entry }
    ensures said { IfOk result (λ said. IsOk (event_in said)) }
{
    let (old, hex) = send_words(words).ok_or(LineFault::Word)?;
    if !is_hex(hex) {
        return Err(LineFault::Hex);
    }
    Ok(Said::Send { old, hex })
}

/// The one number after the first word.
fn number_word(words: Words<'_>) -> Result<u64, LineFault>
    ensures { result ≡ number_word words.entry }
{
    let word = words.last().ok_or(LineFault::Word)?;
    number(word).ok_or(LineFault::Number)
}

/// A line `drain`, by its words after the first.
fn drain(words: Words<'_>) -> Result<Said<'_>, LineFault>
    ensures exact { seen result ≡ drain_line words.entry }
    ensures said { IfOk result (λ said. IsOk (event_in said)) }
{
    let mut words = words;
    if words.next().is_some() {
        return Err(LineFault::Word);
    }
    Ok(Said::Drain)
}

/// The hex after the first word, which may be left out.
fn block_word(words: Words<'_>) -> Option<&[u8]>
    ensures { option_map (λ hex. hex.now) result ≡ block_word words.entry }
{
    let mut words = words;
    let Some(hex) = words.next() else {
        return Some(b"".as_slice());
    };
    if words.next().is_some() {
        return None;
    }
    Some(hex)
}

/// A word that has to be there, and hex.
fn hex_in(word: Option<&[u8]>) -> Result<&[u8], LineFault>
    ensures exact { hex_seen result ≡ hex_word (option_map (λ w. w.now) word.entry) }
    ensures hex { IfOk result (λ hex. is_some (hex_of hex.now) ≡ true) }
{
    let hex = word.ok_or(LineFault::Word)?;
    if !is_hex(hex) {
        return Err(LineFault::Hex);
    }
    Ok(hex)
}

/// What a line of a script for one engine says.
#[tactic(auto, unfolding(crate::specs::Events::node_event_of))]
pub(crate) fn judge_node(line: &[u8]) -> Result<NodeSaid<'_>, LineFault>
    ensures exact { node_seen result ≡ node_event_of line.now }
    ensures said { IfOk result (λ said. IsOk (node_event_in said)) }
{
    let mut words = Words::of(line);
    let Some(first) = words.next() else {
        return Err(LineFault::Word);
    };
    if first == b"in".as_slice() {
        Ok(NodeSaid::In {
            hex: hex_in(words.last())?,
        })
    } else if first == b"send".as_slice() {
        Ok(NodeSaid::Send {
            hex: hex_in(block_word(words))?,
        })
    } else if first == b"clock".as_slice() {
        Ok(NodeSaid::Clock {
            now: number_word(words)?,
        })
    } else {
        Err(LineFault::Word)
    }
}
