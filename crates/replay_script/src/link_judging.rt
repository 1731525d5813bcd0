//! What a line of a script for two engines on a link says, judged without memory.

ghost use Rattle.std.specs.Prelude.{◌≡◌, IfOk, IsOk};
ghost use Rattle.std.specs.Option.{option_map};
ghost use Rattle.replay_script.specs.Events.{number_word};
ghost use Rattle.replay_script.specs.LinkEvents.{end_of, link_drain_line, link_event_of, link_line};
ghost use Rattle.replay_script.specs.LinkEvents.{link_send_line, link_send_words, picks_line};
ghost use Rattle.replay_script.specs.LinkEvents.{two_words, window_line};
ghost use Rattle.replay_script.specs.LinkTies.{link_event_in, link_seen, pair_value, words_value};
ghost use Rattle.replay_script.specs.Words.{words_of};

use crate::fault::LineFault;
use crate::hexadecimal::is_hex;
use crate::link::{LinkNumbers, LinkTexts};
use crate::numeral::number;
use crate::picks::{are_picks, has_more_words};
use crate::words::Words;

/// What a line says, with what it lends.
#[derive(Clone, Copy, Debug)]
pub(crate) enum LinkSaid<'a> {
    Link { numbers: LinkNumbers },
    Window { from: u64, to: u64 },
    Send { first: bool, hex: &'a [u8] },
    Deliver { k: u64 },
    Clock { now: u64 },
    Drain,
    DrainBy { picks: &'a [u8] },
}

/// The most picks of a line.
const MOST_PICKS: u64 = 100_000;

/// What a line says.
#[tactic(auto, unfolding(crate::specs::LinkEvents::link_event_of))]
pub(crate) fn judge_link(line: &[u8]) -> Result<LinkSaid<'_>, LineFault>
    ensures exact { link_seen result ≡ link_event_of line.now }
    ensures said { IfOk result (λ said. IsOk (link_event_in said)) }
{
    let mut words = Words::of(line);
    let Some(first) = words.next() else {
        return Err(LineFault::Word);
    };
    if first == b"link".as_slice() {
        link(words)
    } else if first == b"window".as_slice() {
        window(words)
    } else if first == b"send".as_slice() {
        send(words)
    } else if first == b"deliver".as_slice() {
        Ok(LinkSaid::Deliver {
            k: one_number(words)?,
        })
    } else if first == b"clock".as_slice() {
        Ok(LinkSaid::Clock {
            now: one_number(words)?,
        })
    } else if first == b"drain".as_slice() {
        drain(words)
    } else {
        Err(LineFault::Word)
    }
}

/// A line `link`, by its words after the first.
fn link(words: Words<'_>) -> Result<LinkSaid<'_>, LineFault>
    ensures exact { link_seen result ≡ link_line words.entry }
    ensures said { IfOk result (λ said. IsOk (link_event_in said)) }
{
    let texts = LinkTexts::of(words).ok_or(LineFault::Word)?;
    let numbers = texts.numbers().ok_or(LineFault::Number)?;
    Ok(LinkSaid::Link { numbers })
}

/// The two words after the first.
fn two_words(words: Words<'_>) -> Option<(&[u8], &[u8])>
    ensures { option_map pair_value result ≡ two_words words.entry }
{
    let mut words = words;
    let one = words.next()?;
    let other = words.next()?;
    if words.next().is_some() {
        return None;
    }
    Some((one, other))
}

/// A line `window`, by its words after the first.
fn window(words: Words<'_>) -> Result<LinkSaid<'_>, LineFault>
    ensures exact { link_seen result ≡ window_line words.entry }
    ensures said { IfOk result (λ said. IsOk (link_event_in said)) }
{
    let (from, to) = two_words(words).ok_or(LineFault::Word)?;
    let from = number(from).ok_or(LineFault::Number)?;
    let to = number(to).ok_or(LineFault::Number)?;
    Ok(LinkSaid::Window { from, to })
}

/// Whether a word names the first end, or the second.
fn end(word: &[u8]) -> Option<bool>
    ensures { result ≡ end_of word.now }
{
    if word == b"first".as_slice() {
        Some(true)
    } else if word == b"second".as_slice() {
        Some(false)
    } else {
        None
    }
}

/// The end and the hex of a line `send`, by its words after the first.
fn send_words(words: Words<'_>) -> Option<(bool, &[u8])>
    ensures { words_value result ≡ link_send_words words.entry }
{
    let mut words = words;
    let first = end(words.next()?)?;
    let Some(hex) = words.next() else {
        return Some((first, b"".as_slice()));
    };
    if words.next().is_some() {
        return None;
    }
    Some((first, hex))
}

/// A line `send`, by its words after the first.
fn send(words: Words<'_>) -> Result<LinkSaid<'_>, LineFault>
    ensures exact { link_seen result ≡ link_send_line words.entry }
    ensures said { IfOk result (λ said. IsOk (link_event_in said)) }
{
    let (first, hex) = send_words(words).ok_or(LineFault::Word)?;
    if !is_hex(hex) {
        return Err(LineFault::Hex);
    }
    Ok(LinkSaid::Send { first, hex })
}

/// The one number after the first word.
fn one_number(words: Words<'_>) -> Result<u64, LineFault>
    ensures { result ≡ number_word words.entry }
{
    let word = words.last().ok_or(LineFault::Word)?;
    number(word).ok_or(LineFault::Number)
}

/// A line `drain`, by its words after the first.
fn drain(words: Words<'_>) -> Result<LinkSaid<'_>, LineFault>
    ensures exact { link_seen result ≡ link_drain_line words.entry }
    ensures said { IfOk result (λ said. IsOk (link_event_in said)) }
{
    match words.rest() {
        Some(picks) => drain_by(picks),
        None => Ok(LinkSaid::Drain),
    }
}

/// A line `drain` with picks, by the text of these.
fn drain_by(picks: &[u8]) -> Result<LinkSaid<'_>, LineFault>
    ensures exact { link_seen result ≡ picks_line (words_of picks.now) }
    ensures said { IfOk result (λ said. IsOk (link_event_in said)) }
{
    if has_more_words(picks, MOST_PICKS) {
        return Err(LineFault::Word);
    }
    if !are_picks(picks) {
        return Err(LineFault::Number);
    }
    Ok(LinkSaid::DrainBy { picks })
}
