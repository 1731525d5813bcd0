//! Writing a line.

ghost use Rattle.std.specs.Prelude.{◌≡◌, ◌++◌, ◌∷◌, [], length, take, codes, OnOk, OnErr};
ghost use Rattle.std.specs.String.{string_bytes};
ghost use Rattle.hex.specs.Hex.{encode_lower};
ghost use Rattle.replay_script.specs.Words.{after_spaces, spaced};
ghost use Rattle.std.specs.Option.{option_map};
ghost use Rattle.replay_script.specs.Lines.{line_text, head_of, if_site, if_number, if_word, if_octets};
ghost use Rattle.std.specs.Fmt.{decimal};
ghost use Rattle.replay_script.specs.Lines.{numbers, side_word, call_word, bit_word, site_word};

use crate::line::{Line, Site};
use std::alloc::{AllocError, Global};

/// Appends a line to a transcript, LF included. A refusal leaves the transcript as it was.
pub fn write_line(alloc: Global, line: &Line, out: &mut Vec<u8>) -> Result<(), AllocError>
    ensures ok { OnOk result (out.new.items ≡ out.old.items ++ line_text line.now) }
    ensures err { OnErr result (out.new.items ≡ out.old.items) }
{
    let mut text = String::new(alloc);
    push_line(alloc, line, &mut text)?;
    out.extend_from_slice(text.as_bytes())
}

/// Appends a line to a text, LF included. After a refusal the text may have a part of it.
pub fn push_line(alloc: Global, line: &Line, text: &mut String) -> Result<(), AllocError>
    ensures { OnOk result (string_bytes text.new ≡ string_bytes text.old ++ line_text line.now) }
{
    write_head(text, line)?;
    write_octets(alloc, text, line.octets())?;
    write!(text, "\n")
}

/// Appends a space and octets in hex, where there are some.
fn write_octets(alloc: Global, text: &mut String, octets: Option<&[u8]>) -> Result<(), AllocError>
    ensures { OnOk result (string_bytes text.new ≡ string_bytes text.old
        ++ after_spaces (if_octets (option_map (λ o. o.now) octets.entry))) }
{
    match octets {
        Some(octets) => {
            let mut digits = String::new(alloc);
            hex_text::write_hex(&mut digits, octets)?;
            write!(text, " {digits}")
        }
        None => Ok(()),
    }
}

/// Appends the words of a line before its octets.
fn write_head(text: &mut String, line: &Line) -> Result<(), AllocError>
    ensures { OnOk result (string_bytes text.new
        ≡ string_bytes text.old ++ spaced (head_of line.now)) }
{
    match line {
        Line::Sent { k, route, .. } => {
            let route = route.word();
            write!(text, "sent {k} {route}")
        }
        Line::Up { site, session, .. } => write_up(text, *site, *session),
        Line::Join { site, word } => write_join(text, *site, word),
        Line::JoinWhole { site, .. } => write_join(text, *site, "Whole"),
        Line::Note {
            site,
            name,
            first,
            second,
            word,
        } => {
            write_named(text, "note", *site, name)?;
            write_details(text, *first, *second, *word)
        }
        Line::RefusedSend { site, cause } => write_named(text, "refused", *site, cause),
        Line::RefusedDeliver => text.push_str("refused deliver"),
        Line::RefusedClosed => text.push_str("refused closed"),
        Line::At { now } => write!(text, "at {now}"),
        Line::End { events } => write!(text, "end {events}"),
        Line::Stop { events } => write!(text, "stop {events}"),
        Line::Out { .. } => text.push_str("out"),
        Line::Green {
            session,
            offset,
            last,
            ..
        } => write_green(text, *session, *offset, *last),
        Line::LinkNote { old, send } => write_link_note(text, *old, *send),
        Line::RefusedLine { line, at, cause } => write_refusal(text, *line, *at, cause),
    }
}

/// Appends a space and the word of a site, where there is one.
fn write_site(text: &mut String, site: Option<Site>) -> Result<(), AllocError>
    ensures { OnOk result (string_bytes text.new
        ≡ string_bytes text.old ++ after_spaces (if_site site)) }
{
    match site {
        Some(site) => {
            let word = site.word();
            write!(text, " {word}")
        }
        None => Ok(()),
    }
}

/// Appends a space and a number, where there is one.
fn write_number(text: &mut String, number: Option<u64>) -> Result<(), AllocError>
    ensures { OnOk result (string_bytes text.new
        ≡ string_bytes text.old ++ after_spaces (if_number number)) }
{
    match number {
        Some(number) => write!(text, " {number}"),
        None => Ok(()),
    }
}

/// Appends a space and a word, where there is one.
fn write_word(text: &mut String, word: Option<&'static str>) -> Result<(), AllocError>
    ensures { OnOk result (string_bytes text.new
        ≡ string_bytes text.old ++ after_spaces (if_word word.entry)) }
{
    match word {
        Some(word) => write!(text, " {word}"),
        None => Ok(()),
    }
}

/// Appends the numbers of a note, the second only with the first.
fn write_numbers(
    text: &mut String,
    first: Option<u64>,
    second: Option<u64>,
) -> Result<(), AllocError>
    ensures { OnOk result (string_bytes text.new
        ≡ string_bytes text.old ++ after_spaces (numbers first second)) }
{
    let Some(first) = first else {
        return Ok(());
    };
    write!(text, " {first}")?;
    write_number(text, second)
}

/// Appends the numbers of a note, and its word.
fn write_details(
    text: &mut String,
    first: Option<u64>,
    second: Option<u64>,
    word: Option<&'static str>,
) -> Result<(), AllocError>
    ensures { OnOk result (string_bytes text.new ≡ string_bytes text.old
        ++ after_spaces (numbers first second ++ if_word word.entry)) }
{
    write_numbers(text, first, second)?;
    write_word(text, word)
}

/// Appends a first word, a site where there is one, and a name.
fn write_named(
    text: &mut String,
    first: &str,
    site: Option<Site>,
    name: &str,
) -> Result<(), AllocError>
    ensures { OnOk result (string_bytes text.new ≡ string_bytes text.old
        ++ (first.now ++ after_spaces (if_site site ++ name.now ∷ []))) }
{
    text.push_str(first)?;
    write_site(text, site)?;
    write!(text, " {name}")
}

/// Appends that a red part was handed up.
fn write_up(text: &mut String, site: Option<Site>, session: u64) -> Result<(), AllocError>
    ensures { OnOk result (string_bytes text.new ≡ string_bytes text.old
        ++ (codes "up" ++ after_spaces (if_site site ++ decimal session ∷ []))) }
{
    text.push_str("up")?;
    write_site(text, site)?;
    write!(text, " {session}")
}

/// Appends what an end's joiner answered.
fn write_join(text: &mut String, site: Site, word: &str) -> Result<(), AllocError>
    ensures { OnOk result (string_bytes text.new ≡ string_bytes text.old
        ++ spaced (codes "join" ∷ site_word site ∷ word.now ∷ [])) }
{
    let site = site.word();
    write!(text, "join {site} {word}")
}

/// Appends that green data was handed up.
fn write_green(text: &mut String, session: u64, offset: u64, last: bool) -> Result<(), AllocError>
    ensures { OnOk result (string_bytes text.new ≡ string_bytes text.old
        ++ spaced (codes "green" ∷ decimal session ∷ decimal offset ∷ bit_word last ∷ [])) }
{
    let bit = if last { "1" } else { "0" };
    write!(text, "green {session} {offset} {bit}")
}

/// Appends that a call on a link failed.
fn write_link_note(text: &mut String, old: bool, send: bool) -> Result<(), AllocError>
    ensures { OnOk result (string_bytes text.new ≡ string_bytes text.old
        ++ spaced (codes "note" ∷ side_word old ∷ call_word send ∷ [])) }
{
    let side = if old { "old" } else { "new" };
    let call = if send { "Send" } else { "Poll" };
    write!(text, "note {side} {call}")
}

/// Appends that a line of the input is refused.
fn write_refusal(
    text: &mut String,
    line: u64,
    at: Option<u64>,
    cause: &str,
) -> Result<(), AllocError>
    ensures { OnOk result (string_bytes text.new ≡ string_bytes text.old
        ++ spaced (codes "refused" ∷ codes "line" ∷ decimal line
        ∷ (if_number at ++ cause.now ∷ []))) }
{
    write_refused(text, line)?;
    write_cause(text, at, cause)
}

/// Appends which line is refused.
fn write_refused(text: &mut String, line: u64) -> Result<(), AllocError>
    ensures { OnOk result (string_bytes text.new
        ≡ string_bytes text.old ++ (codes "refused line " ++ decimal line)) }
{
    write!(text, "refused line {line}")
}

/// Appends a place, where there is one, and a cause.
fn write_cause(text: &mut String, at: Option<u64>, cause: &str) -> Result<(), AllocError>
    ensures { OnOk result (string_bytes text.new ≡ string_bytes text.old
        ++ after_spaces (if_number at ++ cause.now ∷ [])) }
{
    write_number(text, at)?;
    write!(text, " {cause}")
}
