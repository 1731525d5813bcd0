//! Members of a line: a comma, a key, and what stands under it.

ghost use Rattle.std.specs.Prelude.{◌≡◌, ◌++◌, false, codes, OnOk};
ghost use Rattle.std.specs.Fmt.{decimal};
ghost use Rattle.std.specs.String.{string_bytes};
ghost use Rattle.serde_json.specs.Data.{string, null, boolean};
ghost use Rattle.serde_json.specs.Written.{compact_text, items_text, comma_if};
ghost use Rattle.gate_log.specs.Values as values;
ghost use Rattle.gate_log.specs.Lines.{at_face, for_cause};
ghost use Rattle.gate_log.specs.Written.{IsPlain, later_text, later_if};

use crate::name::{push_string, text_in};
use endpoint::Fragment;
use gate_cases::{Creation, Face};
use std::alloc::AllocError;

/// A word that stands as it is.
#[tactic(auto, unfolding(crate::specs::Written::later_text))]
pub(crate) fn push_word(text: &mut String, key: &str, word: &str) -> Result<(), AllocError>
    requires key { IsPlain key.now }
    requires word { IsPlain word.now }
    ensures { OnOk result (string_bytes text.new
        ≡ string_bytes text.old ++ later_text (key.now, string word.now)) }
{
    write!(text, ",\"{key}\":\"{word}\"")
}

/// A number.
#[tactic(auto, unfolding(crate::specs::Written::later_text))]
pub(crate) fn push_count(text: &mut String, key: &str, number: u64) -> Result<(), AllocError>
    requires { IsPlain key.now }
    ensures { OnOk result (string_bytes text.new
        ≡ string_bytes text.old ++ later_text (key.now, values.count number)) }
{
    write!(text, ",\"{key}\":{number}")
}

/// A number, where there is one.
pub(crate) fn push_count_if(
    text: &mut String,
    key: &str,
    number: Option<u64>,
) -> Result<(), AllocError>
    requires { IsPlain key.now }
    ensures { OnOk result (string_bytes text.new ≡ string_bytes text.old ++ later_if key.now number) }
{
    match number {
        Some(number) => push_count(text, key, number),
        None => Ok(()),
    }
}

/// Whether something holds.
#[tactic(auto, unfolding(crate::specs::Written::later_text))]
pub(crate) fn push_bool(text: &mut String, key: &str, holds: bool) -> Result<(), AllocError>
    requires { IsPlain key.now }
    ensures { OnOk result (string_bytes text.new
        ≡ string_bytes text.old ++ later_text (key.now, boolean holds)) }
{
    if holds {
        write!(text, ",\"{key}\":true")
    } else {
        write!(text, ",\"{key}\":false")
    }
}

/// The types of blocks.
#[tactic(auto, unfolding(crate::specs::Written::later_text, json::specs::Print::escape_byte))]
pub(crate) fn push_kinds(text: &mut String, kinds: &[u8]) -> Result<(), AllocError>
    ensures { OnOk result (string_bytes text.new
        ≡ string_bytes text.old ++ later_text (codes "blocks", values.counts kinds.now)) }
{
    text.push_str(",\"blocks\":[")?;
    push_items(text, kinds)
}

/// The numbers of a list, and its end.
fn push_items(text: &mut String, numbers: &[u8]) -> Result<(), AllocError>
    ensures { OnOk result (string_bytes text.new ≡ string_bytes text.old
        ++ items_text false (values.count_items numbers.now)) }
{
    'numbers: for index in 0..numbers.len() {
        push_item(text, index > 0, numbers[index])?;
    }
    text.push_str("]")
}

/// A number of a list, the first one or a later one.
fn push_item(text: &mut String, later: bool, number: u8) -> Result<(), AllocError>
    ensures { OnOk result (string_bytes text.new
        ≡ string_bytes text.old ++ (comma_if later ++ decimal number)) }
{
    if later {
        write!(text, ",{number}")
    } else {
        write!(text, "{number}")
    }
}

/// Two numbers.
#[tactic(auto, unfolding(crate::specs::Written::later_text))]
pub(crate) fn push_two(
    text: &mut String,
    key: &str,
    first: u64,
    second: u64,
) -> Result<(), AllocError>
    requires { IsPlain key.now }
    ensures { OnOk result (string_bytes text.new
        ≡ string_bytes text.old ++ later_text (key.now, values.two first second)) }
{
    write!(text, ",\"{key}\":[{first},{second}]")
}

/// Nothing.
#[tactic(auto, unfolding(crate::specs::Written::later_text))]
fn push_null(text: &mut String, key: &str) -> Result<(), AllocError>
    requires { IsPlain key.now }
    ensures { OnOk result (string_bytes text.new
        ≡ string_bytes text.old ++ later_text (key.now, null)) }
{
    write!(text, ",\"{key}\":null")
}

/// A number, if there is one.
pub(crate) fn push_count_or_null(
    text: &mut String,
    key: &str,
    number: Option<u64>,
) -> Result<(), AllocError>
    requires { IsPlain key.now }
    ensures { OnOk result (string_bytes text.new
        ≡ string_bytes text.old ++ later_text (key.now, values.or_null values.count number)) }
{
    match number {
        Some(number) => push_count(text, key, number),
        None => push_null(text, key),
    }
}

/// The moment up to which something holds.
#[tactic(auto, unfolding(crate::specs::Written::later_text, json::specs::Print::escape_byte))]
pub(crate) fn push_until(text: &mut String, at: u64) -> Result<(), AllocError>
    ensures { OnOk result (string_bytes text.new
        ≡ string_bytes text.old ++ later_text (codes "until", values.moment at)) }
{
    text.push_str(",\"until\":")?;
    push_moment(text, at)
}

/// The same, if there is one.
#[tactic(auto, unfolding(json::specs::Print::escape_byte))]
pub(crate) fn push_until_or_null(text: &mut String, at: Option<u64>) -> Result<(), AllocError>
    ensures { OnOk result (string_bytes text.new
        ≡ string_bytes text.old ++ later_text (codes "until", values.or_null values.moment at)) }
{
    match at {
        Some(at) => push_until(text, at),
        None => push_null(text, "until"),
    }
}

/// Where a fragment lies, if it is one.
#[tactic(auto, unfolding(json::specs::Print::escape_byte))]
pub(crate) fn push_fragment(text: &mut String, fragment: Option<Fragment>) -> Result<(), AllocError>
    ensures { OnOk result (string_bytes text.new ≡ string_bytes text.old
        ++ later_text (codes "fragment", values.or_null values.part fragment)) }
{
    match fragment {
        Some(fragment) => push_two(text, "fragment", fragment.offset, fragment.total),
        None => push_null(text, "fragment"),
    }
}

/// The face.
#[tactic(auto, unfolding(json::specs::Print::escape_byte))]
pub(crate) fn push_face(text: &mut String, face: Face) -> Result<(), AllocError>
    ensures { OnOk result (string_bytes text.new ≡ string_bytes text.old ++ later_text (at_face face)) }
{
    match face {
        Face::Old => push_word(text, "face", "old"),
        Face::New => push_word(text, "face", "new"),
    }
}

/// The name of a cause.
#[tactic(auto, unfolding(crate::specs::Written::later_text, json::specs::Print::escape_byte))]
pub(crate) fn push_cause(text: &mut String, word: &str) -> Result<(), AllocError>
    ensures { OnOk result (string_bytes text.new
        ≡ string_bytes text.old ++ later_text (for_cause word.now)) }
{
    text.push_str(",\"cause\":")?;
    push_string(text, word)
}

/// The version of a bundle.
#[tactic(auto, unfolding(json::specs::Print::escape_byte))]
pub(crate) fn push_version(text: &mut String, creation: Creation) -> Result<(), AllocError>
    ensures { OnOk result (string_bytes text.new ≡ string_bytes text.old
        ++ later_text (codes "version", values.count (values.version_of creation))) }
{
    match creation {
        Creation::Six(_) => push_count(text, "version", 6),
        Creation::Seven(_) => push_count(text, "version", 7),
    }
}

// ---- without a key

/// When a bundle was made.
pub(crate) fn push_created(text: &mut String, creation: Creation) -> Result<(), AllocError>
    ensures { OnOk result (string_bytes text.new
        ≡ string_bytes text.old ++ compact_text (values.created creation)) }
{
    match creation {
        Creation::Six(id) => write!(text, "[{},{}]", id.seconds, id.sequence),
        Creation::Seven(id) => write!(text, "[{},{}]", id.millis, id.sequence),
    }
}

/// A moment.
pub(crate) fn push_moment(text: &mut String, at: u64) -> Result<(), AllocError>
    ensures { OnOk result (string_bytes text.new
        ≡ string_bytes text.old ++ compact_text (values.moment at)) }
{
    let spelled = moment_text::spell(at);
    let shown = text_in(&spelled);
    write!(text, "\"{shown}\"")
}
