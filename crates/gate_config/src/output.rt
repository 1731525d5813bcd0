//! Texts as they are written: strings, numbers and lines after what is there.

ghost use Rattle.std.specs.Prelude.{◌≡◌, ◌++◌, ◌<◌, ◌==◌, ◌||◌, not, true, false, OnOk};
ghost use Rattle.toml_parser.specs.Lexical as lexical;
ghost use Rattle.std.specs.Fmt.{decimal, digit_glyph};
ghost use Rattle.toml_writer.specs.Text as writer;
ghost use Rattle.gate_config.specs.Escapes as output;
ghost use Rattle.gate_config.specs.Shown as spec;

use crate::keys::Key;
use std::alloc::AllocError;
use toml_parser::bytes::is_non_eol;

/// Appends a number in decimal.
pub(crate) fn push_number(text: &mut Vec<u8>, number: u64) -> Result<(), AllocError>
    ensures { OnOk result (text.new.items ≡ text.old.items ++ decimal number) }
{
    let mut digits = itoa::Buffer::new();
    text.extend_from_slice(digits.format(number).as_bytes())
}

/// Appends a text as a TOML basic string.
#[tactic(auto, unfolding(crate::specs::Shown::basic_string))]
pub(crate) fn push_string(text: &mut Vec<u8>, octets: &[u8]) -> Result<(), AllocError>
    ensures { OnOk result (text.new.items ≡ text.old.items ++ spec.basic_string octets.now) }
{
    text.push(b'"')?;
    push_escaped(text, octets)?;
    text.push(b'"')?;
    Ok(())
}

fn push_escaped(text: &mut Vec<u8>, octets: &[u8]) -> Result<(), AllocError>
    ensures { OnOk result (text.new.items ≡ text.old.items ++ writer.escaped false 0 octets.now) }
{
    'octets: for octet in octets {
        push_octet(text, *octet)?;
    }
    Ok(())
}

fn push_octet(text: &mut Vec<u8>, octet: u8) -> Result<(), AllocError>
    ensures { OnOk result (text.new.items ≡ text.old.items ++ output.octet_text octet) }
{
    if !needs_escape(octet) {
        text.push(octet)?;
        return Ok(());
    }
    match escape_letter(octet) {
        0 => push_code(text, octet),
        letter => text.extend_from_slice(&[b'\\', letter]),
    }
}

fn push_code(text: &mut Vec<u8>, octet: u8) -> Result<(), AllocError>
    ensures { OnOk result (text.new.items ≡ text.old.items ++ output.code_text octet) }
{
    text.extend_from_slice(b"\\u00")?;
    text.extend_from_slice(&[digit(octet / 16), digit(octet % 16)])
}

fn digit(value: u8) -> u8
    requires { value < 16 }
    ensures { result ≡ digit_glyph true value }
{
    if value < 10 {
        b'0' + value
    } else {
        b'A' + (value - 10)
    }
}

#[tactic(auto, unfolding(toml_writer::specs::Text::needs_escape))]
fn needs_escape(octet: u8) -> bool
    ensures { result ≡ writer.needs_escape false 0 octet }
{
    if octet == b'"' {
        true
    } else if octet == b'\n' {
        true
    } else {
        stands_escaped(octet)
    }
}

fn stands_escaped(octet: u8) -> bool
    ensures { result ≡ ((octet == lexical.backslash || octet == lexical.tab)
        || not (lexical.is_non_eol octet)) }
{
    (octet == b'\\' || octet == b'\t') || !is_non_eol(octet)
}

fn escape_letter(octet: u8) -> u8
    ensures { result ≡ writer.escape_letter octet }
{
    match octet {
        8 => b'b',
        b'\t' => b't',
        b'\n' => b'n',
        12 => b'f',
        b'\r' => b'r',
        b'"' | b'\\' => octet,
        _ => 0,
    }
}

/// Appends the line of a key whose value has this text.
#[tactic(auto, unfolding(crate::specs::Shown::value_line))]
pub(crate) fn push_value(text: &mut Vec<u8>, key: Key, value: &[u8]) -> Result<(), AllocError>
    ensures { OnOk result (text.new.items ≡ text.old.items ++ spec.value_line key value.now) }
{
    text.extend_from_slice(key.name().as_bytes())?;
    text.extend_from_slice(b" = ")?;
    text.extend_from_slice(value)?;
    text.extend_from_slice(b"\n")
}

/// Appends the line of a key at which a text stands.
#[tactic(auto, unfolding(crate::specs::Shown::value_line))]
pub(crate) fn push_text(text: &mut Vec<u8>, key: Key, octets: &[u8]) -> Result<(), AllocError>
    ensures { OnOk result (text.new.items ≡ text.old.items ++ spec.text_line key octets.now) }
{
    text.extend_from_slice(key.name().as_bytes())?;
    text.extend_from_slice(b" = ")?;
    push_string(text, octets)?;
    text.extend_from_slice(b"\n")
}

/// Appends the line of a key at which a number stands.
pub(crate) fn push_count(text: &mut Vec<u8>, key: Key, number: u64) -> Result<(), AllocError>
    ensures { OnOk result (text.new.items ≡ text.old.items ++ spec.number_line key number) }
{
    let mut digits = itoa::Buffer::new();
    push_value(text, key, digits.format(number).as_bytes())
}
