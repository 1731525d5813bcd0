//! Which hint an input gives that a command refused.
ghost use Rattle.std.specs.Prelude.{◌≡◌, Some};
ghost use Rattle.console.specs.Hints.{file_hint, bundle_hint, any_line_hint, hex_hint, is_script_line, datagram_hint, words_hint};
ghost use Rattle.console.specs.Hints.{node_says, is_of_world, node_word_hint, event_hint, world_says, is_send, cap_hint, path_hint};
ghost use Rattle.console.specs.Hints.{world_word_hint, script_hint, line_hint, hint_of, refusal_of, refusal_in};
ghost use Rattle.console.specs.Hints.{done_hint, last_word_hint};
ghost use Rattle.console.specs.Hints.{entry_word_hint, unread_entry_hint, entry_hint, or_else, link_word_hint, link_hint};

use crate::hint::Hint;
use crate::looks::{
    after_word, begins, begins_in_hex, begins_in_upper_case, begins_with_0x, ends_with, first_word,
    has_empty_word, has_no_text, has_tab, is_capture, is_compressed, is_hex, is_line_end,
    is_marked, is_spaced_hex,
};
use crate::reads::Reads;
use replay_script::number_in;

/// What was refused of an input.
#[derive(Clone, Copy, Debug)]
pub struct Refused<'a> {
    /// The cause, as the output names it.
    pub cause: &'a [u8],
    /// The line, without its line feed; or the octets from the field on that was refused.
    pub text: &'a [u8],
    /// It is the first line.
    pub is_first: bool,
}

/// The hint of an input that begins with these octets, and was refused. What was refused of it may be
/// unknown: then only a file that no command reads has one.
pub fn hint(reads: Reads, head: &[u8], refused: Option<Refused<'_>>) -> Option<Hint>
    ensures { result ≡ hint_of reads head.now (refusal_in refused.entry) }
{
    if let Some(hint) = file_hint(head) {
        return Some(hint);
    }
    line_hint(reads, refused?)
}

/// Nothing at all, or a file that no command reads.
#[tactic(auto, unfolding(crate::specs::Hints::file_hint))]
fn file_hint(head: &[u8]) -> Option<Hint>
    ensures { result ≡ file_hint head.now }
{
    if head.is_empty() {
        Some(Hint::Empty)
    } else if is_capture(head) {
        Some(Hint::Capture)
    } else if is_compressed(head) {
        Some(Hint::Compressed)
    } else if is_marked(head) {
        Some(Hint::Marked)
    } else {
        None
    }
}

/// The hint of an input that was answered to its end: it is empty.
pub fn hint_of_done(head: &[u8]) -> Option<Hint>
    ensures { result ≡ done_hint head.now }
{
    match head {
        [] => Some(Hint::Empty),
        _ => None,
    }
}

/// What was refused, by what the command reads.
#[tactic(auto, unfolding(crate::specs::Hints::line_hint))]
fn line_hint(reads: Reads, refused: Refused<'_>) -> Option<Hint>
    ensures { result ≡ line_hint reads (refusal_of refused.entry) }
{
    match reads {
        Reads::Bundles => bundle_hint(refused.cause, refused.text),
        Reads::Datagrams => match any_line_hint(refused.text) {
            Some(hint) => Some(hint),
            None => datagram_hint(refused.cause, refused.text),
        },
        Reads::Events => match words_hint(refused.text) {
            Some(hint) => Some(hint),
            None => Some(event_hint(refused.cause, refused.text)),
        },
        Reads::Exchange => entry_hint(refused.cause, refused.text),
        Reads::Script => match words_hint(refused.text) {
            Some(hint) => Some(hint),
            None => Some(script_hint(refused)),
        },
        Reads::Windows => match words_hint(refused.text) {
            Some(hint) => Some(hint),
            None => Some(link_hint(refused)),
        },
    }
}

/// What stands where a bundle should begin.
fn bundle_hint(cause: &[u8], text: &[u8]) -> Option<Hint>
    ensures { result ≡ bundle_hint cause.now text.now }
{
    if cause != b"Version".as_slice() {
        None
    } else if begins(text, b"{".as_slice()) {
        Some(Hint::Json)
    } else if begins_with_0x(text) {
        Some(Hint::HexFilePrefix)
    } else if begins_in_hex(text) {
        Some(Hint::HexFile)
    } else if is_line_end(text) {
        Some(Hint::LineEnd)
    } else if has_no_text(text) {
        None
    } else {
        Some(Hint::Text)
    }
}

/// A line that no command reads.
fn any_line_hint(text: &[u8]) -> Option<Hint>
    ensures { result ≡ any_line_hint text.now }
{
    if ends_with(b'\r', text) {
        Some(Hint::CrLf)
    } else if text == b"".as_slice() {
        Some(Hint::BlankLine)
    } else if begins(text, b"#".as_slice()) {
        Some(Hint::Comment)
    } else if begins(text, b"{".as_slice()) {
        Some(Hint::Json)
    } else if has_no_text(text) {
        Some(Hint::Binary)
    } else {
        None
    }
}

/// Hex that isn't hex.
fn hex_hint(hex: &[u8]) -> Hint
    ensures { result ≡ hex_hint hex.now }
{
    if begins_with_0x(hex) {
        Hint::Prefix
    } else if is_hex(hex) {
        Hint::Odd
    } else if is_spaced_hex(hex) {
        Hint::Spaced
    } else {
        Hint::Digits
    }
}

/// Hex that isn't hex, after the words of a line.
fn last_word_hint(hex: &[u8]) -> Hint
    ensures { result ≡ last_word_hint hex.now }
{
    if begins_with_0x(hex) {
        Hint::Prefix
    } else if is_hex(hex) {
        Hint::Odd
    } else if is_spaced_hex(hex) {
        Hint::SpacedWord
    } else {
        Hint::Digits
    }
}

/// Whether it is a line of a script.
fn is_script_line(text: &[u8]) -> bool
    ensures { result ≡ is_script_line text.now }
{
    begins(text, b"in ".as_slice())
        || begins(text, b"send ".as_slice())
        || begins(text, b"clock ".as_slice())
        || begins(text, b"path ".as_slice())
        || begins(text, b"deliver ".as_slice())
}

/// What stands where `receive` reads a datagram.
fn datagram_hint(cause: &[u8], text: &[u8]) -> Option<Hint>
    ensures { result ≡ datagram_hint cause.now text.now }
{
    if cause == b"Hex".as_slice() {
        if is_script_line(text) {
            Some(Hint::ScriptLine)
        } else {
            Some(hex_hint(text))
        }
    } else if begins(text, b"06".as_slice())
        || begins(text, b"9f".as_slice())
        || begins(text, b"9F".as_slice())
    {
        Some(Hint::BundleLine)
    } else {
        None
    }
}

/// A line that no command reads, or whose words aren't separated as words are.
fn words_hint(text: &[u8]) -> Option<Hint>
    ensures { result ≡ words_hint text.now }
{
    match any_line_hint(text) {
        Some(hint) => Some(hint),
        None if has_tab(text) => Some(Hint::Tab),
        None if has_empty_word(text) => Some(Hint::EmptyWord),
        None => None,
    }
}

/// Whether `node` writes lines that begin so.
fn node_says(text: &[u8]) -> bool
    ensures { result ≡ node_says text.now }
{
    begins(text, b"out ".as_slice())
        || begins(text, b"up ".as_slice())
        || begins(text, b"green ".as_slice())
        || begins(text, b"note ".as_slice())
        || begins(text, b"refused ".as_slice())
}

/// Whether it is a line of `world` and none of `node`.
fn is_of_world(text: &[u8]) -> bool
    ensures { result ≡ is_of_world text.now }
{
    begins(text, b"path ".as_slice())
        || begins(text, b"deliver ".as_slice())
        || begins(text, b"drain".as_slice())
        || is_send(text)
}

/// Whether it is a line that sends from an end of a path.
fn is_send(text: &[u8]) -> bool
    ensures { result ≡ is_send text.now }
{
    begins(text, b"send old ".as_slice()) || begins(text, b"send new ".as_slice())
}

/// Words that are no line of `node`.
fn node_word_hint(text: &[u8]) -> Hint
    ensures { result ≡ node_word_hint text.now }
{
    if begins(text, b"in ".as_slice()) {
        Hint::SpacedWord
    } else if is_of_world(text) {
        Hint::WorldLine
    } else if begins(text, b"send ".as_slice()) {
        Hint::SpacedWord
    } else if is_hex(text) {
        Hint::BareHex
    } else if node_says(text) {
        Hint::NodeSaid
    } else if begins_in_upper_case(text) {
        Hint::UpperCase
    } else {
        Hint::NodeWords
    }
}

/// A line that `node` refuses.
fn event_hint(cause: &[u8], text: &[u8]) -> Hint
    ensures { result ≡ event_hint cause.now text.now }
{
    if cause == b"Hex".as_slice() {
        last_word_hint(after_word(text))
    } else if cause == b"Number".as_slice() {
        Hint::NodeClock
    } else {
        node_word_hint(text)
    }
}

/// Words that are no entry of an exchange.
fn entry_word_hint(text: &[u8]) -> Hint
    ensures { result ≡ entry_word_hint text.now }
{
    if begins(text, b"in ".as_slice()) || begins(text, b"out ".as_slice()) {
        Hint::SpacedWord
    } else if is_hex(text) {
        Hint::BareHex
    } else if begins_in_upper_case(text) {
        Hint::UpperCase
    } else {
        Hint::ExchangeWords
    }
}

/// An entry that can't be read.
fn unread_entry_hint(cause: &[u8], text: &[u8]) -> Hint
    ensures { result ≡ unread_entry_hint cause.now text.now }
{
    if cause == b"Hex".as_slice() {
        last_word_hint(after_word(text))
    } else {
        entry_word_hint(text)
    }
}

/// An entry that can't be read, or whose words aren't separated as words are.
fn unread_hint(cause: &[u8], text: &[u8]) -> Option<Hint>
    ensures { result ≡ or_else (words_hint text.now) (Some (unread_entry_hint cause.now text.now)) }
{
    match words_hint(text) {
        Some(hint) => Some(hint),
        None => Some(unread_entry_hint(cause, text)),
    }
}

/// An entry that `audit` refuses. Of one that breaks a rule nothing is said.
fn entry_hint(cause: &[u8], text: &[u8]) -> Option<Hint>
    ensures { result ≡ entry_hint cause.now text.now }
{
    if cause == b"Hex".as_slice() || cause == b"Word".as_slice() {
        unread_hint(cause, text)
    } else {
        None
    }
}

/// Whether `world` writes lines that begin so.
fn world_says(text: &[u8]) -> bool
    ensures { result ≡ world_says text.now }
{
    begins(text, b"sent ".as_slice())
        || begins(text, b"up ".as_slice())
        || begins(text, b"join ".as_slice())
        || begins(text, b"note ".as_slice())
        || begins(text, b"refused ".as_slice())
        || begins(text, b"end ".as_slice())
}

/// The first number of a path that is out of its range, by the words after GATE.
fn path_hint(words: &[u8]) -> Hint
    ensures { result ≡ path_hint words.now }
{
    if number_in(512, 8192, first_word(words)).is_none() {
        return Hint::Segment;
    }
    let words = after_word(words);
    if number_in(1, 3_600_000, first_word(words)).is_none() {
        return Hint::Timeout;
    }
    let words = after_word(words);
    if number_in(1, 100, first_word(words)).is_none() {
        return Hint::Limit;
    }
    let words = after_word(words);
    if number_in(1, 4_000_000, first_word(words)).is_none() {
        return Hint::Cut;
    }
    cap_hint(after_word(words))
}

/// The same by the words after CUT.
fn cap_hint(words: &[u8]) -> Hint
    ensures { result ≡ cap_hint words.now }
{
    match number_in(0, u64::MAX, first_word(words)) {
        Some(_start) => Hint::Cap,
        None => Hint::Start,
    }
}

/// Words that are no line of `world`.
fn world_word_hint(text: &[u8], is_first: bool) -> Hint
    ensures { result ≡ world_word_hint text.now is_first }
{
    if begins(text, b"path ".as_slice()) {
        if is_first {
            Hint::PathWords
        } else {
            Hint::SecondPath
        }
    } else if is_first {
        Hint::NoPath
    } else if is_send(text) {
        Hint::SpacedWord
    } else if begins(text, b"send".as_slice()) {
        Hint::SendSide
    } else if begins(text, b"in ".as_slice()) {
        Hint::NodeLine
    } else if world_says(text) {
        Hint::WorldSaid
    } else if begins_in_upper_case(text) {
        Hint::UpperCase
    } else {
        Hint::WorldWords
    }
}

/// A line that `world` refuses.
fn script_hint(refused: Refused<'_>) -> Hint
    ensures { result ≡ script_hint (refusal_of refused.entry) }
{
    if refused.cause == b"AfterDrain".as_slice() {
        Hint::AfterDrain
    } else if refused.cause == b"Name".as_slice() {
        Hint::Gate
    } else if refused.cause == b"Hex".as_slice() {
        last_word_hint(after_word(after_word(refused.text)))
    } else if refused.cause != b"Number".as_slice() {
        world_word_hint(refused.text, refused.is_first)
    } else if refused.is_first {
        path_hint(after_word(after_word(refused.text)))
    } else {
        Hint::WorldNumber
    }
}

/// Words that are no line of `link`.
fn link_word_hint(text: &[u8], is_first: bool) -> Hint
    ensures { result ≡ link_word_hint text.now is_first }
{
    if is_first {
        Hint::NoLink
    } else if begins(text, b"send first ".as_slice()) || begins(text, b"send second ".as_slice()) {
        Hint::SpacedWord
    } else if begins_in_upper_case(text) {
        Hint::UpperCase
    } else {
        Hint::LinkWords
    }
}

/// A line that `link` refuses.
fn link_hint(refused: Refused<'_>) -> Hint
    ensures { result ≡ link_hint (refusal_of refused.entry) }
{
    if refused.cause == b"AfterDrain".as_slice() {
        Hint::AfterDrain
    } else if refused.cause == b"Window".as_slice() {
        Hint::LinkWindow
    } else if refused.cause == b"Hex".as_slice() {
        last_word_hint(after_word(after_word(refused.text)))
    } else if refused.cause != b"Number".as_slice() {
        link_word_hint(refused.text, refused.is_first)
    } else if refused.is_first {
        Hint::LinkStart
    } else {
        Hint::LinkNumber
    }
}
