//! What octets look like to somebody who has given them to a command that wants others.
ghost use Rattle.std.specs.Prelude.{◌≡◌};
ghost use Rattle.std.specs.List.{position};
ghost use Rattle.console.specs.Looks.{begins, is_capture, is_compressed, is_marked, is_hex_digit, is_between, is_no_text, is_upper};
ghost use Rattle.console.specs.Looks.{is_hex, is_spaced_hex, begins_in_hex, begins_with_0x, has_no_text, has_tab};
ghost use Rattle.console.specs.Looks.{ends_with, is_line_end, is_space, first_word, after_word, has_empty_word, begins_in_upper_case};

/// Whether they begin with these.
pub fn begins(octets: &[u8], front: &[u8]) -> bool
    ensures { result ≡ begins octets.now front.now }
{
    octets.starts_with(front)
}

/// Whether they are the beginning of a capture: of pcap in either order of octets, in micro- or
/// nanoseconds, or of pcapng.
pub fn is_capture(octets: &[u8]) -> bool
    ensures { result ≡ is_capture octets.now }
{
    octets.starts_with(&[0xd4, 0xc3, 0xb2, 0xa1])
        || octets.starts_with(&[0xa1, 0xb2, 0xc3, 0xd4])
        || octets.starts_with(&[0x4d, 0x3c, 0xb2, 0xa1])
        || octets.starts_with(&[0xa1, 0xb2, 0x3c, 0x4d])
        || octets.starts_with(&[0x0a, 0x0d, 0x0d, 0x0a])
}

/// Whether they are the beginning of what gzip, xz or zstd has compressed.
pub fn is_compressed(octets: &[u8]) -> bool
    ensures { result ≡ is_compressed octets.now }
{
    octets.starts_with(&[0x1f, 0x8b])
        || octets.starts_with(&[0xfd, 0x37, 0x7a, 0x58, 0x5a])
        || octets.starts_with(&[0x28, 0xb5, 0x2f, 0xfd])
}

/// Whether they begin with a byte order mark, of UTF-8 or of UTF-16.
pub fn is_marked(octets: &[u8]) -> bool
    ensures { result ≡ is_marked octets.now }
{
    octets.starts_with(&[0xef, 0xbb, 0xbf])
        || octets.starts_with(&[0xff, 0xfe])
        || octets.starts_with(&[0xfe, 0xff])
}

/// Whether it is a digit of hex, in either case.
fn is_hex_digit(octet: u8) -> bool
    ensures { result ≡ is_hex_digit octet }
{
    (48 <= octet && octet <= 57) || (65 <= octet && octet <= 70) || (97 <= octet && octet <= 102)
}

/// Whether it is what people put between digits: a tab, a space, a minus, a colon.
fn is_between(octet: u8) -> bool
    ensures { result ≡ is_between octet }
{
    octet == b'\t' || octet == b' ' || octet == b'-' || octet == b':'
}

/// Whether no text has it.
fn is_no_text(octet: u8) -> bool
    ensures { result ≡ is_no_text octet }
{
    126 < octet || (octet < 32 && octet != b'\t' && octet != b'\n' && octet != b'\r')
}

/// Whether it is a letter in upper case.
fn is_upper(octet: u8) -> bool
    ensures { result ≡ is_upper octet }
{
    65 <= octet && octet <= 90
}

/// Whether each octet is a digit of hex.
pub fn is_hex(octets: &[u8]) -> bool
    ensures { result ≡ is_hex octets.now }
{
    octets.iter().all(|octet| is_hex_digit(*octet))
}

/// Whether they are digits of hex, with or without something between them.
pub fn is_spaced_hex(octets: &[u8]) -> bool
    ensures { result ≡ is_spaced_hex octets.now }
{
    octets
        .iter()
        .all(|octet| is_hex_digit(*octet) || is_between(*octet))
}

/// Whether the first four octets are there and write bytes in hex.
pub fn begins_in_hex(octets: &[u8]) -> bool
    ensures { result ≡ begins_in_hex octets.now }
{
    4 <= octets.len() && is_spaced_hex(&octets[..4])
}

/// Whether they begin with 0x, in either case.
pub fn begins_with_0x(octets: &[u8]) -> bool
    ensures { result ≡ begins_with_0x octets.now }
{
    octets.starts_with(b"0x".as_slice()) || octets.starts_with(b"0X".as_slice())
}

/// Whether one of them is none of a text.
pub fn has_no_text(octets: &[u8]) -> bool
    ensures { result ≡ has_no_text octets.now }
{
    octets.iter().any(|octet| is_no_text(*octet))
}

/// Whether there is a tab.
pub fn has_tab(octets: &[u8]) -> bool
    ensures { result ≡ has_tab octets.now }
{
    octets.iter().any(|octet| *octet == 9)
}

/// Whether this is the last octet.
pub fn ends_with(last: u8, octets: &[u8]) -> bool
    ensures { result ≡ ends_with last octets.now }
{
    0 < octets.len() && octets[octets.len() - 1] == last
}

/// Whether they are nothing but a line's end, or what is left of one without its last octet.
pub fn is_line_end(octets: &[u8]) -> bool
    ensures { result ≡ is_line_end octets.now }
{
    octets == b"\n".as_slice() || octets == b"\r\n".as_slice() || octets == b"\r".as_slice()
}

/// Whether the first octet is a letter in upper case.
pub fn begins_in_upper_case(octets: &[u8]) -> bool
    ensures { result ≡ begins_in_upper_case octets.now }
{
    0 < octets.len() && is_upper(octets[0])
}

/// The place of the first space.
fn space_in(octets: &[u8]) -> Option<usize>
    ensures { result ≡ position is_space octets.now }
{
    octets.iter().position(|octet| *octet == b' ')
}

/// The first word.
pub fn first_word(octets: &[u8]) -> &[u8]
    ensures { result.now ≡ first_word octets.now }
{
    match space_in(octets) {
        Some(at) => &octets[..at],
        None => octets,
    }
}

/// What follows the space after it.
pub fn after_word(octets: &[u8]) -> &[u8]
    ensures { result.now ≡ after_word octets.now }
{
    match space_in(octets) {
        Some(at) => &octets[at + 1..],
        None => &[],
    }
}

/// Whether a space stands at the end, or two after the first or the second word.
pub fn has_empty_word(octets: &[u8]) -> bool
    ensures { result ≡ has_empty_word octets.now }
{
    let words = after_word(octets);
    ends_with(b' ', octets)
        || words.starts_with(b" ".as_slice())
        || after_word(words).starts_with(b" ".as_slice())
}
