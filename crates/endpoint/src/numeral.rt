//! Decimal numbers without leading zeros.

ghost use Rattle.std.specs.Prelude.{◌≡◌, ◌+◌, ◌*◌, SomeIff};
ghost use Rattle.std.specs.Char.{digit_value};
ghost use Rattle.std.specs.List.{position};
ghost use Rattle.endpoint.specs.Numeral.{begins_as_numeral, number_of, pair_of, is_dot, TakesDigit};

/// The number that the digits write with one more after them, where that is a digit and the number
/// stays below 2^64.
fn with_digit(value: u64, digit: u8) -> Option<u64>
    ensures { SomeIff result (TakesDigit value digit) (value * 10 + digit_value digit) }
{
    if !digit.is_ascii_digit() {
        return None;
    }
    value.checked_mul(10)?.checked_add(u64::from(digit - b'0'))
}

/// Whether there is an octet, and the first is 0 only where it is the only one.
fn begins_as_numeral(text: &[u8]) -> bool
    ensures { result ≡ begins_as_numeral text.now }
{
    match text {
        [] => false,
        [first, more @ ..] => *first != b'0' || more.is_empty(),
    }
}

/// The number that a text writes: digits, below 2^64, the first of which is 0 only in `0`.
fn number(text: &[u8]) -> Option<u64>
    ensures { result ≡ number_of text.now }
{
    if !begins_as_numeral(text) {
        return None;
    }
    let mut value: u64 = 0;
    for digit in text {
        value = with_digit(value, *digit)?;
    }
    Some(value)
}

/// The place of the first dot.
fn dot_in(text: &[u8]) -> Option<usize>
    ensures { result ≡ position is_dot text.now }
{
    text.iter().position(|octet| *octet == b'.')
}

/// The two numbers that a text writes, joined by a dot.
pub(crate) fn pair(text: &[u8]) -> Option<(u64, u64)>
    ensures { result ≡ pair_of text.now }
{
    let dot = dot_in(text)?;
    let one = number(&text[..dot])?;
    let other = number(&text[dot + 1..])?;
    Some((one, other))
}
