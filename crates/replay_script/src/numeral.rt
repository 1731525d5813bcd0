//! Decimal numbers without leading zeros.

ghost use Rattle.std.specs.Prelude.{◌≡◌, ◌+◌, ◌*◌, SomeIff};
ghost use Rattle.std.specs.Char.{digit_value};
ghost use Rattle.endpoint.specs.Numeral.{begins_as_numeral, number_of, TakesDigit};
ghost use Rattle.replay_script.specs.Events.{number_in};

/// The number that the digits write with one more after them, where that is a digit and the number
/// stays below 2^64.
fn with_digit(value: u64, digit: u8) -> Option<u64>
    ensures { SomeIff result (TakesDigit value digit) (value * 10 + digit_value digit) }
{
    if !digit.is_ascii_digit() {
        return None;
    }
    value.checked_mul(10)?.checked_add(u64::from(digit - b'0'))
}

/// Whether there is an octet, and the first is 0 only where it is the only one.
fn begins_as_numeral(text: &[u8]) -> bool
    ensures { result ≡ begins_as_numeral text.now }
{
    match text {
        [] => false,
        [first, more @ ..] => *first != b'0' || more.is_empty(),
    }
}

/// The number that a text writes: digits, below 2^64, the first of which is 0 only in `0`.
pub(crate) fn number(text: &[u8]) -> Option<u64>
    ensures { result ≡ number_of text.now }
{
    if !begins_as_numeral(text) {
        return None;
    }
    let mut value: u64 = 0;
    for digit in text {
        value = with_digit(value, *digit)?;
    }
    Some(value)
}

/// The same, where the number is in a range, both ends included.
#[tactic(auto, unfolding(crate::specs::Events::number_in))]
pub fn number_in(least: u64, most: u64, text: &[u8]) -> Option<u64>
    ensures { result ≡ number_in least most text.now }
{
    let number = number(text)?;
    if least <= number && number <= most {
        Some(number)
    } else {
        None
    }
}
