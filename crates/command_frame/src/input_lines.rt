//! The lines of an input.
ghost use Rattle.std.specs.Prelude.{◌≡◌, [], ◌∷◌, ◌++◌, None, IfSome};
ghost use Rattle.command_frame.specs.InputLines.{ended_part};

use memchr::memchr;

/// What ends a line.
const LINE_FEED: u8 = b'\n';

/// The octets before the first line feed, and those after it, where there is one.
pub fn cut_line(octets: &[u8]) -> Option<(&[u8], &[u8])>
    ensures some { IfSome result (λ x. (octets.now ≡ x.0.now ++ 10 ∷ x.1.now) × (ended_part x.0.now ≡ [])) }
    ensures none { result ≡ None → ended_part octets.now ≡ [] }
{
    match memchr(LINE_FEED, octets) {
        Some(at) => Some((&octets[..at], &octets[at + 1..])),
        None => None,
    }
}
