//! What an output says last, where it says that something was refused.
ghost use Rattle.std.specs.Prelude.{◌≡◌};
ghost use Rattle.std.specs.Option.{option_map};
ghost use Rattle.console.specs.Refusals.{without_place, line_said, place_said, refusal_said};

use crate::looks::{after_word, begins, first_word};
use replay_script::number_in;

/// Where a refusal is.
#[derive(Clone, Copy, Debug, PartialEq, Eq, Drop)]
pub enum Spot {
    /// In this line, counted from 1.
    Line(u64),
    /// At this place of the input, counted from 0.
    Place(u64),
}

/// The spot and the cause that a line of an output says: `refused line LINE [PLACE] CAUSE`, or
/// `refused BUNDLE PLACE CAUSE`. Any other says none.
pub fn refusal(line: &[u8]) -> Option<(Spot, &[u8])>
    ensures { option_map (λ said. (said.0, said.1.now)) result ≡ refusal_said line.now }
{
    if begins(line, b"refused line ".as_slice()) {
        line_said(after_word(after_word(line)))
    } else if begins(line, b"refused ".as_slice()) {
        place_said(after_word(after_word(line)))
    } else {
        None
    }
}

/// The words after `refused line`.
fn line_said(words: &[u8]) -> Option<(Spot, &[u8])>
    ensures { option_map (λ said. (said.0, said.1.now)) result ≡ line_said words.now }
{
    let number = number_in(1, u64::MAX, first_word(words))?;
    Some((Spot::Line(number), without_place(after_word(words))))
}

/// The words after `refused BUNDLE`.
fn place_said(words: &[u8]) -> Option<(Spot, &[u8])>
    ensures { option_map (λ said. (said.0, said.1.now)) result ≡ place_said words.now }
{
    let place = number_in(0, u64::MAX, first_word(words))?;
    Some((Spot::Place(place), after_word(words)))
}

/// The cause, after the place where there is one.
fn without_place(words: &[u8]) -> &[u8]
    ensures { result.now ≡ without_place words.now }
{
    match number_in(0, u64::MAX, first_word(words)) {
        Some(_place) => after_word(words),
        None => words,
    }
}
