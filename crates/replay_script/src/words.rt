//! The words of a line, one after another.

ghost use Rattle.std.specs.Prelude.{◌≡◌, ◌∷◌, [], IfSome, IfNone};
ghost use Rattle.std.specs.Option.{option_map};
ghost use Rattle.std.specs.List.{position};
ghost use Rattle.replay_script.specs.Words.{words_of, is_space};
ghost use Rattle.replay_script.specs.Events.{one_word};
ghost use Rattle.replay_script.specs.Ties.{words_left};

use std::marker::Model;

/// The words of a line that are still to come.
#[derive(Debug, Drop)]
pub(crate) struct Words<'a> {
    /// The line from the next word on, where there is one.
    rest: Option<&'a [u8]>,
}

impl<'a> Model for Words<'a> {
    ghost use Rattle.std.specs.Prelude.{List, ℕ};
    ghost use Rattle.replay_script.specs.Ties.{words_left};

    ghost Value = { List (List ℕ) };

    ghost view = { λ words. words_left words.rest };
}

impl<'a> Words<'a> {
    /// The words of a line.
    pub fn of(line: &'a [u8]) -> Words<'a>
        ensures { result ≡ words_of line.now }
    {
        Words { rest: Some(line) }
    }

    /// The next word.
    pub fn next(&mut self) -> Option<&'a [u8]>
        ensures some { IfSome result (λ word. self.old ≡ word.now ∷ self.new) }
        ensures none { IfNone result (self.old ≡ []) }
    {
        let rest = self.rest?;
        let Some(at) = space_in(rest) else {
            self.rest = None;
            return Some(rest);
        };
        self.rest = Some(&rest[at + 1..]);
        Some(&rest[..at])
    }

    /// The line from the next word on, where there is one.
    pub fn rest(self) -> Option<&'a [u8]>
        ensures { words_left result ≡ self.entry }
    {
        let Words { rest } = self;
        rest
    }

    /// The next word, where it is the last one.
    pub fn last(self) -> Option<&'a [u8]>
        ensures { option_map (λ word. word.now) result ≡ one_word self.entry }
    {
        let mut words = self;
        let word = words.next()?;
        if words.next().is_some() {
            return None;
        }
        Some(word)
    }
}

/// The place of the first space.
fn space_in(text: &[u8]) -> Option<usize>
    ensures { result ≡ position is_space text.now }
{
    text.iter().position(|octet| *octet == b' ')
}
