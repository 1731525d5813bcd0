//! Picks, which say what comes next where a link is drained.

ghost use Rattle.std.specs.Prelude.{◌≡◌, true, is_some, length, nat_lt, Some, IfOk};
ghost use Rattle.replay_script.specs.LinkEvents.{old_pick, pick_of, picks_of};
ghost use Rattle.replay_script.specs.Words.{words_of};

use crate::numeral::number;
use crate::words::Words;
use std::alloc::{AllocError, Global};
use std::marker::Model;

/// What comes next where a link is drained, as a line says it.
#[derive(Clone, Copy, Debug, PartialEq, Eq)]
pub enum PickWord {
    /// `f`: the oldest new datagram of the first end.
    First,
    /// `s`: that of the second end.
    Second,
    /// `o` and a number: a datagram that isn't new comes once more.
    Old {
        /// The datagram's number among all that were sent.
        k: u64,
    },
}

/// The picks of a line, in order.
#[derive(Debug, Drop)]
pub struct PickWords {
    items: Vec<PickWord>,
}

impl Model for PickWords {
    ghost use Rattle.std.specs.Prelude.{List};
    ghost use Rattle.replay_script.specs.declared.picks.PickWord.{PickWord};

    ghost Value = { List PickWord };

    ghost view = { λ picks. picks.items.items };
}

impl PickWords {
    /// These picks, moved and not copied.
    pub(crate) fn from_vec(items: Vec<PickWord>) -> PickWords
        ensures { result ≡ items.items }
    {
        PickWords { items }
    }

    /// The picks, lent.
    pub fn as_slice(&self) -> &[PickWord]
        ensures { result.now ≡ self.now }
    {
        self.items.as_slice()
    }
}

/// The pick that a word says.
fn pick(word: &[u8]) -> Option<PickWord>
    ensures { result ≡ pick_of word.now }
{
    if word == b"f".as_slice() {
        Some(PickWord::First)
    } else if word == b"s".as_slice() {
        Some(PickWord::Second)
    } else {
        old_pick(word)
    }
}

/// The datagram that a word picks by its number.
fn old_pick(word: &[u8]) -> Option<PickWord>
    ensures { result ≡ old_pick word.now }
{
    let digits = word.strip_prefix(b"o".as_slice())?;
    let k = number(digits)?;
    Some(PickWord::Old { k })
}

/// Whether a word says a pick.
fn is_pick(word: &[u8]) -> bool
    ensures { result ≡ is_some (pick_of word.now) }
{
    pick(word).is_some()
}

/// Whether a text has more words than this.
pub(crate) fn has_more_words(text: &[u8], most: u64) -> bool
    ensures { result ≡ nat_lt most (length (words_of text.now)) }
{
    let mut words = Words::of(text);
    let mut left = most;
    'words: while words.next().is_some() {
        if left == 0 {
            return true;
        }
        left -= 1;
    }
    false
}

/// Whether each word of a text says a pick. It takes no memory.
pub(crate) fn are_picks(text: &[u8]) -> bool
    ensures { result ≡ is_some (picks_of (words_of text.now)) }
{
    let mut words = Words::of(text);
    'words: while let Some(word) = words.next() {
        if !is_pick(word) {
            return false;
        }
    }
    true
}

/// The picks that the words of a text say.
pub(crate) fn picks_in(alloc: Global, text: &[u8]) -> Result<PickWords, AllocError>
    requires { is_some (picks_of (words_of text.now)) ≡ true }
    ensures { IfOk result (λ picks. picks_of (words_of text.now) ≡ Some picks) }
{
    let mut words = Words::of(text);
    let mut picks = Vec::new(alloc);
    'words: while let Some(word) = words.next() {
        let Some(pick) = pick(word) else {
            return Err(AllocError);
        };
        picks.push(pick)?;
    }
    Ok(PickWords::from_vec(picks))
}
