//! What the words of a line are to the line, and what holds of an event that a line says. Each law is
//! the contract of a function that does nothing.

ghost use Rattle.replay_script.specs.Laws.{LinesAreSpacedWords, SpacedWordsAreRead, PathsAreSound};

/// A line is its words, separated by single spaces.
pub fn lines_are_spaced_words()
    ensures { LinesAreSpacedWords }
{}

/// Words without a space are read from the line that has them, separated by single spaces.
pub fn spaced_words_are_read()
    ensures { SpacedWordsAreRead }
{}

/// A line that sets up a path names a gate, and its numbers are in their ranges.
pub fn paths_are_sound()
    ensures { PathsAreSound }
{}
