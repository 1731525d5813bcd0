//! What holds of the events. Each law is the contract of a function that does nothing.

ghost use Rattle.peer_events.specs.Laws.{LinesTell, LastNamedIsSaid, OwnGoByEnds, EndsSayBlocks};
ghost use Rattle.peer_events.specs.Laws.{AloneAsPlain, SubjectsHaveTexts, StepsAreNamed};

/// Each thing that is told has one line, in order, but for a bundle's name: its event, at its face, in its
/// session, with its place in the row and its numbers.
pub fn lines_tell()
    ensures { LinesTell }
{}

/// The line of what is told about a bundle has the bundle that was named last before it as its subject.
pub fn last_named_is_said()
    ensures { LastNamedIsSaid }
{}

/// Each note of an end takes one own session of its face with its number, where that is open no longer: so of
/// a session's end it is told once, and the session is own until then.
pub fn own_go_by_ends()
    ensures { OwnGoByEnds }
{}

/// The first note of the end of an own session has a line about its block: the first bundle, and how many
/// there are, exactly where that is more than one.
pub fn ends_say_blocks()
    ensures { EndsSayBlocks }
{}

/// Where each block is one piece, an engine's notes are said as [`gate_events`] says them.
pub fn alone_as_plain()
    ensures { AloneAsPlain }
{}

/// The names of each bundle that a step names have texts: so what it told may be said.
pub fn steps_are_named()
    ensures octets { SubjectsHaveTexts }
    ensures steps { StepsAreNamed }
{}
