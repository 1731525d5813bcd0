//! What happens at a face from its beginning on. One function owns the face, since the drop of all that it has
//! is proved for each that does.

ghost use Rattle.std.specs.Prelude.{◌≡◌, false};

use crate::face::{Set, face};
use crate::memory::{five_large, odd_and_then, unanswered, visits};
use crate::sessions::{of_65_sessions, reported, write_answer};
use peer_sessions::PeerSessions;
use std::alloc::Global;
use std::test::Fail;

/// What happens at a face.
#[derive(Clone, Copy)]
pub(crate) enum Story {
    /// The block of session 7 comes at these moments, and its report is acknowledged.
    Visits(&'static [u64]),
    /// It comes at these moments, and no report is.
    Unanswered(&'static [u64]),
    /// Blocks of so many sessions come, of each second number from 1 on, and then those of these sessions.
    Odd(u64, &'static [u64]),
    /// Large pieces of five sessions come, of the last one so many.
    Large(u64),
    /// A piece of each of 65 sessions comes.
    Of65,
    /// This datagram comes.
    Datagram(&'static str),
    /// A block begins, and these reports come.
    Reported(&'static [&'static str]),
}

/// A story's lines.
pub(crate) fn told(alloc: Global, set: Set, story: Story) -> Result<String, Fail> {
    let mut face = face(alloc, set)?;
    play(alloc, &mut face, set.sessions, story)
}

/// Plays a story at a face with so many sessions.
fn play(alloc: Global, face: &mut PeerSessions, sessions: u64, story: Story) -> Result<String, Fail>
    requires whole { face.old.spent ≡ false }
    requires sessions { face.old.keys.bounds.sessions ≡ sessions }
{
    match story {
        Story::Visits(moments) => visits(alloc, face, moments),
        Story::Unanswered(moments) => unanswered(alloc, face, moments),
        Story::Odd(count, then) => odd_and_then(alloc, face, count, then),
        Story::Large(last) => five_large(alloc, face, last),
        Story::Of65 => of_65_sessions(alloc, face),
        Story::Datagram(datagram) => {
            let mut text = String::new(alloc);
            write_answer(alloc, face, datagram, &mut text)?;
            Ok(text)
        }
        Story::Reported(reports) => reported(alloc, face, sessions, reports),
    }
}
