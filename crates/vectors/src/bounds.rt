//! Engines with bounds of their own: which session makes room for another, when a block finds no
//! place, and when no session opens any more.

ghost use Rattle.std.specs.Prelude.{◌≡◌, false, IfOk, OnOk};

use crate::answers::policy;
use ltp_engine::{Engine, SubmitRefused};
use ltp_segment::Note;
use std::alloc::Global;
use std::test::Fail;

/// Engine 2 of peer 1, which keeps so many sessions of each direction, and remembers so many runs.
fn engine(alloc: Global, sessions: u32, history: u32) -> Result<Engine, Fail>
    ensures { IfOk result (λ engine. engine.spent ≡ false) }
{
    if sessions == 0 {
        return Err(Fail::new("a row keeps no session"));
    }
    let policy = policy(1024, 10_000, 10, 160_000)?;
    Ok(Engine::wide(alloc, 2, 1, 1, policy, sessions, history))
}

/// The first red octet of a block of the peer's comes, of a session below 128, which goes on: the
/// first note of that, where there is one.
fn note_of(engine: &mut Engine, session: u8) -> Result<Option<Note>, Fail>
    requires { engine.old.spent ≡ false }
    ensures { OnOk result (engine.new.spent ≡ false) }
{
    let datagram = [0, 1, session, 0, 1, 0, 1, 0x61];
    let effects = engine.arrive(&datagram, 0)?;
    Ok(effects.notes.as_slice().first().copied())
}

/// Red octets of the sessions from 1 to 65 come: the note of the last one, where there is one.
fn note_of_65th(engine: &mut Engine) -> Result<Option<Note>, Fail>
    requires { engine.old.spent ≡ false }
    ensures { OnOk result (engine.new.spent ≡ false) }
{
    let mut last = None;
    for session in 1..=65 {
        last = note_of(engine, session)?;
    }
    Ok(last)
}

/// So many are kept after red octets of 65 sessions, and this is the note of the last one.
fn keeps(engine: &mut Engine, kept: usize, note: Option<Note>) -> Result<bool, Fail>
    requires { engine.old.spent ≡ false }
{
    let last = note_of_65th(engine)?;
    Ok(engine.receiving() == kept && last == note)
}

/// Whether an engine that keeps so many sessions has so many after 65, and notes this at the last one.
fn makes_room(alloc: Global, sessions: u32, kept: usize, note: Option<Note>) -> Result<bool, Fail> {
    let mut engine = engine(alloc, sessions, 65_536)?;
    keeps(&mut engine, kept, note)
}

/// How many sessions are kept; how many there are after 65; and the note of the last one.
const ROOM: &[(u32, usize, Option<Note>)] = &[
    (1, 1, Some(Note::Evicted { session: 64 })),
    (2, 2, Some(Note::Evicted { session: 63 })),
    (64, 64, Some(Note::Evicted { session: 1 })),
    (65, 65, None),
    (128, 65, None),
];

#[test]
fn the_longest_untouched_makes_room(rt: HostRuntime) -> Result<(), Fail> {
    for &(sessions, kept, note) in ROOM {
        assert!(rt; makes_room(rt.alloc(), sessions, kept, note)?, "{sessions}");
    }
    Ok(())
}

/// Submits 65 blocks, each in a session of its own, up to one that finds no place: how many are sent.
fn sent_of_65(engine: &mut Engine) -> Result<usize, Fail>
    requires { engine.old.spent ≡ false }
{
    for _ in 0..65 {
        match engine.submit(&[0x61], 1, 0) {
            Ok(_effects) => {}
            Err(SubmitRefused::Busy) => return Ok(engine.sending()),
            Err(_) => return Err(Fail::new("a block isn't sent")),
        }
    }
    Ok(engine.sending())
}

/// How many of 65 blocks an engine sends that keeps so many sessions.
fn sends(alloc: Global, sessions: u32) -> Result<usize, Fail> {
    let mut engine = engine(alloc, sessions, 65_536)?;
    sent_of_65(&mut engine)
}

#[test]
fn a_block_finds_no_place(rt: HostRuntime) -> Result<(), Fail> {
    for (sessions, sent) in [(1, 1), (64, 64), (128, 65)] {
        assert!(rt; sends(rt.alloc(), sessions)? == sent, "{sessions}");
    }
    Ok(())
}

/// Red octets of these sessions have these notes.
fn notes(engine: &mut Engine, wanted: &[(u8, Option<Note>)]) -> Result<bool, Fail>
    requires { engine.old.spent ≡ false }
{
    for &(session, note) in wanted {
        if note_of(engine, session)? != note {
            return Ok(false);
        }
    }
    Ok(true)
}

/// Whether an engine that remembers so many runs has these notes.
fn opens(alloc: Global, history: u32, wanted: &[(u8, Option<Note>)]) -> Result<bool, Fail> {
    let mut engine = engine(alloc, 64, history)?;
    notes(&mut engine, wanted)
}

/// How many runs an engine remembers, and the notes of three sessions.
const REMEMBERED: &[(u32, &[(u8, Option<Note>)])] = &[
    (
        0,
        &[
            (1, Some(Note::HistoryFull { session: 1 })),
            (2, Some(Note::HistoryFull { session: 2 })),
            (3, Some(Note::HistoryFull { session: 3 })),
        ],
    ),
    (
        2,
        &[
            (1, None),
            (2, None),
            (3, Some(Note::HistoryFull { session: 3 })),
        ],
    ),
    (3, &[(1, None), (2, None), (3, None)]),
];

#[test]
fn no_session_opens_any_more(rt: HostRuntime) -> Result<(), Fail> {
    for &(history, wanted) in REMEMBERED {
        assert!(rt; opens(rt.alloc(), history, wanted)?, "{history}");
    }
    Ok(())
}
