//! Notes beside those of the engine.

ghost use Rattle.std.specs.Prelude.{◌≡◌, ◌++◌, IfOk, OnOk};
ghost use Rattle.ltp_engine.specs.Effects.{only_noted};
ghost use Rattle.peer_sessions.specs.Sessions.{evictions};
ghost use Rattle.peer_sessions.specs.Notes.{then_evicted};

use ltp_engine::{Effects, Greens, Notes, Ups};
use ltp_segment::{Note, Outs};
use std::alloc::{AllocError, Global};

/// Nothing is done but a note.
pub(crate) fn noted(alloc: Global, note: Note) -> Result<Effects, AllocError>
    ensures { IfOk result (λ effects. effects ≡ only_noted note) }
{
    let mut notes = Vec::new(alloc);
    notes.push(note)?;
    Ok(Effects {
        out: Outs::new(alloc),
        ups: Ups::from_vec(Vec::new(alloc)),
        greens: Greens::from_vec(Vec::new(alloc)),
        notes: Notes::from_vec(notes),
    })
}

/// The effects, with notes of sessions that were closed after them.
pub(crate) fn then_evicted(effects: Effects, numbers: &[u64]) -> Result<Effects, AllocError>
    ensures { IfOk result (λ more. more ≡ then_evicted effects numbers.now) }
{
    let Effects {
        out,
        ups,
        greens,
        notes,
    } = effects;
    let mut told = notes.into_vec()?;
    add_evicted(&mut told, numbers)?;
    Ok(Effects {
        out,
        ups,
        greens,
        notes: Notes::from_vec(told),
    })
}

/// Adds a note for each session that was closed.
fn add_evicted(notes: &mut Vec<Note>, numbers: &[u64]) -> Result<(), AllocError>
    ensures { OnOk result (notes.new.items ≡ notes.old.items ++ evictions numbers.now) }
{
    'numbers: for n in numbers {
        notes.push(Note::Evicted { session: *n })?;
    }
    Ok(())
}
