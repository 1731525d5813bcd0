//! What an engine does in answer to an event.

ghost use Rattle.std.specs.Prelude.{◌≡◌, ◌++◌, ◌||◌, true, is_some, IfOk, OnErr};
ghost use Rattle.std.specs.Option.{option_map};
ghost use Rattle.ltp_segment.specs.declared.session.Note.TheVariants as notes;
ghost use Rattle.ltp_session.specs.Engine.{list_of};

use crate::few::Few;
use endpoint::{Listed, Octets};
use ltp_segment::{Green, Note, Outs, Step};
use std::alloc::{AllocError, Global};

/// A red part that is handed up.
#[derive(Debug, Drop)]
pub struct Up {
    /// The session's number.
    pub session: u64,
    /// The octets of the red part.
    pub body: Octets,
}

/// Red parts that are handed up, in their order.
pub type Ups = Listed<Up>;

/// Pieces of green parts that are handed up, in their order.
pub type Greens = Listed<Green>;

/// Notes, in their order. A single one takes no memory.
pub type Notes = Few<Note>;

/// What an engine does in answer to an event.
#[derive(Debug, Drop)]
pub struct Effects {
    /// The datagrams that are to be sent.
    pub out: Outs,
    /// The red parts that are handed up.
    pub ups: Ups,
    /// The pieces of green parts that are handed up.
    pub greens: Greens,
    /// What is to be noted.
    pub notes: Notes,
}

impl Effects {
    ghost use Rattle.ltp_engine.specs.Effects.{effects_in, with_sent, only_noted, nothing_done};

    /// Nothing is done. It takes no memory.
    pub(crate) fn none(alloc: Global) -> Effects
        ensures { result ≡ nothing_done }
    {
        Effects {
            out: Outs::new(alloc),
            ups: Ups::from_vec(Vec::new(alloc)),
            greens: Greens::from_vec(Vec::new(alloc)),
            notes: Notes::from_vec(Vec::new(alloc)),
        }
    }

    /// Nothing is done but a note. It takes no memory.
    pub(crate) fn noted(alloc: Global, note: Note) -> Effects
        ensures { result ≡ only_noted note }
    {
        Effects {
            notes: Notes::one(alloc, note),
            ..Effects::none(alloc)
        }
    }

    /// The effects of a step of a session, before which another was evicted. Memory is wanted only
    /// where one was, or where something is handed up.
    pub(crate) fn of(
        alloc: Global,
        session: u64,
        evicted: Option<u64>,
        step: Step,
    ) -> Result<Effects, AllocError>
        ensures effects { IfOk result (λ effects. effects ≡ effects_in session evicted step) }
        ensures wanted { OnErr result
            ((is_some evicted || (is_some step.up || is_some step.green)) ≡ true) }
    {
        let Step {
            out,
            up,
            green,
            note,
        } = step;
        Ok(Effects {
            out,
            ups: handed_up(alloc, session, up)?,
            greens: green_of(alloc, green)?,
            notes: both_notes(alloc, evicted, note)?,
        })
    }

    /// Adds what a session sends and notes when time passes.
    pub(crate) fn add(self, alloc: Global, step: Step) -> Result<Effects, AllocError>
        ensures { IfOk result (λ effects. effects ≡ with_sent self step.out step.note) }
    {
        let Effects {
            out,
            ups,
            greens,
            notes,
        } = self;
        let Step {
            out: sent,
            note,
            ..
        } = step;
        Ok(Effects {
            out: joined(out, sent)?,
            ups,
            greens,
            notes: notes.with(alloc, note)?,
        })
    }
}

/// The note of an eviction.
fn evicted_note(evicted: Option<u64>) -> Option<Note>
    ensures { result ≡ option_map notes.Evicted evicted }
{
    match evicted {
        None => None,
        Some(session) => Some(Note::Evicted { session }),
    }
}

/// The note of an eviction, and another after it. Memory is wanted only where one was evicted.
fn both_notes(alloc: Global, evicted: Option<u64>, note: Option<Note>) -> Result<Notes, AllocError>
    ensures notes { IfOk result (λ all. all
        ≡ list_of (option_map notes.Evicted evicted) ++ list_of note) }
    ensures wanted { OnErr result (is_some evicted ≡ true) }
{
    let none = Notes::from_vec(Vec::new(alloc));
    let first = none.with(alloc, evicted_note(evicted))?;
    first.with(alloc, note)
}

/// The red part, where it is handed up.
fn handed_up(alloc: Global, session: u64, up: Option<Octets>) -> Result<Ups, AllocError>
    ensures ups { IfOk result (λ ups. ups
        ≡ list_of (option_map (λ body. record { session = session; body = body }) up)) }
    ensures wanted { OnErr result (is_some up ≡ true) }
{
    let mut items = Vec::new(alloc);
    if let Some(body) = up {
        items.push(Up { session, body })?;
    }
    Ok(Ups::from_vec(items))
}

/// The piece of the green part, where one is handed up.
fn green_of(alloc: Global, green: Option<Green>) -> Result<Greens, AllocError>
    ensures greens { IfOk result (λ greens. greens ≡ list_of green) }
    ensures wanted { OnErr result (is_some green ≡ true) }
{
    let mut items = Vec::new(alloc);
    if let Some(green) = green {
        items.push(green)?;
    }
    Ok(Greens::from_vec(items))
}

/// Datagrams, and others after them.
fn joined(out: Outs, more: Outs) -> Result<Outs, AllocError>
    ensures { IfOk result (λ all. all ≡ out ++ more) }
{
    let mut items = out.into_vec();
    let mut rest = more.into_vec();
    items.append(&mut rest)?;
    Ok(Outs::from_vec(items))
}
