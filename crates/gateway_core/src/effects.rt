//! What the gateway does in answer to an event.

ghost use Rattle.std.specs.Prelude.{◌≡◌, ◌≤◌, ◌==◌, ◌&&◌, [], map, length, IfOk, OnErr};
ghost use Rattle.gateway_core.specs.Gate.{engine_note_at};
ghost use Rattle.gateway_core.specs.Effects.{datagram_at, told_at};
ghost use Rattle.gateway_core.specs.Quiet.{IsQuietTold};

use crate::note::GateNote;
use endpoint::{Listed, Octets};
use gate_cases::Face;
use ltp_engine::{Effects, Few, Notes, Up, Ups};
use ltp_segment::{Note, Outs};
use std::alloc::{AllocError, Global};

/// A datagram that is to be sent.
#[derive(Debug, Drop)]
pub struct Routed {
    /// The face at which it goes out.
    pub face: Face,
    /// The datagram.
    pub datagram: Octets,
}

/// Datagrams that are to be sent, in their order.
pub type RoutedList = Listed<Routed>;

/// A red part that was handed up at a face.
#[derive(Debug, Drop)]
pub struct FaceUp {
    /// The face at which it came.
    pub face: Face,
    /// The session's number.
    pub session: u64,
    /// The octets of the red part.
    pub body: Octets,
}

/// Red parts that were handed up, in their order.
pub type FaceUps = Listed<FaceUp>;

/// A note, and the face that it is about.
#[derive(Clone, Copy, Debug, PartialEq, Eq)]
pub struct FaceNote {
    /// The face.
    pub face: Face,
    /// The note.
    pub note: GateNote,
}

/// Notes, in their order. A single one takes no memory.
pub type GateNotes = Few<FaceNote>;

/// What the gateway does in answer to an event.
#[derive(Debug, Drop)]
pub struct GateEffects {
    /// The datagrams that are to be sent: those of the sessions that the event is about, then those of
    /// the pieces that go on, then those of the report.
    pub out: RoutedList,
    /// The red parts that were handed up.
    pub ups: FaceUps,
    /// What is to be noted: by the engines, then what became of the block, then what of its report.
    pub notes: GateNotes,
}

impl GateEffects {
    ghost use Rattle.gateway_core.specs.Effects.{nothing_routed, only_noted_at, routed_at, joined_with};

    /// Nothing is done. It takes no memory.
    pub(crate) fn none(alloc: Global) -> GateEffects
        ensures { result ≡ nothing_routed }
    {
        GateEffects {
            out: RoutedList::from_vec(Vec::new(alloc)),
            ups: FaceUps::from_vec(Vec::new(alloc)),
            notes: GateNotes::from_vec(Vec::new(alloc)),
        }
    }

    /// Nothing is done but a note. It takes no memory.
    pub(crate) fn noted(alloc: Global, face: Face, note: GateNote) -> GateEffects
        ensures { result ≡ only_noted_at face note }
    {
        GateEffects {
            out: RoutedList::from_vec(Vec::new(alloc)),
            ups: FaceUps::from_vec(Vec::new(alloc)),
            notes: GateNotes::one(alloc, FaceNote { face, note }),
        }
    }

    /// What the engine of a face does is done there. Green data is dropped. Memory is wanted only
    /// where something is sent or handed up, or more than one thing is noted.
    pub(crate) fn at(alloc: Global, face: Face, told: Effects) -> Result<GateEffects, AllocError>
        ensures routed { IfOk result (λ effects. effects ≡ routed_at face told) }
        ensures wanted { OnErr result (IsQuietTold told → ⊥) }
    {
        let Effects {
            out,
            ups,
            notes,
            ..
        } = told;
        Ok(GateEffects {
            out: datagrams_at(alloc, face, out)?,
            ups: ups_at(alloc, face, ups)?,
            notes: notes_at(alloc, face, notes)?,
        })
    }

    /// Whether nothing is done.
    fn is_nothing(&self) -> bool
        ensures { result ≡ (((length self.now.out == 0) && (length self.now.ups == 0))
            && (length self.now.notes == 0)) }
    {
        self.out.as_slice().is_empty()
            && self.ups.as_slice().is_empty()
            && self.notes.as_slice().is_empty()
    }

    /// These effects, and others after them. Memory is wanted only where there are others.
    pub(crate) fn followed_by(self, more: GateEffects) -> Result<GateEffects, AllocError>
        ensures joined { IfOk result (λ all. all ≡ joined_with self more) }
        ensures wanted { OnErr result (more ≡ nothing_routed → ⊥) }
    {
        if more.is_nothing() {
            return Ok(self);
        }
        self.joined_with(more)
    }

    /// These effects, and others after them.
    fn joined_with(self, more: GateEffects) -> Result<GateEffects, AllocError>
        ensures { IfOk result (λ all. all ≡ joined_with self more) }
    {
        let GateEffects { out, ups, notes } = self;
        let mut out = out.into_vec();
        let mut ups = ups.into_vec();
        let mut notes = notes.into_vec()?;
        let mut more_out = more.out.into_vec();
        let mut more_ups = more.ups.into_vec();
        let mut more_notes = more.notes.into_vec()?;
        out.append(&mut more_out)?;
        ups.append(&mut more_ups)?;
        notes.append(&mut more_notes)?;
        Ok(GateEffects {
            out: RoutedList::from_vec(out),
            ups: FaceUps::from_vec(ups),
            notes: GateNotes::from_vec(notes),
        })
    }
}

/// Datagrams that go out at a face. Memory is wanted only where there are any.
fn datagrams_at(alloc: Global, face: Face, out: Outs) -> Result<RoutedList, AllocError>
    ensures routed { IfOk result (λ all. all ≡ map (datagram_at face) out) }
    ensures wanted { OnErr result (out ≡ [] → ⊥) }
{
    if out.as_slice().is_empty() {
        return Ok(RoutedList::from_vec(Vec::new(alloc)));
    }
    all_datagrams_at(alloc, face, out)
}

/// All datagrams, which go out at a face.
fn all_datagrams_at(alloc: Global, face: Face, out: Outs) -> Result<RoutedList, AllocError>
    ensures { IfOk result (λ all. all ≡ map (datagram_at face) out) }
{
    let mut items = Vec::new(alloc);
    'each: for datagram in out.into_vec() {
        items.push(Routed { face, datagram })?;
    }
    Ok(RoutedList::from_vec(items))
}

/// Red parts that were handed up at a face. Memory is wanted only where there are any.
fn ups_at(alloc: Global, face: Face, ups: Ups) -> Result<FaceUps, AllocError>
    ensures told { IfOk result (λ all. all ≡ map (told_at face) ups) }
    ensures wanted { OnErr result (ups ≡ [] → ⊥) }
{
    if ups.as_slice().is_empty() {
        return Ok(FaceUps::from_vec(Vec::new(alloc)));
    }
    all_ups_at(alloc, face, ups)
}

/// All red parts, which were handed up at a face.
fn all_ups_at(alloc: Global, face: Face, ups: Ups) -> Result<FaceUps, AllocError>
    ensures { IfOk result (λ all. all ≡ map (told_at face) ups) }
{
    let mut items = Vec::new(alloc);
    'each: for up in ups.into_vec() {
        let Up { session, body } = up;
        items.push(FaceUp {
            face,
            session,
            body,
        })?;
    }
    Ok(FaceUps::from_vec(items))
}

/// Notes about a face, by its engine. Memory is wanted only where there is more than one.
fn notes_at(alloc: Global, face: Face, notes: Notes) -> Result<GateNotes, AllocError>
    ensures notes { IfOk result (λ all. all ≡ map (engine_note_at face) notes) }
    ensures wanted { OnErr result (length notes ≤ 1 → ⊥) }
{
    if notes.as_slice().len() > 1 {
        return all_notes_at(alloc, face, notes);
    }
    match notes.as_slice().first().copied() {
        None => Ok(GateNotes::from_vec(Vec::new(alloc))),
        Some(note) => Ok(GateNotes::one(alloc, engine_note_at(face, note))),
    }
}

/// All notes about a face, by its engine.
fn all_notes_at(alloc: Global, face: Face, notes: Notes) -> Result<GateNotes, AllocError>
    ensures { IfOk result (λ all. all ≡ map (engine_note_at face) notes) }
{
    let mut items = Vec::new(alloc);
    'each: for note in notes.into_vec()? {
        items.push(engine_note_at(face, note))?;
    }
    Ok(GateNotes::from_vec(items))
}

/// A note about a face, by its engine.
fn engine_note_at(face: Face, note: Note) -> FaceNote
    ensures { result ≡ engine_note_at face note }
{
    FaceNote {
        face,
        note: GateNote::Engine { note },
    }
}
