//! What is told of a step.

ghost use Rattle.std.specs.Prelude.{◌≡◌, ◌++◌, map, take, IfOk};
ghost use Rattle.path_laws.specs.Path.{join_from, note_from, gate_up, gate_note};
ghost use Rattle.path_world.specs.Values.{nothing_told};
ghost use Rattle.path_world.specs.Ties.{up_at, node_told, gate_told, both_told};

use gateway_core::{FaceNote, FaceUp, FaceUps, GateNote, GateNotes};
use ltp_engine::{Notes, Up, Ups};
use path_laws::{
    EndJoin, JoinAt, NoteAt, PathEffects, Place, PlaceJoins, PlaceNotes, PlaceUps, SentList, UpAt,
};
use std::alloc::{AllocError, Global};

/// Nothing is done. It takes no memory.
pub(crate) fn nothing(alloc: Global) -> PathEffects
    ensures { result ≡ nothing_told }
{
    PathEffects {
        sent: SentList::from_vec(Vec::new(alloc)),
        ups: PlaceUps::from_vec(Vec::new(alloc)),
        joins: PlaceJoins::from_vec(Vec::new(alloc)),
        notes: PlaceNotes::from_vec(Vec::new(alloc)),
    }
}

/// What a node did, at its place.
pub(crate) fn at_node(
    alloc: Global,
    place: Place,
    sent: SentList,
    ups: Ups,
    joins: Vec<EndJoin>,
    notes: Notes,
) -> Result<PathEffects, AllocError>
    ensures { IfOk result (λ told. told ≡ node_told place sent ups joins.items notes) }
{
    Ok(PathEffects {
        sent,
        ups: ups_at(alloc, place, ups)?,
        joins: joins_at(alloc, place, joins)?,
        notes: notes_at(alloc, place, notes)?,
    })
}

/// What the gate did, at its faces.
pub(crate) fn at_gate(
    alloc: Global,
    sent: SentList,
    ups: FaceUps,
    notes: GateNotes,
) -> Result<PathEffects, AllocError>
    ensures { IfOk result (λ told. told ≡ gate_told sent ups notes) }
{
    Ok(PathEffects {
        sent,
        ups: face_ups(alloc, ups)?,
        joins: PlaceJoins::from_vec(Vec::new(alloc)),
        notes: face_notes(alloc, notes)?,
    })
}

/// What was done first, and then more.
pub(crate) fn both(first: PathEffects, more: PathEffects) -> Result<PathEffects, AllocError>
    ensures { IfOk result (λ all. all ≡ both_told first more) }
{
    let mut sent = first.sent.into_vec();
    let mut ups = first.ups.into_vec();
    let mut joins = first.joins.into_vec();
    let mut notes = first.notes.into_vec();
    sent.append(&mut more.sent.into_vec())?;
    ups.append(&mut more.ups.into_vec())?;
    joins.append(&mut more.joins.into_vec())?;
    notes.append(&mut more.notes.into_vec())?;
    Ok(PathEffects {
        sent: SentList::from_vec(sent),
        ups: PlaceUps::from_vec(ups),
        joins: PlaceJoins::from_vec(joins),
        notes: PlaceNotes::from_vec(notes),
    })
}

/// Blocks that came whole at a place.
fn ups_at(alloc: Global, place: Place, ups: Ups) -> Result<PlaceUps, AllocError>
    ensures { IfOk result (λ all. all ≡ map (up_at place) ups) }
{
    let mut items = Vec::new(alloc);
    'each: for up in ups.into_vec() {
        let Up { session, body } = up;
        items.push(UpAt {
            place,
            session,
            body,
        })?;
    }
    Ok(PlaceUps::from_vec(items))
}

/// Answers of the joiner at a place.
fn joins_at(alloc: Global, place: Place, joins: Vec<EndJoin>) -> Result<PlaceJoins, AllocError>
    ensures { IfOk result (λ all. all ≡ map (join_from place) joins.items) }
{
    let mut items = Vec::new(alloc);
    'each: for answer in joins {
        items.push(JoinAt { place, answer })?;
    }
    Ok(PlaceJoins::from_vec(items))
}

/// Notes of the engine at a place.
fn notes_at(alloc: Global, place: Place, notes: Notes) -> Result<PlaceNotes, AllocError>
    ensures { IfOk result (λ all. all ≡ map (note_from place) notes) }
{
    let mut items = Vec::new(alloc);
    'each: for note in notes.into_vec()? {
        let note = GateNote::Engine { note };
        items.push(NoteAt { place, note })?;
    }
    Ok(PlaceNotes::from_vec(items))
}

/// Blocks that came whole at the gate's faces.
fn face_ups(alloc: Global, ups: FaceUps) -> Result<PlaceUps, AllocError>
    ensures { IfOk result (λ all. all ≡ map gate_up ups) }
{
    let mut items = Vec::new(alloc);
    'each: for up in ups.into_vec() {
        let FaceUp {
            face,
            session,
            body,
        } = up;
        items.push(UpAt {
            place: Place::of_face(face),
            session,
            body,
        })?;
    }
    Ok(PlaceUps::from_vec(items))
}

/// Notes about the gate's faces.
fn face_notes(alloc: Global, notes: GateNotes) -> Result<PlaceNotes, AllocError>
    ensures { IfOk result (λ all. all ≡ map gate_note notes) }
{
    let mut items = Vec::new(alloc);
    'each: for noted in notes.into_vec()? {
        let FaceNote { face, note } = noted;
        items.push(NoteAt {
            place: Place::of_face(face),
            note,
        })?;
    }
    Ok(PlaceNotes::from_vec(items))
}
