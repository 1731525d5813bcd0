//! Sending what a step sends, and writing what is said of it.
ghost use Rattle.std.specs.Prelude.{◌≡◌, ◌≤◌, ◌<◌, ◌+◌, ◌*◌, ◌++◌, [], length, Err, IfOk, OnErr, true, false};
ghost use Rattle.std.specs.String.{string_bytes, string_len, string_capacity};
ghost use Rattle.serve_run.specs.Turns.{sends, sends_all, does};
ghost use Rattle.serve_run.specs.Deeds.{link_line};
ghost use Rattle.serve_run.specs.Edges.{TextWritten};
ghost use Rattle.serve_run.specs.Tells.{Sent, Goes};
ghost use Rattle.serve_run.specs.Effects.{effects_in};
ghost use Rattle.serve_run.specs.declared.stop.Stop.TheVariants.{NoMemory};

use crate::edges::Edges;
use crate::notes::{NOTE_LENGTH, link_line};
use crate::stop::Stop;
use crate::turn_step::Effects;
use edge_traits::Failed;
use gate_cases::Face;
use gateway_core::Routed;
use std::alloc::{AllocError, Global};

/// A text with room for notes of so many sends, and for a text after them. Where nothing is sent, no
/// memory is wanted.
fn room_for(alloc: Global, sends: usize, text: usize) -> Result<String, AllocError>
    ensures ok { IfOk result (λ notes. (string_bytes notes ≡ []) × (string_len notes ≡ 0)
        × (0 < sends → 14 * sends + text ≤ string_capacity notes)) }
    ensures err { OnErr result (0 < sends) }
{
    if sends == 0 {
        return Ok(String::new(alloc));
    }
    let Some(notes) = sends.checked_mul(NOTE_LENGTH) else {
        return Err(AllocError);
    };
    match notes.checked_add(text) {
        Some(room) => String::with_capacity(alloc, room),
        None => Err(AllocError),
    }
}

/// Notes that a send failed, where a text has room for that.
fn note_lost(notes: &mut String, face: Face)
    requires room { string_len notes.old + 14 ≤ string_capacity notes.old }
    ensures noted { string_bytes notes.new ≡ string_bytes notes.old ++ link_line face true }
    ensures long { string_len notes.new ≡ string_len notes.old + 14 }
    ensures capacity { string_capacity notes.old ≤ string_capacity notes.new }
{
    let _ = notes.push_str(link_line(face, true));
}

/// Sends a datagram, and notes where that failed.
fn send_one<E: Edges>(routed: &Routed, notes: &mut String, edges: &mut E)
    requires room { string_len notes.old + 14 ≤ string_capacity notes.old }
    ensures sent { Sent (sends routed.now) tt (string_bytes notes.old) (string_bytes notes.new)
        (E.outside edges.old) (E.outside edges.new) }
    ensures sink { E.sink edges.new ≡ E.sink edges.old }
    ensures lent { E.lent edges.new ≡ E.lent edges.old }
    ensures long { string_len notes.new ≤ string_len notes.old + 14 }
    ensures capacity { string_capacity notes.old ≤ string_capacity notes.new }
{
    match edges.send(routed.face, routed.datagram.as_slice()) {
        Ok(()) => {}
        Err(Failed) => note_lost(notes, routed.face),
    }
}

/// Sends datagrams in their order, and notes each whose sending failed. There is room for all notes,
/// so that no memory is wanted between two sends.
fn send_all<E: Edges>(out: &[Routed], notes: &mut String, edges: &mut E)
    requires room { string_len notes.old + 14 * length out.now ≤ string_capacity notes.old }
    ensures sent { Sent (sends_all out.now) tt (string_bytes notes.old) (string_bytes notes.new)
        (E.outside edges.old) (E.outside edges.new) }
    ensures sink { E.sink edges.new ≡ E.sink edges.old }
    ensures lent { E.lent edges.new ≡ E.lent edges.old }
    ensures long { string_len notes.new ≤ string_len notes.old + 14 * length out.now }
    ensures capacity { string_capacity notes.old ≤ string_capacity notes.new }
{
    let mut at = 0;
    'sending: while at < out.len() {
        send_one(&out[at], notes, edges);
        at += 1;
    }
}

/// Writes a text after notes, in one piece. Where there are notes, they have room for it.
fn write_after<E: Edges>(edges: &mut E, notes: String, text: &str) -> Result<(), Failed>
    requires room { 0 < string_len notes → string_len notes + length text.now ≤ string_capacity notes }
    ensures wrote { TextWritten (string_bytes notes ++ text.now) result
        (E.outside edges.old) (E.outside edges.new) (E.sink edges.old) (E.sink edges.new) }
    ensures lent { E.lent edges.new ≡ E.lent edges.old }
{
    if notes.is_empty() {
        return edges.write(text.as_bytes());
    }
    let mut whole = notes;
    let _ = whole.push_str(text);
    edges.write(whole.as_bytes())
}

/// Sends what a step sends, and writes what is said of it: which sends failed, and then its lines. All
/// memory that this wants is taken before the first send.
pub fn perform<E: Edges>(alloc: Global, effects: Effects, edges: &mut E) -> Result<(), Stop>
    ensures goes { Goes (λ x y. Unit {0}) (does (effects_in effects))
        (E.outside edges.old) (E.outside edges.new) (E.sink edges.old) (E.sink edges.new) result }
    ensures lent { E.lent edges.new ≡ E.lent edges.old }
    // Where memory runs out, a step that sends something has sent nothing and written nothing.
    ensures early { result ≡ Err NoMemory → (0 < length effects.out) × (edges.new ≡ edges.old) }
{
    let Effects { out, text } = effects;
    let Ok(mut notes) = room_for(alloc, out.as_slice().len(), text.len()) else {
        return Err(Stop::NoMemory);
    };
    send_all(out.as_slice(), &mut notes, edges);
    match write_after(edges, notes, text.as_str()) {
        Ok(()) => Ok(()),
        Err(Failed) => Err(Stop::Fault),
    }
}

/// Writes that a poll failed.
pub fn write_poll_failed<E: Edges>(edges: &mut E, face: Face) -> Result<(), Failed>
    ensures wrote { TextWritten (link_line face false) result
        (E.outside edges.old) (E.outside edges.new) (E.sink edges.old) (E.sink edges.new) }
    ensures lent { E.lent edges.new ≡ E.lent edges.old }
{
    edges.write(link_line(face, false).as_bytes())
}
