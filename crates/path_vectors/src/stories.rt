//! What happens on a path, and the lines of it.

ghost use Rattle.std.specs.Prelude.{◌≡◌, false, IfOk, OnOk};

use crate::lines::{are_lines, is_so, octets, write_numbers, write_octets, write_words};
use crate::told::write_note_numbers;
use endpoint::Endpoint;
use gateway_core::{GateConfig, GateNote};
use ltp_segment::Policy;
use ltp_world::DrainRefused;
use path_laws::{EndJoin, JoinAt, NoteAt, PathEffects, PathEnd, Place, SentAt, UpAt};
use path_world::{PathDrained, PathWorld};
use std::alloc::{AllocError, Global};
use std::test::Fail;

/// Moments are below this one.
const MOMENTS: u64 = 1 << 62;

/// What happens on a path.
#[derive(Clone, Copy)]
pub(crate) enum Event {
    /// The old node sends a bundle, in hex.
    Send(&'static str),
    /// A datagram of all that were sent comes to the place across its link.
    Deliver(usize),
    /// The clock is set.
    Clock(u64),
    /// The path stops losing.
    Drain,
}

/// An event, and the lines of what the places do. Of a drain each event's lines come after a line
/// `event`, and the last line has their number.
pub(crate) type Row = (Event, &'static str);

/// A place's name in a line.
fn name_of(place: Place) -> &'static str {
    match place {
        Place::OldNode => "o",
        Place::OldFace => "g.o",
        Place::NewFace => "g.n",
        Place::NewNode => "n",
    }
}

/// Appends the line of a datagram that was sent.
fn write_sent(alloc: Global, text: &mut String, sent: &SentAt) -> Result<(), AllocError> {
    write_words(text, &["sent"])?;
    write_numbers(text, &[sent.k as u64])?;
    write_words(text, &[" ", name_of(sent.from), ">", name_of(sent.to)])?;
    write_octets(alloc, text, sent.datagram.as_slice())
}

/// Appends the line of a block that came whole.
fn write_up(alloc: Global, text: &mut String, up: &UpAt) -> Result<(), AllocError> {
    write_words(text, &["up ", name_of(up.place)])?;
    write_numbers(text, &[up.session])?;
    write_octets(alloc, text, up.body.as_slice())
}

/// Appends the line of a joiner's answer.
fn write_join(alloc: Global, text: &mut String, join: &JoinAt) -> Result<(), AllocError> {
    write_words(
        text,
        &["join ", name_of(join.place), " ", join.answer.word()],
    )?;
    match &join.answer {
        EndJoin::Whole { body } => write_octets(alloc, text, body.as_slice()),
        _ => write_words(text, &["\n"]),
    }
}

/// Appends the numbers of a note, of those that the rows have.
fn write_numbers_of(text: &mut String, note: GateNote) -> Result<(), AllocError> {
    match note {
        GateNote::Passed { session, pieces } => write_numbers(text, &[session, pieces]),
        GateNote::Engine { note } => write_note_numbers(text, note),
        _ => Ok(()),
    }
}

/// Appends the line of a note.
fn write_note(text: &mut String, noted: NoteAt) -> Result<(), AllocError> {
    write_words(
        text,
        &["note ", name_of(noted.place), " ", noted.note.name()],
    )?;
    write_numbers_of(text, noted.note)?;
    write_words(text, &["\n"])
}

/// Appends the lines of an event.
fn write_told(alloc: Global, text: &mut String, told: &PathEffects) -> Result<(), AllocError> {
    for sent in told.sent.as_slice() {
        write_sent(alloc, text, sent)?;
    }
    for up in told.ups.as_slice() {
        write_up(alloc, text, up)?;
    }
    for join in told.joins.as_slice() {
        write_join(alloc, text, join)?;
    }
    for &noted in told.notes.as_slice() {
        write_note(text, noted)?;
    }
    Ok(())
}

/// A path whose engines send what waits for an answer so often, and whose gate cuts payloads to so
/// many octets.
fn path(alloc: Global, limit: u32, cut: u64, start: u64) -> Result<PathWorld, Fail>
    ensures { IfOk result (λ world. world.spent ≡ false) }
{
    let Ok(policy) = Policy::new(1024, 10_000, limit, 10_000) else {
        return Err(Fail::new("there is no such policy"));
    };
    if cut == 0 || cut > 4_000_000 || start >= MOMENTS {
        return Err(Fail::new("there is no such path"));
    }
    let gate = Endpoint::Ipn {
        node: 9,
        service: 0,
    };
    Ok(PathWorld::new(alloc, GateConfig { gate, policy, cut }, start))
}

/// The old node sends a bundle, in hex, and the lines of it are appended.
fn send(alloc: Global, world: &mut PathWorld, digits: &str, text: &mut String) -> Result<(), Fail>
    requires { world.old.spent ≡ false }
    ensures { OnOk result (world.new.spent ≡ false) }
{
    let bundle = octets(alloc, digits)?;
    match world.send(PathEnd::Old, &bundle) {
        Ok(told) => Ok(write_told(alloc, text, &told)?),
        Err(_) => Err(Fail::new("a bundle isn't sent")),
    }
}

/// Datagram `k` comes to the place across its link, and the lines of it are appended.
fn deliver(alloc: Global, world: &mut PathWorld, k: usize, text: &mut String) -> Result<(), Fail>
    requires { world.old.spent ≡ false }
    ensures { OnOk result (world.new.spent ≡ false) }
{
    match world.deliver(k) {
        Ok(told) => Ok(write_told(alloc, text, &told)?),
        Err(_) => Err(Fail::new("a row has no datagram")),
    }
}

/// The clock is set, and the lines of it are appended.
fn set_clock(alloc: Global, world: &mut PathWorld, now: u64, text: &mut String) -> Result<(), Fail>
    requires { world.old.spent ≡ false }
    ensures { OnOk result (world.new.spent ≡ false) }
{
    if now >= MOMENTS {
        return Err(Fail::new("a row is too late"));
    }
    let told = world.clock(now)?;
    Ok(write_told(alloc, text, &told)?)
}

/// Appends the lines of a drain.
fn write_drained(
    alloc: Global,
    text: &mut String,
    drained: &PathDrained,
) -> Result<(), AllocError> {
    for told in drained.effects.as_slice() {
        write_words(text, &["event\n"])?;
        write_told(alloc, text, told)?;
    }
    write_words(text, &["events"])?;
    write_numbers(text, &[drained.events])?;
    write_words(text, &["\n"])
}

/// The path stops losing, and the lines of it are appended.
fn drain(alloc: Global, world: &mut PathWorld, text: &mut String) -> Result<(), Fail>
    requires { world.old.spent ≡ false }
    ensures { OnOk result (world.new.spent ≡ false) }
{
    match world.drain() {
        Ok(drained) => Ok(write_drained(alloc, text, &drained)?),
        Err(DrainRefused::TooLate) => Ok(write_words(text, &["TooLate\n"])?),
        Err(DrainRefused::Memory) => Err(Fail::new("memory ran out")),
    }
}

/// An event happens, and the lines of it are appended.
fn happens(
    alloc: Global,
    world: &mut PathWorld,
    event: Event,
    text: &mut String,
) -> Result<(), Fail>
    requires { world.old.spent ≡ false }
    ensures { OnOk result (world.new.spent ≡ false) }
{
    match event {
        Event::Send(digits) => send(alloc, world, digits, text),
        Event::Deliver(k) => deliver(alloc, world, k, text),
        Event::Clock(now) => set_clock(alloc, world, now, text),
        Event::Drain => drain(alloc, world, text),
    }
}

/// An event goes as its row says.
fn holds(alloc: Global, world: &mut PathWorld, row: Row) -> Result<(), Fail>
    requires { world.old.spent ≡ false }
    ensures { OnOk result (world.new.spent ≡ false) }
{
    let mut text = String::new(alloc);
    happens(alloc, world, row.0, &mut text)?;
    are_lines(text.as_str(), row.1)
}

/// A path, what happens there, and where it stands then.
pub(crate) struct Story {
    pub limit: u32,
    pub cut: u64,
    pub start: u64,
    pub rows: &'static [Row],
    /// The clock at the end.
    pub now: u64,
    /// How many datagrams were sent, and the octets of all of them.
    pub sent: usize,
    pub octets: u64,
    /// When a timer is due then.
    pub deadline: Option<u64>,
}

/// A path goes as a story tells, and stands then as it says.
fn play(alloc: Global, world: &mut PathWorld, story: &Story) -> Result<(), Fail>
    requires { world.old.spent ≡ false }
{
    for &row in story.rows {
        holds(alloc, world, row)?;
    }
    is_so(world.now() == story.now, "the clock at the end")?;
    is_so(world.sent() == story.sent, "how many datagrams were sent")?;
    is_so(world.octets() == story.octets, "the octets of all of them")?;
    is_so(
        world.next_deadline() == story.deadline,
        "when a timer is due at the end",
    )
}

/// A story goes as it is told.
pub(crate) fn goes(alloc: Global, story: &Story) -> Result<(), Fail> {
    let mut world = path(alloc, story.limit, story.cut, story.start)?;
    play(alloc, &mut world, story)
}
