//! A path, told by lines.

ghost use Rattle.std.specs.Prelude.{◌≡◌, ◌<◌, ◌≤◌, ◌^◌, ◌++◌, ℕ, List, [], true, false, nat_lt, length, None, Some, IfOk, OnErr, IfSome, if◌then◌else◌};
ghost use Rattle.std.specs.String.{string_bytes};
ghost use Rattle.std.proofs.Props.{props};
ghost use Rattle.edge_traits.specs.declared.status.Status.TheVariants as statuses;
ghost use Rattle.command_frame.specs.Stops.{IsStop};
ghost use Rattle.command_frame.specs.Lines.{TurnsAs, passes, ends_run};
ghost use Rattle.command_frame.specs.PartTask.{LeavesTurn};
ghost use Rattle.command_frame.specs.PartLines.{TurnsPart};
ghost use Rattle.path_laws.specs.Path.{PathSetup, Path, sends, delivers, clock_shows};
ghost use Rattle.path_world.specs.Values.{octets_in};
ghost use Rattle.world_run.specs.World.{WorldState, no_path, drained, world_rules, world_turn, start_turn, start_in, happens, drain_made, drains_by, line_turn, line_in, most_sent, says_event, says_drain};
ghost use Rattle.world_run.specs.WrittenLines.{refusal_line, after_drain_line, end_line};
ghost use Rattle.world_run.specs.Shows.{StandsOn, StandsFor, told_text, steps_text};
ghost use Rattle.world_run.specs.Telling.{StandsAs, OwesAs, ShowsWorld, at_once, due_parts, is_over};
ghost use Rattle.world_run.specs.Wanted.{IsStirred, MayWant};

use crate::script::{end_named, read_later, read_start};
use crate::telling::Telling;
use crate::written_lines::{
    write_after_drain, write_effects, write_refusal, write_undelivered, write_unsent,
};
use command_frame::{MOST_LINES, MOST_OCTETS, PartLineStep, Turned};
use edge_traits::Status;
use ltp_engine::SubmitRefused;
use ltp_session::NO_MOMENT;
use ltp_world::{DeliverRefused, DrainRefused};
use path_drain::ends::{drains_are_one, paths_are_timed};
use path_laws::{PathEffects, PathEnd};
use path_world::{PathDrained, PathWorld};
use replay_script::{Event, LineFault};
use std::alloc::{AllocError, Global};

/// The most octets of all datagrams that were sent.
const MOST_SENT: u64 = 1 << 28;

/// How far a script has come.
#[derive(Debug, Drop)]
pub(crate) enum Course {
    /// No line drained the path.
    Open,
    /// One did, and some of that is to be written.
    Drains(Telling),
    /// One did, and all of that is written.
    Over,
}

/// What `world` keeps from line to line: a path, from the first line on, and whether it was drained.
/// The transcript of a drain is told part by part.
///
/// After want of memory each line is answered by that again.
#[derive(Debug, Drop)]
pub struct World {
    alloc: Global,
    path: Option<PathWorld>,
    course: Course,
    spent: bool,
    ghost whole: { spent ≡ false → IfSome path (λ p. p.spent ≡ false) } by { Prim.hlevel props },
}

impl World {
    /// No line came yet.
    pub fn new(alloc: Global) -> World
        ensures shows { ⟦<World as PartLineStep>⟧.Shows result [] no_path }
        ensures none_due { ⟦<World as PartLineStep>⟧.parts result ≡ 0 }
    {
        World {
            alloc,
            path: None,
            course: Course::Open,
            spent: false,
        }
    }

    /// Answers the first line, which sets up a path.
    fn begin(
        &mut self,
        number: u64,
        line: &[u8],
        text: &mut String,
    ) -> Result<Option<Status>, AllocError>
        requires { self.old.path ≡ None }
        ensures stops { IfOk result (λ ends. IfSome ends IsStop) }
        ensures whole { IfOk result (λ ends. IfSome self.new.path (λ p. p.spent ≡ false)) }
        ensures turn { IfOk result (TurnsAs (StandsFor self.new.path) (start_turn number (start_in line.now))
            (string_bytes text.old) (string_bytes text.new)) }
        ensures same { self.new.course ≡ self.old.course }
    {
        paths_are_timed();
        match read_start(self.alloc, line) {
            Ok(start) if start.now >= NO_MOMENT => Ok(Some(Status::Limit)),
            Ok(start) => {
                self.path = Some(PathWorld::new(self.alloc, start.config, start.now));
                Ok(None)
            }
            Err(LineFault::Memory) => Err(AllocError),
            Err(fault) => refuse(self.alloc, number, fault, text),
        }
    }

    /// Answers a line. What is kept counts as spent meanwhile.
    fn turn(&mut self, number: u64, line: &[u8], text: &mut String) -> Result<Turned, AllocError>
        requires spent { self.old.spent ≡ true }
        requires whole { IfSome self.old.path (λ p. p.spent ≡ false) }
        ensures leaves { IfOk result (LeavesTurn (due_parts self.new.course)) }
        ensures whole { IfOk result (λ turned. IfSome self.new.path (λ p. p.spent ≡ false)) }
        ensures turn { (state : WorldState) → StandsAs self.old.course self.old.path state
            → IfOk result (TurnsPart (OwesAs self.new.course self.new.path) (world_turn number state line.now)
            (string_bytes text.old) (string_bytes text.new)) }
    {
        if was_drained(&self.course) {
            return at_once(refuse_after_drain(self.alloc, number, text));
        }
        match &mut self.path {
            Some(path) => answer(self.alloc, path, &mut self.course, number, line, text),
            None => at_once(self.begin(number, line, text)),
        }
    }
}

/// Whether a line drained the path.
fn was_drained(course: &Course) -> bool
    ensures { result ≡ is_over course.now }
{
    match course {
        Course::Open => false,
        Course::Drains(_) | Course::Over => true,
    }
}

/// An answer whose text is written at once.
fn at_once(answer: Result<Option<Status>, AllocError>) -> Result<Turned, AllocError>
    ensures { result ≡ at_once answer }
{
    match answer {
        Ok(None) => Ok(Turned::Passes),
        Ok(Some(status)) => Ok(Turned::Ends(status)),
        Err(AllocError) => Err(AllocError),
    }
}

/// Answers a line that says an event, or that the path is drained.
#[tactic(auto, unfolding(crate::specs::World::line_in))]
fn answer(
    alloc: Global,
    path: &mut PathWorld,
    course: &mut Course,
    number: u64,
    line: &[u8],
    text: &mut String,
) -> Result<Turned, AllocError>
    requires whole { path.old.spent ≡ false }
    requires open { course.old ≡ Course.Open }
    ensures leaves { IfOk result (LeavesTurn (due_parts course.new)) }
    ensures whole { IfOk result (λ turned. path.new.spent ≡ false) }
    ensures turn { (s : PathSetup) (w : Path) → StandsOn path.old s w
        → IfOk result (TurnsPart (OwesAs course.new (Some path.new)) (line_turn number s w (line_in line.now))
        (string_bytes text.old) (string_bytes text.new)) }
{
    match read_later(alloc, line) {
        Ok(Event::Send { old, body }) => {
            at_once(send(alloc, path, end_named(old), body.as_slice(), text))
        }
        Ok(Event::Deliver { k }) => at_once(deliver(alloc, path, k, text)),
        Ok(Event::Clock { now }) if now >= NO_MOMENT => Ok(Turned::Ends(Status::Limit)),
        Ok(Event::Clock { now }) => at_once(pass(alloc, path, now, text)),
        Ok(Event::Drain) => drain(path, course),
        Ok(Event::Path { .. }) => at_once(refuse(alloc, number, LineFault::Word, text)),
        Err(fault) => match fault {
            LineFault::Memory => Err(AllocError),
            cause => at_once(refuse(alloc, number, cause, text)),
        },
    }
}

/// An end sends octets.
fn send(
    alloc: Global,
    path: &mut PathWorld,
    end: PathEnd,
    body: &[u8],
    text: &mut String,
) -> Result<Option<Status>, AllocError>
    requires { path.old.spent ≡ false }
    ensures stops { IfOk result (λ ends. IfSome ends IsStop) }
    ensures whole { IfOk result (λ ends. path.new.spent ≡ false) }
    ensures turn { (s : PathSetup) (w : Path) → StandsOn path.old s w
        → IfOk result (TurnsAs (StandsFor (Some path.new)) (happens s w (sends end body.now))
        (string_bytes text.old) (string_bytes text.new)) }
{
    match path.send(end, body) {
        Ok(effects) => tell(alloc, path, effects, text),
        Err(refused) => match refused {
            SubmitRefused::Memory => Err(AllocError),
            cause => {
                write_unsent(alloc, text, end, cause)?;
                Ok(None)
            }
        },
    }
}

/// A datagram comes to where it was sent.
fn deliver(
    alloc: Global,
    path: &mut PathWorld,
    k: u64,
    text: &mut String,
) -> Result<Option<Status>, AllocError>
    requires { path.old.spent ≡ false }
    ensures stops { IfOk result (λ ends. IfSome ends IsStop) }
    ensures whole { IfOk result (λ ends. path.new.spent ≡ false) }
    ensures turn { (s : PathSetup) (w : Path) → StandsOn path.old s w
        → IfOk result (TurnsAs (StandsFor (Some path.new)) (happens s w (delivers k))
        (string_bytes text.old) (string_bytes text.new)) }
{
    match path.deliver(k as usize) {
        Ok(effects) => tell(alloc, path, effects, text),
        Err(DeliverRefused::Memory) => Err(AllocError),
        Err(DeliverRefused::NoSuchDatagram) => {
            write_undelivered(alloc, text)?;
            Ok(None)
        }
    }
}

/// Time passes, up to this moment.
fn pass(
    alloc: Global,
    path: &mut PathWorld,
    now: u64,
    text: &mut String,
) -> Result<Option<Status>, AllocError>
    requires whole { path.old.spent ≡ false }
    requires moment { now < 2 ^ 62 }
    ensures stops { IfOk result (λ ends. IfSome ends IsStop) }
    ensures whole { IfOk result (λ ends. path.new.spent ≡ false) }
    ensures turn { (s : PathSetup) (w : Path) → StandsOn path.old s w
        → IfOk result (TurnsAs (StandsFor (Some path.new)) (happens s w (clock_shows now))
        (string_bytes text.old) (string_bytes text.new)) }
    // Where no timer is due, and so nothing is to be written, no memory is wanted.
    ensures memory { (s : PathSetup) (w : Path) → StandsOn path.old s w
        → OnErr result (MayWant path.old (says_event (clock_shows now)) (happens s w (clock_shows now))) }
{
    let effects = path.clock(now)?;
    tell(alloc, path, effects, text)
}

/// Whether all datagrams that were sent have more octets than may be.
fn too_much_was_sent(path: &PathWorld) -> bool
    ensures { result ≡ nat_lt most_sent (octets_in path.now.sent) }
{
    path.octets() > MOST_SENT
}

/// Writes what an event did, unless more octets were sent by then than may be.
fn tell(
    alloc: Global,
    path: &PathWorld,
    effects: PathEffects,
    text: &mut String,
) -> Result<Option<Status>, AllocError>
    ensures stops { IfOk result (λ ends. IfSome ends IsStop) }
    ensures told { (state : WorldState) → IfOk result (TurnsAs (λ now. now ≡ state)
        (if nat_lt most_sent (octets_in path.now.sent) then ends_run [] statuses.Limit else passes (told_text effects) state)
        (string_bytes text.old) (string_bytes text.new)) }
    // Memory is wanted only where there is something to write, and it is to be written.
    ensures memory { OnErr result ((octets_in path.now.sent ≤ most_sent) × (0 < length (told_text effects))) }
{
    if too_much_was_sent(path) {
        return Ok(Some(Status::Limit));
    }
    write_effects(alloc, text, effects)?;
    Ok(None)
}

/// The path stops losing, until nothing is left to do.
fn drain(path: &mut PathWorld, course: &mut Course) -> Result<Turned, AllocError>
    requires { path.old.spent ≡ false }
    ensures leaves { IfOk result (LeavesTurn (due_parts course.new)) }
    ensures whole { IfOk result (λ turned. path.new.spent ≡ false) }
    ensures turn { (s : PathSetup) (w : Path) (text : List ℕ) → StandsOn path.old s w
        → IfOk result (TurnsPart (OwesAs course.new (Some path.new)) (drains_by s w (drain_made s w)) text text) }
    // Where there is nothing to do, or the first event would be too late, no memory is wanted.
    ensures memory { OnErr result (IsStirred path.old says_drain) }
{
    drains_are_one();
    match path.drain() {
        Ok(done) => Ok(owe(path, course, done)),
        Err(DrainRefused::TooLate) => Ok(Turned::Ends(Status::Limit)),
        Err(DrainRefused::Memory) => Err(AllocError),
    }
}

/// What a drain did is to be written, unless more octets were sent by then than may be.
fn owe(path: &PathWorld, course: &mut Course, done: PathDrained) -> Turned
    ensures leaves { LeavesTurn (due_parts course.new) result }
    ensures owed { (text : List ℕ) → TurnsPart (OwesAs course.new (Some path.now))
        (if nat_lt most_sent (octets_in path.now.sent) then ends_run [] statuses.Limit
        else passes (steps_text done.effects ++ end_line done.events) drained) text text result }
{
    if too_much_was_sent(path) {
        return Turned::Ends(Status::Limit);
    }
    *course = Course::Drains(Telling::new(done));
    Turned::Owes
}

/// Line `number` is refused.
fn refuse(
    alloc: Global,
    number: u64,
    fault: LineFault,
    text: &mut String,
) -> Result<Option<Status>, AllocError>
    ensures { IfOk result (λ ends. (ends ≡ Some Status.Refused)
        × (string_bytes text.new ≡ string_bytes text.old ++ refusal_line number fault)) }
{
    write_refusal(alloc, text, number, fault)?;
    Ok(Some(Status::Refused))
}

/// Line `number`, which stands after `drain`, is refused, whatever it says.
fn refuse_after_drain(
    alloc: Global,
    number: u64,
    text: &mut String,
) -> Result<Option<Status>, AllocError>
    ensures { IfOk result (λ ends. (ends ≡ Some Status.Refused)
        × (string_bytes text.new ≡ string_bytes text.old ++ after_drain_line number)) }
{
    write_after_drain(alloc, text, number)?;
    Ok(Some(Status::Refused))
}

impl PartLineStep for World {
    ghost State = { WorldState };

    ghost Shows = { λ w. ShowsWorld w.spent w.course w.path };

    ghost rules = { world_rules };

    ghost Began = { λ w. w.path ≡ None };

    ghost parts = { λ w. due_parts w.course };

    fn most_lines(&self) -> u32 {
        MOST_LINES
    }

    fn most_octets(&self) -> u32 {
        MOST_OCTETS
    }

    fn line(&mut self, number: u64, line: &[u8], text: &mut String) -> Result<Turned, AllocError> {
        if self.spent {
            return Err(AllocError);
        }
        self.spent = true;
        let turned = self.turn(number, line, text)?;
        self.spent = false;
        Ok(turned)
    }

    fn tell(&mut self, text: &mut String) -> Result<bool, AllocError> {
        let Course::Drains(telling) = &mut self.course else {
            return Ok(false);
        };
        if telling.tell(self.alloc, text)? {
            return Ok(true);
        }
        self.course = Course::Over;
        Ok(false)
    }

    fn finish(&mut self, text: &mut String) -> Result<Status, AllocError> {
        if self.path.is_some() {
            return Ok(Status::Done);
        }
        write_refusal(self.alloc, text, 1, LineFault::Word)?;
        Ok(Status::Refused)
    }
}
