//! A link, told by lines.

ghost use Rattle.std.specs.Prelude.{◌≡◌, ◌<◌, ◌≤◌, ◌^◌, ◌++◌, ◌∷◌, ℕ, List, [], length, IfOk, IfSome};
ghost use Rattle.std.specs.String.{string_bytes};
ghost use Rattle.command_frame.specs.Stops.{IsStop};
ghost use Rattle.command_frame.specs.Lines.{TurnsAs, ends_run};
ghost use Rattle.contact_plan.specs.Fault.{plan_fault};
ghost use Rattle.edge_traits.specs.declared.status.Status.TheVariants as statuses;
ghost use Rattle.link_run.specs.Link.{LinkCourse, LinkSetup, LinkStart, LinkState, are_given, delivers, drains, drains_by_picks, later_said, link_ending, link_line, link_rules, link_turn, no_link, passes_to, planned_line, sends, start_in, start_turn, window_turn, without_picks};
ghost use Rattle.link_run.specs.Picks.{said_picks};
ghost use Rattle.link_run.specs.Shows.{Answers, IsUnset, PlannedAs, RunsAs, ShowsLink, StandsFor};
ghost use Rattle.link_run.specs.WrittenLines.{refusal_line, refused_line};

use crate::on_link::Running;
use crate::planned::Planned;
use crate::script::{SetUp, end_named, read_planned, read_running, read_start, window_of};
use crate::written_lines::{write_refusal, write_refused_line};
use crate::{picked, running};
use command_frame::{LineStep, MOST_LINES, MOST_OCTETS};
use contact_plan::{Plan, PlanFault, Window};
use edge_traits::Status;
use ltp_session::NO_MOMENT;
use ltp_world::End;
use replay_script::{LineFault, LinkEvent, PickWord};
use std::alloc::{AllocError, Global};

/// How far a script has come.
#[derive(Debug, Drop)]
pub(crate) enum Course {
    /// No line came.
    Unset,
    /// The link is set up.
    Plans(Planned),
    /// Events happen.
    Runs(Running),
    /// The link was drained.
    Over,
}

/// What `link` keeps from line to line.
///
/// After want of memory each line is answered by that again.
#[derive(Debug, Drop)]
pub struct Link {
    alloc: Global,
    course: Course,
    spent: bool,
}

impl Link {
    /// No line came yet.
    pub fn new(alloc: Global) -> Link
        ensures stands { ⟦<Link as LineStep>⟧.Shows result no_link }
        // Memory is wanted of an input without lines only for the line that refuses it.
        ensures fresh { (state : LinkState) → ⟦<Link as LineStep>⟧.Shows result state
            → ⟦<Link as LineStep>⟧.Began result → 0 < length (link_ending state).text }
    {
        Link {
            alloc,
            course: Course::Unset,
            spent: false,
        }
    }
}

/// Answers a line, by what came before it.
fn step(
    alloc: Global,
    course: Course,
    number: u64,
    line: &[u8],
    text: &mut String,
) -> Result<(Course, Option<Status>), AllocError>
    ensures stops { IfOk result (λ answer. IfSome answer.1 IsStop) }
    ensures turn { (state : LinkState) → StandsFor course state
        → IfOk result (Answers (link_turn number state line.now) (string_bytes text.old) (string_bytes text.new)) }
{
    match course {
        Course::Unset => begin(alloc, number, line, text),
        Course::Plans(planned) => plan(alloc, planned, number, line, text),
        Course::Runs(running) => {
            let said = read_running(alloc, running.windows, line)?;
            answer(alloc, running, number, said, text)
        }
        Course::Over => {
            write_refused_line(alloc, text, number, "AfterDrain")?;
            Ok((Course::Over, Some(Status::Refused)))
        }
    }
}

/// Answers the first line, which sets up a link.
fn begin(
    alloc: Global,
    number: u64,
    line: &[u8],
    text: &mut String,
) -> Result<(Course, Option<Status>), AllocError>
    ensures stops { IfOk result (λ answer. IfSome answer.1 IsStop) }
    ensures turn { IfOk result (Answers (start_turn number (start_in line.now)) (string_bytes text.old) (string_bytes text.new)) }
{
    match read_start(alloc, line) {
        Ok(start) if start.now >= NO_MOMENT => Ok((Course::Unset, Some(Status::Limit))),
        Ok(start) => {
            let SetUp { policy, now } = start;
            let planned = Planned {
                policy,
                now,
                plan: Plan::empty(alloc),
                windows: false,
            };
            Ok((Course::Plans(planned), None))
        }
        Err(LineFault::Memory) => Err(AllocError),
        Err(fault) => {
            write_refusal(alloc, text, number, fault)?;
            Ok((Course::Unset, Some(Status::Refused)))
        }
    }
}

/// Answers a line before the first event: a window, or an event of the link that begins with it.
fn plan(
    alloc: Global,
    planned: Planned,
    number: u64,
    line: &[u8],
    text: &mut String,
) -> Result<(Course, Option<Status>), AllocError>
    ensures stops { IfOk result (λ answer. IfSome answer.1 IsStop) }
    ensures turn { (start : LinkStart) (windows : List Window) → PlannedAs planned start windows
        → IfOk result (Answers (planned_line number start windows
        (without_picks (are_given windows) line.now (later_said line.now)))
        (string_bytes text.old) (string_bytes text.new)) }
{
    let said = read_planned(alloc, planned.windows, line)?;
    match window_of(&said) {
        Some(window) => add(alloc, planned, window, number, text),
        None => answer(alloc, planned.begins(alloc)?, number, said, text),
    }
}

/// A window is given.
fn add(
    alloc: Global,
    planned: Planned,
    window: Window,
    number: u64,
    text: &mut String,
) -> Result<(Course, Option<Status>), AllocError>
    ensures stops { IfOk result (λ answer. IfSome answer.1 IsStop) }
    ensures turn { (start : LinkStart) (windows : List Window) → PlannedAs planned start windows
        → IfOk result (Answers (window_turn number start (windows ++ window ∷ []) (plan_fault (windows ++ window ∷ [])))
        (string_bytes text.old) (string_bytes text.new)) }
{
    let mut planned = planned;
    match planned.plan.add(window) {
        Ok(()) => {
            planned.windows = true;
            Ok((Course::Plans(planned), None))
        }
        Err(fault) => match fault {
            PlanFault::Memory => Err(AllocError),
            _ => {
                write_refused_line(alloc, text, number, "Window")?;
                Ok((Course::Plans(planned), Some(Status::Refused)))
            }
        },
    }
}

/// Answers what a line says on a link.
fn answer(
    alloc: Global,
    running: Running,
    number: u64,
    said: Result<LinkEvent, LineFault>,
    text: &mut String,
) -> Result<(Course, Option<Status>), AllocError>
    ensures stops { IfOk result (λ answer. IfSome answer.1 IsStop) }
    ensures turn { (s : LinkSetup) (c : LinkCourse) → RunsAs running s c
        → IfOk result (Answers (link_line number s c said)
        (string_bytes text.old) (string_bytes text.new)) }
{
    match said {
        Ok(LinkEvent::Send { first, body }) => {
            send(alloc, running, end_named(first), body.as_slice(), text)
        }
        Ok(LinkEvent::Deliver { k }) => deliver(alloc, running, k, text),
        Ok(LinkEvent::Clock { now }) => pass(alloc, running, now, text),
        Ok(LinkEvent::Drain) => drain(alloc, running, text),
        Ok(LinkEvent::DrainBy { picks }) => drain_by(alloc, running, picks.as_slice(), text),
        Ok(LinkEvent::Link { .. }) => refuse(alloc, running, number, LineFault::Word, text),
        Ok(LinkEvent::Window { .. }) => refuse(alloc, running, number, LineFault::Word, text),
        Err(fault) => refuse(alloc, running, number, fault, text),
    }
}

/// A line is refused, for what it says.
fn refuse(
    alloc: Global,
    running: Running,
    number: u64,
    fault: LineFault,
    text: &mut String,
) -> Result<(Course, Option<Status>), AllocError>
    ensures stops { IfOk result (λ answer. IfSome answer.1 IsStop) }
    ensures turn { IfOk result (Answers (ends_run (refusal_line number fault) statuses.Refused)
        (string_bytes text.old) (string_bytes text.new)) }
{
    write_refusal(alloc, text, number, fault)?;
    Ok((Course::Runs(running), Some(Status::Refused)))
}

/// An end submits a block, all of it red.
fn send(
    alloc: Global,
    running: Running,
    end: End,
    block: &[u8],
    text: &mut String,
) -> Result<(Course, Option<Status>), AllocError>
    ensures stops { IfOk result (λ answer. IfSome answer.1 IsStop) }
    ensures turn { (s : LinkSetup) (c : LinkCourse) → RunsAs running s c
        → IfOk result (Answers (sends s c end block.now)
        (string_bytes text.old) (string_bytes text.new)) }
{
    let Running {
        mut world,
        windows,
        mut octets,
    } = running;
    let ends = running::send(alloc, &mut world, &mut octets, end, block, text)?;
    let running = Running {
        world,
        windows,
        octets,
    };
    Ok((Course::Runs(running), ends))
}

/// A datagram comes to the end that didn't send it.
fn deliver(
    alloc: Global,
    running: Running,
    k: u64,
    text: &mut String,
) -> Result<(Course, Option<Status>), AllocError>
    ensures stops { IfOk result (λ answer. IfSome answer.1 IsStop) }
    ensures turn { (s : LinkSetup) (c : LinkCourse) → RunsAs running s c
        → IfOk result (Answers (delivers s c k)
        (string_bytes text.old) (string_bytes text.new)) }
{
    let Running {
        mut world,
        windows,
        mut octets,
    } = running;
    let ends = running::deliver(alloc, &mut world, &mut octets, k, text)?;
    let running = Running {
        world,
        windows,
        octets,
    };
    Ok((Course::Runs(running), ends))
}

/// Time passes, up to a moment that a clock shows.
fn pass(
    alloc: Global,
    running: Running,
    now: u64,
    text: &mut String,
) -> Result<(Course, Option<Status>), AllocError>
    ensures stops { IfOk result (λ answer. IfSome answer.1 IsStop) }
    ensures turn { (s : LinkSetup) (c : LinkCourse) → RunsAs running s c
        → IfOk result (Answers (passes_to s c now)
        (string_bytes text.old) (string_bytes text.new)) }
{
    if now >= NO_MOMENT {
        return Ok((Course::Runs(running), Some(Status::Limit)));
    }
    let Running {
        mut world,
        windows,
        mut octets,
    } = running;
    let ends = running::pass(alloc, &mut world, &mut octets, now, text)?;
    let running = Running {
        world,
        windows,
        octets,
    };
    Ok((Course::Runs(running), ends))
}

/// The link stops losing, until nothing is left to do or the plan ends.
fn drain(
    alloc: Global,
    running: Running,
    text: &mut String,
) -> Result<(Course, Option<Status>), AllocError>
    ensures stops { IfOk result (λ answer. IfSome answer.1 IsStop) }
    ensures turn { (s : LinkSetup) (c : LinkCourse) → RunsAs running s c
        → IfOk result (Answers (drains s c) (string_bytes text.old) (string_bytes text.new)) }
{
    let Running {
        mut world,
        windows,
        octets,
    } = running;
    let ends = running::drain(alloc, &mut world, windows, octets, text)?;
    Ok((Course::Over, ends))
}

/// The same, and picks say what comes next.
fn drain_by(
    alloc: Global,
    running: Running,
    picks: &[PickWord],
    text: &mut String,
) -> Result<(Course, Option<Status>), AllocError>
    ensures stops { IfOk result (λ answer. IfSome answer.1 IsStop) }
    ensures turn { (s : LinkSetup) (c : LinkCourse) → RunsAs running s c
        → IfOk result (Answers (drains_by_picks s c (said_picks picks.now))
        (string_bytes text.old) (string_bytes text.new)) }
{
    let Running { world, octets, .. } = running;
    let ends = picked::drain_by(alloc, world, octets, picks, text)?;
    Ok((Course::Over, ends))
}

impl LineStep for Link {
    ghost State = { LinkState };

    ghost Shows = { λ l. ShowsLink l.spent l.course };

    ghost rules = { link_rules };

    ghost Began = { λ l. IsUnset l.course };

    fn most_lines(&self) -> u32 {
        MOST_LINES
    }

    fn most_octets(&self) -> u32 {
        MOST_OCTETS
    }

    fn line(
        &mut self,
        number: u64,
        line: &[u8],
        text: &mut String,
    ) -> Result<Option<Status>, AllocError> {
        if self.spent {
            return Err(AllocError);
        }
        self.spent = true;
        let course = std::mem::replace(&mut self.course, Course::Over);
        let (course, ends) = step(self.alloc, course, number, line, text)?;
        self.course = course;
        self.spent = false;
        Ok(ends)
    }

    fn finish(&mut self, text: &mut String) -> Result<Status, AllocError> {
        if let Course::Unset = &self.course {
            write_refusal(self.alloc, text, 1, LineFault::Word)?;
            return Ok(Status::Refused);
        }
        Ok(Status::Done)
    }
}
