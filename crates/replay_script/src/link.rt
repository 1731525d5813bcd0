//! The lines of a script for two engines on a link.

ghost use Rattle.std.specs.Prelude.{◌≡◌, IsOk};
ghost use Rattle.std.specs.Option.{option_map};
ghost use Rattle.replay_script.specs.Events.{Reads};
ghost use Rattle.replay_script.specs.LinkEvents.{is_link_line, link_event_of, link_numbers};
ghost use Rattle.replay_script.specs.LinkEvents.{link_words};
ghost use Rattle.replay_script.specs.LinkTies.{link_event_in, link_value};

use crate::fault::LineFault;
use crate::hexadecimal::octets_in;
use crate::link_judging::{LinkSaid, judge_link};
use crate::numeral::{number, number_in};
use crate::path::{LEAST_SEGMENT, LIMIT, MOST_SEGMENT, WAIT};
use crate::picks::{PickWords, picks_in};
use crate::words::Words;
use endpoint::Octets;
use std::alloc::Global;

/// A line of a script for two engines on a link, which may be open in windows alone.
#[derive(Debug, Drop)]
pub enum LinkEvent {
    /// `link`: what the run stands on. Its line is the first one.
    Link {
        /// The octets of a segment's data, from 512 to 8,192.
        segment: u64,
        /// The first wait for an answer in ms, from 1 to 3,600,000.
        timeout: u64,
        /// The most times that a segment is sent which waits for an answer, from 1 to 100.
        limit: u64,
        /// The longest wait in ms, from the timeout to 3,600,000.
        cap: u64,
        /// The moment at which the clock begins, in ms.
        start: u64,
    },

    /// `window`: the link is open in these moments. Such lines follow the first one.
    Window {
        /// The first moment in ms.
        from: u64,
        /// The first moment after it.
        to: u64,
    },

    /// `send`: an end submits a block, all of it red.
    Send {
        /// Whether the end is the first one.
        first: bool,
        /// The block, which may be empty.
        body: Octets,
    },

    /// `deliver`: a datagram comes to the end that didn't send it, at the first time or again.
    Deliver {
        /// The datagram's number among all that were sent.
        k: u64,
    },

    /// `clock`: time passes.
    Clock {
        /// The moment in ms.
        now: u64,
    },

    /// `drain`: all that is sent from now on arrives, until nothing is left to do. Its line is the
    /// last one.
    Drain,

    /// `drain` and picks: the same, but what arrives next is what the picks say, and after them
    /// the oldest. It is meant for a link that is always open.
    DrainBy {
        /// The picks, at least one and at most 100,000.
        picks: PickWords,
    },
}

/// The words of a line `link` after the first.
#[derive(Clone, Copy, Debug)]
pub(crate) struct LinkTexts<'a> {
    pub segment: &'a [u8],
    pub timeout: &'a [u8],
    pub limit: &'a [u8],
    pub cap: &'a [u8],
    pub start: &'a [u8],
}

/// The numbers of a line `link`.
#[derive(Clone, Copy, Debug)]
pub(crate) struct LinkNumbers {
    pub segment: u64,
    pub timeout: u64,
    pub limit: u64,
    pub cap: u64,
    pub start: u64,
}

impl<'a> LinkTexts<'a> {
    /// The words of a line after the first, where they are as many as `link` has.
    pub fn of(words: Words<'a>) -> Option<LinkTexts<'a>>
        ensures { option_map link_value result ≡ link_words words.entry }
    {
        let mut words = words;
        let segment = words.next()?;
        let timeout = words.next()?;
        let limit = words.next()?;
        let cap = words.next()?;
        let start = words.next()?;
        if words.next().is_some() {
            return None;
        }
        Some(LinkTexts {
            segment,
            timeout,
            limit,
            cap,
            start,
        })
    }

    /// The numbers, where all are such and in their ranges.
    #[tactic(auto, unfolding(crate::specs::LinkEvents::link_numbers))]
    pub fn numbers(&self) -> Option<LinkNumbers>
        ensures { result ≡ link_numbers (link_value self.now) }
    {
        let segment = number_in(LEAST_SEGMENT, MOST_SEGMENT, self.segment)?;
        let timeout = number_in(1, WAIT, self.timeout)?;
        let limit = number_in(1, LIMIT, self.limit)?;
        let cap = number_in(timeout, WAIT, self.cap)?;
        let start = number(self.start)?;
        Some(LinkNumbers {
            segment,
            timeout,
            limit,
            cap,
            start,
        })
    }
}

/// The event that a line of a script for two engines on a link says. The line is given without its
/// LF. Which line may stand where, which windows may follow each other, and how late a moment may
/// be, is its reader's to say.
pub fn read_link_line(alloc: Global, line: &[u8]) -> Result<LinkEvent, LineFault>
    // Memory is wanted only where the line says an event.
    ensures exact { Reads (link_event_of line.now) result }
{
    link_owned(alloc, judge_link(line)?)
}

/// Whether the first word of a line is `link`, whatever else it has.
#[tactic(auto, unfolding(crate::specs::LinkEvents::is_link_line))]
pub fn is_link_line(line: &[u8]) -> bool
    ensures { result ≡ is_link_line line.now }
{
    let mut words = Words::of(line);
    match words.next() {
        Some(first) => first == b"link".as_slice(),
        None => false,
    }
}

/// The event of a judged line.
fn link_owned(alloc: Global, said: LinkSaid<'_>) -> Result<LinkEvent, LineFault>
    requires { IsOk (link_event_in said) }
    ensures { Reads (link_event_in said.entry) result }
{
    Ok(match said {
        LinkSaid::Link { numbers } => LinkEvent::Link {
            segment: numbers.segment,
            timeout: numbers.timeout,
            limit: numbers.limit,
            cap: numbers.cap,
            start: numbers.start,
        },
        LinkSaid::Window { from, to } => LinkEvent::Window { from, to },
        LinkSaid::Send { first, hex } => LinkEvent::Send {
            first,
            body: octets_in(alloc, hex)?,
        },
        LinkSaid::Deliver { k } => LinkEvent::Deliver { k },
        LinkSaid::Clock { now } => LinkEvent::Clock { now },
        LinkSaid::Drain => LinkEvent::Drain,
        LinkSaid::DrainBy { picks } => LinkEvent::DrainBy {
            picks: picks_in(alloc, picks)?,
        },
    })
}
