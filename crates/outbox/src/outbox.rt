//! The outbox of a face.

ghost use Rattle.std.specs.Prelude.{◌≡◌, ◌≤◌, ◌↔◌, [], length, IsTrue};
ghost use Rattle.outbox.specs.FaceTime.{growth};
ghost use Rattle.outbox.specs.Outbox.{Puts, after_reading, after_refusing, after_sending, contact_of};
ghost use Rattle.outbox.specs.Outbox.{next_of, octets_in, rate_now, starts};

use crate::pace;
use crate::reading::Reading;
use crate::schedule::Schedule;
use endpoint::Octets;
use std::alloc::{AllocError, Global};
use std::collections::VecDeque;
use std::marker::Model;

/// The datagrams that a face has to send.
///
/// A contract sees an outbox as its schedule and limit, the datagrams that wait, how many were
/// dropped, its debt and the last reading of the clocks. The *debt* is what was sent ahead of the
/// pace: 1,000 for each octet that goes, less the rate for each millisecond that passes.
#[derive(Debug, Drop)]
pub struct Outbox {
    schedule: Schedule,
    limit: u64,
    waiting: VecDeque<Octets>,
    octets: u64,
    dropped: u64,
    debt: u128,
    reading: Option<Reading>,
    contact: Option<usize>,
    rate: Option<u64>,
}

impl Model for Outbox {
    ghost use Rattle.outbox.specs.Outbox.{OutboxValue};
    ghost use Rattle.outbox.specs.Kept.{IsKept};

    ghost Value = { OutboxValue };

    ghost view = { λ b. record {
      schedule = b.schedule;
      limit = b.limit;
      waiting = b.waiting.items;
      dropped = b.dropped;
      debt = b.debt;
      reading = b.reading;
    } };

    ghost invariant = { λ b. IsKept record {
      schedule = b.schedule;
      limit = b.limit;
      waiting = b.waiting.items;
      dropped = b.dropped;
      debt = b.debt;
      reading = b.reading;
    } b.octets b.contact b.rate };
}

impl Outbox {
    /// An outbox in which nothing waits, of at most so many octets, before the first reading. It
    /// takes no memory.
    pub fn new(alloc: Global, schedule: Schedule, limit: u64) -> Outbox
        ensures { result ≡ starts schedule limit }
    {
        Outbox {
            schedule,
            limit,
            waiting: VecDeque::new(alloc),
            octets: 0,
            dropped: 0,
            debt: 0,
            reading: None,
            contact: None,
            rate: None,
        }
    }

    /// The clocks are read: what goes next goes at this reading. It takes no memory.
    pub fn read(&mut self, reading: Reading)
        ensures { self.new ≡ after_reading self.old reading }
    {
        let contact = self.schedule.contact(reading.wall);
        let rate = self.schedule.rate(contact);
        let passed = pace::since(self.reading, reading);
        self.debt = pace::debt_at(self.contact, contact, rate, self.debt, passed);
        self.reading = Some(reading);
        self.contact = contact;
        self.rate = rate;
    }

    /// Puts a datagram at the end, or drops and counts it where more octets than the limit would
    /// wait; tells whether it was kept. Only one that is kept may want memory; where there is none
    /// it is lost, and the outbox is as it was.
    pub fn put(&mut self, datagram: Octets) -> Result<bool, AllocError>
        ensures { Puts self.old self.new datagram result }
    {
        let octets = datagram.len() as u64;
        if octets > self.limit - self.octets {
            self.dropped = self.dropped.saturating_add(1);
            return Ok(false);
        }
        self.waiting.push_back(datagram)?;
        self.octets += octets;
        Ok(true)
    }

    /// Drops and counts a datagram that isn't put, since others keep the room that it would take. It
    /// takes no memory.
    pub fn refuse(&mut self)
        ensures { self.new ≡ after_refusing self.old }
    {
        self.dropped = self.dropped.saturating_add(1);
    }

    /// Whether no datagram waits.
    pub fn is_empty(&self) -> bool
        ensures { IsTrue result ↔ ((self.now).waiting ≡ []) }
    {
        self.waiting.is_empty()
    }

    /// How many datagrams wait.
    pub fn len(&self) -> usize
        ensures { result ≡ length (self.now).waiting }
    {
        self.waiting.len()
    }

    /// How many octets wait: at most as many as the limit.
    pub fn octets(&self) -> u64
        ensures octets { result ≡ octets_in (self.now).waiting }
        ensures within { result ≤ (self.now).limit }
    {
        self.octets
    }

    /// How many datagrams were dropped, up to 2^64 - 1.
    pub fn dropped(&self) -> u64
        ensures { result ≡ (self.now).dropped }
    {
        self.dropped
    }

    /// The contact that the last reading lies in, by its index; `None` while the link is closed,
    /// and before the first reading.
    pub fn contact(&self) -> Option<usize>
        ensures { result ≡ contact_of self.now }
    {
        self.contact
    }

    /// The rate at the last reading, in octets a second.
    pub fn rate(&self) -> Option<u64>
        ensures { result ≡ rate_now self.now }
    {
        self.rate
    }

    /// When the link is open, and how many octets a second it takes.
    pub fn schedule(&self) -> &Schedule
        ensures { result.now ≡ (self.now).schedule }
    {
        &self.schedule
    }

    /// By how much the face's time goes on from one reading to the next: not at all while a
    /// datagram waits.
    pub(crate) fn growth(&self, before: Reading, now: Reading) -> u64
        ensures { result ≡ growth (self.now).waiting ((self.now).schedule).windows before now }
    {
        if self.waiting.is_empty() {
            self.schedule.open_time(before, now)
        } else {
            0
        }
    }

    /// Takes out the first datagram, where the link is open and the pace lets it go. It counts for
    /// the pace however its sending ends. It takes no memory.
    pub fn next(&mut self) -> Option<Octets>
        ensures next { result ≡ next_of self.old }
        ensures after { self.new ≡ after_sending self.old }
    {
        if self.contact.is_none() || !pace::is_paced(self.rate, self.debt) {
            return None;
        }
        let datagram = self.waiting.pop_front()?;
        self.octets -= datagram.len() as u64;
        self.debt = pace::owed(self.rate, self.debt, datagram.len());
        Some(datagram)
    }
}
