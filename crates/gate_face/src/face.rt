//! A face of a run.

ghost use Rattle.std.specs.Prelude.{◌≡◌, ◌<◌, ◌^◌, true, IfOk, OnErr, OnOk};
ghost use Rattle.gate_face.specs.Schedules.{HasPlan};
ghost use Rattle.gate_face.specs.Faces.{starts_face};
ghost use Rattle.gate_face.specs.Contacts.{contact_event, end_of, is_told, is_unchanged, told_at, told_of};
ghost use Rattle.gate_face.specs.Halves as spec;
ghost use Rattle.outbox.specs.FaceTime.{moment_at};
ghost use Rattle.outbox.specs.Outbox.{contact_of, fits, next_of};
ghost use Rattle.std.specs.List.{slice_get};

use crate::schedules::{ends_of, schedule_in};
use endpoint::Octets;
use gate_config::FaceConfig;
use gate_log::LinkEvent;
use gate_metrics::LinkGauge;
use outbox::{FaceTime, Outbox, Reading};
use std::alloc::{AllocError, Global};
use std::marker::Model;

/// A face of a run: its outbox, its own time, and what went wrong there in this half.
///
/// In each half it is told what the clocks show ([`FaceRun::read`]) and given what is to be sent
/// ([`FaceRun::put`]); then it is asked what goes ([`FaceRun::next`]) and told which sends failed
/// ([`FaceRun::lose`]). What there is to tell of it are events of the log.
#[derive(Debug, Drop)]
pub struct FaceRun {
    outbox: Outbox,
    time: FaceTime,
    /// When each contact of its schedule ends.
    ends: Vec<u64>,
    /// Whether the clocks were read.
    read: bool,
    /// How many datagrams had been dropped before this half.
    dropped: u64,
    /// How many sends failed in this half.
    lost: u64,
}

impl Model for FaceRun {
    ghost use Rattle.gate_face.specs.Faces.{FaceStanding};
    ghost use Rattle.gate_face.specs.Kept.{IsKeptFace};

    ghost Value = { FaceStanding };

    ghost view = { λ f. record {
      outbox = f.outbox;
      time = f.time;
      dropped = f.dropped;
      lost = f.lost;
    } };

    ghost invariant = { λ f. IsKeptFace f.outbox f.ends.items f.read };
}

impl FaceRun {
    /// A face at which nothing happened yet.
    pub fn new(alloc: Global, config: &FaceConfig) -> Result<FaceRun, AllocError>
        requires { HasPlan config.now }
        ensures { IfOk result (λ face. face ≡ starts_face config.now) }
    {
        let schedule = schedule_in(alloc, config)?;
        let ends = ends_of(alloc, config.contacts.as_slice())?;
        Ok(FaceRun {
            outbox: Outbox::new(alloc, schedule, config.outbox),
            time: FaceTime::new(),
            ends,
            read: false,
            dropped: 0,
            lost: 0,
        })
    }

    /// A half begins: the clocks are read, and the wall clock shows less than 2^62. Answers the face's
    /// moment, which is below 2^62 too, and what there is to tell of its contacts. It takes no memory.
    pub fn read(&mut self, reading: Reading) -> (u64, Option<LinkEvent>)
        requires { reading.wall < 2 ^ 62 }
        ensures moment { result.0 ≡ moment_at (self.old).outbox (self.old).time reading }
        ensures small { result.0 < 2 ^ 62 }
        ensures told { result.1 ≡ told_at (self.old).outbox reading }
        ensures after { self.new ≡ spec.after_clocks reading self.old }
    {
        let (read_before, before) = (self.read, self.outbox.contact());
        let moment = self.time.read(&self.outbox, reading);
        self.dropped = self.outbox.dropped();
        self.lost = 0;
        self.outbox.read(reading);
        self.read = true;
        (moment, self.told(read_before, before, reading.wall))
    }

    /// What there is to tell of its contacts: the clocks were read before or not, and this was the
    /// contact of that reading.
    fn told(&self, read_before: bool, before: Option<usize>, wall: u64) -> Option<LinkEvent>
        ensures { result ≡ told_of ((self.now).outbox.schedule) read_before before
            (contact_of (self.now).outbox) wall }
    {
        if self.is_told(read_before, before) {
            Some(self.contact_event(wall))
        } else {
            None
        }
    }

    /// Whether there is something to tell; of a face without contacts there never is.
    fn is_told(&self, read_before: bool, before: Option<usize>) -> bool
        ensures { result ≡ is_told ((self.now).outbox.schedule).windows read_before before
            (contact_of (self.now).outbox) }
    {
        if self.ends.is_empty() {
            return false;
        }
        !read_before || !is_unchanged(before, self.outbox.contact())
    }

    /// Which contact it is in.
    fn contact_event(&self, wall: u64) -> LinkEvent
        ensures { result ≡ contact_event ((self.now).outbox.schedule)
            (contact_of (self.now).outbox) wall }
    {
        match self.outbox.contact() {
            Some(contact) => LinkEvent::ContactOpened {
                rate: self.outbox.rate(),
                until: self.end_of(contact),
            },
            None => LinkEvent::ContactClosed {
                until: self.outbox.schedule().next(wall),
            },
        }
    }

    /// When the contact of an index ends.
    fn end_of(&self, contact: usize) -> u64
        ensures { result ≡ end_of (slice_get ((self.now).outbox.schedule).windows contact) }
    {
        match self.ends.get(contact) {
            Some(end) => *end,
            None => 0,
        }
    }

    /// A datagram waits from here on, or is dropped and counted where there is no room for it. Only
    /// one that waits wants memory.
    pub fn put(&mut self, datagram: Octets) -> Result<(), AllocError>
        ensures done { OnOk result (self.new ≡ spec.putting datagram self.old) }
        ensures err { OnErr result (self.new ≡ self.old) }
        ensures wanted { OnErr result (fits (self.old).outbox datagram ≡ true) }
    {
        self.outbox.put(datagram)?;
        Ok(())
    }

    /// A datagram is dropped and counted that isn't put, since others keep the room that it would take. It
    /// takes no memory.
    pub fn refuse(&mut self)
        ensures { self.new ≡ spec.refusing self.old }
    {
        self.outbox.refuse();
    }

    /// Takes out the datagram that goes next, if one may go now. It takes no memory.
    pub fn next(&mut self) -> Option<Octets>
        ensures next { result ≡ next_of (self.old).outbox }
        ensures after { self.new ≡ spec.taking self.old }
    {
        self.outbox.next()
    }

    /// The send of a datagram failed.
    pub fn lose(&mut self)
        ensures { self.new ≡ spec.losing self.old }
    {
        self.lost = self.lost.saturating_add(1);
    }

    /// That datagrams were dropped in this half, where some were.
    pub fn full(&self) -> Option<LinkEvent>
        ensures { result ≡ spec.full_event self.now }
    {
        let datagrams = self.outbox.dropped().saturating_sub(self.dropped);
        if datagrams > 0 {
            Some(LinkEvent::OutboxFull { datagrams })
        } else {
            None
        }
    }

    /// That sends failed in this half, where some did.
    pub fn lost(&self) -> Option<LinkEvent>
        ensures { result ≡ spec.lost_event self.now }
    {
        if self.lost > 0 {
            Some(LinkEvent::SendFailed {
                datagrams: self.lost,
            })
        } else {
            None
        }
    }

    /// The datagrams that wait, lent.
    pub fn outbox(&self) -> &Outbox
        ensures { result.now ≡ (self.now).outbox }
    {
        &self.outbox
    }

    /// When the link is open, at the last reading, whose wall clock showed this.
    pub fn link(&self, wall: u64) -> LinkGauge
        ensures { result ≡ spec.link_at (self.now).outbox wall }
    {
        match self.outbox.contact() {
            Some(_) => LinkGauge::Open,
            None => opens_after(self.outbox.schedule().next(wall), wall),
        }
    }
}

/// Whether two readings lie in one contact, or the link is closed at both.
fn is_unchanged(before: Option<usize>, now: Option<usize>) -> bool
    ensures { result ≡ is_unchanged before now }
{
    match (before, now) {
        (None, None) => true,
        (Some(before), Some(now)) => before == now,
        _ => false,
    }
}

/// How long it is till a contact begins.
fn opens_after(begins: Option<u64>, wall: u64) -> LinkGauge
    ensures { result ≡ spec.opens_after begins wall }
{
    match begins {
        Some(begins) => LinkGauge::Opens {
            after: begins.saturating_sub(wall),
        },
        None => LinkGauge::Closed,
    }
}
