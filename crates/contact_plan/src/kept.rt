//! Windows as a plan keeps them, in order, each with the contact time at its end.

ghost use Rattle.std.specs.Prelude.{◌≡◌, ◌≤◌, ◌<◌, ◌-◌, ◌+◌, ◌^◌, MatchOption, nat_lt};
ghost use Rattle.std.specs.Prelude.{if◌then◌else◌};
ghost use Rattle.contact_plan.specs.Kept.{AreKept, Parts, last_from, windows_of};
ghost use Rattle.contact_plan.specs.Windows.{IsMoment, elapsed, index_at, is_open, next_from, total};

use crate::window::Window;

/// A window, and the contact time at its end.
#[derive(Clone, Copy, Debug, PartialEq, Eq)]
pub(crate) struct Kept {
    pub(crate) window: Window,
    pub(crate) contact: u64,
}

impl Kept {
    /// The contact time at a moment before the window's end, and after all windows before it.
    fn contact_at(self, now: u64) -> u64
        requires before { now < self.window.to }
        requires order { self.window.from < self.window.to }
        requires contact { self.window.to - self.window.from ≤ self.contact }
        ensures { result ≡ (if nat_lt now self.window.from
            then self.contact - (self.window.to - self.window.from)
            else self.contact - (self.window.to - now)) }
    {
        if now < self.window.from {
            self.contact - (self.window.to - self.window.from)
        } else {
            self.contact - (self.window.to - now)
        }
    }

    /// The moment at which the contact time is this one, which comes before the window's end.
    fn moment_at(self, contact: u64) -> u64
        requires before { contact < self.contact }
        requires since { self.contact - (self.window.to - self.window.from) ≤ contact }
        requires order { self.window.from < self.window.to }
        ensures { result ≡ self.window.to - (self.contact - contact) }
    {
        self.window.to - (self.contact - contact)
    }
}

/// How many windows have ended by a moment.
fn ended_by(kept: &[Kept], now: u64) -> usize
    requires { AreKept 0 0 kept.now }
    ensures { Parts (λ k. (k.window).to) now kept.now result }
{
    kept.partition_point(|one| one.window.to <= now)
}

/// How many windows have passed by a contact time.
fn passed_by(kept: &[Kept], contact: u64) -> usize
    requires { AreKept 0 0 kept.now }
    ensures { Parts (λ k. k.contact) contact kept.now result }
{
    kept.partition_point(|one| one.contact <= contact)
}

/// How many windows have begun by a moment.
fn begun_by(kept: &[Kept], now: u64) -> usize
    requires { AreKept 0 0 kept.now }
    ensures { Parts (λ k. (k.window).from) now kept.now result }
{
    kept.partition_point(|one| one.window.from <= now)
}

/// Where the last window ends, and the contact time there.
pub(crate) fn last(kept: &[Kept]) -> (u64, u64)
    ensures { result ≡ last_from 0 0 kept.now }
{
    match kept.last() {
        Some(one) => (one.window.to, one.contact),
        None => (0, 0),
    }
}

/// A window after this contact time.
pub(crate) fn after(contact: u64, window: Window) -> Kept
    requires order { window.from < window.to }
    requires room { contact + (window.to - window.from) < 2 ^ 64 }
    ensures window { result.window ≡ window }
    ensures contact { result.contact ≡ contact + (window.to - window.from) }
{
    Kept {
        window,
        contact: contact + (window.to - window.from),
    }
}

/// Whether a moment lies in a window.
pub(crate) fn is_open(kept: &[Kept], now: u64) -> bool
    requires { AreKept 0 0 kept.now }
    ensures { result ≡ is_open (windows_of kept.now) now }
{
    let ended = ended_by(kept, now);
    ended < kept.len() && kept[ended].window.from <= now
}

/// The index of the window that a moment lies in.
pub(crate) fn at(kept: &[Kept], now: u64) -> Option<usize>
    requires { AreKept 0 0 kept.now }
    ensures { result ≡ index_at (windows_of kept.now) now }
{
    let ended = ended_by(kept, now);
    if ended < kept.len() && kept[ended].window.from <= now {
        Some(ended)
    } else {
        None
    }
}

/// The first beginning of a window after a moment.
pub(crate) fn next(kept: &[Kept], now: u64) -> Option<u64>
    requires { AreKept 0 0 kept.now }
    ensures { result ≡ next_from (windows_of kept.now) now }
{
    let begun = begun_by(kept, now);
    if begun < kept.len() {
        Some(kept[begun].window.from)
    } else {
        None
    }
}

/// How many moments below this one lie in a window.
pub(crate) fn elapsed(kept: &[Kept], now: u64) -> u64
    requires { AreKept 0 0 kept.now }
    ensures { result ≡ elapsed (windows_of kept.now) now }
{
    let ended = ended_by(kept, now);
    if ended >= kept.len() {
        return last(kept).1;
    }
    kept[ended].contact_at(now)
}

/// The moment in a window below which so many moments lie in one.
pub(crate) fn moment(kept: &[Kept], contact: u64) -> Option<u64>
    requires { AreKept 0 0 kept.now }
    ensures { MatchOption result (total (windows_of kept.now) ≤ contact)
        (λ moment. IsMoment (windows_of kept.now) contact moment) }
{
    let passed = passed_by(kept, contact);
    if passed >= kept.len() {
        return None;
    }
    Some(kept[passed].moment_at(contact))
}
