//! The octets of red parts.

ghost use Rattle.std.specs.Prelude.{◌≡◌, ℕ, ◌+◌, ◌-◌, ◌*◌, ◌/◌, ◌%◌, ◌^◌, ◌<◌, ◌≤◌, Bool, List, Option, false, length, min, None, OnOk};
ghost use Rattle.std.specs.Option.{option_copied};
ghost use Rattle.std.specs.BTreeMap.{get};
ghost use Rattle.ltp_segment.specs.Claims.{claims_left};
ghost use Rattle.ltp_segment.specs.Legal.{AreClaims};
ghost use Rattle.ltp_audit.specs.Recorded.{agrees, are_claims_held, are_held};
ghost use Rattle.ltp_session.specs.Cells.{cell};
ghost use Rattle.ltp_audit.specs.Pages.{name_cmp, mark_cmp, same_name, cell_on, octet_at, LaysOctets};
ghost use Rattle.ltp_audit.specs.Held.{CoversHeld, HeldIn, CoversToo};

use crate::page::{PAGE, Page};
use crate::places::Places;
use ltp_segment::Claims;
use ltp_session::SessionName;
use std::alloc::{AllocError, Global};
use std::collections::BTreeMap;

/// The octets of red parts, by sessions, and which places have one.
#[derive(Debug, Drop)]
pub(crate) struct RedParts {
    alloc: Global,
    /// The octets, on pages.
    pages: BTreeMap<((u64, u64), u64), Page>,
    /// The places that have an octet, as ranges.
    held: BTreeMap<(u64, u64), Places>,
}

impl RedParts {
    /// No octets yet. It takes no memory.
    pub fn new(alloc: Global) -> RedParts
        ensures octets { (o n place : ℕ) → octet_at result o n place ≡ None }
        ensures held { (o n : ℕ) → get name_cmp result.held (o, n) ≡ None }
    {
        RedParts {
            alloc,
            pages: BTreeMap::new(alloc),
            held: BTreeMap::new(alloc),
        }
    }

    /// Whether no place of the session has another octet than these have, from a place on.
    pub fn agrees(&self, name: SessionName, offset: u64, body: &[u8]) -> bool
        requires { offset + length body.now < 2 ^ 64 }
        ensures { result ≡ agrees (octet_at self.now name.originator name.number) offset body.now }
    {
        let mut at = offset;
        let mut left = body;
        'comparing: while !left.is_empty() {
            let (part, rest) = left.split_at(part_at(at, left));
            if !self.agrees_on_page(name, at, part) {
                return false;
            }
            at += part.len() as u64;
            left = rest;
        }
        true
    }

    /// The same of octets that are on one page.
    fn agrees_on_page(&self, name: SessionName, at: u64, part: &[u8]) -> bool
        requires { at % PAGE + length part.now ≤ PAGE }
        ensures { result ≡ agrees (octet_at self.now name.originator name.number) at part.now }
    {
        match self.page(name, at / PAGE) {
            Some(page) => page.agrees((at % PAGE) as usize, part),
            None => true,
        }
    }

    /// A page of a session, where there is one.
    fn page(&self, name: SessionName, number: u64) -> Option<Page>
        ensures { result ≡ get mark_cmp self.now.pages ((name.originator, name.number), number) }
    {
        self.pages
            .get(&((name.originator, name.number), number))
            .copied()
    }

    /// Keeps the octets of a piece, where there are none yet.
    pub fn add(&mut self, name: SessionName, offset: u64, body: &[u8]) -> Result<(), AllocError>
        requires { offset + length body.now < 2 ^ 64 }
        ensures octets { OnOk result (LaysOctets self.old name.originator name.number offset body.now self.new) }
        ensures held { OnOk result (CoversToo self.old name.originator name.number offset body.now self.new) }
    {
        self.lay(name, offset, body)?;
        self.cover(name, offset, offset + body.len() as u64)?;
        Ok(())
    }

    /// Keeps octets from a place on, where there are none yet.
    fn lay(&mut self, name: SessionName, offset: u64, body: &[u8]) -> Result<(), AllocError>
        requires { offset + length body.now < 2 ^ 64 }
        ensures octets { OnOk result (LaysOctets self.old name.originator name.number offset body.now self.new) }
        ensures held { self.new.held ≡ self.old.held }
    {
        let mut at = offset;
        let mut left = body;
        'laying: while !left.is_empty() {
            let (part, rest) = left.split_at(part_at(at, left));
            self.lay_on_page(name, at, part)?;
            at += part.len() as u64;
            left = rest;
        }
        Ok(())
    }

    /// The same of octets that are on one page.
    fn lay_on_page(&mut self, name: SessionName, at: u64, part: &[u8]) -> Result<(), AllocError>
        requires { at % PAGE + length part.now ≤ PAGE }
        ensures octets { OnOk result (LaysOctets self.old name.originator name.number at part.now self.new) }
        ensures held { self.new.held ≡ self.old.held }
    {
        let number = at / PAGE;
        let page = self.page_or_empty(name, number);
        let page = page.with((at % PAGE) as usize, part);
        self.pages
            .insert(((name.originator, name.number), number), page)?;
        Ok(())
    }

    /// A page of a session, or one without octets.
    fn page_or_empty(&self, name: SessionName, number: u64) -> Page
        ensures { (k : ℕ) → cell result.cells k
            ≡ cell_on (get mark_cmp self.now.pages ((name.originator, name.number), number)) k }
    {
        match self.page(name, number) {
            Some(page) => page,
            None => Page::empty(),
        }
    }

    /// Covers places of a session.
    fn cover(&mut self, name: SessionName, from: u64, to: u64) -> Result<(), AllocError>
        requires { from ≤ to }
        ensures pages { self.new.pages ≡ self.old.pages }
        ensures held { (body : List ℕ) → to ≡ from + length body
            → OnOk result (CoversToo self.old name.originator name.number from body self.new) }
    {
        let mut places = self.take_places(name);
        places.add(from, to)?;
        self.held.insert((name.originator, name.number), places)?;
        Ok(())
    }

    /// The places of a session, taken out.
    fn take_places(&mut self, name: SessionName) -> Places
        ensures places { (octet : ℕ → Option ℕ)
            → HeldIn (get name_cmp self.old.held (name.originator, name.number)) octet
            → CoversHeld result octet }
        ensures others { (o n : ℕ) → same_name name.originator name.number o n ≡ false
            → get name_cmp self.new.held (o, n) ≡ get name_cmp self.old.held (o, n) }
        ensures pages { self.new.pages ≡ self.old.pages }
    {
        match self.held.remove(&(name.originator, name.number)) {
            Some(places) => places,
            None => Places::none(self.alloc),
        }
    }

    /// Whether all places have an octet that some claims of a report name.
    pub fn has_all(&self, name: SessionName, lower: u64, upper: u64, claims: Claims<'_>) -> bool
        requires bounds { lower ≤ upper }
        requires legal { AreClaims (upper - lower) 0 (claims_left claims) }
        ensures { (octet : ℕ → Option ℕ)
            → HeldIn (get name_cmp self.now.held (name.originator, name.number)) octet
            → result ≡ are_claims_held octet lower (claims_left claims.entry) }
    {
        let places = self.held.get(&(name.originator, name.number));
        'claimed: for claim in claims {
            let from = lower + claim.offset;
            if !are_held(places, from, from + claim.length) {
                return false;
            }
        }
        true
    }
}

/// How many octets from a place on are on its page.
fn part_at(at: u64, octets: &[u8]) -> usize
    ensures within { result ≤ length octets.now }
    ensures page { at % PAGE + result ≤ PAGE }
    ensures some { 0 < length octets.now → 0 < result }
{
    octets.len().min((PAGE - at % PAGE) as usize)
}

/// Whether these places are all covered, of which there is one at least.
fn are_held(places: Option<&Places>, from: u64, to: u64) -> bool
    requires { from < to }
    ensures { (octet : ℕ → Option ℕ) → HeldIn (option_copied places.entry) octet
        → result ≡ are_held octet from (to - from) }
{
    match places {
        Some(places) => places.have(from, to),
        None => false,
    }
}
