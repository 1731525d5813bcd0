//! The octets that came, place by place.

ghost use Rattle.std.specs.Prelude.{◌≡◌, ◌<◌, ◌≤◌, [], is_some, length, IfOk};
ghost use Rattle.std.specs.Option.{option_map};
ghost use Rattle.cells.specs.declared.cells.TheConstants.{PLACES_MAX};
ghost use Rattle.cells.specs.Cells.{filled, reach_of, stop_of, whole_part};
ghost use Rattle.cells.specs.Covers.{Covers};
ghost use Rattle.cells.specs.Gaps.{filled_gap};

use crate::log::Log;
use spans::Spans;
use std::alloc::{AllocError, Global};
use std::marker::Model;

/// How many places there are: as many as the greatest block of a link and the greatest whole of
/// fragments have.
pub const PLACES_MAX: u64 = 4_194_304;

/// The octets that came, place by place. The first one for a place stays.
#[derive(Debug, Drop)]
pub struct Cells {
    /// The octets.
    log: Log,
    /// The places that have an octet.
    filled: Spans,
}

impl Model for Cells {
    ghost use Rattle.std.specs.Prelude.{List, ℕ, Option};

    ghost Value = { List (Option ℕ) };

    ghost use Rattle.cells.specs.Covers.{Covers};
    ghost use Rattle.cells.specs.declared.cells.TheConstants.{PLACES_MAX};

    ghost view = { λ cells. cells.log };

    ghost invariant = { λ cells. Covers PLACES_MAX cells.filled cells.log };
}

impl Cells {
    /// No octets yet. It takes no memory.
    pub fn new(alloc: Global) -> Cells
        ensures { result ≡ [] }
    {
        Cells {
            log: Log::new(alloc),
            filled: Spans::new(alloc, PLACES_MAX),
        }
    }

    /// The places that have an octet.
    pub fn places(&self) -> &Spans
        ensures { Covers PLACES_MAX result.now self.now }
    {
        &self.filled
    }

    /// The place after the last octet that came.
    pub fn reach(&self) -> u64
        ensures reach { result ≡ reach_of self.now }
        ensures within { result ≤ PLACES_MAX }
    {
        self.log.reach()
    }

    /// The cells, with these octets from a place on where none is yet.
    pub fn with(self, offset: u64, body: &[u8]) -> Result<Cells, AllocError>
        requires some { 0 < length body.now }
        requires fits { stop_of offset body.now ≤ PLACES_MAX }
        ensures { IfOk result (λ cells. cells ≡ filled self offset body.now) }
    {
        let Cells { log, mut filled } = self;
        let stop = offset + body.len() as u64;
        let log = with_new(log, &filled, offset, body)?;
        filled.cover(offset, stop)?;
        Ok(Cells { log, filled })
    }

    /// Whether this is the length and each place below it has an octet.
    fn is_whole(&self, length: Option<u64>) -> bool
        ensures { result ≡ is_some (whole_part self.now length) }
    {
        let reach = self.log.reach();
        length == Some(reach) && self.filled.is_whole(reach)
    }

    /// The whole, where this is its length and each place below it has an octet. Memory is wanted
    /// only there.
    pub fn whole_part(
        &self,
        alloc: Global,
        length: Option<u64>,
    ) -> Result<Option<Vec<u8>>, AllocError>
        ensures { IfOk result (λ part. option_map (λ v. v.items) part ≡ whole_part self.now length) }
    {
        if !self.is_whole(length) {
            return Ok(None);
        }
        Ok(Some(self.log.in_order(alloc)?))
    }
}

/// The octets that came, and of these those whose place has none yet, so that each place is kept
/// once.
fn with_new(log: Log, places: &Spans, offset: u64, body: &[u8]) -> Result<Log, AllocError>
    requires some { 0 < length body.now }
    requires fits { stop_of offset body.now ≤ PLACES_MAX }
    requires places { Covers PLACES_MAX places.now log }
    ensures { IfOk result (λ now. now ≡ filled log offset body.now) }
{
    let stop = offset + body.len() as u64;
    let mut log = log;
    let mut at = offset;
    'filling: for run in places.runs_from(offset) {
        if run.from >= stop {
            break;
        }
        log = with_gap(log, offset, body, at, run.from)?;
        at = at.max(run.to);
    }
    with_gap(log, offset, body, at, stop)
}

/// The octets that came, and those of a body at `offset` for the places from `from` to before
/// `to`, where there are any.
fn with_gap(log: Log, offset: u64, body: &[u8], from: u64, to: u64) -> Result<Log, AllocError>
    requires fits { stop_of offset body.now ≤ PLACES_MAX }
    requires from { offset ≤ from }
    requires to { to ≤ stop_of offset body.now }
    ensures { IfOk result (λ now. now ≡ filled_gap log offset body.now from to) }
{
    if from >= to {
        return Ok(log);
    }
    log.with(
        from,
        &body[(from - offset) as usize..(to - offset) as usize],
    )
}
