//! What was ever sent on a path.

ghost use Rattle.std.specs.Prelude.{◌≡◌, ◌++◌, ◌∷◌, ◌<◌, [], Some, length, map, IfOk, OnOk, slice_get};
ghost use Rattle.path_world.specs.Values.{octets_in, sent_at, numbered};
ghost use Rattle.path_world.specs.Ties.{sent_from, routed_from};

use endpoint::Octets;
use gateway_core::RoutedList;
use ltp_segment::Outs;
use path_laws::{Place, SentAt, SentList};
use std::alloc::{AllocError, Global};
use std::marker::Model;

/// A datagram, and the place that sent it.
#[derive(Debug, Drop)]
pub struct Sent {
    /// The place that sent it.
    pub from: Place,
    /// Its octets.
    pub datagram: Octets,
}

/// Every datagram that was ever sent, in order, and how many octets they have.
#[derive(Debug, Drop)]
pub(crate) struct SentLog {
    items: Vec<Sent>,
    octets: u64,
}

impl Model for SentLog {
    ghost use Rattle.std.specs.Prelude.{◌≡◌, List};
    ghost use Rattle.path_world.specs.declared.sent.Sent.{Sent};
    ghost use Rattle.path_world.specs.Values.{octets_in};

    ghost Value = { List Sent };

    ghost view = { λ log. log.items.items };

    ghost invariant = { λ log. log.octets ≡ octets_in log.items.items };
}

impl SentLog {
    /// Nothing was sent yet. It takes no memory.
    pub fn new(alloc: Global) -> SentLog
        ensures { result ≡ [] }
    {
        SentLog {
            items: Vec::new(alloc),
            octets: 0,
        }
    }

    /// How many datagrams were sent.
    pub fn len(&self) -> usize
        ensures { result ≡ length self.now }
    {
        let _ = self.octets;
        self.items.len()
    }

    /// How many octets they have.
    pub fn octets(&self) -> u64
        ensures { result ≡ octets_in self.now }
    {
        self.octets
    }

    /// Datagram `k`.
    pub fn get(&self, k: usize) -> &Sent
        requires { k < length self.now }
        ensures { slice_get self.now k ≡ Some result.now }
    {
        let _ = self.octets;
        &self.items[k]
    }

    /// Datagrams that a place sent are put at the end, and told with their numbers.
    pub fn keep_all(
        &mut self,
        alloc: Global,
        from: Place,
        out: Outs,
    ) -> Result<SentList, AllocError>
        ensures kept { OnOk result (self.new ≡ self.old ++ sent_from from out) }
        ensures told { IfOk result (λ told. told ≡ numbered (length self.old) (sent_from from out)) }
    {
        let mut told = Vec::new(alloc);
        'keeping: for datagram in out.into_vec() {
            told.push(self.keep(alloc, from, datagram)?)?;
        }
        Ok(SentList::from_vec(told))
    }

    /// Datagrams that the gate sent at its faces are put at the end, and told with their numbers.
    pub fn keep_routed(&mut self, alloc: Global, out: RoutedList) -> Result<SentList, AllocError>
        ensures kept { OnOk result (self.new ≡ self.old ++ map routed_from out) }
        ensures told { IfOk result (λ told. told ≡ numbered (length self.old) (map routed_from out)) }
    {
        let mut told = Vec::new(alloc);
        'keeping: for routed in out.into_vec() {
            let from = Place::of_face(routed.face);
            told.push(self.keep(alloc, from, routed.datagram)?)?;
        }
        Ok(SentList::from_vec(told))
    }

    /// A copy of a datagram is put at the end. There isn't memory for 2^64 octets.
    fn keep(&mut self, alloc: Global, from: Place, datagram: Octets) -> Result<SentAt, AllocError>
        ensures kept { OnOk result
            (self.new ≡ self.old ++ record { from = from; datagram = datagram } ∷ []) }
        ensures told { IfOk result (λ told.
            told ≡ sent_at (length self.old) (record { from = from; datagram = datagram })) }
    {
        let k = self.items.len();
        let octets = self
            .octets
            .checked_add(datagram.len() as u64)
            .ok_or(AllocError)?;
        let copied = datagram.copy(alloc)?;
        self.items.push(Sent {
            from,
            datagram: copied,
        })?;
        self.octets = octets;
        Ok(SentAt {
            k,
            from,
            to: from.across(),
            datagram,
        })
    }
}
