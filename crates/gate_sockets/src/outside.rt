//! The outside of a running gateway.

ghost use Rattle.std.specs.Prelude.{◌≡◌, None};
ghost use Rattle.edge_traits.specs.Faults.{calls_of};
ghost use Rattle.gate_sockets.specs.Stores.{stores_of};

use crate::sockets::Sockets;
use edge_traits::{Failed, Sink, write_all};
use gate_cases::Face;
use gate_edges::{Board, Clocks, Outside, entries_length, gate_of};
use gate_journal::Journal;
use journal_file::{Kept, Record};
use outbox::Reading;
use std::alloc::Global;
use std::time::Clock as Timer;
use store_traits::{Store, StoreFault};

/// The outside of a running gateway: its clocks, the sockets of both faces, a sink for its lines, and a
/// board and a journal where there are such. It tells of its writes what the sink tells, and of its journal
/// what the store tells; of what it makes it tells nothing, since no clause can see what a socket does.
#[derive(Drop)]
pub struct SocketOutside<T: Drop, C: Drop, K: Drop, B: Drop, S: Store + Drop> {
    alloc: Global,
    clocks: C,
    sockets: Sockets<T>,
    sink: K,
    board: Option<B>,
    journal: Option<Journal<S>>,
}

impl<
    T: Timer + Drop,
    C: Clocks + Drop,
    K: Sink + Drop,
    B: Board + Drop,
    S: Store + Drop,
> SocketOutside<T, C, K, B, S> {
    /// The outside of these parts.
    pub fn new(
        alloc: Global,
        clocks: C,
        sockets: Sockets<T>,
        sink: K,
        board: Option<B>,
        journal: Option<Journal<S>>,
    ) -> SocketOutside<T, C, K, B, S>
        ensures writes { ⟦<SocketOutside<T, C, K, B, S> as Outside>⟧.writes result
            ≡ calls_of K.faults K.failing sink }
        ensures stores { ⟦<SocketOutside<T, C, K, B, S> as Outside>⟧.stores result
            ≡ stores_of S.faults journal }
    {
        SocketOutside {
            alloc,
            clocks,
            sockets,
            sink,
            board,
            journal,
        }
    }

    /// Where its lines are written.
    pub fn sink(&self) -> &K
        ensures { calls_of K.faults K.failing result.now
            ≡ ⟦<SocketOutside<T, C, K, B, S> as Outside>⟧.writes self.now }
    {
        &self.sink
    }
}

impl<T: Timer + Drop, C: Clocks + Drop, K: Sink + Drop, B: Board + Drop, S: Store + Drop> Outside
    for SocketOutside<T, C, K, B, S> {
    ghost ahead = { λ _. None };

    ghost made = { λ _. None };

    ghost writes = { λ o. calls_of K.faults K.failing o.sink };

    ghost stores = { λ o. stores_of S.faults o.journal };

    fn read(&mut self) -> Reading {
        self.clocks.read()
    }

    fn poll(&mut self, face: Face, buf: &mut [u8]) -> Result<Option<usize>, Failed> {
        self.sockets.next(face, buf)
    }

    fn take_foreign(&mut self, face: Face) -> u64 {
        self.sockets.take_foreign(face)
    }

    fn send(&mut self, face: Face, datagram: &[u8]) -> Result<(), Failed> {
        self.sockets.send(face, datagram)
    }

    fn write(&mut self, text: &[u8]) -> Result<(), Failed> {
        write_all(&mut self.sink, text)
    }

    /// Puts the text on the board. Without one that fails.
    fn show(&mut self, text: &[u8]) -> Result<(), Failed> {
        match &mut self.board {
            Some(board) => board.show(text),
            None => Err(Failed),
        }
    }

    fn commit(&mut self, records: &[Record]) -> Result<usize, StoreFault> {
        match &mut self.journal {
            Some(journal) => journal.commit(self.alloc, records),
            None => Ok(entries_length(self.alloc, records)?),
        }
    }

    fn install(&mut self, kept: &Kept) -> Result<usize, StoreFault> {
        match &mut self.journal {
            Some(journal) => journal.install(self.alloc, kept),
            None => Ok(gate_of(self.alloc, kept)?),
        }
    }
}
