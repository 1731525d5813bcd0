//! Where octets go.
ghost use Rattle.std.specs.Prelude.{◌≡◌, ℕ, List, [], Bool, false, Option, None, Some, Ok, length, is_err, IfOk};
ghost use Rattle.std.specs.Io.{WritesAtMost};
ghost use Rattle.std.specs.Io.KnownBytes.{WriteAppends};
ghost use Rattle.edge_traits.specs.Adapters.{writer_holds};
ghost use Rattle.edge_traits.specs.Faults.{count_after, FailsAsTold, fails_next};
ghost use Rattle.edge_traits.specs.Content.{WriteGains, TakesSome};
ghost use Rattle.edge_traits.specs.InMemory.{Keeping, MemSinkNow, unless_lost, after_write, kept_after};

use crate::failing::{Failed, Failing};
use crate::kept::Kept;
use crate::source::MOST_AGAIN;
use std::alloc::{AllocError, Global};
use std::io::{ErrorKind, Write};
use std::marker::Model;

/// Where octets go: a file, a pipe, or memory.
pub trait Sink {
    // The octets written so far, where they are told.
    ghost held: { Self → Option (List ℕ) };

    // How many faults there were, up to the greatest number that 64 bits show.
    ghost faults: { Self → ℕ };

    // Which of the calls to come are to fail, where it is told.
    ghost failing: { Self → Option (List Bool) };

    /// Writes the front of `piece`, and answers how many octets were taken: at least one of a
    /// piece that has one. `Failed` takes none.
    fn write(&mut self, piece: &[u8]) -> Result<usize, Failed>
        ensures bound { WritesAtMost result piece.now }
        ensures some { TakesSome result piece.now }
        ensures octets { WriteGains (held self.old) (held self.new) result piece.now }
        ensures count { faults self.new ≡ count_after (faults self.old) result }
        ensures told { FailsAsTold (failing self.old) (failing self.new) result };
}

/// A sink in memory, with a list of the writes that are to fail. What has no room is taken and
/// not kept, and from then on it tells no more what it holds.
#[derive(Drop)]
pub struct MemSink {
    kept: Kept,
    failing: Failing,
    faults: u64,
}

impl Model for MemSink {
    ghost Value = { MemSinkNow };

    ghost view = { λ s. record {
      kept = s.kept;
      failing = s.failing;
      faults = s.faults;
    } };
}

impl MemSink {
    /// An empty sink with room for so many octets, whose write i fails if and only if
    /// place i of `failing` is true.
    pub fn new(alloc: Global, room: usize, failing: &[bool]) -> Result<MemSink, AllocError>
        ensures kept { IfOk result (λ s. s.kept ≡ record { room = room; octets = []; lost = false }) }
        ensures held { IfOk result (λ s. ⟦<MemSink as Sink>⟧.held s ≡ Some []) }
        ensures failing { IfOk result (λ s. ⟦<MemSink as Sink>⟧.failing s ≡ Some failing.now) }
        ensures faults { IfOk result (λ s. ⟦<MemSink as Sink>⟧.faults s ≡ 0) }
    {
        let kept = Kept::new(alloc, room)?;
        let failing = Failing::new(alloc, failing)?;
        Ok(MemSink {
            kept,
            failing,
            faults: 0,
        })
    }

    /// The octets that were kept: a front of those written, and all of them where it tells what it
    /// holds.
    pub fn octets(&self) -> &[u8]
        ensures { result.now ≡ self.now.kept.octets }
    {
        self.kept.octets()
    }
}

impl Sink for MemSink {
    ghost held = { λ s. unless_lost s.kept.lost s.kept.octets };

    ghost faults = { λ s. s.faults };

    ghost failing = { λ s. Some s.failing };

    /// Takes the whole piece, or none of it where this write is to fail.
    fn write(&mut self, piece: &[u8]) -> Result<usize, Failed>
        ensures answer { is_err result ≡ fails_next self.old.failing }
        ensures whole { IfOk result (λ n. n ≡ length piece.now) }
        ensures now { self.new ≡ after_write self.old piece.now }
    {
        if self.failing.fails() {
            self.faults = self.faults.saturating_add(1);
            return Err(Failed);
        }
        self.kept.keep(piece);
        Ok(piece.len())
    }
}

/// A sink in memory whose writes never fail.
#[derive(Drop)]
pub struct SureSink {
    kept: Kept,
}

impl Model for SureSink {
    ghost Value = { Keeping };

    ghost view = { λ s. s.kept };
}

impl SureSink {
    /// An empty sink with room for so many octets.
    pub fn new(alloc: Global, room: usize) -> Result<SureSink, AllocError>
        ensures kept { IfOk result (λ s. s ≡ record { room = room; octets = []; lost = false }) }
        ensures held { IfOk result (λ s. ⟦<SureSink as Sink>⟧.held s ≡ Some []) }
    {
        let kept = Kept::new(alloc, room)?;
        Ok(SureSink { kept })
    }

    /// The octets that were kept: a front of those written, and all of them where it tells what it
    /// holds.
    pub fn octets(&self) -> &[u8]
        ensures { result.now ≡ self.now.octets }
    {
        self.kept.octets()
    }
}

impl Sink for SureSink {
    ghost held = { λ s. unless_lost s.lost s.octets };

    ghost faults = { λ _. 0 };

    ghost failing = { λ _. Some [] };

    /// Takes the whole piece.
    fn write(&mut self, piece: &[u8]) -> Result<usize, Failed>
        ensures whole { result ≡ Ok (length piece.now) }
        ensures now { self.new ≡ kept_after self.old piece.now }
    {
        self.kept.keep(piece);
        Ok(piece.len())
    }
}

/// A sink over std's writer. A write that was only interrupted by a signal is made again, up to
/// `MOST_AGAIN` calls in all. It counts one fault where it failed for good, or took nothing of a
/// piece that has an octet. What it takes goes to the writer.
#[derive(Drop)]
pub struct Writing<W: Drop> {
    writer: W,
    faults: u64,
    reader_gone: bool,
}

impl<W: Write + Drop> Writing<W> {
    /// A sink over this writer, with no fault yet.
    pub fn new(writer: W) -> Writing<W>
        ensures holds { writer_holds W.contents result ≡ W.contents writer }
        ensures faults { ⟦<Writing<W> as Sink>⟧.faults result ≡ 0 }
    {
        Writing {
            writer,
            faults: 0,
            reader_gone: false,
        }
    }

    /// Whether a write failed since the reader of the pipe has gone away. No clause can see why a
    /// write of std's writer failed, so that is only tested.
    pub fn is_reader_gone(&self) -> bool
        ensures { result ≡ self.now.reader_gone }
    {
        self.reader_gone
    }
}

impl<W: Write + Drop> Sink for Writing<W> {
    // It isn't told: a writer of std may begin to tell what it holds later, and a sink may not.
    ghost held = { λ _. None };

    ghost faults = { λ s. s.faults };

    ghost failing = { λ _. None };

    /// Writes to the writer, again where that was only interrupted.
    fn write(&mut self, piece: &[u8]) -> Result<usize, Failed>
        ensures bound { WritesAtMost result piece.now }
        ensures some { TakesSome result piece.now }
        ensures count { ⟦<Writing<W> as Sink>⟧.faults self.new
            ≡ count_after (⟦<Writing<W> as Sink>⟧.faults self.old) result }
        ensures writer { WriteAppends (writer_holds W.contents self.old)
            (writer_holds W.contents self.new) result piece.now }
    {
        match write_again(&mut self.writer, piece) {
            Ok(n) if n > 0 || piece.is_empty() => return Ok(n),
            Ok(_) => {}
            Err(kind) => self.reader_gone = kind == ErrorKind::BrokenPipe,
        }
        self.faults = self.faults.saturating_add(1);
        Err(Failed)
    }
}

/// Writes, again where that was only interrupted: how many octets were taken, or why none was.
fn write_again<W: Write>(writer: &mut W, piece: &[u8]) -> Result<usize, ErrorKind>
    ensures bound { WritesAtMost result piece.now }
    ensures octets { WriteAppends (W.contents writer.old) (W.contents writer.new) result piece.now }
{
    'again: for _ in 0..MOST_AGAIN {
        match writer.write(piece) {
            Ok(n) => return Ok(n),
            Err(e) if e.kind() == ErrorKind::Interrupted => {}
            Err(e) => return Err(e.kind()),
        }
    }
    Err(ErrorKind::Interrupted)
}
