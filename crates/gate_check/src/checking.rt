//! A configuration is read, and what it means is written.

ghost use Rattle.std.specs.Prelude.{◌≡◌, IfSome};
ghost use Rattle.edge_traits.specs.Faults.{calls_of};
ghost use Rattle.gate_config.specs.Shown.{shown};
ghost use Rattle.gate_check.specs.Check.{Checks, WritesText, WroteNothing, WentReading, WentWriting};

use edge_traits::{Failed, ReadRefused, Sink, Source, read_all, write_all};
use gate_config::{ConfigFault, GateFile, MOST_OCTETS, Refusal, read, show};
use std::alloc::{AllocError, Global};

/// How the check of a configuration ended.
#[derive(Debug, Drop)]
pub enum Checked {
    /// The file means something, and all of that was written.
    Done,
    /// The file is refused, and why. Nothing was written.
    Refused(Refusal),
    /// A read of the file failed. Nothing was written.
    ReadFault,
    /// The file means something, and a write failed: a front of what it means was written.
    WriteFault,
    /// Memory ran out, which says nothing of the file but that it has an octet. Nothing was written.
    Memory,
}

/// Reads a configuration and writes what it means (`gate_config::show`). At most `MOST_OCTETS` + 1
/// octets are read; nothing is read after a read that failed, nor written after a write that failed.
pub fn check<S: Source, K: Sink>(alloc: Global, file: &mut S, sink: &mut K) -> Checked
    // The answer is that of the octets that the file has.
    ensures checks { IfSome (S.left file.old) (λ octets.
        Checks octets result (K.held sink.old) (K.held sink.new)) }
    // Only what the file means is ever written.
    ensures untouched { WroteNothing result → sink.new ≡ sink.old }
    // A fault is answered if and only if a call failed, and it was the last.
    ensures reads { WentReading result (calls_of S.faults S.failing file.old)
        (calls_of S.faults S.failing file.new) }
    ensures writes { WentWriting result (calls_of K.faults K.failing sink.old)
        (calls_of K.faults K.failing sink.new) }
{
    match read_all(alloc, file, MOST_OCTETS) {
        Ok(octets) => say(alloc, &octets, sink),
        Err(ReadRefused::Fault) => Checked::ReadFault,
        Err(ReadRefused::NoMemory) => Checked::Memory,
    }
}

/// Writes what these octets mean, where they mean something.
fn say<K: Sink>(alloc: Global, octets: &[u8], sink: &mut K) -> Checked
    ensures checks { Checks octets.now result (K.held sink.old) (K.held sink.new) }
    ensures untouched { WroteNothing result → sink.new ≡ sink.old }
    ensures read { result ≡ Checked.ReadFault → ⊥ }
    ensures writes { WentWriting result (calls_of K.faults K.failing sink.old)
        (calls_of K.faults K.failing sink.new) }
{
    match read(alloc, octets) {
        Ok(file) => write_meaning(alloc, &file, sink),
        Err(ConfigFault::Refused(refusal)) => Checked::Refused(refusal),
        Err(ConfigFault::Memory) => Checked::Memory,
    }
}

/// Writes what a file means.
fn write_meaning<K: Sink>(alloc: Global, file: &GateFile, sink: &mut K) -> Checked
    ensures wrote { WritesText (shown file.now) result (K.held sink.old) (K.held sink.new) }
    ensures untouched { WroteNothing result → sink.new ≡ sink.old }
    ensures writes { WentWriting result (calls_of K.faults K.failing sink.old)
        (calls_of K.faults K.failing sink.new) }
{
    let text = match show(alloc, file) {
        Ok(text) => text,
        Err(AllocError) => return Checked::Memory,
    };
    match write_all(sink, text.as_slice()) {
        Ok(()) => Checked::Done,
        Err(Failed) => Checked::WriteFault,
    }
}
