//! The gateway among other implementations at work.

ghost use Rattle.std.specs.Prelude.{◌≡◌, ◌<◌, ◌^◌, None, false, option_map, IfOk};
ghost use Rattle.journal_file.specs.Ties.{kept_of};
ghost use Rattle.peer_half.specs.Setup.{IsRunnable, used_up};
ghost use Rattle.peer_half.specs.Starts.{starts_at};
ghost use Rattle.peer_live.specs.Shows.{IsWhole};

use crate::work::Work;
use endpoint::Octets;
use gate_cases::Face;
use gate_config::GateFile;
use journal_file::{Kept, Record};
use outbox::Reading;
use peer_parts::HalfParts;
use std::alloc::{AllocError, Global};

/// A gateway at work. After want of memory each part that may want some answers with that again.
#[derive(Debug, Drop)]
pub struct LiveGate {
    work: Work,
    spent: bool,
    ghost whole: { spent ≡ false → IsWhole work },
}

impl LiveGate {
    /// A gateway before its first half, at whose reading the wall clock shows this. Where a journal is
    /// kept, it goes on from what earlier runs kept in it. [`used_up`](crate::used_up) tells whether
    /// session numbers are left.
    pub fn new(
        alloc: Global,
        file: &GateFile,
        kept: Option<Kept>,
        wall: u64,
    ) -> Result<LiveGate, AllocError>
        requires runnable { IsRunnable file.now }
        requires left { used_up file.now (option_map kept_of kept) wall ≡ None }
        requires small { wall < 2 ^ 62 }
        ensures { IfOk result (λ live. ⟦<LiveGate as HalfParts>⟧.Shows live
            (starts_at file.now (option_map kept_of kept) wall)) }
    {
        let work = Work::new(alloc, file, kept, wall)?;
        Ok(LiveGate { work, spent: false })
    }
}

impl HalfParts for LiveGate {
    ghost use Rattle.peer_live.specs.Shows.{ShowsLive};

    ghost Shows = { λ live. ShowsLive live.spent live.work };

    fn read(&mut self, reading: Reading) -> Result<(), AllocError> {
        if self.spent {
            return Err(AllocError);
        }
        self.spent = true;
        self.work.read(reading)?;
        self.spent = false;
        Ok(())
    }

    fn resume(&mut self) -> Result<(), AllocError> {
        if self.spent {
            return Err(AllocError);
        }
        self.spent = true;
        self.work.resume()?;
        self.spent = false;
        Ok(())
    }

    fn tick(&mut self) -> Result<(), AllocError> {
        if self.spent {
            return Err(AllocError);
        }
        self.spent = true;
        self.work.tick()?;
        self.spent = false;
        Ok(())
    }

    fn arrive(&mut self, face: Face, datagram: &[u8]) -> Result<(), AllocError> {
        if self.spent {
            return Err(AllocError);
        }
        self.spent = true;
        self.work.arrive(face, datagram)?;
        self.spent = false;
        Ok(())
    }

    fn poll_failed(&mut self, face: Face) -> Result<(), AllocError> {
        if self.spent {
            return Err(AllocError);
        }
        self.spent = true;
        self.work.poll_failed(face)?;
        self.spent = false;
        Ok(())
    }

    fn foreign(&mut self, face: Face, datagrams: u64) {
        self.work.foreign(face, datagrams);
    }

    fn reserve(&mut self) -> Result<(), AllocError> {
        if self.spent {
            return Err(AllocError);
        }
        self.spent = true;
        self.work.reserve()?;
        self.spent = false;
        Ok(())
    }

    fn has_records(&self) -> bool {
        self.work.has_records()
    }

    fn records(&self) -> Result<Vec<Record<'_>>, AllocError> {
        self.work.records()
    }

    fn committed(&mut self, octets: usize) {
        self.work.committed(octets);
    }

    fn is_large(&self) -> bool {
        self.work.is_large()
    }

    fn kept(&self) -> Option<&Kept> {
        self.work.kept()
    }

    fn installed(&mut self, place: usize) {
        self.work.installed(place);
    }

    fn waiting(&self, face: Face) -> usize {
        self.work.waiting(face)
    }

    fn next(&mut self, face: Face) -> Option<Octets> {
        self.work.next(face)
    }

    fn gone(&mut self, face: Face, datagram: &Octets, failed: bool) {
        self.work.gone(face, datagram, failed);
    }

    fn end_sending(&mut self) -> Result<(), AllocError> {
        if self.spent {
            return Err(AllocError);
        }
        self.spent = true;
        self.work.end_sending()?;
        self.spent = false;
        Ok(())
    }

    fn text(&self) -> &str {
        self.work.text()
    }

    fn is_due(&self) -> bool {
        self.work.is_due()
    }

    fn write_metrics(&mut self, text: &mut String) -> Result<(), AllocError> {
        if self.spent {
            return Err(AllocError);
        }
        self.spent = true;
        self.work.write_metrics(text)?;
        self.spent = false;
        Ok(())
    }

    fn write_metrics_failed(&self, text: &mut String) -> Result<(), AllocError> {
        if self.spent {
            return Err(AllocError);
        }
        self.work.write_metrics_failed(text)
    }
}
