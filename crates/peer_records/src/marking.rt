//! The records of marks, and of numbers.

ghost use Rattle.std.specs.Prelude.{◌≡◌, ◌^◌, ◌<◌, ◌∷◌, [], map, IfSome, OnOk, OnErr};
ghost use Rattle.gate_records.specs.Happened.{reports_on};
ghost use Rattle.gate_records.specs.Keeping.{reserve_to};
ghost use Rattle.gate_records.specs.Laws.{ReportSmall};
ghost use Rattle.gate_records.specs.Records.{due_mark, mark_with, mark_records, clear_records, reserving, reserved_records};
ghost use Rattle.gate_records.specs.Ties.{clear_of};
ghost use Rattle.peer_gateway.specs.Answers.{routed_seen};
ghost use Rattle.peer_records.specs.Happened.{marking};
ghost use Rattle.peer_records.specs.Said.{happened_by, said_with};

use crate::marks::{due_mark, over_marks};
use crate::record::StepRecord;
use crate::said::Said;
use crate::step::StepDone;
use gate_cases::Face;
use gate_records::GateSessions;
use journal_file::Mark;
use peer_gateway::Outgoing;
use std::alloc::{AllocError, Global};

/// How many session numbers are reserved ahead.
const AHEAD: u64 = 4096;

/// Session numbers are below this one.
const NUMBERS: u64 = 4_294_967_296;

impl Said {
    /// `mark` for each report that goes out about a session of the peer that isn't handed up by then, and
    /// isn't marked.
    pub fn mark_all<G: GateSessions>(
        &mut self,
        alloc: Global,
        step: &StepDone<'_>,
        gate: &G,
        out: &[Outgoing],
    ) -> Result<(), AllocError>
        ensures ok { OnOk result (self.new ≡ said_with (mark_records
            (marking (happened_by step.now (G.opened gate.now) (G.handed_up gate.now)))
            (map routed_seen out.now) ((self.old).kept).marks) self.old) }
        ensures small { OnOk result (ReportSmall (map routed_seen out.now)) }
        ensures wanted { OnErr result (mark_records
            (marking (happened_by step.now (G.opened gate.now) (G.handed_up gate.now)))
            (map routed_seen out.now) ((self.old).kept).marks ≡ [] → ⊥) }
    {
        'out: for outgoing in out {
            self.mark(alloc, step, gate, outgoing)?;
        }
        Ok(())
    }

    /// By a datagram.
    fn mark<G: GateSessions>(
        &mut self,
        alloc: Global,
        step: &StepDone<'_>,
        gate: &G,
        outgoing: &Outgoing,
    ) -> Result<(), AllocError>
        ensures ok { OnOk result (self.new ≡ said_with (mark_with (due_mark
            (marking (happened_by step.now (G.opened gate.now) (G.handed_up gate.now)))
            (outgoing.now).face (reports_on (outgoing.now).datagram) ((self.old).kept).marks)) self.old) }
        ensures small { IfSome (reports_on (outgoing.now).datagram) (λ session. session < 2 ^ 64) }
        ensures wanted { OnErr result (mark_with (due_mark
            (marking (happened_by step.now (G.opened gate.now) (G.handed_up gate.now)))
            (outgoing.now).face (reports_on (outgoing.now).datagram) ((self.old).kept).marks) ≡ [] → ⊥) }
    {
        match due_mark(gate, step.wall, outgoing, self.kept.marks.as_slice()) {
            Some(mark) => self.append(alloc, StepRecord::Marked(mark)),
            None => Ok(()),
        }
    }

    /// `clear` for each marked session that is handed up, or that its sender cancelled.
    pub fn clear_over<G: GateSessions>(
        &mut self,
        alloc: Global,
        step: &StepDone<'_>,
        gate: &G,
    ) -> Result<(), AllocError>
        ensures ok { OnOk result (self.new ≡ said_with (clear_records
            (marking (happened_by step.now (G.opened gate.now) (G.handed_up gate.now)))
            ((self.old).kept).marks) self.old) }
        ensures wanted { OnErr result (clear_records
            (marking (happened_by step.now (G.opened gate.now) (G.handed_up gate.now)))
            ((self.old).kept).marks ≡ [] → ⊥) }
    {
        let over = over_marks(alloc, step, gate, self.kept.marks.as_slice())?;
        self.clear_all(alloc, over.as_slice())
    }

    /// These marks are cleared.
    fn clear_all(&mut self, alloc: Global, over: &[Mark]) -> Result<(), AllocError>
        ensures ok { OnOk result (self.new ≡ said_with (map clear_of over.now) self.old) }
        ensures wanted { OnErr result (over.now ≡ [] → ⊥) }
    {
        'over: for mark in over {
            let Mark { face, session, .. } = *mark;
            self.append(alloc, StepRecord::Clear { face, session })?;
        }
        Ok(())
    }

    /// `reserved` for each face whose engine's next number is above what is reserved.
    pub fn reserve_all(
        &mut self,
        alloc: Global,
        old_next: u64,
        new_next: u64,
    ) -> Result<(), AllocError>
        ensures ok { OnOk result (self.new
            ≡ said_with (reserved_records old_next new_next (self.old).kept) self.old) }
        ensures wanted { OnErr result (reserved_records old_next new_next (self.old).kept ≡ [] → ⊥) }
    {
        let old = self.kept.old_reserved;
        let new = self.kept.new_reserved;
        self.reserve(alloc, Face::Old, old_next, old)?;
        self.reserve(alloc, Face::New, new_next, new)
    }

    /// For one face.
    fn reserve(
        &mut self,
        alloc: Global,
        face: Face,
        next: u64,
        reserved: u64,
    ) -> Result<(), AllocError>
        ensures ok { OnOk result (self.new ≡ said_with (reserving face next reserved) self.old) }
        ensures wanted { OnErr result (reserving face next reserved ≡ [] → ⊥) }
    {
        if next <= reserved {
            return Ok(());
        }
        let number = reserve_to(next);
        self.append(alloc, StepRecord::Reserved { face, number })
    }
}

/// Up to which number session numbers are reserved, where this is the next one.
fn reserve_to(next: u64) -> u64
    ensures { result ≡ reserve_to next }
{
    if next >= NUMBERS {
        return NUMBERS;
    }
    NUMBERS.min(next + AHEAD)
}
