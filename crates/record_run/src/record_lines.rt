//! One end of a link, told by lines, whose exchange is recorded.

ghost use Rattle.std.specs.Prelude.{◌≡◌, ◌≢◌, ◌<◌, ◌≤◌, ◌^◌, false, max, length, None, IfOk, OnOk, IfSome};
ghost use Rattle.std.specs.String.{string_bytes};
ghost use Rattle.command_frame.specs.Stops.{IsStop};
ghost use Rattle.command_frame.specs.Lines.{TurnsAs};
ghost use Rattle.replay_script.specs.declared.event.NodeEvent.TheVariants as events;
ghost use Rattle.node_run.specs.Node.{NodeState, node_party, begins, moment_of, engine_does, is_late, at_moment};
ghost use Rattle.node_run.specs.Shows.{ShowsNode};
ghost use Rattle.record_run.specs.Record.{record_rules, answers, happens, record_turn};
ghost use Rattle.record_run.specs.Grows.{GrowsBy};

use crate::written_lines::{write_entries, write_refusal};
use command_frame::{LineStep, MOST_LINES, MOST_OCTETS};
use edge_traits::Status;
use ltp_audit::Recorder;
use ltp_engine::SubmitRefused;
use ltp_segment::Policy;
use ltp_session::NO_MOMENT;
use replay_script::{LineFault, NodeEvent, read_node_line};
use std::alloc::{AllocError, Global};

/// The number of an engine's first session.
const FIRST_SESSION: u64 = 1;

/// What `record` keeps from line to line: an engine with its recording, and a clock in ms that never
/// goes back.
///
/// After want of memory each line is answered by that again.
#[derive(Debug, Drop)]
pub struct RecordLines {
    alloc: Global,
    recorder: Recorder,
    now: u64,
    spent: bool,
    ghost whole: { spent ≡ false → recorder.spent ≡ false },
    ghost moment: { now < 2 ^ 62 },
}

impl RecordLines {
    /// The end with this number, whose peer has the other. No line came yet.
    pub fn new(alloc: Global, own: u64, peer: u64) -> RecordLines
        requires { own ≢ peer }
        ensures { ⟦<RecordLines as LineStep>⟧.Shows result (begins (node_party own peer)) }
    {
        RecordLines {
            alloc,
            recorder: Recorder::new(alloc, own, peer, FIRST_SESSION, Policy::default()),
            now: 0,
            spent: false,
        }
    }

    /// Answers an event.
    fn happen(&mut self, event: NodeEvent, text: &mut String) -> Result<Option<Status>, AllocError>
        ensures stops { IfOk result (λ ends. IfSome ends IsStop) }
        ensures turn { (node : NodeState)
            → ShowsNode self.old.spent self.old.recorder.engine self.old.now node
            → IfOk result (TurnsAs (ShowsNode self.new.spent self.new.recorder.engine self.new.now)
            (happens node event) (string_bytes text.old) (string_bytes text.new)) }
    {
        if is_late(&event) {
            return Ok(Some(Status::Limit));
        }
        self.record(event, text)?;
        Ok(None)
    }

    /// Does what an event asks for, and writes by what the recording grows.
    fn record(&mut self, event: NodeEvent, text: &mut String) -> Result<(), AllocError>
        requires { is_late event ≡ false }
        ensures { (node : NodeState)
            → ShowsNode self.old.spent self.old.recorder.engine self.old.now node
            → IfOk result (λ done. TurnsAs
            (ShowsNode self.new.spent self.new.recorder.engine self.new.now)
            (answers (at_moment node (moment_of node.now event)) event
            (engine_does node.party node.engine (moment_of node.now event) event))
            (string_bytes text.old) (string_bytes text.new) None) }
    {
        let from = self.recorder.entries().len();
        self.tell(event)?;
        write_entries(text, &self.recorder.entries()[from..])
    }

    /// The recorder is told an event.
    fn tell(&mut self, event: NodeEvent) -> Result<(), AllocError>
        requires { is_late event ≡ false }
        ensures grown { OnOk result
            (length self.old.recorder.entries ≤ length self.new.recorder.entries) }
        ensures does { (node : NodeState)
            → ShowsNode self.old.spent self.old.recorder.engine self.old.now node
            → IfOk result (λ done. GrowsBy
            (ShowsNode self.new.spent self.new.recorder.engine self.new.now)
            (at_moment node (moment_of node.now event)) event
            (engine_does node.party node.engine (moment_of node.now event) event)
            self.old.recorder.entries self.new.recorder.entries) }
    {
        match event {
            NodeEvent::In { datagram } => self.arrive(datagram.as_slice()),
            NodeEvent::Send { body } => self.submit(body.as_slice()),
            NodeEvent::Clock { now } => self.tick(now),
        }
    }

    /// A datagram comes.
    fn arrive(&mut self, datagram: &[u8]) -> Result<(), AllocError>
        ensures grown { OnOk result
            (length self.old.recorder.entries ≤ length self.new.recorder.entries) }
        ensures does { (node : NodeState)
            → ShowsNode self.old.spent self.old.recorder.engine self.old.now node
            → IfOk result (λ done. GrowsBy
            (ShowsNode self.new.spent self.new.recorder.engine self.new.now) node
            (events.In datagram.now)
            (engine_does node.party node.engine node.now (events.In datagram.now))
            self.old.recorder.entries self.new.recorder.entries) }
    {
        if self.spent {
            return Err(AllocError);
        }
        self.spent = true;
        self.recorder.arrive(datagram, self.now)?;
        self.spent = false;
        Ok(())
    }

    /// A block comes to be sent, all of it red. Where it is refused nothing happens.
    fn submit(&mut self, block: &[u8]) -> Result<(), AllocError>
        ensures grown { OnOk result
            (length self.old.recorder.entries ≤ length self.new.recorder.entries) }
        ensures does { (node : NodeState)
            → ShowsNode self.old.spent self.old.recorder.engine self.old.now node
            → IfOk result (λ done. GrowsBy
            (ShowsNode self.new.spent self.new.recorder.engine self.new.now) node
            (events.Send block.now)
            (engine_does node.party node.engine node.now (events.Send block.now))
            self.old.recorder.entries self.new.recorder.entries) }
    {
        if self.spent {
            return Err(AllocError);
        }
        self.spent = true;
        match self.recorder.submit(block, block.len() as u64, self.now) {
            Err(SubmitRefused::Memory) => return Err(AllocError),
            Ok(_) | Err(_) => self.spent = false,
        }
        Ok(())
    }

    /// The clock shows this moment, or stays where it would go back, and the recorder is told.
    fn tick(&mut self, moment: u64) -> Result<(), AllocError>
        requires { moment < 2 ^ 62 }
        ensures grown { OnOk result
            (length self.old.recorder.entries ≤ length self.new.recorder.entries) }
        ensures does { (node : NodeState)
            → ShowsNode self.old.spent self.old.recorder.engine self.old.now node
            → IfOk result (λ done. GrowsBy
            (ShowsNode self.new.spent self.new.recorder.engine self.new.now)
            (at_moment node (max node.now moment)) (events.Clock moment)
            (engine_does node.party node.engine (max node.now moment) (events.Clock moment))
            self.old.recorder.entries self.new.recorder.entries) }
    {
        if self.spent {
            return Err(AllocError);
        }
        self.spent = true;
        self.now = self.now.max(moment);
        self.recorder.tick(self.now)?;
        self.spent = false;
        Ok(())
    }
}

/// Whether an event sets the clock past the last moment.
fn is_late(event: &NodeEvent) -> bool
    ensures { result ≡ is_late event.now }
{
    match event {
        NodeEvent::Clock { now } => *now >= NO_MOMENT,
        NodeEvent::In { .. } | NodeEvent::Send { .. } => false,
    }
}

impl LineStep for RecordLines {
    ghost State = { NodeState };

    ghost Shows = { λ r. ShowsNode r.spent r.recorder.engine r.now };

    ghost rules = { record_rules };

    ghost Began = { λ r. ⊥ };

    fn most_lines(&self) -> u32 {
        MOST_LINES
    }

    fn most_octets(&self) -> u32 {
        MOST_OCTETS
    }

    #[tactic(auto, unfolding(crate::specs::Record::record_turn))]
    fn line(
        &mut self,
        number: u64,
        line: &[u8],
        text: &mut String,
    ) -> Result<Option<Status>, AllocError> {
        match read_node_line(self.alloc, line) {
            Ok(event) => self.happen(event, text),
            Err(LineFault::Memory) => Err(AllocError),
            Err(fault) => {
                write_refusal(self.alloc, text, number, fault)?;
                Ok(Some(Status::Refused))
            }
        }
    }

    fn finish(&mut self, _text: &mut String) -> Result<Status, AllocError> {
        Ok(Status::Done)
    }
}
