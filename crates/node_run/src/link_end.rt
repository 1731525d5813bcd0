//! One end of a link, told by lines.

ghost use Rattle.std.specs.Prelude.{◌≡◌, ◌≢◌, ◌<◌, ◌^◌, ◌⊎◌, ℕ, false, true, max, length, List, [], Ok, Err, IfOk, OnOk, OnErr, IfSome};
ghost use Rattle.std.specs.String.{string_bytes};
ghost use Rattle.command_frame.specs.Stops.{IsStop};
ghost use Rattle.command_frame.specs.Lines.{TurnsAs, passes};
ghost use Rattle.ltp_segment.specs.Reading.{segment_of};
ghost use Rattle.ltp_session.specs.Engine.{datagram_step, submits, submit_step, tick_step};
ghost use Rattle.ltp_engine.specs.Steps.{deadline_of, is_due_at};
ghost use Rattle.replay_script.specs.declared.event.NodeEvent.TheVariants as events;
ghost use Rattle.node_run.specs.Node.{NodeState, node_rules, node_party, begins, happens, answers, engine_does, at_moment, node_turn};
ghost use Rattle.node_run.specs.Shows.{ShowsNode, Did, Submitted, ran_out};
ghost use Rattle.node_run.specs.Wanted.{HasText, MayWant};

use crate::written_lines::{write_block, write_effects, write_refusal};
use command_frame::{LineStep, MOST_LINES, MOST_OCTETS};
use edge_traits::Status;
use ltp_engine::{Effects, Engine, SubmitRefused};
use ltp_segment::Policy;
use ltp_session::NO_MOMENT;
use replay_script::{LineFault, NodeEvent, read_node_line};
use std::alloc::{AllocError, Global};

/// The number of an engine's first session.
const FIRST_SESSION: u64 = 1;

/// What `node` keeps from line to line: an engine, and a clock in ms that never goes back.
///
/// After want of memory each line is answered by that again.
#[derive(Debug, Drop)]
pub struct Node {
    alloc: Global,
    engine: Engine,
    now: u64,
    spent: bool,
    ghost whole: { spent ≡ false → engine.spent ≡ false },
    ghost moment: { now < 2 ^ 62 },
}

impl Node {
    /// The end with this number, whose peer has the other. No line came yet.
    pub fn new(alloc: Global, own: u64, peer: u64) -> Node
        requires { own ≢ peer }
        ensures { ⟦<Node as LineStep>⟧.Shows result (begins (node_party own peer)) }
    {
        Node {
            alloc,
            engine: Engine::new(alloc, own, peer, FIRST_SESSION, Policy::default()),
            now: 0,
            spent: false,
        }
    }

    /// Answers an event.
    fn happen(&mut self, event: NodeEvent, text: &mut String) -> Result<Option<Status>, AllocError>
        ensures stops { IfOk result (λ ends. IfSome ends IsStop) }
        ensures turn { (node : NodeState) → ShowsNode self.old.spent self.old.engine self.old.now node
            → IfOk result (TurnsAs (ShowsNode self.new.spent self.new.engine self.new.now) (happens node event)
            (string_bytes text.old) (string_bytes text.new)) }
        ensures memory { (node : NodeState) → ShowsNode self.old.spent self.old.engine self.old.now node
            → OnErr result (MayWant self.old.engine self.old.now event (happens node event)) }
    {
        match event {
            NodeEvent::In { datagram } => self.take(datagram.as_slice(), text),
            NodeEvent::Send { body } => self.send(body.as_slice(), text),
            NodeEvent::Clock { now } if now >= NO_MOMENT => Ok(Some(Status::Limit)),
            NodeEvent::Clock { now } => self.pass(now, text),
        }
    }

    /// A datagram comes.
    fn take(&mut self, datagram: &[u8], text: &mut String) -> Result<Option<Status>, AllocError>
        ensures stops { IfOk result (λ ends. IfSome ends IsStop) }
        ensures turn { (node : NodeState) → ShowsNode self.old.spent self.old.engine self.old.now node
            → IfOk result (TurnsAs (ShowsNode self.new.spent self.new.engine self.new.now)
            (answers node (engine_does node.party node.engine node.now (events.In datagram.now)))
            (string_bytes text.old) (string_bytes text.new)) }
    {
        let effects = self.arrive(datagram)?;
        write_effects(self.alloc, text, effects)?;
        Ok(None)
    }

    /// A block comes to be sent, all of it red.
    fn send(&mut self, block: &[u8], text: &mut String) -> Result<Option<Status>, AllocError>
        ensures stops { IfOk result (λ ends. IfSome ends IsStop) }
        ensures turn { (node : NodeState) → ShowsNode self.old.spent self.old.engine self.old.now node
            → IfOk result (TurnsAs (ShowsNode self.new.spent self.new.engine self.new.now)
            (answers node (engine_does node.party node.engine node.now (events.Send block.now)))
            (string_bytes text.old) (string_bytes text.new)) }
    {
        match self.submit(block) {
            Ok(effects) => write_effects(self.alloc, text, effects)?,
            Err(SubmitRefused::Memory) => return Err(AllocError),
            Err(refused) => write_block(self.alloc, text, refused)?,
        }
        Ok(None)
    }

    /// Time passes, up to this moment.
    fn pass(&mut self, moment: u64, text: &mut String) -> Result<Option<Status>, AllocError>
        requires { moment < 2 ^ 62 }
        ensures stops { IfOk result (λ ends. IfSome ends IsStop) }
        ensures turn { (node : NodeState) → ShowsNode self.old.spent self.old.engine self.old.now node
            → IfOk result (TurnsAs (ShowsNode self.new.spent self.new.engine self.new.now)
            (answers (at_moment node (max node.now moment))
            (engine_does node.party node.engine (max node.now moment) (events.Clock moment))) (string_bytes text.old) (string_bytes text.new)) }
        // Where no timer is due, and so nothing is to be written, no memory is wanted.
        ensures memory { (node : NodeState) → ShowsNode self.old.spent self.old.engine self.old.now node
            → OnErr result (HasText (answers (at_moment node (max node.now moment))
            (engine_does node.party node.engine (max node.now moment) (events.Clock moment)))
            ⊎ (is_due_at (max self.old.now moment) (deadline_of self.old.engine) ≡ true)) }
    {
        let effects = self.tick(moment)?;
        write_effects(self.alloc, text, effects)?;
        Ok(None)
    }

    /// The engine is told a datagram.
    fn arrive(&mut self, datagram: &[u8]) -> Result<Effects, AllocError>
        ensures { (node : NodeState) → ShowsNode self.old.spent self.old.engine self.old.now node
            → IfOk result (Did (ShowsNode self.new.spent self.new.engine self.new.now) node
            (datagram_step node.party node.engine (segment_of datagram.now) node.now)) }
    {
        if self.spent {
            return Err(AllocError);
        }
        self.spent = true;
        let effects = self.engine.arrive(datagram, self.now)?;
        self.spent = false;
        Ok(effects)
    }

    /// The engine is told a block, all of it red.
    fn submit(&mut self, block: &[u8]) -> Result<Effects, SubmitRefused>
        ensures { (node : NodeState) → ShowsNode self.old.spent self.old.engine self.old.now node
            → Submitted (ShowsNode self.new.spent self.new.engine self.new.now) node
            (submit_step node.party node.engine (submits node.party node.engine block.now (length block.now) node.now)) result }
    {
        if self.spent {
            return Err(SubmitRefused::Memory);
        }
        self.spent = true;
        let submitted = self.engine.submit(block, block.len() as u64, self.now);
        self.spent = ran_out(&submitted);
        submitted
    }

    /// The clock shows this moment, or stays where it would go back, and the engine is told.
    fn tick(&mut self, moment: u64) -> Result<Effects, AllocError>
        requires { moment < 2 ^ 62 }
        ensures done { (node : NodeState) → ShowsNode self.old.spent self.old.engine self.old.now node
            → IfOk result (Did (ShowsNode self.new.spent self.new.engine self.new.now) (at_moment node (max node.now moment))
            (tick_step node.party node.engine (max node.now moment))) }
        ensures wanted { self.old.spent ≡ false
            → OnErr result (is_due_at (max self.old.now moment) (deadline_of self.old.engine) ≡ true) }
    {
        if self.spent {
            return Err(AllocError);
        }
        self.spent = true;
        self.now = self.now.max(moment);
        let effects = self.engine.tick(self.now)?;
        self.spent = false;
        Ok(effects)
    }
}

/// Whether memory ran out while a block was submitted.
fn ran_out(submitted: &Result<Effects, SubmitRefused>) -> bool
    ensures { result ≡ ran_out submitted.now }
{
    matches!(submitted, Err(SubmitRefused::Memory))
}

impl LineStep for Node {
    ghost State = { NodeState };

    ghost Shows = { λ n. ShowsNode n.spent n.engine n.now };

    ghost rules = { node_rules };

    ghost Began = { λ n. ⊥ };

    fn most_lines(&self) -> u32 {
        MOST_LINES
    }

    fn most_octets(&self) -> u32 {
        MOST_OCTETS
    }

    #[tactic(auto, unfolding(crate::specs::Node::node_turn))]
    fn line(
        &mut self,
        number: u64,
        line: &[u8],
        text: &mut String,
    ) -> Result<Option<Status>, AllocError> {
        match read_node_line(self.alloc, line) {
            Ok(event) => self.happen(event, text),
            Err(LineFault::Memory) => Err(AllocError),
            Err(fault) => {
                write_refusal(self.alloc, text, number, fault)?;
                Ok(Some(Status::Refused))
            }
        }
    }

    fn finish(&mut self, _text: &mut String) -> Result<Status, AllocError> {
        Ok(Status::Done)
    }
}
