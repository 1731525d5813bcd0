//! The blocks that are being sent.

ghost use Rattle.std.specs.Prelude.{◌≡◌, ◌<◌, ◌≤◌, ◌^◌, ◌++◌, ◌∷◌, [], None, false, map, OnOk};
ghost use Rattle.std.specs.List.{sum_by};
ghost use Rattle.ltp_segment.specs.PolicyViews.{policy_value};
ghost use Rattle.ltp_session.specs.Engine.{list_of};
ghost use Rattle.ltp_session.specs.Timer.{first_timer};
ghost use Rattle.peer_sessions.specs.Blocks.{cancel_after, heard_block, ticked_block, block_after, blocks_after, blocks_if};
ghost use Rattle.face_room.specs.Faces.{total};

use ltp_engine::Engine;
use ltp_segment::Policy;
use ltp_session::Timer;
use std::alloc::{AllocError, Global};
use std::marker::Model;

/// A block that is being sent.
#[derive(Clone, Copy, Debug)]
pub(crate) struct Block {
    /// Its session.
    pub session: u64,
    /// How many octets it has.
    pub octets: u64,
    /// When the session's cancel is due again, where it is cancelling.
    pub cancel: Option<Timer>,
}

/// What the engine did.
#[derive(Clone, Copy, Debug)]
pub(crate) enum Event {
    /// It heard a segment, by which the session with this number is over, where one is.
    Heard(Option<u64>),
    /// All sessions ticked.
    Ticked,
}

/// The blocks that are being sent.
///
/// The engine tells neither of a session that is cancelling when it is over, nor how long its block is. So
/// their timers are kept here too.
#[derive(Debug, Drop)]
pub(crate) struct Blocks {
    blocks: Vec<Block>,
}

impl Model for Blocks {
    ghost use Rattle.std.specs.Prelude.{List};
    ghost use Rattle.peer_sessions.specs.declared.blocks.Block.{Block};

    ghost Value = { List Block };

    ghost view = { λ blocks. blocks.blocks.items };
}

impl Blocks {
    /// No block. It takes no memory.
    pub fn new(alloc: Global) -> Blocks
        ensures { result ≡ [] }
    {
        Blocks {
            blocks: Vec::new(alloc),
        }
    }

    /// A block begins.
    pub fn begin(&mut self, session: u64, octets: u64) -> Result<(), AllocError>
        ensures { OnOk result (self.new
            ≡ self.old ++ record { session = session; octets = octets; cancel = None } ∷ []) }
    {
        let block = Block {
            session,
            octets,
            cancel: None,
        };
        self.blocks.push(block)?;
        Ok(())
    }

    /// How many octets they have.
    pub fn octets(&self) -> u64
        requires { total (map (λ block. block.octets) self.now) < 2 ^ 64 }
        ensures { result ≡ total (map (λ block. block.octets) self.now) }
    {
        let mut sum = 0;
        'counting: for block in self.blocks.iter() {
            sum += block.octets;
        }
        sum
    }

    /// The engine did something, about these blocks or not.
    pub fn follow_if(
        &mut self,
        follows: bool,
        alloc: Global,
        engine: &Engine,
        event: Event,
        policy: &Policy,
        now: u64,
    ) -> Result<(), AllocError>
        requires whole { engine.now.spent ≡ false }
        requires moment { now < 2 ^ 62 }
        ensures { OnOk result (self.new
            ≡ blocks_if follows event (policy_value policy.now) now engine.now.senders self.old) }
    {
        if follows {
            self.follow(alloc, engine, event, policy, now)?;
        }
        Ok(())
    }

    /// The engine did something: those go whose sessions are over.
    pub fn follow(
        &mut self,
        alloc: Global,
        engine: &Engine,
        event: Event,
        policy: &Policy,
        now: u64,
    ) -> Result<(), AllocError>
        requires whole { engine.now.spent ≡ false }
        requires moment { now < 2 ^ 62 }
        ensures { OnOk result (self.new
            ≡ blocks_after event (policy_value policy.now) now engine.now.senders self.old) }
    {
        let mut left = Vec::new(alloc);
        'following: for block in self.blocks.iter() {
            let kept = engine.is_open(block.session);
            add(&mut left, after(event, policy, now, kept, *block))?;
        }
        self.blocks = left;
        Ok(())
    }
}

/// Adds a block, where there is one.
fn add(blocks: &mut Vec<Block>, block: Option<Block>) -> Result<(), AllocError>
    ensures { OnOk result (blocks.new.items ≡ blocks.old.items ++ list_of block) }
{
    if let Some(block) = block {
        blocks.push(block)?;
    }
    Ok(())
}

/// What is kept of a block, whose session is open then or not.
fn after(event: Event, policy: &Policy, now: u64, kept: bool, block: Block) -> Option<Block>
    requires { now < 2 ^ 62 }
    ensures { result ≡ block_after event (policy_value policy.now) now kept block }
{
    match event {
        Event::Heard(over) => heard(over, Timer::first(policy, now), kept, block),
        Event::Ticked => ticked(policy, now, kept, block),
    }
}

/// The engine heard a segment.
fn heard(over: Option<u64>, first: Timer, kept: bool, block: Block) -> Option<Block>
    ensures { result ≡ heard_block over first kept block }
{
    if over == Some(block.session) {
        return None;
    }
    Some(Block {
        cancel: cancel_after(block.cancel, kept, first),
        ..block
    })
}

/// The cancel of a session that isn't over.
fn cancel_after(cancel: Option<Timer>, kept: bool, first: Timer) -> Option<Timer>
    ensures { result ≡ cancel_after cancel kept first }
{
    match cancel {
        Some(timer) => Some(timer),
        None => if kept { None } else { Some(first) },
    }
}

/// All sessions ticked.
fn ticked(policy: &Policy, now: u64, kept: bool, block: Block) -> Option<Block>
    requires { now < 2 ^ 62 }
    ensures { result ≡ ticked_block (policy_value policy.now) now kept block }
{
    let Some(timer) = block.cancel else {
        let cancel = cancel_after(None, kept, Timer::first(policy, now));
        return Some(Block { cancel, ..block });
    };
    if !timer.is_due(now) {
        return Some(block);
    }
    if !timer.may_repeat(policy) {
        return None;
    }
    Some(Block {
        cancel: Some(timer.next(policy, now)),
        ..block
    })
}
