//! What a face keeps of its sessions.

ghost use Rattle.std.specs.Prelude.{◌≡◌, ◌<◌, ◌≤◌, ◌^◌, true, false, length, IfOk, OnOk};
ghost use Rattle.ltp_segment.specs.declared.session.TheConstants.{BLOCK_MAX};
ghost use Rattle.std.specs.List.{AllByRecursion};
ghost use Rattle.ltp_session.specs.Step.{ends};
ghost use Rattle.ltp_session.specs.Engine.{with_receiver, tick_step};
ghost use Rattle.ltp_engine.specs.Bounds.{IsBounded};
ghost use Rattle.ltp_engine.specs.Steps.{begun_by};
ghost use Rattle.ltp_engine.specs.Effects.{effects_of};
ghost use Rattle.ltp_engine.specs.Sessions.{is_receiving};
ghost use Rattle.ltp_engine.specs.Shows.{AreDistinct};
ghost use Rattle.session_memory.specs.Laws.{IsSet64};
ghost use Rattle.peer_sessions.specs.Sessions.{closes, left_by, stale, passes, starts_sessions, block_begins, with_begun, blocks_in};
ghost use Rattle.face_room.specs.Faces.{total};
ghost use Rattle.peer_sessions.specs.Views.{face_keys, AreFit};

use crate::blocks::{Blocks, Event};
use crate::keys::{HISTORY, Keys};
use crate::moments::Moments;
use crate::remembering::{mark_all, remember_all};
use ltp_engine::{Effects, Engine};
use session_memory::SessionMemory;
use std::alloc::{AllocError, Global};

/// A face's sessions.
#[derive(Debug, Drop)]
pub(crate) struct Parts {
    pub alloc: Global,
    pub keys: Keys,
    pub engine: Engine,
    pub memory: SessionMemory,
    pub moments: Moments,
    pub blocks: Blocks,
    /// All receiving sessions together have no more red octets than these.
    pub at_most: u64,
}

impl Parts {
    ghost use Rattle.peer_sessions.specs.Ties.{state_of, keys_in, IsWhole, AreAfter, HasPlaces, Settles};

    /// A face at its beginning, with some numbers that are remembered for good.
    pub fn new(alloc: Global, keys: Keys, marks: &[u64], now: u64) -> Result<Parts, AllocError>
        requires { AreFit keys }
        ensures whole { IfOk result IsWhole }
        ensures keys { IfOk result (λ parts. parts.keys ≡ keys) }
        ensures state { IfOk result (λ parts. state_of parts
            ≡ starts_sessions (face_keys keys) now marks.now) }
    {
        let mut memory = SessionMemory::new(alloc, keys.remember / 2, keys.remember_ms, now);
        mark_all(&mut memory, marks)?;
        Ok(Parts {
            alloc,
            keys,
            engine: engine(alloc, &keys),
            memory,
            moments: Moments::new(alloc),
            blocks: Blocks::new(alloc),
            at_most: 0,
        })
    }

    /// How many octets the blocks have that are being sent.
    pub fn block_octets(&self) -> u64
        requires { IsWhole self.now }
        ensures { result ≡ total (blocks_in (state_of self.now).engine.senders) }
    {
        // The contract of `sending` tells how many there may be.
        let _ = self.engine.sending();
        self.blocks.octets()
    }

    // ---- sessions that are over

    /// A receiving session is over.
    pub fn let_go(&mut self, n: u64) -> Result<(), AllocError>
        requires whole { IsWhole self.old }
        requires kept { is_receiving n self.old.engine.inbound.receivers ≡ true }
        ensures { OnOk result (AreAfter self.old self.new (left_by
            (with_receiver (state_of self.old).engine n ends)
            (state_of self.old).memory (state_of self.old).moments)) }
    {
        self.memory.close(n)?;
        self.engine.release(n);
        self.moments.keep_received(&self.engine);
        Ok(())
    }

    /// Receiving sessions are over, one after the other.
    fn let_go_all(&mut self, numbers: &[u64]) -> Result<(), AllocError>
        requires whole { IsWhole self.old }
        requires kept { AllByRecursion (λ n. is_receiving n self.old.engine.inbound.receivers ≡ true) numbers.now }
        requires once { AreDistinct numbers.now }
        ensures { OnOk result (AreAfter self.old self.new (closes numbers.now (state_of self.old))) }
    {
        'closing: for n in numbers {
            self.let_go(*n)?;
        }
        Ok(())
    }

    /// Time has passed: the memory turns where it is due, and stale sessions are closed. It answers which.
    pub fn pass(&mut self, now: u64) -> Result<Vec<u64>, AllocError>
        requires whole { IsWhole self.old }
        ensures gone { IfOk result (λ gone. gone.items ≡ stale (keys_in self.old) now (state_of self.old)) }
        ensures after { OnOk result (AreAfter self.old self.new
            (passes (keys_in self.old) now (state_of self.old))) }
    {
        let gone = self.moments.stale(self.alloc, self.keys.remember_ms, now)?;
        self.memory.pass(now);
        self.let_go_all(gone.as_slice())?;
        Ok(gone)
    }

    /// What the engine closed is remembered.
    pub fn settle(&mut self) -> Result<(), AllocError>
        requires whole { self.old.engine.spent ≡ false }
        requires set { IsSet64 self.old.memory.newer }
        requires places { HasPlaces self.old.engine self.old.memory }
        ensures { OnOk result (Settles self.old self.new) }
    {
        // The contract of `closed` tells which numbers there may be.
        let _closed = self.engine.closed();
        let numbers = self.engine.take_closed()?;
        remember_all(&mut self.memory, numbers)?;
        self.moments.keep_received(&self.engine);
        Ok(())
    }

    // ---- a block begins

    /// A block begins in the next session, all of it red.
    pub fn submit(&mut self, block: &[u8], now: u64) -> Result<Effects, AllocError>
        requires whole { IsWhole self.old }
        requires some { 0 < length block.now }
        requires most { length block.now ≤ BLOCK_MAX }
        requires free { length self.old.engine.senders < self.old.keys.bounds.sessions }
        requires numbers { self.old.engine.next < 2 ^ 32 }
        requires moment { now < 2 ^ 62 }
        ensures effects { IfOk result (λ effects. effects ≡ effects_of
            (block_begins (keys_in self.old) (state_of self.old).engine block.now now).effects) }
        ensures after { OnOk result (AreAfter self.old self.new (with_begun (state_of self.old)
            (block_begins (keys_in self.old) (state_of self.old).engine block.now now))) }
    {
        let n = self.engine.next_session();
        let Ok(effects) = self.engine.submit(block, block.len() as u64, now) else {
            return Err(AllocError);
        };
        // The contract of `closed` tells which numbers there may be.
        let _closed = self.engine.closed();
        self.blocks.begin(n, block.len() as u64)?;
        Ok(effects)
    }

    // ---- time

    /// All sessions tick.
    pub fn tick(&mut self, now: u64) -> Result<Effects, AllocError>
        requires whole { IsWhole self.old }
        requires moment { now < 2 ^ 62 }
        ensures effects { IfOk result (λ effects. effects ≡ effects_of
            (tick_step (keys_in self.old).party (state_of self.old).engine now).effects) }
        ensures after { OnOk result (AreAfter self.old self.new (left_by
            (tick_step (keys_in self.old).party (state_of self.old).engine now).engine
            (state_of self.old).memory (state_of self.old).moments)) }
    {
        let effects = self.engine.tick(now)?;
        self.blocks.follow(
            self.alloc,
            &self.engine,
            Event::Ticked,
            &self.keys.policy,
            now,
        )?;
        self.settle()?;
        Ok(effects)
    }
}

/// The engine of a face at its beginning.
fn engine(alloc: Global, keys: &Keys) -> Engine
    requires { AreFit keys.now }
    ensures value { result ≡ begun_by (face_keys keys.now).party }
    ensures bounds { IsBounded result }
{
    Engine::wide(
        alloc,
        keys.own,
        keys.peer,
        keys.first_session,
        keys.policy,
        keys.bounds.sessions as u32,
        HISTORY,
    )
}
