//! An engine whose exchange is recorded.

ghost use Rattle.std.specs.Prelude.{◌≡◌, ◌≢◌, ◌++◌, ◌∷◌, ◌<◌, ◌≤◌, ◌^◌, [], false, true, length, map, slice_get, IfOk, IsOk, OnOk, OnErr};
ghost use Rattle.std.specs.Option.{option_copied};
ghost use Rattle.ltp_segment.specs.PolicyViews.{policy_value};
ghost use Rattle.ltp_segment.specs.Reading.{segment_of};
ghost use Rattle.ltp_session.specs.Engine.{starts, datagram_step, submits, submit_step, tick_step};
ghost use Rattle.ltp_engine.specs.Shows.{Shows};
ghost use Rattle.ltp_engine.specs.Steps.{new_engine, Steps};
ghost use Rattle.ltp_audit.specs.Recording.{came, went, SubmitsRecorded, outs_of, ran_out};
ghost use Rattle.ltp_audit.specs.Keeping.{KeepsRules};

use crate::entry::Entry;
use endpoint::Octets;
use ltp_engine::{Effects, Engine, SubmitRefused};
use ltp_segment::Policy;
use std::alloc::{AllocError, Global};
use std::marker::Model;

/// An engine of one end of a link, with all that came to it and left it.
///
/// After want of memory the value may only be dropped.
#[derive(Debug, Drop)]
pub struct Recorder {
    alloc: Global,
    engine: Engine,
    entries: Vec<Entry>,
    spent: bool,
}

impl Model for Recorder {
    ghost use Rattle.std.specs.Prelude.{◌≡◌, false};
    ghost use Rattle.ltp_audit.specs.Recording.{RecorderValue};
    ghost use Rattle.ltp_audit.specs.Knows.{Records};

    ghost Value = { RecorderValue };

    ghost view = { λ r. record { spent = r.spent; engine = r.engine; entries = r.entries.items } };

    ghost invariant = { λ r. r.spent ≡ false
        → (r.engine.spent ≡ false) × Records r.engine r.entries.items };
}

impl Recorder {
    /// An engine at its beginning, with nothing recorded: its own number and its peer's, the number
    /// of its first session, and how it sends. It takes no memory.
    pub fn new(alloc: Global, own: u64, peer: u64, first_session: u64, policy: Policy) -> Recorder
        requires apart { own ≢ peer }
        requires first { 1 ≤ first_session }
        requires numbers { first_session < 2 ^ 32 }
        ensures engine { result.engine ≡ new_engine own peer first_session (policy_value policy) }
        ensures shows { Shows result.engine (starts result.engine.party) }
        ensures entries { result.entries ≡ [] }
        ensures whole { result.spent ≡ false }
    {
        Recorder {
            alloc,
            engine: Engine::new(alloc, own, peer, first_session, policy),
            entries: Vec::new(alloc),
            spent: false,
        }
    }

    /// An entry of the recording, where it has so many. It takes no memory.
    pub fn entry(&self, i: usize) -> Option<&Entry>
        ensures { option_copied result ≡ slice_get self.now.entries i }
    {
        let _ = self.spent;
        self.entries.get(i)
    }

    /// The recording. It takes no memory.
    pub fn entries(&self) -> &[Entry]
        ensures are { result.now ≡ self.now.entries }
        // No entry that went out breaks a rule, whatever came.
        ensures rules { self.now.spent ≡ false → KeepsRules self.now.engine.party.own
            self.now.engine.party.peer [] result.now }
    {
        let _ = self.spent;
        self.entries.as_slice()
    }

    /// A block comes to be sent, of which the first `red` octets are its red part. What is sent is
    /// recorded. A refusal other than `Memory` leaves all as it was.
    pub fn submit(&mut self, block: &[u8], red: u64, now: u64) -> Result<Effects, SubmitRefused>
        requires whole { self.old.spent ≡ false }
        requires red { red ≤ length block.now }
        requires moment { now < 2 ^ 62 }
        ensures does { SubmitsRecorded self.old self.new (λ e. submit_step self.old.engine.party e
            (submits self.old.engine.party e block.now red now)) result }
        // No entry that went out breaks a rule.
        ensures rules { OnOk result (KeepsRules self.new.engine.party.own
            self.new.engine.party.peer [] self.new.entries) }
    {
        self.spent = true;
        let submitted = self.engine.submit(block, red, now);
        record_submitted(self.alloc, &mut self.entries, &submitted)?;
        self.spent = ran_out(&submitted);
        submitted
    }

    /// A datagram comes, and is recorded; then what is sent.
    pub fn arrive(&mut self, datagram: &[u8], now: u64) -> Result<Effects, AllocError>
        requires whole { self.old.spent ≡ false }
        requires moment { now < 2 ^ 62 }
        ensures done { IfOk result (Steps self.old.engine self.new.engine
            (λ e. datagram_step self.old.engine.party e (segment_of datagram.now) now)) }
        ensures recorded { IfOk result (λ effects. self.new.entries
            ≡ (self.old.entries ++ came datagram.now ∷ []) ++ map went effects.out) }
        // No entry that went out breaks a rule.
        ensures rules { OnOk result (KeepsRules self.new.engine.party.own
            self.new.engine.party.peer [] self.new.entries) }
        ensures whole { OnOk result (self.new.spent ≡ false) }
        ensures err { OnErr result (self.new.spent ≡ true) }
    {
        self.spent = true;
        let octets = Octets::from_slice(self.alloc, datagram)?;
        self.entries.push(Entry {
            out: false,
            datagram: octets,
        })?;
        let effects = self.engine.arrive(datagram, now)?;
        record_sent(self.alloc, &mut self.entries, &effects)?;
        self.spent = false;
        Ok(effects)
    }

    /// Time has passed. What is sent is recorded.
    pub fn tick(&mut self, now: u64) -> Result<Effects, AllocError>
        requires whole { self.old.spent ≡ false }
        requires moment { now < 2 ^ 62 }
        ensures done { IfOk result (Steps self.old.engine self.new.engine
            (λ e. tick_step self.old.engine.party e now)) }
        ensures recorded { IfOk result (λ effects. self.new.entries
            ≡ self.old.entries ++ map went effects.out) }
        // No entry that went out breaks a rule.
        ensures rules { OnOk result (KeepsRules self.new.engine.party.own
            self.new.engine.party.peer [] self.new.entries) }
        ensures whole { OnOk result (self.new.spent ≡ false) }
        ensures err { OnErr result (self.new.spent ≡ true) }
    {
        self.spent = true;
        let effects = self.engine.tick(now)?;
        record_sent(self.alloc, &mut self.entries, &effects)?;
        self.spent = false;
        Ok(effects)
    }
}

/// Records the datagrams that are sent.
fn record_sent(alloc: Global, entries: &mut Vec<Entry>, effects: &Effects) -> Result<(), AllocError>
    ensures { OnOk result (entries.new.items ≡ entries.old.items ++ map went effects.now.out) }
{
    'sent: for datagram in effects.out.as_slice() {
        let octets = Octets::from_slice(alloc, datagram.as_slice())?;
        entries.push(Entry {
            out: true,
            datagram: octets,
        })?;
    }
    Ok(())
}

/// Records the datagrams that are sent with a block, where it isn't refused.
fn record_submitted(
    alloc: Global,
    entries: &mut Vec<Entry>,
    submitted: &Result<Effects, SubmitRefused>,
) -> Result<(), AllocError>
    ensures recorded { OnOk result (entries.new.items
        ≡ entries.old.items ++ map went (outs_of submitted.now)) }
    ensures err { OnErr result (IsOk submitted.now) }
{
    match submitted {
        Ok(effects) => record_sent(alloc, entries, effects),
        Err(_) => Ok(()),
    }
}

/// Whether memory ran out while a block was submitted.
fn ran_out(submitted: &Result<Effects, SubmitRefused>) -> bool
    ensures { result ≡ ran_out submitted.now }
{
    matches!(submitted, Err(SubmitRefused::Memory))
}
