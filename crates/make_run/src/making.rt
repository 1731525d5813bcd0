//! A path on which a script is played, and what is kept of its transcript.

ghost use Rattle.std.specs.Prelude.{◌≡◌, ◌<◌, ◌≤◌, ◌^◌, ◌+◌, ◌++◌, ℕ, [], false, length, OnOk, OnErr, IfErr, Err};
ghost use Rattle.std.specs.String.{string_bytes};
ghost use Rattle.gateway_core.specs.Config.{IsGateConfig};
ghost use Rattle.ltp_segment.specs.PolicyViews.{policy_value};
ghost use Rattle.path_laws.specs.Path.{PathSetup, Path, path_setup, sends};
ghost use Rattle.path_world.specs.Values.{octets_in};
ghost use Rattle.path_world.specs.Drain.{ups_told};
ghost use Rattle.ltp_session.specs.Engine.{SubmitFault};
ghost use Rattle.ltp_engine.specs.Refused.{refusal_of};
ghost use Rattle.path_laws.specs.Places.{node_place};
ghost use Rattle.world_run.specs.WrittenLines.{send_refusal, deliver_refusal, end_line};
ghost use Rattle.world_run.specs.Shows.{StandsOn, told_text, steps_text};
ghost use Rattle.world_run.specs.World.{most_sent, drain_made};
ghost use Rattle.make_run.specs.Script.{the_setup, the_start, one_of_last, a_wait, a_delivery, event_on};
ghost use Rattle.make_run.specs.Making.{sum_after, count_at_ends, made_line};
ghost use Rattle.make_run.specs.Ties.{Takes, Plays, Drains, SoFar, done_so};

use crate::stop::Stop;
use crate::summing::{count_at_ends, sum_after};
use endpoint::Endpoint;
use gateway_core::GateConfig;
use ltp_engine::SubmitRefused;
use ltp_segment::Policy;
use ltp_session::NO_MOMENT;
use ltp_world::{DeliverRefused, DrainRefused};
use path_laws::{PathEffects, PathEnd, UpAt};
use path_world::{PathDrained, PathSteps, PathWorld};
use std::alloc::{AllocError, Global};
use world_run::{write_effects, write_end, write_undelivered, write_unsent};

/// The most octets of all datagrams that were sent.
const MOST_SENT: u64 = 1 << 28;

/// The moment at which the clock begins, in ms.
const START: u64 = 1_000_000;

/// So many datagrams that were sent last may come.
const LAST: usize = 32;

/// A path on which a script is played, and what is counted and summed of its transcript.
#[derive(Debug, Drop)]
pub(crate) struct Making {
    alloc: Global,
    path: PathWorld,
    /// The lines of one event.
    text: String,
    /// The sum of the lines so far.
    sum: u32,
    /// How many blocks came whole at the ends.
    ups: u64,
}

/// How the path is set up.
#[tactic(auto, unfolding(crate::specs::Script::the_setup))]
fn config() -> GateConfig
    ensures sound { IsGateConfig result.gate result.cut }
    ensures setup { path_setup result.gate (policy_value result.policy) result.cut ≡ the_setup }
{
    GateConfig {
        gate: Endpoint::Ipn {
            node: 9,
            service: 0,
        },
        policy: Policy {
            segment: 512,
            timeout: 10_000,
            limit: 100,
            cap: 10_000,
        },
        cut: 4_096,
    }
}

/// One of the last of `n` datagrams.
fn one_of_last(n: usize, t: u64) -> usize
    ensures { result ≡ one_of_last n t }
{
    if n == 0 {
        return 0;
    }
    n - 1 - (t as usize) % n.min(LAST)
}

impl Making {
    /// The path at its beginning.
    pub fn new(alloc: Global) -> Making
        ensures whole { result.path.spent ≡ false }
        ensures begins { SoFar the_setup the_start [] result }
    {
        Making {
            alloc,
            path: PathWorld::new(alloc, config(), START),
            text: String::new(alloc),
            sum: 0,
            ups: 0,
        }
    }

    /// An end sends a bundle.
    pub fn send(&mut self, end: PathEnd, bundle: &[u8]) -> Result<(), Stop>
        requires { self.old.path.spent ≡ false }
        ensures whole { OnOk result (self.new.path.spent ≡ false) }
        ensures plays { (s : PathSetup) (w : Path) → StandsOn self.old.path s w
            → Plays s w (sends end bundle.now) self.old self.new result }
    {
        match self.path.send(end, bundle) {
            Ok(effects) => self.tell(effects),
            Err(refused) => match refused {
                SubmitRefused::Memory => Err(Stop::Memory),
                cause => {
                    self.take_unsent(end, cause)?;
                    Ok(())
                }
            },
        }
    }

    /// One of the last datagrams comes to where it was sent.
    pub fn deliver(&mut self, t: u64) -> Result<(), Stop>
        requires { self.old.path.spent ≡ false }
        ensures whole { OnOk result (self.new.path.spent ≡ false) }
        ensures plays { (s : PathSetup) (w : Path) → StandsOn self.old.path s w
            → Plays s w (event_on w (a_delivery t)) self.old self.new result }
    {
        let k = one_of_last(self.path.sent(), t);
        match self.path.deliver(k) {
            Ok(effects) => self.tell(effects),
            Err(DeliverRefused::Memory) => Err(Stop::Memory),
            Err(DeliverRefused::NoSuchDatagram) => {
                self.take_undelivered()?;
                Ok(())
            }
        }
    }

    /// So many milliseconds pass.
    pub fn wait(&mut self, ms: u64) -> Result<(), Stop>
        requires { self.old.path.spent ≡ false }
        ensures whole { OnOk result (self.new.path.spent ≡ false) }
        ensures plays { (s : PathSetup) (w : Path) → StandsOn self.old.path s w
            → Plays s w (event_on w (a_wait ms)) self.old self.new result }
    {
        let now = self.path.now().saturating_add(ms);
        if now >= NO_MOMENT {
            return Err(Stop::Limit);
        }
        let effects = self.path.clock(now)?;
        self.tell(effects)
    }

    /// The path stops losing, until nothing is left to do: how many events that took.
    pub fn drain(&mut self) -> Result<u64, Stop>
        requires { self.old.path.spent ≡ false }
        ensures { (s : PathSetup) (w : Path) → StandsOn self.old.path s w
            → Drains s w (drain_made s w) self.old self.new result }
    {
        match self.path.drain() {
            Ok(PathDrained { events, effects }) => {
                self.stay_within()?;
                self.take_all(effects)?;
                self.take_end(events)?;
                Ok(events)
            }
            Err(DrainRefused::TooLate) => Err(Stop::Limit),
            Err(DrainRefused::Memory) => Err(Stop::Memory),
        }
    }

    /// Writes the line that says what was done.
    pub fn write_line(&self, count: u64, events: u64, line: &mut String) -> Result<(), AllocError>
        ensures { OnOk result (string_bytes line.new ≡ string_bytes line.old
            ++ made_line count (done_so self.now events)) }
    {
        let sent = self.path.sent();
        let Making { ups, sum, .. } = self;
        write!(
            line,
            "made {count} sent {sent} up {ups} events {events} sum {sum}\n"
        )
    }

    /// Takes what an event did, unless more octets were sent by then than may be.
    fn tell(&mut self, effects: PathEffects) -> Result<(), Stop>
        ensures few { OnOk result (octets_in self.old.path.sent ≤ most_sent) }
        ensures past { result ≡ Err Stop.Limit → most_sent < octets_in self.old.path.sent }
        ensures path { self.new.path ≡ self.old.path }
        ensures takes { OnOk result (Takes self.old self.new (told_text effects) (count_at_ends effects.ups)) }
        // Memory is wanted only where there is something to write, and it is to be written.
        ensures memory { result ≡ Err Stop.Memory
            → (octets_in self.old.path.sent ≤ most_sent) × (0 < length (told_text effects)) }
    {
        self.stay_within()?;
        self.take(effects)?;
        Ok(())
    }

    /// Stops where more octets were sent than may be.
    fn stay_within(&self) -> Result<(), Stop>
        ensures few { OnOk result (octets_in self.now.path.sent ≤ most_sent) }
        ensures past { IfErr result (λ stop. (stop ≡ Stop.Limit) × (most_sent < octets_in self.now.path.sent)) }
    {
        if self.path.octets() > MOST_SENT {
            return Err(Stop::Limit);
        }
        Ok(())
    }

    /// Takes what was done at each event.
    fn take_all(&mut self, steps: PathSteps) -> Result<(), AllocError>
        ensures path { self.new.path ≡ self.old.path }
        ensures takes { OnOk result (Takes self.old self.new (steps_text steps) (count_at_ends (ups_told steps))) }
    {
        'each: for effects in steps.into_vec() {
            self.take(effects)?;
        }
        Ok(())
    }

    /// Counts the blocks that came whole at the ends, and sums the lines.
    fn take(&mut self, effects: PathEffects) -> Result<(), AllocError>
        ensures path { self.new.path ≡ self.old.path }
        ensures takes { OnOk result (Takes self.old self.new (told_text effects) (count_at_ends effects.ups)) }
        ensures memory { OnErr result (0 < length (told_text effects)) }
    {
        self.count(effects.ups.as_slice())?;
        self.text.clear();
        write_effects(self.alloc, &mut self.text, effects)?;
        self.sum_text();
        Ok(())
    }

    /// Sums the line that says that an end's node doesn't send a block.
    fn take_unsent(&mut self, end: PathEnd, refused: SubmitRefused) -> Result<(), AllocError>
        ensures path { self.new.path ≡ self.old.path }
        ensures takes { (fault : SubmitFault) → refused ≡ refusal_of fault
            → OnOk result (Takes self.old self.new (send_refusal (node_place end) fault) 0) }
    {
        self.text.clear();
        write_unsent(self.alloc, &mut self.text, end, refused)?;
        self.sum_text();
        Ok(())
    }

    /// Sums the line that says that there is no datagram to deliver.
    fn take_undelivered(&mut self) -> Result<(), AllocError>
        ensures path { self.new.path ≡ self.old.path }
        ensures takes { OnOk result (Takes self.old self.new deliver_refusal 0) }
    {
        self.text.clear();
        write_undelivered(self.alloc, &mut self.text)?;
        self.sum_text();
        Ok(())
    }

    /// Sums the line that says that a drain ended.
    fn take_end(&mut self, events: u64) -> Result<(), AllocError>
        ensures path { self.new.path ≡ self.old.path }
        ensures takes { OnOk result (Takes self.old self.new (end_line events) 0) }
    {
        self.text.clear();
        write_end(self.alloc, &mut self.text, events)?;
        self.sum_text();
        Ok(())
    }

    /// Counts the blocks that came whole at the ends. For more than 64 bits count there is no room in
    /// memory.
    fn count(&mut self, ups: &[UpAt]) -> Result<(), AllocError>
        ensures counts { OnOk result (self.new.ups ≡ self.old.ups + count_at_ends ups.now) }
        ensures sum { self.new.sum ≡ self.old.sum }
        ensures path { self.new.path ≡ self.old.path }
        ensures memory { OnErr result (0 < length ups.now) }
    {
        let more = count_at_ends(ups) as u64;
        self.ups = self.ups.checked_add(more).ok_or(AllocError)?;
        Ok(())
    }

    /// Sums the lines of an event.
    fn sum_text(&mut self)
        ensures sum { self.new.sum ≡ sum_after self.old.sum (string_bytes self.old.text) }
        ensures ups { self.new.ups ≡ self.old.ups }
        ensures path { self.new.path ≡ self.old.path }
    {
        self.sum = sum_after(self.sum, self.text.as_bytes());
    }
}
