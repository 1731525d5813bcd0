//! What the lines of a script say, where they stand.

ghost use Rattle.std.specs.Prelude.{◌≡◌, ◌≤◌};
ghost use Rattle.ltp_segment.specs.PolicyViews.{policy_value};
ghost use Rattle.replay_script.specs.Events.{Reads};
ghost use Rattle.world_run.specs.World.{start_in, first_said, later_said, end_of_side};
ghost use Rattle.world_run.specs.Shows.{ReadsStart};

use gateway_core::GateConfig;
use ltp_segment::Policy;
use path_laws::PathEnd;
use replay_script::{Event, LineFault, is_path_line, read_line};
use std::alloc::Global;

/// How a path is set up, and the moment at which its clock begins.
#[derive(Debug, Drop)]
pub(crate) struct SetUp {
    pub config: GateConfig,
    pub now: u64,
}

/// What the first line says, whatever that is.
fn read_first(alloc: Global, line: &[u8]) -> Result<Event, LineFault>
    ensures { Reads (first_said line.now) result }
{
    if !is_path_line(line) {
        return Err(LineFault::Word);
    }
    read_line(alloc, line)
}

/// How the first line sets up a path.
#[tactic(auto, unfolding(crate::specs::World::start_in))]
pub(crate) fn read_start(alloc: Global, line: &[u8]) -> Result<SetUp, LineFault>
    ensures { ReadsStart (start_in line.now) result }
{
    match read_first(alloc, line)? {
        Event::Path {
            gate,
            segment,
            timeout,
            limit,
            cut,
            start,
            cap,
        } => {
            let policy = policy_within(segment, timeout, limit, cap);
            Ok(SetUp {
                config: GateConfig { gate, policy, cut },
                now: start,
            })
        }
        _ => Err(LineFault::Word),
    }
}

/// The policy of numbers that are in their ranges.
fn policy_within(segment: u64, timeout: u64, limit: u64, cap: u64) -> Policy
    requires segments { (512 ≤ segment) × (segment ≤ 8192) }
    requires timeouts { 1 ≤ timeout }
    requires limits { (1 ≤ limit) × (limit ≤ 100) }
    requires caps { (timeout ≤ cap) × (cap ≤ 3600000) }
    ensures { policy_value result ≡ record { segment = segment; timeout = timeout; limit = limit; cap = cap } }
{
    Policy {
        segment: segment as u32,
        timeout,
        limit: limit as u32,
        cap,
    }
}

/// What a line after the first says, whatever that is.
pub(crate) fn read_later(alloc: Global, line: &[u8]) -> Result<Event, LineFault>
    ensures { Reads (later_said line.now) result }
{
    if is_path_line(line) {
        return Err(LineFault::Word);
    }
    read_line(alloc, line)
}

/// The end that a line names.
pub(crate) fn end_named(old: bool) -> PathEnd
    ensures { result ≡ end_of_side old }
{
    if old { PathEnd::Old } else { PathEnd::New }
}
