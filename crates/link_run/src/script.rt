//! What the lines of a script say, where they stand.

ghost use Rattle.std.specs.Prelude.{◌≡◌, ◌≤◌, IfOk};
ghost use Rattle.ltp_segment.specs.PolicyViews.{policy_value};
ghost use Rattle.replay_script.specs.Events.{Reads};
ghost use Rattle.link_run.specs.Link.{end_named, first_said, later_said, running_said, start_in};
ghost use Rattle.link_run.specs.Link.{without_picks};
ghost use Rattle.link_run.specs.Shows.{ReadsStart, window_in};

use contact_plan::Window;
use ltp_segment::Policy;
use ltp_world::End;
use replay_script::{LineFault, LinkEvent, is_link_line, read_link_line};
use std::alloc::{AllocError, Global};

/// How the engines of a link send, and the moment at which its clock begins.
#[derive(Debug, Drop)]
pub(crate) struct SetUp {
    pub policy: Policy,
    pub now: u64,
}

/// What the first line says, whatever that is.
fn read_first(alloc: Global, line: &[u8]) -> Result<LinkEvent, LineFault>
    ensures { Reads (first_said line.now) result }
{
    if !is_link_line(line) {
        return Err(LineFault::Word);
    }
    read_link_line(alloc, line)
}

/// How the first line sets up a link.
#[tactic(auto, unfolding(crate::specs::Link::start_in))]
pub(crate) fn read_start(alloc: Global, line: &[u8]) -> Result<SetUp, LineFault>
    ensures { ReadsStart (start_in line.now) result }
{
    match read_first(alloc, line)? {
        LinkEvent::Link {
            segment,
            timeout,
            limit,
            cap,
            start,
        } => {
            let policy = policy_within(segment, timeout, limit, cap);
            Ok(SetUp { policy, now: start })
        }
        _ => Err(LineFault::Word),
    }
}

/// The policy of numbers that are in their ranges.
fn policy_within(segment: u64, timeout: u64, limit: u64, cap: u64) -> Policy
    requires segments { (512 ≤ segment) × (segment ≤ 8192) }
    requires timeouts { 1 ≤ timeout }
    requires limits { (1 ≤ limit) × (limit ≤ 100) }
    requires caps { (timeout ≤ cap) × (cap ≤ 3600000) }
    ensures { policy_value result
        ≡ record { segment = segment; timeout = timeout; limit = limit; cap = cap } }
{
    Policy {
        segment: segment as u32,
        timeout,
        limit: limit as u32,
        cap,
    }
}

/// What a line after the first says, or why it is refused.
pub(crate) fn read_later(
    alloc: Global,
    line: &[u8],
) -> Result<Result<LinkEvent, LineFault>, AllocError>
    ensures { IfOk result (λ said. said ≡ later_said line.now) }
{
    if is_link_line(line) {
        return Ok(Err(LineFault::Word));
    }
    match read_link_line(alloc, line) {
        Ok(event) => Ok(Ok(event)),
        Err(fault) => match fault {
            LineFault::Memory => Err(AllocError),
            fault => Ok(Err(fault)),
        },
    }
}

/// What a line after the first says, or why it is refused: where windows were given, a drain has no
/// picks.
pub(crate) fn read_planned(
    alloc: Global,
    windows: bool,
    line: &[u8],
) -> Result<Result<LinkEvent, LineFault>, AllocError>
    ensures { IfOk result (λ said. said ≡ without_picks windows line.now (later_said line.now)) }
{
    if windows && line.starts_with(b"drain ".as_slice()) {
        return Ok(Err(LineFault::Word));
    }
    read_later(alloc, line)
}

/// The same once an event came: then a window isn't allowed either.
pub(crate) fn read_running(
    alloc: Global,
    windows: bool,
    line: &[u8],
) -> Result<Result<LinkEvent, LineFault>, AllocError>
    ensures { IfOk result (λ said. said ≡ without_picks windows line.now (running_said line.now)) }
{
    if line.starts_with(b"window ".as_slice()) {
        return Ok(Err(LineFault::Word));
    }
    read_planned(alloc, windows, line)
}

/// The window that a line gives.
pub(crate) fn window_of(said: &Result<LinkEvent, LineFault>) -> Option<Window>
    ensures { result ≡ window_in said.now }
{
    match said {
        Ok(LinkEvent::Window { from, to }) => Some(Window {
            from: *from,
            to: *to,
        }),
        _ => None,
    }
}

/// The end that a line names.
pub(crate) fn end_named(first: bool) -> End
    ensures { result ≡ end_named first }
{
    if first { End::First } else { End::Second }
}
