//! Reading a line.

ghost use Rattle.std.specs.Prelude.{◌≡◌, true, is_some, Some, IsOk, IfOk};
ghost use Rattle.replay_script.specs.Events.{event_of, node_event_of, is_path_line, gate_of, Reads};
ghost use Rattle.replay_script.specs.Ties.{event_in, node_event_in};

use crate::event::{Event, NodeEvent};
use crate::fault::LineFault;
use crate::hexadecimal::octets_in;
use crate::judging::{NodeSaid, Said, judge, judge_node};
use crate::words::Words;
use endpoint::Endpoint;
use std::alloc::{AllocError, Global};

/// The event that a line of a script for two engines and a gate says. The line is given without
/// its LF. Which line may stand where, and how late a moment may be, is its reader's to say.
pub fn read_line(alloc: Global, line: &[u8]) -> Result<Event, LineFault>
    // Memory is wanted only where the line says an event.
    ensures exact { Reads (event_of line.now) result }
{
    owned(alloc, judge(line)?)
}

/// Whether the first word of a line is `path`, whatever else it has.
#[tactic(auto, unfolding(crate::specs::Events::is_path_line))]
pub fn is_path_line(line: &[u8]) -> bool
    ensures { result ≡ is_path_line line.now }
{
    let mut words = Words::of(line);
    match words.next() {
        Some(first) => first == b"path".as_slice(),
        None => false,
    }
}

/// The event that a line of a script for one engine says. The line is given without its LF.
pub fn read_node_line(alloc: Global, line: &[u8]) -> Result<NodeEvent, LineFault>
    // Memory is wanted only where the line says an event.
    ensures exact { Reads (node_event_of line.now) result }
{
    node_owned(alloc, judge_node(line)?)
}

/// The endpoint of a gate's name. [`is_gate`](crate::is_gate) says which texts are such, so that only
/// want of memory is answered by an error.
#[tactic(auto, unfolding(crate::specs::Events::gate_of))]
pub fn gate_in(alloc: Global, text: &[u8]) -> Result<Endpoint, AllocError>
    requires { is_some (gate_of text.now) ≡ true }
    ensures { IfOk result (λ gate. gate_of text.now ≡ Some gate) }
{
    match Endpoint::from_text(alloc, text) {
        Ok(gate) => Ok(gate),
        Err(_) => Err(AllocError),
    }
}

/// The event of a judged line.
fn owned(alloc: Global, said: Said<'_>) -> Result<Event, LineFault>
    requires { IsOk (event_in said) }
    ensures { Reads (event_in said.entry) result }
{
    Ok(match said {
        Said::Path { gate, numbers } => Event::Path {
            gate: gate_in(alloc, gate)?,
            segment: numbers.segment,
            timeout: numbers.timeout,
            limit: numbers.limit,
            cut: numbers.cut,
            start: numbers.start,
            cap: numbers.cap,
        },
        Said::Send { old, hex } => Event::Send {
            old,
            body: octets_in(alloc, hex)?,
        },
        Said::Deliver { k } => Event::Deliver { k },
        Said::Clock { now } => Event::Clock { now },
        Said::Drain => Event::Drain,
    })
}

/// The same for one engine.
fn node_owned(alloc: Global, said: NodeSaid<'_>) -> Result<NodeEvent, LineFault>
    requires { IsOk (node_event_in said) }
    ensures { Reads (node_event_in said.entry) result }
{
    Ok(match said {
        NodeSaid::In { hex } => NodeEvent::In {
            datagram: octets_in(alloc, hex)?,
        },
        NodeSaid::Send { hex } => NodeEvent::Send {
            body: octets_in(alloc, hex)?,
        },
        NodeSaid::Clock { now } => NodeEvent::Clock { now },
    })
}
