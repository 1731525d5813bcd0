//! `serve`: a gateway between the two links.
ghost use Rattle.std.specs.Prelude.{◌≡◌, None};
ghost use Rattle.edge_traits.specs.Outcome.{sink_tells};
ghost use Rattle.serve_run.specs.Serve.{serve_turns};
ghost use Rattle.serve_run.specs.Tells.{RanTurns, links_tell};

use crate::commands::gate_name::GateName;
use crate::commands::passed::Ended;
use edge_traits::{Clock, Link, Sink, Status};
use serve_run::serve;
use std::alloc::{AllocError, Global};

/// Serves for so many turns as the gateway of this name. It passes no limit.
pub fn run_serve<K: Sink, L: Link, C: Clock>(
    alloc: Global,
    gate: &GateName<'_>,
    count: u64,
    sink: &mut K,
    old_link: &mut L,
    new_link: &mut L,
    clock: &mut C,
) -> Ended
    ensures ran { RanTurns (serve_turns gate.now count) result.status
        (links_tell L.coming L.gone L.failing L.faults old_link.old new_link.old (C.readings clock.old))
        (links_tell L.coming L.gone L.failing L.faults old_link.new new_link.new (C.readings clock.new))
        (sink_tells K.held K.faults K.failing sink.old) (sink_tells K.held K.faults K.failing sink.new) }
    ensures passed { result.passed ≡ None }
{
    let status = match gate.endpoint(alloc) {
        Ok(name) => serve(alloc, name, count, sink, old_link, new_link, clock),
        Err(AllocError) => Status::Memory,
    };
    Ended {
        status,
        passed: None,
    }
}
