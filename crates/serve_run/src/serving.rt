//! The gateway as what is driven in turns, and the command.
ghost use Rattle.std.specs.Prelude.{◌≡◌, ◌≢◌, ◌<◌, false, IfOk};
ghost use Rattle.endpoint.specs.Endpoints.{IsEndpoint};
ghost use Rattle.endpoint.specs.declared.name.Endpoint.TheVariants.{Null};
ghost use Rattle.edge_traits.specs.Outcome.{sink_tells};
ghost use Rattle.serve_run.specs.Effects.{effects_in};
ghost use Rattle.serve_run.specs.Events.{Served};
ghost use Rattle.serve_run.specs.Serve.{Serving, serving_rules, serving_from, setup_named, serve_turns};
ghost use Rattle.serve_run.specs.Shows.{ShowsServing};
ghost use Rattle.serve_run.specs.Tells.{links_tell, RanTurns};
ghost use Rattle.serve_run.specs.WrittenLines.{step_text};

use crate::apart::Apart;
use crate::edges::Edges;
use crate::laws::runs_keep_law;
use crate::turn_step::{Effects, TurnStep};
use crate::turning::drive_turns;
use crate::written_lines::write_step;
use edge_traits::{Clock, Link, Sink, Status};
use endpoint::Endpoint;
use gate_cases::Face;
use gateway_core::{GateConfig, GateEffects, Gateway};
use ltp_segment::Policy;
use std::alloc::{AllocError, Global};

/// The most octets of payload that a piece has which the gateway sends.
const CUT: u64 = 65_536;

/// A gateway that is driven in turns. It is spent while a step is made, until what the step does stands
/// in lines too; after want of memory it stays so, and each step is answered by that again.
#[derive(Debug, Drop)]
pub struct GateTurns {
    alloc: Global,
    gate: Gateway,
    spent: bool,
    ghost whole: { spent ≡ false → gate.spent ≡ false },
}

impl GateTurns {
    /// A gateway of this name, at its beginning.
    fn new(alloc: Global, name: Endpoint) -> GateTurns
        requires named { name ≢ Null }
        requires legal { IsEndpoint name }
        ensures { ⟦<GateTurns as TurnStep>⟧.Shows result (serving_from (setup_named name)) }
    {
        let config = GateConfig {
            gate: name,
            policy: Policy::default(),
            cut: CUT,
        };
        GateTurns {
            alloc,
            gate: Gateway::new(alloc, config),
            spent: false,
        }
    }
}

/// What a step of the gateway does, its red parts and notes as lines.
fn told(alloc: Global, effects: GateEffects) -> Result<Effects, AllocError>
    ensures { IfOk result (λ told. effects_in told ≡ record { out = effects.out; text = step_text effects.ups effects.notes }) }
{
    let GateEffects { out, ups, notes } = effects;
    let mut text = String::new(alloc);
    write_step(alloc, &mut text, ups, &notes)?;
    Ok(Effects { out, text })
}

impl TurnStep for GateTurns {
    ghost State = { Serving };

    ghost Shows = { λ t. ShowsServing t.spent t.gate };

    ghost spent = { λ t. t.spent };

    ghost rules = { serving_rules };

    fn tick(&mut self, now: u64) -> Result<Effects, AllocError> {
        if self.spent {
            return Err(AllocError);
        }
        self.spent = true;
        let effects = self.gate.tick(now)?;
        let effects = told(self.alloc, effects)?;
        self.spent = false;
        Ok(effects)
    }

    fn arrive(&mut self, face: Face, datagram: &[u8], now: u64) -> Result<Effects, AllocError> {
        if self.spent {
            return Err(AllocError);
        }
        self.spent = true;
        let effects = self.gate.arrive(face, datagram, now)?;
        let effects = told(self.alloc, effects)?;
        self.spent = false;
        Ok(effects)
    }
}

/// Serves for so many turns over an outside that is one thing: a gateway of this name between its two
/// links. Each step of a turn sends its datagrams and then writes its lines, at once; a poll or a send
/// that fails is noted, and ends nothing. The run ends early where a write fails or memory runs out.
#[tactic(auto, unfolding(crate::specs::Serve::serve_turns))]
pub fn serve_over<E: Edges>(alloc: Global, name: Endpoint, count: u64, edges: &mut E) -> Status
    requires named { name ≢ Null }
    requires legal { IsEndpoint name }
    // How the run went, over whatever is told of the outside, and of the order of what was done.
    ensures ran { RanTurns (serve_turns name count) result
        (E.outside edges.old) (E.outside edges.new) (E.sink edges.old) (E.sink edges.new) }

    // It went as its events have it, and the receiver's law holds at each face.
    ensures law { Served name count result
        (E.outside edges.old) (E.outside edges.new) (E.sink edges.old) (E.sink edges.new) }
    ensures lent { E.lent edges.new ≡ E.lent edges.old }
{
    runs_keep_law();
    drive_turns(alloc, GateTurns::new(alloc, name), count, edges)
}

/// Serves for so many turns over two links, a clock and a sink, each by itself, as [`serve_over`] does.
pub fn serve<K: Sink, L: Link, C: Clock>(
    alloc: Global,
    name: Endpoint,
    count: u64,
    sink: &mut K,
    old: &mut L,
    new: &mut L,
    clock: &mut C,
) -> Status
    requires named { name ≢ Null }
    requires legal { IsEndpoint name }
    // How the run went, over whatever links, clock and sink tell.
    ensures ran { RanTurns (serve_turns name count) result
        (links_tell L.coming L.gone L.failing L.faults old.old new.old (C.readings clock.old))
        (links_tell L.coming L.gone L.failing L.faults old.new new.new (C.readings clock.new))
        (sink_tells K.held K.faults K.failing sink.old) (sink_tells K.held K.faults K.failing sink.new) }

    // It went as its events have it, and the receiver's law holds at each face.
    ensures law { Served name count result
        (links_tell L.coming L.gone L.failing L.faults old.old new.old (C.readings clock.old))
        (links_tell L.coming L.gone L.failing L.faults old.new new.new (C.readings clock.new))
        (sink_tells K.held K.faults K.failing sink.old) (sink_tells K.held K.faults K.failing sink.new) }
{
    let mut apart = Apart {
        old,
        new,
        clock,
        sink,
    };
    serve_over(alloc, name, count, &mut apart)
}
