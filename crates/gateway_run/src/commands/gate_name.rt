//! The name of a gateway, as words have it.
ghost use Rattle.std.specs.Prelude.{◌≡◌, ◌≢◌, IfOk};
ghost use Rattle.endpoint.specs.Endpoints.{IsEndpoint};
ghost use Rattle.endpoint.specs.declared.name.Endpoint.TheVariants.{Null};

use endpoint::Endpoint;
use replay_script::{gate_in, is_gate};
use std::alloc::{AllocError, Global};
use std::marker::Model;

/// The name of a gateway as text, seen as the endpoint that it names.
#[derive(Debug, Drop)]
pub struct GateName<'a> {
    text: &'a [u8],
}

impl<'a> Model for GateName<'a> {
    ghost use Rattle.std.specs.Prelude.{◌≡◌, true, is_some};
    ghost use Rattle.endpoint.specs.declared.name.Endpoint.{Endpoint};
    ghost use Rattle.replay_script.specs.Events.{gate_of};
    ghost use Rattle.gateway_run.specs.GateName.{gate_named};

    ghost Value = { Endpoint };

    ghost view = { λ name. gate_named name.text.now };

    ghost invariant = { λ name. is_some (gate_of name.text.now) ≡ true };
}

impl<'a> GateName<'a> {
    ghost use Rattle.replay_script.specs.Events.{gate_of};

    /// The name that a text is, where it names an endpoint, and not the null one. It takes no
    /// memory.
    pub fn of(text: &'a [u8]) -> Option<GateName<'a>>
        ensures { result ≡ gate_of text.now }
    {
        if !is_gate(text) {
            return None;
        }
        Some(GateName { text })
    }

    /// The endpoint that it names.
    pub fn endpoint(&self, alloc: Global) -> Result<Endpoint, AllocError>
        ensures is { IfOk result (λ gate. gate ≡ self.now) }
        ensures other { IfOk result (λ gate. gate ≢ Null) }
        ensures legal { IfOk result IsEndpoint }
    {
        gate_in(alloc, self.text)
    }
}
