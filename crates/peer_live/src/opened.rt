//! Which sessions are kept after a step of the gateway.

ghost use Rattle.std.specs.Prelude.{◌≡◌, false};

use gate_cases::Face;
use gate_events::OpenSessions;
use gate_records::GateSessions;
use peer_gateway::PeerGateway;

/// The gateway, as what says which of its own sessions are open, and which of its peers' were handed up.
#[derive(Debug, Drop)]
pub(crate) struct Opened<'a> {
    pub gate: &'a PeerGateway,
    ghost whole: { gate.now.spent ≡ false },
}

impl OpenSessions for Opened<'_> {
    ghost use Rattle.peer_half.specs.Steps.{opens_in};

    ghost opened = { λ o. opens_in (o.gate.now).gate };

    fn is_open(&self, face: Face, session: u64) -> bool {
        self.gate.is_open(face, session)
    }
}

impl GateSessions for Opened<'_> {
    ghost use Rattle.peer_half.specs.Steps.{opens_in, ups_in};

    ghost opened = { λ o. opens_in (o.gate.now).gate };

    ghost handed_up = { λ o. ups_in (o.gate.now).gate };

    fn is_open(&self, face: Face, session: u64) -> bool {
        self.gate.is_open(face, session)
    }

    fn is_handed_up(&self, face: Face, session: u64) -> bool {
        self.gate.is_handed_up(face, session)
    }
}
