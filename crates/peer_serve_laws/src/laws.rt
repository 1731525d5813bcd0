//! What a gateway among other implementations has in common with `serve`. Each law is the contract of a function
//! that does nothing.

ghost use Rattle.peer_serve_laws.specs.Sessions.{SessionsAlike};
ghost use Rattle.peer_serve_laws.specs.Steps.{StepsSendAlike};
ghost use Rattle.peer_serve_laws.specs.Serves.{ServesAlike};

/// Where no bound of a face is met, its sessions do what those of an engine do.
pub fn sessions_alike()
    ensures { SessionsAlike }
{}

/// Where a gateway is set up as `serve` is, each block is one bundle or none, and neither meets a bound, each step
/// sends the same.
pub fn steps_send_alike()
    ensures { StepsSendAlike }
{}

/// A run that is set up as `serve`, with one clock, one datagram to a half at most, no contacts, no rate and no journal,
/// sends what `serve` sends, at each face and in order, where neither meets a bound.
pub fn serves_alike()
    ensures { ServesAlike }
{
    peer_run_laws::laws::goes_once_in_order();
    peer_run_laws::laws::goes_at_once_in_runs();
}
