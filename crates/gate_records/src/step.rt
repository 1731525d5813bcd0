//! What says which sessions are kept after a step.

ghost use Rattle.std.specs.Prelude.{◌≡◌, ℕ, Bool};
ghost use Rattle.gate_cases.specs.declared.face.Face.{Face};

use gate_cases::Face;

/// What says which sessions of a gateway are kept after a step.
pub trait GateSessions {
    // Which own sessions are open at a face.
    ghost opened: { Self → Face → ℕ → Bool };

    // Which sessions of a face's peer were handed up.
    ghost handed_up: { Self → Face → ℕ → Bool };

    /// Whether the gateway's own session of this number is open at the face: kept, and not being
    /// cancelled.
    fn is_open(&self, face: Face, session: u64) -> bool
        ensures { result ≡ opened self.now face session };

    /// Whether the session of this number of the face's peer is kept, and was handed up.
    fn is_handed_up(&self, face: Face, session: u64) -> bool
        ensures { result ≡ handed_up self.now face session };
}
