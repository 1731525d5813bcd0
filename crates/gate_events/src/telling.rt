//! What says which own sessions are open.

ghost use Rattle.std.specs.Prelude.{◌≡◌, ℕ, Bool};
ghost use Rattle.gate_cases.specs.declared.face.Face.{Face};

use gate_cases::Face;

/// What says which own sessions of a gateway are open.
pub trait OpenSessions {
    // Which own sessions are open at a face.
    ghost opened: { Self → Face → ℕ → Bool };

    /// Whether the gateway's own session of this number is open at the face: kept, and not being
    /// cancelled.
    fn is_open(&self, face: Face, session: u64) -> bool
        ensures { result ≡ opened self.now face session };
}
