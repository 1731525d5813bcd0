//! The faces of the gateway.

ghost use Rattle.std.specs.Prelude.{◌≡◌};
ghost use Rattle.gate_cases.specs.Faces.{other_of};

/// A face of the gateway: what comes in at one goes out at the other.
#[derive(Clone, Copy, Debug, PartialEq, Eq)]
pub enum Face {
    /// Bundles of version 6 (RFC 5050) come and go here.
    Old,
    /// Bundles of version 7 (RFC 9171) come and go here.
    New,
}

impl Face {
    /// The face at which a bundle that came in at this one goes out.
    pub fn other(self) -> Face
        ensures { result ≡ other_of self }
    {
        match self {
            Face::Old => Face::New,
            Face::New => Face::Old,
        }
    }
}
