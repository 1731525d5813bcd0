//! The ends of a link.

ghost use Rattle.std.specs.Prelude.{◌≡◌};

/// An end of a link.
#[derive(Clone, Copy, Debug, PartialEq, Eq)]
pub enum End {
    /// The first engine's.
    First,
    /// The second engine's.
    Second,
}

impl End {
    ghost use Rattle.ltp_world.specs.Ends.{is_end, other_end};

    /// The other end.
    pub fn other(self) -> End
        ensures { result ≡ other_end self }
    {
        match self {
            End::First => End::Second,
            End::Second => End::First,
        }
    }

    /// Whether this is that end.
    pub(crate) fn is(self, end: End) -> bool
        ensures { result ≡ is_end self end }
    {
        match (self, end) {
            (End::First, End::First) | (End::Second, End::Second) => true,
            (End::First, End::Second) | (End::Second, End::First) => false,
        }
    }
}
