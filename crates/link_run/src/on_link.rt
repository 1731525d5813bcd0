//! A link on which events happen.

ghost use Rattle.std.specs.Prelude.{◌≡◌, false};

use window_world::WindowWorld;

/// A link on which events happen.
#[derive(Debug, Drop)]
pub(crate) struct Running {
    pub world: WindowWorld,
    /// Whether windows were given.
    pub windows: bool,
    /// The octets of all datagrams that were sent.
    pub octets: u64,
    ghost whole: { world.spent ≡ false },
}
