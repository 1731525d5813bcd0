//! The commands.
ghost use Rattle.std.specs.Prelude.{◌≡◌};
ghost use Rattle.bundle_runs.specs.Taking.{keeps_going};

/// What is said of each bundle. The first bundle that the command refuses ends the run, unless the
/// command keeps going: then the bundle has its line, and the run goes on after it.
#[derive(Clone, Copy, Debug, PartialEq, Eq, Drop)]
pub enum Command {
    /// Its version, and how many octets it has.
    Check,
    /// Its values, as one JSON text.
    Show,
    /// The octets of the bundle of the other version that it becomes, in hex.
    Convert,
    /// Its pieces with so many octets of its payload, 1 to 4,194,304 of them, each as the octets of a
    /// bundle of its version in hex. 0 is taken for 1.
    Cut(u64),
    /// What comes of it beside the fragments that came before: `Waiting`, `Repeat`, `Whole` and the
    /// octets of the whole in hex, in its version, or why it isn't joined.
    Join,
    /// What `Convert` says. It keeps going.
    KeepConverting,
    /// What `Cut` says. It keeps going.
    KeepCutting(u64),
    /// What `Join` says. It keeps going: a bundle that isn't translated leaves the fragments before it, and
    /// those of a whole that has no room for its blocks are gone.
    KeepJoining,
}

impl Command {
    /// Whether the run goes on after a bundle that the command refuses.
    pub(crate) fn keeps_going(self) -> bool
        ensures { result ≡ keeps_going self }
    {
        match self {
            Command::KeepConverting | Command::KeepCutting(_) | Command::KeepJoining => true,
            _ => false,
        }
    }
}
