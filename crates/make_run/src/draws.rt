//! The numbers that are drawn.

ghost use Rattle.std.specs.Prelude.{◌≡◌};
ghost use Rattle.make_run.specs.Draws.{next, drawn};

const FACTOR: u128 = 6_364_136_223_846_793_005;

const STEP: u128 = 1_442_695_040_888_963_407;

/// How many states there are.
const STATES: u128 = 1 << 64;

/// The lower bits of a state, which repeat too soon, aren't drawn.
const UNDRAWN: u64 = 1 << 33;

/// A generator of numbers.
#[derive(Clone, Copy, Debug, PartialEq, Eq, Drop)]
pub(crate) struct Draws {
    pub state: u64,
}

impl Draws {
    /// Draws a number.
    #[tactic(auto, unfolding(crate::specs::Draws::next, crate::specs::Draws::drawn))]
    pub fn draw(&mut self) -> u64
        ensures state { self.new.state ≡ next self.old.state }
        ensures number { result ≡ drawn (next self.old.state) }
    {
        let state = (FACTOR * u128::from(self.state) + STEP) % STATES;
        self.state = state as u64;
        self.state / UNDRAWN
    }
}
