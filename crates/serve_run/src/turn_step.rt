//! What is driven in turns.
ghost use Rattle.std.specs.Prelude.{◌≡◌, ◌<◌, ◌^◌, Bool, true, is_err, IfOk, OnErr};
ghost use Rattle.serve_run.specs.Turns.{TurnRules};
ghost use Rattle.serve_run.specs.Tells.{StepsTo};
ghost use Rattle.serve_run.specs.Effects.{effects_in};

use gate_cases::Face;
use gateway_core::RoutedList;
use std::alloc::AllocError;

/// What a step does: datagrams that are to be sent, and lines that are to be written after them.
#[derive(Drop)]
pub struct Effects {
    /// The datagrams, each with its face, in their order.
    pub out: RoutedList,
    /// The lines.
    pub text: String,
}

/// What is driven in turns: it is told moments, and datagrams that come at its two faces. After want
/// of memory it is told nothing more.
pub trait TurnStep {
    // What its definitions keep from step to step.
    ghost State: { Type 0 };

    // The state that the kept values stand for.
    ghost Shows: { Self → State → Type 0 };

    // Whether memory ran out in a call.
    ghost spent: { Self → Bool };

    // What a moment brings about, and a datagram.
    ghost rules: { TurnRules State };

    /// Time passes, up to this moment.
    fn tick(&mut self, now: u64) -> Result<Effects, AllocError>
        requires { now < 2 ^ 62 }
        ensures step { (state : State) → Shows self.old state → IfOk result (λ effects.
            StepsTo (Shows self.new) (rules.tick now state) (effects_in effects)) }
        // After want of memory it is spent, and a spent one answers by that again.
        ensures err { OnErr result (spent self.new ≡ true) }
        ensures again { spent self.old ≡ true → is_err result ≡ true };

    /// A datagram comes at a face.
    fn arrive(&mut self, face: Face, datagram: &[u8], now: u64) -> Result<Effects, AllocError>
        requires { now < 2 ^ 62 }
        ensures step { (state : State) → Shows self.old state → IfOk result (λ effects.
            StepsTo (Shows self.new) (rules.arrive face datagram.now now state) (effects_in effects)) }
        // After want of memory it is spent, and a spent one answers by that again.
        ensures err { OnErr result (spent self.new ≡ true) }
        ensures again { spent self.old ≡ true → is_err result ≡ true };
}
