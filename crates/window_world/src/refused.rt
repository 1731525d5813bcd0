//! Why a block isn't submitted, and why a datagram isn't delivered.

ghost use Rattle.std.specs.Prelude.{◌≡◌};
ghost use Rattle.window_world.specs.Refused.{deliver_word, submit_word};

use ltp_engine::SubmitRefused;
use ltp_world::DeliverRefused;
use thiserror::Error;

/// Why a block isn't submitted, in the order in which it is tested.
#[derive(Clone, Copy, Debug, PartialEq, Eq, Error)]
pub enum WindowSubmit {
    /// The link isn't open now.
    #[error("Closed")]
    Closed,
    /// The engine refuses it.
    #[error("{cause}")]
    Refused {
        /// Why.
        cause: SubmitRefused,
    },
}

impl WindowSubmit {
    /// The refusal's name, which is the engine's where that refuses.
    pub fn word(&self) -> &'static str
        ensures { result.now ≡ submit_word self.now }
    {
        match self {
            WindowSubmit::Closed => "Closed",
            WindowSubmit::Refused { cause } => cause.word(),
        }
    }
}

impl From<SubmitRefused> for WindowSubmit {
    ghost use Rattle.window_world.specs.declared.refused.WindowSubmit.TheVariants.{Refused};

    ghost from_gives = { λ cause e. e ≡ Refused cause };

    fn from(cause: SubmitRefused) -> WindowSubmit {
        WindowSubmit::Refused { cause }
    }
}

/// Why a datagram isn't delivered, in the order in which it is tested.
#[derive(Clone, Copy, Debug, PartialEq, Eq, Error)]
pub enum WindowDeliver {
    /// The link isn't open now.
    #[error("Closed")]
    Closed,
    /// The link world refuses it.
    #[error("{cause}")]
    Refused {
        /// Why.
        cause: DeliverRefused,
    },
}

impl WindowDeliver {
    /// The refusal's name, which is the link world's where that refuses.
    pub fn word(&self) -> &'static str
        ensures { result.now ≡ deliver_word self.now }
    {
        match self {
            WindowDeliver::Closed => "Closed",
            WindowDeliver::Refused { cause } => cause.word(),
        }
    }
}

impl From<DeliverRefused> for WindowDeliver {
    ghost use Rattle.window_world.specs.declared.refused.WindowDeliver.TheVariants.{Refused};

    ghost from_gives = { λ cause e. e ≡ Refused cause };

    fn from(cause: DeliverRefused) -> WindowDeliver {
        WindowDeliver::Refused { cause }
    }
}
