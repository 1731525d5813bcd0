//! Why a bundle isn't translated.

ghost use Rattle.std.specs.Prelude.{◌≡◌};
ghost use Rattle.translate.specs.Refusals.{word_of, view_word_of};

use std::alloc::AllocError;
use thiserror::Error;

/// Why a bundle wasn't translated, in the order in which the causes are tested.
#[derive(Clone, Copy, Debug, PartialEq, Eq, Error)]
pub enum Refused {
    /// Flag bit 3 of a version 6 bundle asks for custody.
    #[error("CustodyAsked")]
    CustodyAsked,
    /// The bundle was made within the first second of the year 2000: it had no clock.
    #[error("Clockless")]
    Clockless,
    /// The lifetime is 0.
    #[error("LifetimeZero")]
    LifetimeZero,
    /// Version 6: the creation timestamp has no counterpart, or the lifetime in milliseconds, from the
    /// creation on, is 2^64 or more.
    #[error("TimeTooLarge")]
    TimeTooLarge,
    /// Version 7: the creation timestamp has no counterpart.
    #[error("SequenceTooLarge")]
    SequenceTooLarge,
    /// Version 6: the payload block refers to endpoints.
    #[error("PayloadRefs")]
    PayloadRefs,
    /// An administrative bundle is a fragment: flag bits 0 and 1 are set.
    #[error("AdminFragment")]
    AdminFragment,
    /// The administrative record is a custody signal.
    #[error("CustodySignal")]
    CustodySignal,
    /// The status report speaks of custody.
    #[error("CustodyReport")]
    CustodyReport,
    /// The administrative record is of another type.
    #[error("AdminUnknown")]
    AdminUnknown,
    /// The administrative record isn't spelled as it should be, or has no counterpart.
    #[error("BadAdmin")]
    BadAdmin,
    /// There are two residues, or one that isn't legal for this bundle.
    #[error("ResidueBad")]
    ResidueBad,
    /// A wrap isn't legal, or the blocks in wraps can't stand in one bundle.
    #[error("WrapBad")]
    WrapBad,
    /// The bundle wanted would have more than 64 extension blocks.
    #[error("TooManyBlocks")]
    TooManyBlocks,
    /// Memory ran out; no other cause holds.
    #[error("Memory")]
    Memory,
}

/// Why a record has no view.
#[derive(Clone, Copy, Debug, PartialEq, Eq, Error)]
pub enum ViewRefused {
    /// The view would have more than 64 extension blocks.
    #[error("TooManyBlocks")]
    TooManyBlocks,
    /// Memory ran out; the view fits.
    #[error("Memory")]
    Memory,
}

impl Refused {
    /// The cause's name.
    pub fn word(&self) -> &'static str
        ensures { result.now ≡ word_of self.now }
    {
        match self {
            Refused::CustodyAsked => "CustodyAsked",
            Refused::Clockless => "Clockless",
            Refused::LifetimeZero => "LifetimeZero",
            Refused::TimeTooLarge => "TimeTooLarge",
            Refused::SequenceTooLarge => "SequenceTooLarge",
            Refused::PayloadRefs => "PayloadRefs",
            Refused::AdminFragment => "AdminFragment",
            Refused::CustodySignal => "CustodySignal",
            Refused::CustodyReport => "CustodyReport",
            Refused::AdminUnknown => "AdminUnknown",
            Refused::BadAdmin => "BadAdmin",
            Refused::ResidueBad => "ResidueBad",
            Refused::WrapBad => "WrapBad",
            Refused::TooManyBlocks => "TooManyBlocks",
            Refused::Memory => "Memory",
        }
    }
}

impl ViewRefused {
    /// The cause's name.
    pub fn word(&self) -> &'static str
        ensures { result.now ≡ view_word_of self.now }
    {
        match self {
            ViewRefused::TooManyBlocks => "TooManyBlocks",
            ViewRefused::Memory => "Memory",
        }
    }
}

impl From<AllocError> for Refused {
    ghost use Rattle.std.specs.Prelude.{◌≡◌};
    ghost use Rattle.translate.specs.declared.refused.Refused.{Refused};
    ghost use Rattle.translate.specs.declared.refused.Refused.TheVariants as causes;

    ghost from_gives = { λ _ cause. cause ≡ causes.Memory };

    fn from(_: AllocError) -> Refused {
        Refused::Memory
    }
}

impl From<AllocError> for ViewRefused {
    ghost use Rattle.std.specs.Prelude.{◌≡◌};
    ghost use Rattle.translate.specs.declared.refused.ViewRefused.{ViewRefused};
    ghost use Rattle.translate.specs.declared.refused.ViewRefused.TheVariants as causes;

    ghost from_gives = { λ _ cause. cause ≡ causes.Memory };

    fn from(_: AllocError) -> ViewRefused {
        ViewRefused::Memory
    }
}
