//! A bundle of either version, and why octets are none.
ghost use Rattle.std.specs.Prelude.{◌≡◌};
ghost use Rattle.bundle_runs.specs.Front.{word_of, version_of};

use bundle6::{Bundle6, Cause6};
use bundle7::{Bundle7, Cause7};

/// A bundle of either version.
#[derive(Debug, Drop)]
pub enum Bundle {
    /// Of version 6.
    Six(Bundle6),
    /// Of version 7.
    Seven(Bundle7),
}

impl Bundle {
    /// The number of its version.
    pub fn version(&self) -> u8
        ensures { result ≡ version_of self.now }
    {
        match self {
            Bundle::Six(_) => 6,
            Bundle::Seven(_) => 7,
        }
    }
}

/// Why octets are no bundle.
#[derive(Clone, Copy, Debug, PartialEq, Eq, Drop)]
pub enum Cause {
    /// The first octet names no version that is known here.
    Version,
    /// They begin as a bundle of version 6, and are invalid.
    Six(Cause6),
    /// They begin as a bundle of version 7, and are invalid.
    Seven(Cause7),
}

impl Cause {
    /// The cause's name.
    pub fn word(&self) -> &'static str
        ensures { result.now ≡ word_of self.now }
    {
        match self {
            Cause::Version => "Version",
            Cause::Six(cause) => cause.word(),
            Cause::Seven(cause) => cause.word(),
        }
    }
}
