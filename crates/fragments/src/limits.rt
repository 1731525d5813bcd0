//! How much is joined at once.

ghost use Rattle.std.specs.Prelude.{◌≡◌};

/// The most octets of a whole that is joined: 4 MiB. Own rule.
pub const TOTAL_MAX: u64 = 4_194_304;

/// The most names of which fragments are kept. Own rule.
pub const NAMES_MAX: usize = 64;

/// The numbers that `TOTAL_MAX` and `NAMES_MAX` name.
pub fn joining_limits()
    ensures octets { TOTAL_MAX ≡ 4194304 }
    ensures names { NAMES_MAX ≡ 64 }
{}
